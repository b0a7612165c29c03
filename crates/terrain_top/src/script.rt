// Scripts: edits line by line.
ghost use Rattle.std.specs.Prelude.{◌≡◌, ◌⊎◌, ◌≤◌, ◌+◌, ◌<◌, ◌-◌, ◌^◌, ◌++◌, ◌∷◌, [], true, IfErr, IfNone, IfOk};
ghost use Rattle.std.specs.Prelude.{IfSome, IsErrOf, OnErr, OnOk, Some, map, option_map};
ghost use Rattle.std.specs.FinMap as finmap;
ghost use Rattle.terrain_base.specs.Library.{LibraryFiles};
ghost use Rattle.terrain_base.specs.Sink.{FrontTaken};
ghost use Rattle.database.specs.State.{State};
ghost use Rattle.db_engine.specs.Holding.{HoldsState};
ghost use Rattle.db_report.specs.Done.{script_mark_of};
ghost use Rattle.top_words.specs.Meant.{line_meant};
ghost use Rattle.top_reply.specs.Course.{Course, world};
ghost use Rattle.top_reply.specs.Database.{IsApplied};
ghost use Rattle.top_reply.specs.Edits.{status_by};
ghost use Rattle.top_reply.specs.File.{found_in, script_limit};
ghost use Rattle.top_reply.specs.Lines.{commands_of, ended_text};
ghost use Rattle.top_reply.specs.Reply.{Reply};
ghost use Rattle.terrain_top.specs.Comes.{Comes};
ghost use Rattle.terrain_top.specs.Effects.{Asks, OnlyMemory, StopHasCause};
ghost use Rattle.terrain_top.specs.LinesGo.{EndsPlain, IsCommandLine, IsLive, IsWithin, LineTold, LinesGo, ended_reply};
ghost use Rattle.terrain_top.specs.LinesGo.{line_wanted, tally_at};
ghost use Rattle.terrain_top.specs.Meant.{wanted_meant};
ghost use Rattle.terrain_top.specs.Says.{IsPlain, Says};

use crate::answer::{Answer, Ending, refused};
use crate::edit::{Wanted, carry_out, read_wanted};
use crate::file::{FileRead, open_file};
use crate::print::print;
use db_engine::Opened;
use db_report::{NO_COMMAND, script_line, script_mark};
use std::alloc::Global;
use terrain_base::{Library, Sink, Store, Work};
use top_reply::Stop;
use top_words::{Line, script_lines};

/// The most bytes that a script may have.
const SCRIPT_LIMIT: usize = 1_048_576;

// How many lines were done, and how many refused.
#[derive(Clone, Copy, Debug)]
struct Tally {
    done: u64,
    refused: u64,
}

// What lines came to.
#[derive(Debug, Drop)]
enum LinesAnswer {
    // All of them were gone through.
    All(Tally),
    // Something is wrong with a stored cell: this is printed, and nothing more.
    Ended(Answer),
}

// What a line asks for, once its file was read. `None` where it is passed over.
fn read_line<Li: Library>(
    alloc: Global,
    files: &mut Li,
    line: &Line<'_>,
) -> Result<Option<Wanted>, Stop>
    ensures wanted { (library : LibraryFiles) → Li.holds files.old ≡ Some library
        → IfOk result (λ read. option_map wanted_meant read ≡ line_wanted (line_meant line.now) library) }
    ensures asks { Asks Li.holds Li.faults files.old files.new result }
    ensures passed { IsCommandLine (line_meant line.now) result }
{
    match line {
        Line::Passed => Ok(None),
        Line::Change(edit) => Ok(Some(read_wanted(alloc, files, edit)?)),
        Line::NoCommand => Ok(Some(Wanted::Refused(String::from_str(alloc, NO_COMMAND)?))),
    }
}

// The report of a line: its number, and what it came to.
fn marked(alloc: Global, number: u64, answer: &Answer) -> Result<Vec<u8>, Stop>
    ensures text { IfOk result (λ text. text.items ≡ script_mark_of number ++ answer.now.text.items) }
    ensures memory { OnlyMemory result }
{
    let mut text = script_mark(alloc, number)?.into_bytes();
    text.extend_from_slice(&answer.text)?;
    Ok(text)
}

// The counts of one line.
fn tally_of(ending: Ending) -> Tally
    ensures { result ≡ tally_at ending }
{
    match ending {
        Ending::Done => Tally {
            done: 1,
            refused: 0,
        },
        // No line looks for what is amiss.
        Ending::Refused | Ending::Found => Tally {
            done: 0,
            refused: 1,
        },
    }
}

// Prints the report of a line that is done or refused. Where the opened database may not be used any more, it is
// handed back instead.
fn tell_line<Si: Sink>(
    alloc: Global,
    out: &mut Si,
    live: bool,
    number: u64,
    answer: &Answer,
) -> Result<LinesAnswer, Stop>
    ensures goes { LineTold live number answer.now (Si.taken out.old) (Si.taken out.new) result }
    ensures live { IfOk result (IsLive live) }
    ensures plain { IfOk result EndsPlain }
    ensures few { IfOk result (IsWithin 1) }
    ensures sink { StopHasCause Stop.Output (Si.faults out.old) (Si.faults out.new) result }
    ensures only { IfErr result (λ stop. (stop ≡ Stop.Output) ⊎ (stop ≡ Stop.NoMemory)) }
{
    let text = marked(alloc, number, answer)?;
    if !live {
        return Ok(LinesAnswer::Ended(Answer {
            ending: Ending::Refused,
            text,
        }));
    }
    print(out, &text)?;
    Ok(LinesAnswer::All(tally_of(answer.ending)))
}

// Does a line of this number, and prints its report, if it has one.
fn do_line<St: Store, Li: Library, Si: Sink>(
    alloc: Global,
    store: &mut St,
    opened: &mut Opened,
    files: &mut Li,
    out: &mut Si,
    number: u64,
    line: &Line<'_>,
    work: &mut Work,
) -> Result<LinesAnswer, Stop>
    requires { opened.old.live ≡ true }
    ensures goes { (s : State) (library : LibraryFiles) → HoldsState (St.holds store.old) opened.old s
        → Li.holds files.old ≡ Some library → LinesGo library (commands_of number (line_meant line.now ∷ [])) s
        (world (St.holds store.old) (St.log store.old) (Si.taken out.old) work.old)
        (world (St.holds store.new) (St.log store.new) (Si.taken out.new) work.new) opened.new result }
    ensures live { IfOk result (IsLive opened.new.live) }
    ensures plain { IfOk result EndsPlain }
    ensures few { IfOk result (IsWithin 1) }
    ensures same { Li.holds files.new ≡ Li.holds files.old }
    ensures library { StopHasCause Stop.Input (Li.faults files.old) (Li.faults files.new) result }
    ensures store { StopHasCause Stop.Store (St.faults store.old) (St.faults store.new) result }
    ensures sink { StopHasCause Stop.Output (Si.faults out.old) (Si.faults out.new) result }
    ensures more { work.old ≤ work.new }
{
    match read_line(alloc, files, line)? {
        Some(wanted) => {
            let answer = carry_out(alloc, store, opened, wanted, work)?;
            tell_line(alloc, out, opened.live(), number, &answer)
        }
        None => Ok(LinesAnswer::All(Tally {
            done: 0,
            refused: 0,
        })),
    }
}

// Does the lines of a script in order. The report of each is put after it is done, but that of a line that ends the
// script is handed back.
fn do_lines<St: Store, Li: Library, Si: Sink>(
    alloc: Global,
    store: &mut St,
    opened: &mut Opened,
    files: &mut Li,
    out: &mut Si,
    lines: &[Line<'_>],
    work: &mut Work,
) -> Result<LinesAnswer, Stop>
    requires { opened.old.live ≡ true }
    ensures goes { (s : State) (library : LibraryFiles) → HoldsState (St.holds store.old) opened.old s
        → Li.holds files.old ≡ Some library → LinesGo library (commands_of 1 (map line_meant lines.now)) s
        (world (St.holds store.old) (St.log store.old) (Si.taken out.old) work.old)
        (world (St.holds store.new) (St.log store.new) (Si.taken out.new) work.new) opened.new result }
    ensures plain { IfOk result EndsPlain }
    ensures same { Li.holds files.new ≡ Li.holds files.old }
    ensures library { StopHasCause Stop.Input (Li.faults files.old) (Li.faults files.new) result }
    ensures store { StopHasCause Stop.Store (St.faults store.old) (St.faults store.new) result }
    ensures sink { StopHasCause Stop.Output (Si.faults out.old) (Si.faults out.new) result }
    ensures more { work.old ≤ work.new }
{
    let mut done = 0u64;
    let mut refused = 0u64;
    for (i, line) in lines.iter().enumerate() {
        match do_line(alloc, store, opened, files, out, i as u64 + 1, line, work)? {
            LinesAnswer::All(tally) => {
                done += tally.done;
                refused += tally.refused;
            }
            LinesAnswer::Ended(answer) => return Ok(LinesAnswer::Ended(answer)),
        }
    }
    Ok(LinesAnswer::All(Tally { done, refused }))
}

// The last line of a script's report.
fn ended(alloc: Global, tally: &Tally) -> Result<Answer, Stop>
    ensures says { IfOk result (Says (ended_reply tally.now.done tally.now.refused)) }
    ensures plain { IfOk result IsPlain }
    ensures memory { OnlyMemory result }
{
    let line = script_line(alloc, tally.done, tally.refused)?;
    let text = format!(in alloc; "{line}\n")?;
    Ok(Answer {
        ending: if tally.refused > 0 {
            Ending::Refused
        } else {
            Ending::Done
        },
        text: text.into_bytes(),
    })
}

/// Does the lines of a script.
pub(crate) fn answer_to_apply<St: Store, Li: Library, Si: Sink>(
    alloc: Global,
    store: &mut St,
    opened: &mut Opened,
    files: &mut Li,
    out: &mut Si,
    script: &str,
    work: &mut Work,
) -> Result<Answer, Stop>
    requires { opened.old.live ≡ true }
    ensures comes { (s : State) (library : LibraryFiles) (course : Course)
        → HoldsState (St.holds store.old) opened.old s → Li.holds files.old ≡ Some library
        → IsApplied (found_in script.now script_limit (finmap.get library script.now)) library s course
        → Comes course (world (St.holds store.old) (St.log store.old) (Si.taken out.old) work.old)
        (world (St.holds store.new) (St.log store.new) (Si.taken out.new) work.new) result }
    ensures plain { IfOk result IsPlain }
    ensures same { Li.holds files.new ≡ Li.holds files.old }
    ensures library { StopHasCause Stop.Input (Li.faults files.old) (Li.faults files.new) result }
    ensures store { StopHasCause Stop.Store (St.faults store.old) (St.faults store.new) result }
    ensures sink { StopHasCause Stop.Output (Si.faults out.old) (Si.faults out.new) result }
    ensures more { work.old ≤ work.new }
{
    match open_file(alloc, files, script, SCRIPT_LIMIT)? {
        FileRead::Bytes(bytes) => {
            let lines = script_lines(alloc, &bytes)?;
            match do_lines(alloc, store, opened, files, out, &lines, work)? {
                LinesAnswer::All(tally) => ended(alloc, &tally),
                LinesAnswer::Ended(answer) => Ok(answer),
            }
        }
        FileRead::NoFile(cause) => refused(alloc, &cause),
    }
}
