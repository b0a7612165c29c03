// The call that does all that the program does.
ghost use Rattle.std.specs.Prelude.{◌≡◌, ◌≢◌, ◌≤◌, ◌↔◌, ◌⊎◌, true, false, IfOk, IfSome, IsErrOf, Option, Some, None, ℕ, List};
ghost use Rattle.std.specs.Prelude.{option_map, map, string_bytes};
ghost use Rattle.terrain_base.specs.declared.store.Change.{Change};
ghost use Rattle.terrain_base.specs.Library.{LibraryFiles};
ghost use Rattle.terrain_base.specs.Step.{Files};
ghost use Rattle.top_words.specs.Meant.{meant};
ghost use Rattle.top_words.specs.Words as spelled;
ghost use Rattle.top_words.specs.Words.{IsGood};
ghost use Rattle.top_reply.specs.Course.{Course, Goes, said, world};
ghost use Rattle.top_reply.specs.Run.{FaultHasCause, Headline, IsFrontOf, OnStop, StopsReading, StopsStanding};
ghost use Rattle.top_reply.specs.Status.{IsAnswer};
ghost use Rattle.top_reply.specs.Top.{HasCourse, IsCourseOf, IsMeant, Tells, looks_for_faults, makes_tiles};
ghost use Rattle.top_reply.specs.Top.{reads_file, touches_store};
ghost use Rattle.top_reply.specs.Top.{usage_reply};
ghost use Rattle.top_reply.specs.Valid.{EndsWell, IsValid};
ghost use Rattle.terrain_top.specs.Comes.{Comes, Passes};
ghost use Rattle.terrain_top.specs.Effects.{StopHasCause, StoreStays};
ghost use Rattle.terrain_top.specs.Says.{IsPlain};

use crate::answer::{Answer, Ending};
use crate::audit::answer_to_audit;
use crate::cell::answer_to_cell;
use crate::change::answer_to_init;
use crate::convert::answer_to_convert;
use crate::database_command::answer_to_database;
use crate::migrate::answer_to_migrate;
use crate::print::print;
use crate::status::{status_of, status_of_stop};
use crate::trial::answer_to_trial;
use std::alloc::Global;
use terrain_base::{Library, Sink, Store, Work};
use top_reply::{Status, Stop};
use top_words::{Command, command_in};

/// What is printed where the words are no command.
const USAGE: &str =
    "usage: terrain DIR init CAP FILL | add FILE | replace FILE | remove SQUARE V | apply SCRIPT | rebuild | list | \
     inspect Z X Y | deps Z X Y | cell FILE | audit FILE | check | trial COUNT NUMBER | migrate | convert FILE | \
     heightmap Z X Y | height Z E N | profile Z X Y U1 V1 U2 V2 | sight Z X Y U1 V1 A1 U2 V2 A2 | view Z X Y U V A\n";

// Does a command. Its last text is handed back.
fn answer_to<St: Store, Li: Library, Si: Sink>(
    alloc: Global,
    command: &Command<'_>,
    store: &mut St,
    files: &mut Li,
    out: &mut Si,
    work: &mut Work,
) -> Result<Answer, Stop>
    requires { IsGood (meant command.now) }
    ensures comes { (course : Course)
        → IsCourseOf (Some (meant command.now)) (St.holds store.old) (Li.holds files.old) course → Comes course
        (world (St.holds store.old) (St.log store.old) (Si.taken out.old) work.old)
        (world (St.holds store.new) (St.log store.new) (Si.taken out.new) work.new) result }
    ensures told { (held : Files) (library : LibraryFiles)
        → Tells (touches_store (Some (meant command.now))) (St.holds store.old) held
        → Tells (reads_file (Some (meant command.now))) (Li.holds files.old) library
        → IfOk result (λ answer. HasCourse (Some (meant command.now)) (St.holds store.old) (Li.holds files.old)) }
    ensures quiet { touches_store (Some (meant command.now)) ≡ false → Si.taken out.new ≡ Si.taken out.old }
    ensures untouched { touches_store (Some (meant command.now)) ≡ false
        → StoreStays St.holds St.log St.faults store.old store.new }
    ensures idle { makes_tiles (Some (meant command.now)) ≡ false → work.new ≡ work.old }
    ensures reads { IsErrOf result Stop.Input → reads_file (Some (meant command.now)) ≡ true }
    ensures touches { IsErrOf result Stop.Store → touches_store (Some (meant command.now)) ≡ true }
    ensures plain { looks_for_faults (Some (meant command.now)) ≡ false → IfOk result IsPlain }
    ensures same { Li.holds files.new ≡ Li.holds files.old }
    ensures library { StopHasCause Stop.Input (Li.faults files.old) (Li.faults files.new) result }
    ensures store { StopHasCause Stop.Store (St.faults store.old) (St.faults store.new) result }
    ensures sink { StopHasCause Stop.Output (Si.faults out.old) (Si.faults out.new) result }
    ensures more { work.old ≤ work.new }
{
    match command {
        Command::Init { params } => answer_to_init(alloc, store, *params, work),
        Command::Database(command) => answer_to_database(alloc, store, files, out, command, work),
        Command::Cell { file } => answer_to_cell(alloc, files, file),
        Command::Audit { file } => answer_to_audit(alloc, files, file),
        Command::Migrate => answer_to_migrate(alloc, store, work),
        Command::Convert { file } => answer_to_convert(alloc, files, file),
        Command::Trial { count, number } => answer_to_trial(alloc, *count, *number, work),
    }
}

// Does a command, and prints its last text.
fn run_command<St: Store, Li: Library, Si: Sink>(
    alloc: Global,
    command: &Command<'_>,
    store: &mut St,
    files: &mut Li,
    out: &mut Si,
    work: &mut Work,
) -> Result<Ending, Stop>
    requires { IsGood (meant command.now) }
    ensures passes { (course : Course)
        → IsCourseOf (Some (meant command.now)) (St.holds store.old) (Li.holds files.old) course → Passes course
        (world (St.holds store.old) (St.log store.old) (Si.taken out.old) work.old)
        (world (St.holds store.new) (St.log store.new) (Si.taken out.new) work.new) result }
    ensures told { (held : Files) (library : LibraryFiles)
        → Tells (touches_store (Some (meant command.now))) (St.holds store.old) held
        → Tells (reads_file (Some (meant command.now))) (Li.holds files.old) library
        → IfOk result (λ ending. HasCourse (Some (meant command.now)) (St.holds store.old) (Li.holds files.old)) }
    ensures untouched { touches_store (Some (meant command.now)) ≡ false
        → StoreStays St.holds St.log St.faults store.old store.new }
    ensures idle { makes_tiles (Some (meant command.now)) ≡ false → work.new ≡ work.old }
    ensures reads { IsErrOf result Stop.Input → reads_file (Some (meant command.now)) ≡ true }
    ensures touches { IsErrOf result Stop.Store → touches_store (Some (meant command.now)) ≡ true }
    ensures plain { looks_for_faults (Some (meant command.now)) ≡ false
        → IfOk result (λ ending. ending ≢ Ending.Found) }
    ensures same { Li.holds files.new ≡ Li.holds files.old }
    ensures library { StopHasCause Stop.Input (Li.faults files.old) (Li.faults files.new) result }
    ensures store { StopHasCause Stop.Store (St.faults store.old) (St.faults store.new) result }
    ensures sink { StopHasCause Stop.Output (Si.faults out.old) (Si.faults out.new) result }
    ensures more { work.old ≤ work.new }
{
    let answer = answer_to(alloc, command, store, files, out, work)?;
    print(out, &answer.text)?;
    Ok(answer.ending)
}

// Says how the program is used.
fn run_usage<Si: Sink>(out: &mut Si) -> Status
    ensures goes { (held : Option Files) (log : Option (List Change)) (tiles : ℕ) → Goes (said usage_reply)
        (world held log (Si.taken out.old) tiles) (world held log (Si.taken out.new) tiles) result }
    ensures sink { FaultHasCause Status.OutputFault (Si.faults out.old) (Si.faults out.new) result }
    ensures only { (result ≡ Status.Usage) ⊎ (result ≡ Status.OutputFault) ⊎ (result ≡ Status.NoMemory) }
{
    match print(out, USAGE.as_bytes()) {
        Ok(()) => Status::Usage,
        Err(stop) => status_of_stop(stop),
    }
}

// Does what was meant.
fn run_meant<St: Store, Li: Library, Si: Sink>(
    alloc: Global,
    command: Option<Command<'_>>,
    store: &mut St,
    files: &mut Li,
    out: &mut Si,
    work: &mut Work,
) -> Status
    requires { IfSome (option_map meant command) IsGood }
    ensures replies { (course : Course)
        → IsCourseOf (option_map meant command.entry) (St.holds store.old) (Li.holds files.old) course → Goes course
        (world (St.holds store.old) (St.log store.old) (Si.taken out.old) work.old)
        (world (St.holds store.new) (St.log store.new) (Si.taken out.new) work.new) result }
    ensures told { (held : Files) (library : LibraryFiles)
        → Tells (touches_store (option_map meant command.entry)) (St.holds store.old) held
        → Tells (reads_file (option_map meant command.entry)) (Li.holds files.old) library → IsAnswer result
        → HasCourse (option_map meant command.entry) (St.holds store.old) (Li.holds files.old) }
    ensures usage { IsAnswer result → ((result ≡ Status.Usage) ↔ (option_map meant command.entry ≡ None)) }
    ensures found { result ≡ Status.Found → looks_for_faults (option_map meant command.entry) ≡ true }
    ensures reads { result ≡ Status.InputFault → reads_file (option_map meant command.entry) ≡ true }
    ensures touches { result ≡ Status.StoreFault → touches_store (option_map meant command.entry) ≡ true }
    ensures untouched { touches_store (option_map meant command.entry) ≡ false
        → StoreStays St.holds St.log St.faults store.old store.new }
    ensures idle { makes_tiles (option_map meant command.entry) ≡ false → work.new ≡ work.old }
    ensures same { Li.holds files.new ≡ Li.holds files.old }
    ensures library { FaultHasCause Status.InputFault (Li.faults files.old) (Li.faults files.new) result }
    ensures store { FaultHasCause Status.StoreFault (St.faults store.old) (St.faults store.new) result }
    ensures sink { FaultHasCause Status.OutputFault (Si.faults out.old) (Si.faults out.new) result }
    ensures more { work.old ≤ work.new }
{
    match command {
        Some(command) => status_of(run_command(alloc, &command, store, files, out, work)),
        None => run_usage(out),
    }
}

// The command that the words spell.
fn command_of(words: &[String]) -> Option<Command<'_>>
    ensures means { IsMeant (map string_bytes words.now) (option_map meant result) }
    ensures good { IfSome (option_map meant result) IsGood }
    ensures one { (meaning : Option spelled.Command) → IsMeant (map string_bytes words.now) meaning
        → meaning ≡ option_map meant result }
{
    command_in(words)
}

/// Does what the words say, puts the report on the sink and tells how it ended. The first word is the database's
/// folder, which the caller used already. A report's line is put after its command is done.
pub fn run<St: Store, Li: Library, Si: Sink>(
    alloc: Global,
    words: &[String],
    store: &mut St,
    files: &mut Li,
    out: &mut Si,
    work: &mut Work,
) -> Status
    // The run has the course of the command: it goes to its end, with the course's status, or it is stopped in a
    // turn.
    ensures replies { (meaning : Option spelled.Command) → IsMeant (map string_bytes words.now) meaning
        → (course : Course) → IsCourseOf meaning (St.holds store.old) (Li.holds files.old) course → Goes course
        (world (St.holds store.old) (St.log store.old) (Si.taken out.old) work.old)
        (world (St.holds store.new) (St.log store.new) (Si.taken out.new) work.new) result }

    // Over objects that tell what they hold, as far as they are asked, a run that went to its end has a course.
    ensures told { (meaning : Option spelled.Command) → IsMeant (map string_bytes words.now) meaning
        → (held : Files) (library : LibraryFiles) → Tells (touches_store meaning) (St.holds store.old) held
        → Tells (reads_file meaning) (Li.holds files.old) library → IsAnswer result
        → HasCourse meaning (St.holds store.old) (Li.holds files.old) }

    // After an answer the files are those of the state after the accepted commands, and all their tiles are good.
    ensures headline { (meaning : Option spelled.Command) → IsMeant (map string_bytes words.now) meaning
        → Headline meaning (St.holds store.old) (Li.holds files.old) (St.holds store.new) result }

    // After a stop they are those of a state that the command passes. Some first changes of the course were made, and
    // the sink took some first bytes of its text.
    ensures stops { (meaning : Option spelled.Command) → IsMeant (map string_bytes words.now) meaning
        → StopsStanding meaning (St.holds store.old) (Li.holds files.old)
        (world (St.holds store.old) (St.log store.old) (Si.taken out.old) work.old)
        (world (St.holds store.new) (St.log store.new) (Si.taken out.new) work.new) result }
    ensures reading { (meaning : Option spelled.Command) → IsMeant (map string_bytes words.now) meaning
        → StopsReading meaning (St.holds store.old) (Li.holds files.old)
        (world (St.holds store.old) (St.log store.old) (Si.taken out.old) work.old)
        (world (St.holds store.new) (St.log store.new) (Si.taken out.new) work.new) result }
    ensures fronts { (meaning : Option spelled.Command) → IsMeant (map string_bytes words.now) meaning
        → (course : Course) → IsCourseOf meaning (St.holds store.old) (Li.holds files.old) course
        → OnStop result (λ e. IsFrontOf course
        (world (St.holds store.old) (St.log store.old) (Si.taken out.old) work.old)
        (world (St.holds store.new) (St.log store.new) (Si.taken out.new) work.new)) }

    // A valid call that answers at all is done; of a tile whose mesh does not cover it once an audit says so.
    ensures valid { (command : spelled.Command) → IsMeant (map string_bytes words.now) (Some command)
        → (held : Files) (library : LibraryFiles) → Tells (touches_store (Some command)) (St.holds store.old) held
        → Tells (reads_file (Some command)) (Li.holds files.old) library → IsValid command held library
        → IsAnswer result → EndsWell command result }

    // 'Usage' is the answer exactly where the words are no command.
    ensures usage { IsAnswer result → ((result ≡ Status.Usage) ↔ IsMeant (map string_bytes words.now) None) }

    // Something amiss is found only by a command that looks for it.
    ensures found { result ≡ Status.Found → (meaning : Option spelled.Command)
        → IsMeant (map string_bytes words.now) meaning → looks_for_faults meaning ≡ true }

    // A fault comes only where its count rose, and no count falls. No file is asked for and no store is touched but
    // by commands that do so.
    ensures library { FaultHasCause Status.InputFault (Li.faults files.old) (Li.faults files.new) result }
    ensures reads { result ≡ Status.InputFault → (meaning : Option spelled.Command)
        → IsMeant (map string_bytes words.now) meaning → reads_file meaning ≡ true }
    ensures store { FaultHasCause Status.StoreFault (St.faults store.old) (St.faults store.new) result }
    ensures touches { result ≡ Status.StoreFault → (meaning : Option spelled.Command)
        → IsMeant (map string_bytes words.now) meaning → touches_store meaning ≡ true }
    ensures sink { FaultHasCause Status.OutputFault (Si.faults out.old) (Si.faults out.new) result }

    // The library keeps what it holds, and so does a store that the command does not touch.
    ensures same { Li.holds files.new ≡ Li.holds files.old }
    ensures untouched { (meaning : Option spelled.Command) → IsMeant (map string_bytes words.now) meaning
        → touches_store meaning ≡ false → StoreStays St.holds St.log St.faults store.old store.new }

    // The count of made tiles never falls, and stays where the command makes none.
    ensures more { work.old ≤ work.new }
    ensures idle { (meaning : Option spelled.Command) → IsMeant (map string_bytes words.now) meaning
        → makes_tiles meaning ≡ false → work.new ≡ work.old }
{
    top_reply::laws::files_are_good();
    run_meant(alloc, command_of(words), store, files, out, work)
}
