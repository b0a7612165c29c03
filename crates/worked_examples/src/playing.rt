//! Commands over objects in memory, and what they come to.
use std::alloc::{AllocError, Global};
use std::process::Abort;
use std::test::Fail as Stopped;
use terrain_base::{Library, Sink, Store, SureLibrary, SureSink, SureStore, Work};
use terrain_top::{Status, run};

// A command's words behind the database's folder, how it ends and what it prints.
pub(crate) type Row<'a> = (&'a str, Status, &'a str);

// The database's folder and a command's words, which stand apart by a blank.
fn words_of(alloc: Global, line: &str) -> Result<Vec<String>, AllocError> {
    let mut words = Vec::new(alloc);
    words.push(String::from_str(alloc, "db")?)?;
    for word in line.split(' ') {
        words.push(String::from_str(alloc, word)?)?;
    }
    Ok(words)
}

// Runs one command.
pub(crate) fn end_of<St: Store, Li: Library, Si: Sink>(
    alloc: Global,
    line: &str,
    store: &mut St,
    files: &mut Li,
    out: &mut Si,
) -> Result<Status, AllocError> {
    let words = words_of(alloc, line)?;
    Ok(run(alloc, &words, store, files, out, &mut Work::new()))
}

// Runs commands one after another, and stops where one ends otherwise or prints something else.
pub(crate) fn play<S: Store>(
    rt: &impl Abort,
    alloc: Global,
    store: &mut S,
    files: &mut SureLibrary,
    rows: &[Row<'_>],
) -> Result<(), Stopped> {
    for (line, status, text) in rows {
        let mut out = SureSink::new(alloc);
        let ended = end_of(alloc, line, store, files, &mut out)?;
        assert_eq!(rt; out.taken(), text.as_bytes(), "{line}");
        assert_eq!(rt; ended, *status, "{line}");
    }
    Ok(())
}

// The same over no database and one file.
pub(crate) fn play_file(
    rt: &impl Abort,
    alloc: Global,
    name: &str,
    bytes: &[u8],
    row: Row<'_>,
) -> Result<(), Stopped> {
    let mut files = SureLibrary::new(alloc);
    files.hold(name, bytes)?;
    play(rt, alloc, &mut SureStore::new(alloc), &mut files, &[row])
}
