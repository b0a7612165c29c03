//! The program: it hands a real folder, real files and standard output to the top call, and ends with its status.
#![tactic(auto)]

use device_adapters::{FolderLibrary, FolderStore, StdSink};
use std::env;
use std::io::ErrorKind;
use std::process::ExitCode;
use std::rt::Env;
use terrain_base::{NoMemory, Work};
use terrain_top::{Status, run};

// The words that follow the program's own name. Words that are not UTF-8 are no command, as no words
// are.
fn words<R: Env + AllocGlobal>(rt: &R) -> Result<Vec<String>, NoMemory> {
    match env::args(rt) {
        Ok(args) => Ok(args.skip(1).collect(rt.alloc())?),
        Err(error) if error.kind() == ErrorKind::OutOfMemory => Err(NoMemory),
        Err(_) => Ok(Vec::new(rt.alloc())),
    }
}

// The database's folder: the first word, or the one that the program runs in.
fn folder(words: &[String]) -> &str {
    match words.first() {
        Some(folder) => folder,
        None => ".",
    }
}

fn main(rt: HostRuntime) -> ExitCode {
    let Ok(words) = words(&rt) else {
        return ExitCode::from(Status::NoMemory.code());
    };
    let alloc = rt.alloc();
    let mut store = FolderStore::new(&rt, folder(&words));
    let mut files = FolderLibrary::new(&rt);
    let mut out = StdSink::new(&rt);
    let mut work = Work::new();
    let status = run(alloc, &words, &mut store, &mut files, &mut out, &mut work);
    ExitCode::from(status.code())
}
