//! The program `fastbit`: runs the command that its words spell, over standard input, standard output and the files
//! of the folder that it is called in.
#![tactic(auto)]

ghost use Rattle.std.specs.Prelude.{◌≡◌, ◌<◌};

use fastbit_tool::{Status, run};
use fb_outside::{FolderStore, StdSink, StdSource};
use std::alloc::AllocError;
use std::marker::Brand;
use std::process::ExitCode;
use std::sync::ledger::Ledger;
use std::{env, io};
use steps::{Blank, Count, Steps};

/// The code with which the program ends where the system doesn't give it its words. It is the code of no status.
const NO_WORDS: u8 = 14;

fn main(rt: HostRuntime) -> ExitCode {
    match words_of(&rt) {
        Ok(words) => match command::<Brand>(&rt, &words, rt.blank()) {
            Ok(status) => ExitCode::from(status.code()),
            Err(_) => ExitCode::from(Status::OutOfMemory.code()),
        },
        Err(_) => ExitCode::from(NO_WORDS),
    }
}

// The words after the program's own name.
fn words_of(rt: &HostRuntime) -> io::Result<Vec<String>> {
    let mut words = Vec::new(rt.alloc());
    for word in env::args(rt)?.skip(1) {
        words.push(word)?;
    }
    Ok(words)
}

fn command<L: Ledger>(
    rt: &HostRuntime,
    words: &[String],
    blank: Blank,
) -> Result<Status, AllocError>
    requires ledger { blank.name ≡ L.name }
    requires parts { blank.parts ≡ L.parts }
    requires some { 0 < blank.parts }
{
    let mut input = StdSource::make(rt.reader());
    let mut store = FolderStore::make(rt.clone()?, rt.alloc());
    let mut out = StdSink::make(io::writer(rt));
    let mut steps = Steps::<L>::new(blank);
    Ok(run(
        rt.alloc(),
        words,
        &mut input,
        &mut store,
        &mut out,
        &mut steps,
    ))
}
