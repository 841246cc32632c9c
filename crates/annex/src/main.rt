//! Runs what the words after the program's name ask for.
#![tactic(auto)]

use annex_base::{OpenGate, StdSink, StdSource};
use annex_cli::{Status, annex};
use std::process::ExitCode;
use std::{env, io};

fn main(rt: HostRuntime) -> ExitCode {
    let mut words = Vec::new(rt.alloc());
    match env::args(&rt) {
        Ok(args) => {
            for word in args.skip(1) {
                if words.push(word).is_err() {
                    return ExitCode::from(Status::NoMemory.code());
                }
            }
        }
        Err(error) if matches!(error.kind(), io::ErrorKind::OutOfMemory) => {
            return ExitCode::from(Status::NoMemory.code());
        }
        // A word isn't UTF-8, and no form of the program has such a word.
        Err(_) => {}
    }
    let mut source = StdSource::new(rt.reader());
    let mut sink = StdSink::new(io::writer(&rt));
    let status = annex(&rt, rt.alloc(), &words, &mut source, &mut sink, &OpenGate);
    ExitCode::from(status.code())
}
