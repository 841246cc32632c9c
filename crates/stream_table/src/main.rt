//! Asks the cases of a table from standard input of sources and sinks, of contents, and of streams of the P2P protocol, and
//! prints each that is answered otherwise, and how many there are.
#![tactic(auto)]

mod answers;
mod contents;
mod sources;
mod streams;

use answers::Streams;
use std::io;
use std::process::ExitCode;
use table_cases::run_table;

fn main(rt: HostRuntime) -> io::Result<ExitCode> {
    run_table(&rt, rt.alloc(), &Streams)
}
