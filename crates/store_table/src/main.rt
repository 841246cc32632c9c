//! Asks a store and the lock table beside it what a table from standard input says, and prints each case that differs.
#![tactic(auto)]

mod cases;
mod rows;
mod store;
mod words;

use cases::StoreCases;
use std::io;
use std::process::ExitCode;
use table_cases::run_table;

fn main(rt: HostRuntime) -> io::Result<ExitCode> {
    run_table(&rt, rt.alloc(), &StoreCases)
}
