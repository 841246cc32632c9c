//! Asks the cases of a table from standard input of texts that are refused, and of long texts, and prints each that is
//! answered otherwise, and how many there are.
#![tactic(auto)]

mod answers;

use answers::Faults;
use std::io;
use std::process::ExitCode;
use table_cases::run_table;

fn main(rt: HostRuntime) -> io::Result<ExitCode> {
    run_table(&rt, rt.alloc(), &Faults)
}
