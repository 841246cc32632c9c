//! Reads scripts as a table from standard input says, and prints each that is read otherwise, and how many there are.
#![tactic(auto)]

mod table;

use std::io::{self, BufRead, BufReader};
use std::process::ExitCode;
use table::Table;

fn main(rt: HostRuntime) -> io::Result<ExitCode> {
    let alloc = rt.alloc();
    let mut table = Table::new(alloc);
    for line in BufReader::new(alloc, rt.reader())?.lines(alloc) {
        let line = line?;
        match table.take_line(alloc, &line) {
            Ok(None) => {}
            Ok(Some(found)) => println!(rt; "{line}: {found}")?,
            Err(fault) => {
                println!(rt; "{line}: {fault}")?;
                return Ok(ExitCode::from(2));
            }
        }
    }
    let differing = table.tally().differing();
    println!(rt; "{} texts, {differing} differ", table.tally().cases())?;
    Ok(ExitCode::from(if differing == 0 { 0 } else { 1 }))
}
