//! A whole table, from standard input.

use crate::case::Case;
use crate::fault::TableFault;
use crate::tally::Tally;
use std::alloc::Global;
use std::io::{self, BufRead, BufReader};
use std::process::ExitCode;

/// What a table's cases are asked of.
pub trait Subject {
    /// Writes the answer to the case.
    fn answer(&self, alloc: Global, case: &Case, out: &mut String) -> Result<(), TableFault>;
}

/// Asks the case of the line. Where the answer is another than the line says, it is told.
fn ask<S: Subject>(
    subject: &S,
    alloc: Global,
    line: &str,
    tally: &mut Tally,
) -> Result<Option<String>, TableFault> {
    let Some(case) = Case::of_line(alloc, line)? else {
        return Ok(None);
    };
    let mut found = String::new(alloc);
    subject.answer(alloc, &case, &mut found)?;
    let as_wanted = found.as_bytes() == case.answer();
    tally.count(as_wanted);
    Ok(if as_wanted { None } else { Some(found) })
}

/// Asks the cases of standard input. It prints each that is answered otherwise, and how many there are; the status is 0
/// where there is none, 1 where there are some, and 2 from the first line on that is none of a table.
pub fn run_table<R: Print + Input, S: Subject>(
    rt: &R,
    alloc: Global,
    subject: &S,
) -> io::Result<ExitCode> {
    let mut tally = Tally::new();
    for line in BufReader::new(alloc, rt.reader())?.lines(alloc) {
        let line = line?;
        match ask(subject, alloc, &line, &mut tally) {
            Ok(None) => {}
            Ok(Some(found)) => println!(rt; "{line}: {found}")?,
            Err(fault) => {
                println!(rt; "{line}: {fault}")?;
                return Ok(ExitCode::from(2));
            }
        }
    }
    let differing = tally.differing();
    println!(rt; "{} cases, {differing} differ", tally.cases())?;
    Ok(ExitCode::from(if differing == 0 { 0 } else { 1 }))
}
