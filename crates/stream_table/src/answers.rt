//! Who answers which question.

use crate::contents::{content, halves};
use crate::sources::{sink, source, standard};
use crate::streams::{cut, steps, whole};
use std::alloc::Global;
use table_cases::{Case, Subject, TableFault};

/// The cases of what comes in pieces.
pub struct Streams;

/// Answers the questions of the wire.
fn answer_wire(alloc: Global, case: &Case, out: &mut String) -> Result<(), TableFault> {
    match case.question() {
        b"steps" => steps(alloc, case, out),
        b"whole" => whole(alloc, case, out),
        b"cut" => cut(alloc, case, out),
        _ => Err(TableFault::Wrong),
    }
}

impl Subject for Streams {
    fn answer(&self, alloc: Global, case: &Case, out: &mut String) -> Result<(), TableFault> {
        match case.question() {
            b"source" => source(alloc, case, out),
            b"sink" => sink(alloc, case, out),
            b"standard" => standard(alloc, case, out),
            b"content" => content(alloc, case, out),
            b"halves" => halves(alloc, case, out),
            _ => answer_wire(alloc, case, out),
        }
    }
}
