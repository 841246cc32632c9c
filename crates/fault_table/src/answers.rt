//! What globs, expressions and bundles answer.

use branch_bundle::{BundleFault, bundle, read_bundle};
use glob_match::Glob;
use std::alloc::Global;
use table_cases::{Case, Subject, TableFault, put_bytes, put_truth};
use wanted_expr::Expr;

/// The cases of globs, of expressions and of bundles.
pub struct Faults;

/// `glob PATTERN | TEXT`: whether the text matches the pattern, which must spell a glob.
fn glob(alloc: Global, case: &Case, out: &mut String) -> Result<(), TableFault> {
    match Glob::spelled(alloc, case.text(0))? {
        Some(glob) => put_truth(out, glob.matches_path(case.text(1))),
        None => Err(TableFault::Wrong),
    }
}

/// `read TEXT`: what is wrong of the text, which must be no expression.
fn read(alloc: Global, case: &Case, out: &mut String) -> Result<(), TableFault> {
    let Ok(text) = str::from_utf8(case.text(0)) else {
        return Err(TableFault::Wrong);
    };
    match Expr::parse(alloc, text) {
        Ok(_) => Err(TableFault::Wrong),
        Err(fault) => Ok(write!(out, "{fault}")?),
    }
}

/// `bundled TEXT`: the bundle of the branch whose bundle the text is, or where it goes wrong.
fn bundled(alloc: Global, case: &Case, out: &mut String) -> Result<(), TableFault> {
    match read_bundle(alloc, case.text(0)) {
        Ok(branch) => put_bytes(out, alloc, &bundle(alloc, &branch)?),
        Err(BundleFault::NoMemory) => Err(TableFault::NoMemory),
        Err(fault) => Ok(write!(out, "{fault}")?),
    }
}

impl Subject for Faults {
    fn answer(&self, alloc: Global, case: &Case, out: &mut String) -> Result<(), TableFault> {
        match case.question() {
            b"glob" => glob(alloc, case, out),
            b"read" => read(alloc, case, out),
            b"bundled" => bundled(alloc, case, out),
            _ => Err(TableFault::Wrong),
        }
    }
}
