//! Sources and sinks, in memory and of std.
ghost use Rattle.std.specs.Prelude.{◌<◌, IfOk};

use annex_base::{Failed, Sink, SliceSource, Source, StdSink, StdSource, VecSink, parse_decimal};
use std::alloc::Global;
use table_cases::{Case, TableFault, put_bytes};

/// Calls a source so often, each time with room for eight bytes.
fn put_reads<S: Source>(
    out: &mut String,
    alloc: Global,
    source: &mut S,
    calls: u64,
) -> Result<(), TableFault> {
    for _ in 0..calls {
        let mut room = [b'.'; 8];
        match source.read(&mut room) {
            Ok(count) => put_bytes(out, alloc, room.split_at(count).0)?,
            Err(Failed) => out.push_str("failed")?,
        }
        out.push(';')?;
    }
    Ok(())
}

/// Calls a sink so often, each time with what it hasn't taken of the text.
fn put_writes<S: Sink>(
    out: &mut String,
    sink: &mut S,
    text: &[u8],
    calls: u64,
) -> Result<(), TableFault> {
    let mut rest = text;
    for _ in 0..calls {
        match sink.write(rest) {
            Ok(count) => {
                rest = rest.split_at(count).1;
                write!(out, "{count};")?;
            }
            Err(Failed) => out.push_str("failed;")?,
        }
    }
    Ok(())
}

/// Numbers, each behind a space.
fn numbers(alloc: Global, text: &[u8]) -> Result<Vec<u64>, TableFault> {
    let mut numbers = Vec::new(alloc);
    for word in text.split(|b| *b == b' ') {
        if let Some(number) = parse_decimal(word) {
            numbers.push(number)?;
        }
    }
    Ok(numbers)
}

/// How many bytes a call reads or takes at most.
fn piece_of(case: &Case) -> Result<usize, TableFault>
    ensures { IfOk result (λ piece. 0 < piece) }
{
    let piece = case.number(1)? as usize;
    if piece == 0 {
        return Err(TableFault::Wrong);
    }
    Ok(piece)
}

/// `source CALLS | PIECE | FAILING .. | TEXT`: what each call gives.
pub fn source(alloc: Global, case: &Case, out: &mut String) -> Result<(), TableFault> {
    let piece = piece_of(case)?;
    let failing = numbers(alloc, case.text(2))?;
    let bytes = Vec::from_slice(alloc, case.text(3))?;
    let mut source = SliceSource::new(bytes, piece, failing);
    put_reads(out, alloc, &mut source, case.number(0)?)
}

/// `sink CALLS | PIECE | FAILING .. | TEXT`: how much each call takes, and what was taken.
pub fn sink(alloc: Global, case: &Case, out: &mut String) -> Result<(), TableFault> {
    let piece = piece_of(case)?;
    let failing = numbers(alloc, case.text(2))?;
    let mut sink = VecSink::new(alloc, piece, failing);
    put_writes(out, &mut sink, case.text(3), case.number(0)?)?;
    put_bytes(out, alloc, sink.bytes())
}

/// `standard CALLS | TEXT`: the same of a reader and of a writer of std.
pub fn standard(alloc: Global, case: &Case, out: &mut String) -> Result<(), TableFault> {
    let calls = case.number(0)?;
    put_reads(out, alloc, &mut StdSource::new(case.text(1)), calls)?;
    let mut sink = StdSink::new(Vec::new(alloc));
    put_writes(out, &mut sink, case.text(1), calls)
}
