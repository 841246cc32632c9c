//! The line of a storm.

ghost use Rattle.std.specs.Prelude.{◌≡◌, ◌++◌, ◌≤◌, IfOk, OnOk, length};
ghost use Rattle.std.specs.Fmt.{decimal};
ghost use Rattle.annex_base.specs.Lists.{Each};
ghost use Rattle.report_tables.specs.Walk.{IsAhead, IsWellFormed};
ghost use Rattle.storm_line.specs.Line.{line_text, storm_line};

use crate::jobs::{Ended, ended_jobs};
use crate::kept::kept_keys;
use crate::slots::noslots;
use annex_base::{NoMemory, put_number};
use run_data::Run;
use script_commands::Command;
use std::alloc::{AllocError, Global};

/// The line of the storm of so many jobs drawn from the number, whose script is this, by its run (own).
pub fn storm_line(
    alloc: Global,
    number: u64,
    jobs: u32,
    script: &[Command],
    run: &Run,
) -> Result<Vec<u8>, NoMemory>
    requires formed { Each IsWellFormed run.now.entries }
    requires ahead { Each IsAhead run.now.repos }
    requires few { length run.now.repos ≤ 16 }
    ensures { IfOk result (λ text. text.items ≡ storm_line number jobs script.now run.now) }
{
    let ended = ended_jobs(alloc, run)?;
    let noslots = noslots(alloc, script, run)?;
    let kept = kept_keys(alloc, run)?;
    written(alloc, number, jobs as u64, ended, noslots, kept)
}

/// The line with these numbers.
fn written(
    alloc: Global,
    number: u64,
    jobs: u64,
    ended: Ended,
    noslots: u64,
    kept: u64,
) -> Result<Vec<u8>, NoMemory>
    ensures { IfOk result (λ text. text.items ≡ line_text number jobs ended.done ended.refused noslots kept) }
{
    let mut out = Vec::new(alloc);
    put_count(&mut out, b"storm number=", number)?;
    put_count(&mut out, b" jobs=", jobs)?;
    put_count(&mut out, b" done=", ended.done)?;
    put_count(&mut out, b" refused=", ended.refused)?;
    put_count(&mut out, b" noslot=", noslots)?;
    put_count(&mut out, b" kept=", kept)?;
    out.push(b'\n')?;
    Ok(out)
}

fn put_count(out: &mut Vec<u8>, name: &[u8], count: u64) -> Result<(), AllocError>
    ensures { OnOk result (out.new.items ≡ out.old.items ++ name.now ++ decimal count) }
{
    out.extend_from_slice(name)?;
    put_number(out, count)
}
