//! The lines of the jobs that a crash ended.

ghost use Rattle.std.specs.Prelude.{◌≡◌, ◌++◌, OnOk, reverse, option_copied};
ghost use Rattle.std.specs.List.{flat_map, range_with_len};
ghost use Rattle.crashed_jobs.specs.Crashed.{in_slot};
ghost use Rattle.shown_text.specs.Lines.{crash_lines, crashed_line};

use crate::lines::put_end_line;
use annex_base::NoMemory;
use crashed_jobs::{Running, crashed_outcome, in_slot, running_jobs};
use run_data::{Entry, RepoView};

/// Adds a line for each job of the repository that its crash ended, in order of slot; the entries before the crash stand
/// in order.
pub(crate) fn put_crashed(
    out: &mut Vec<u8>,
    repos: &[RepoView],
    before: &[Entry],
    repo: u32,
) -> Result<(), NoMemory>
    ensures { OnOk result (out.new.items ≡ out.old.items ++ crash_lines repos.now (reverse before.now) repo) }
{
    let running = running_jobs(*out.allocator(), before, repo)?;
    put_slots(out, repos, before, repo, running.as_slice())?;
    Ok(())
}

fn put_slots(
    out: &mut Vec<u8>,
    repos: &[RepoView],
    before: &[Entry],
    repo: u32,
    running: &[Running<'_>],
) -> Result<(), NoMemory>
    ensures { OnOk result (out.new.items ≡ out.old.items ++ flat_map (λ slot. crashed_line repos.now (reverse before.now) repo (in_slot running.now slot)) (range_with_len 0 4)) }
{
    for slot in 0..4 {
        put_crashed_in(out, repos, before, repo, running, slot)?;
    }
    Ok(())
}

/// Adds the line of the job that ran in a slot, if one did.
fn put_crashed_in(
    out: &mut Vec<u8>,
    repos: &[RepoView],
    before: &[Entry],
    repo: u32,
    running: &[Running<'_>],
    slot: u32,
) -> Result<(), NoMemory>
    ensures { OnOk result (out.new.items ≡ out.old.items ++ crashed_line repos.now (reverse before.now) repo (in_slot running.now slot)) }
{
    let job = in_slot(running, slot);
    put_crashed_line(out, repos, before, repo, job)?;
    Ok(())
}

fn put_crashed_line(
    out: &mut Vec<u8>,
    repos: &[RepoView],
    before: &[Entry],
    repo: u32,
    job: Option<&Running<'_>>,
) -> Result<(), NoMemory>
    ensures { OnOk result (out.new.items ≡ out.old.items ++ crashed_line repos.now (reverse before.now) repo (option_copied job.entry)) }
{
    if let Some(job) = job {
        let outcome = crashed_outcome(*out.allocator(), before, repo, job)?;
        put_end_line(out, repos, repo, Some(job.what()), &outcome)?;
    }
    Ok(())
}
