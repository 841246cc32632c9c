//! The order and the bounds of entries.
ghost use Rattle.std.specs.Prelude.{◌≡◌, Option, Some, option_map};
ghost use Rattle.run_data.specs.declared.entry.Entry.{Entry};
ghost use Rattle.run_data.specs.declared.entry.EntryKind.TheVariants.{Wait};
ghost use Rattle.run_model.specs.Run.{repo_number};
ghost use Rattle.step_judging.specs.Carried.{is_ordered_by};
ghost use Rattle.step_judging.specs.Rules.{is_nil, is_small, is_time, only_waits};
ghost use Rattle.state_checks.specs.Moments.{comes_after, is_made_at, is_ordered_at, moment_of, time_at};

use annex_base::Line;
use run_data::{Entry, EntryKind, FrameView};

/// When an entry was made, and by which repository (own).
#[derive(Clone, Copy, Debug)]
pub struct Moment {
    pub time: u64,
    pub count: u64,
    pub repo: Option<u32>,
}

pub fn moment_of(entry: &Entry) -> Moment
    ensures { result ≡ moment_of entry.now }
{
    Moment {
        time: entry.time,
        count: entry.count,
        repo: entry.repo,
    }
}

/// Whether the entry comes after the newest one, at its time, and within the bounds of a run: rule 1.
pub fn is_ordered(newest: Option<Moment>, entry: &Entry) -> bool
    ensures { (was : Option Entry) → option_map moment_of was ≡ newest → result ≡ is_ordered_by was entry.now }
{
    is_ordered_at(newest, entry)
}

fn is_ordered_at(newest: Option<Moment>, entry: &Entry) -> bool
    ensures { result ≡ is_ordered_at newest entry.now }
{
    comes_after(newest, entry)
        && is_time(time_at(newest), entry)
        && entry.time <= 1_000_000_000_000
        && entry.count < 1 << 62
        && is_small(&entry.kind)
}

fn comes_after(newest: Option<Moment>, entry: &Entry) -> bool
    ensures { result ≡ comes_after newest entry.now }
{
    match newest {
        None => true,
        Some(moment) => is_after(moment, entry),
    }
}

fn is_after(moment: Moment, entry: &Entry) -> bool
    ensures { result ≡ comes_after (Some moment) entry.now }
{
    moment.time < entry.time
        || moment.count < entry.count
        || (moment.count == entry.count && number(moment.repo) < number(entry.repo))
}

fn number(repo: Option<u32>) -> u32
    ensures { result ≡ repo_number repo }
{
    repo.unwrap_or(0)
}

fn time_at(newest: Option<Moment>) -> u64
    ensures { result ≡ time_at newest }
{
    match newest {
        None => 0,
        Some(moment) => moment.time,
    }
}

/// Whether the entry is made at the time of the newest one, or waits for so long.
fn is_time(before: u64, entry: &Entry) -> bool
    ensures { result ≡ is_time before entry.now entry.now.kind entry.now.repo }
{
    match &entry.kind {
        EntryKind::Wait(ms) => is_waited(before, *ms, entry),
        _ => is_at(before, entry),
    }
}

fn is_waited(before: u64, ms: u64, entry: &Entry) -> bool
    ensures { result ≡ is_time before entry.now (Wait ms) entry.now.repo }
{
    match entry.repo {
        None => u128::from(entry.time) == u128::from(before) + u128::from(ms),
        Some(_) => entry.time == before,
    }
}

fn is_at(before: u64, entry: &Entry) -> bool
    ensures { result ≡ is_made_at before entry.now entry.now.repo }
{
    match entry.repo {
        None => false,
        Some(_) => entry.time == before,
    }
}

fn is_small(kind: &EntryKind) -> bool
    ensures { result ≡ is_small kind.now }
{
    match kind {
        EntryKind::Gain { size, .. } => *size < 1 << 62,
        EntryKind::Crash { clock } => *clock <= 100_000_000_000,
        _ => true,
    }
}

/// Whether the entry has nothing but its time.
pub fn only_waits(entry: &Entry) -> bool
    ensures { result ≡ only_waits entry.now }
{
    entry.taken.is_none()
        && has_no_frames(entry.sent.as_slice())
        && has_no_lines(entry.lines.as_slice())
}

pub fn has_no_frames(frames: &[FrameView]) -> bool
    ensures { result ≡ is_nil frames.now }
{
    frames.is_empty()
}

pub fn has_no_lines(lines: &[Line]) -> bool
    ensures { result ≡ is_nil lines.now }
{
    lines.is_empty()
}
