//! The four numbers of a sync.

ghost use Rattle.std.specs.Prelude.{◌≡◌, ◌∷◌, ◌-◌, [], IfSome, IsNone, count_by, drop, take};
ghost use Rattle.std.specs.List.{list_any};
ghost use Rattle.run_model.specs.Syncs.{entries_between, is_drop, is_get, is_put, is_refused, outcome_past, sync_numbers};

use crate::jobs::{before, begun_count, is_refused};
use run_data::{Entry, EntryKind, Outcome, Run};
use std::marker::Model;

/// How many of a sync's gets, copies and drops are done, and how many of its jobs were refused.
#[derive(Drop)]
pub struct SyncNumbers {
    gets: usize,
    puts: usize,
    drops: usize,
    refusals: usize,
}

impl Model for SyncNumbers {
    ghost use Rattle.run_model.specs.Syncs.{SyncNumbers as Numbers};

    ghost Value = { Numbers };

    ghost view = { λ n. record { get = n.gets; put = n.puts; drop = n.drops; refused = n.refusals } };
}

impl SyncNumbers {
    pub fn gets(&self) -> u64
        ensures { result ≡ self.now.get }
    {
        self.gets as u64
    }

    pub fn puts(&self) -> u64
        ensures { result ≡ self.now.put }
    {
        self.puts as u64
    }

    pub fn drops(&self) -> u64
        ensures { result ≡ self.now.drop }
    {
        self.drops as u64
    }

    pub fn refusals(&self) -> u64
        ensures { result ≡ self.now.refused }
    {
        self.refusals as u64
    }
}

/// The numbers of a sync of the repository that made the entries from one place of the run up to another (own).
pub fn sync_numbers(run: &Run, repo: u32, from: usize, upto: usize) -> SyncNumbers
    ensures { result ≡ sync_numbers run.now repo from upto }
{
    let past = begun_count(before(run, from), repo);
    let entries = between(run, from, upto);
    SyncNumbers {
        gets: gets(entries, repo, past),
        puts: puts(entries, repo, past),
        drops: drops(entries, repo, past),
        refusals: refusals(entries, repo, past),
    }
}

fn between(run: &Run, from: usize, upto: usize) -> &[Entry]
    ensures { result.now ≡ entries_between run.now from upto }
{
    first(
        behind(run.entries.as_slice(), from),
        upto.saturating_sub(from),
    )
}

fn behind(entries: &[Entry], place: usize) -> &[Entry]
    ensures { result.now ≡ drop place entries.now }
{
    let (_, behind) = entries.split_at(entries.len().min(place));
    behind
}

fn first(entries: &[Entry], count: usize) -> &[Entry]
    ensures { result.now ≡ take count entries.now }
{
    let (first, _) = entries.split_at(entries.len().min(count));
    first
}

fn gets(entries: &[Entry], repo: u32, past: usize) -> usize
    ensures { result ≡ count_by (λ e. list_any is_get (outcome_past repo past e)) entries.now }
{
    entries
        .iter()
        .filter(|entry| has_got(entry, repo, past))
        .count()
}

fn has_got(entry: &Entry, repo: u32, past: usize) -> bool
    ensures { result ≡ list_any is_get (outcome_past repo past entry.now) }
{
    match outcome_past(entry, repo, past) {
        Some(Outcome::Got { .. }) => true,
        _ => false,
    }
}

fn puts(entries: &[Entry], repo: u32, past: usize) -> usize
    ensures { result ≡ count_by (λ e. list_any is_put (outcome_past repo past e)) entries.now }
{
    entries
        .iter()
        .filter(|entry| has_put(entry, repo, past))
        .count()
}

fn has_put(entry: &Entry, repo: u32, past: usize) -> bool
    ensures { result ≡ list_any is_put (outcome_past repo past entry.now) }
{
    match outcome_past(entry, repo, past) {
        Some(Outcome::Copied { .. }) => true,
        _ => false,
    }
}

fn drops(entries: &[Entry], repo: u32, past: usize) -> usize
    ensures { result ≡ count_by (λ e. list_any is_drop (outcome_past repo past e)) entries.now }
{
    entries
        .iter()
        .filter(|entry| has_dropped(entry, repo, past))
        .count()
}

fn has_dropped(entry: &Entry, repo: u32, past: usize) -> bool
    ensures { result ≡ list_any is_drop (outcome_past repo past entry.now) }
{
    match outcome_past(entry, repo, past) {
        Some(Outcome::Dropped(_)) | Some(Outcome::DroppedAbsent(_)) => true,
        _ => false,
    }
}

fn refusals(entries: &[Entry], repo: u32, past: usize) -> usize
    ensures { result ≡ count_by (λ e. list_any is_refused (outcome_past repo past e)) entries.now }
{
    entries
        .iter()
        .filter(|entry| was_refused(entry, repo, past))
        .count()
}

fn was_refused(entry: &Entry, repo: u32, past: usize) -> bool
    ensures { result ≡ list_any is_refused (outcome_past repo past entry.now) }
{
    match outcome_past(entry, repo, past) {
        Some(outcome) => is_refused(outcome),
        None => false,
    }
}

/// How a job of the repository with a number past this one ended by the entry, if one did.
fn outcome_past(entry: &Entry, repo: u32, past: usize) -> Option<&Outcome>
    ensures some { IfSome result (λ outcome. outcome_past repo past entry.now ≡ outcome.now ∷ []) }
    ensures none { IsNone result → outcome_past repo past entry.now ≡ [] }
{
    if entry.repo != Some(repo) {
        return None;
    }
    match &entry.kind {
        EntryKind::End { job, outcome } => {
            if past < *job as usize {
                Some(outcome)
            } else {
                None
            }
        }
        _ => None,
    }
}
