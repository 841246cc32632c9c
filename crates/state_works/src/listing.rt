//! A list of running jobs, as an entry changes it.
ghost use Rattle.std.specs.Prelude.{◌≡◌, ◌≤◌, ◌+◌, ◌^◌, ◌==◌, ℕ, find, map, not, filter, IfOk, OnOk};
ghost use Rattle.std.specs.List.{list_any};
ghost use Rattle.std.specs.Option.{option_copied, option_map};
ghost use Rattle.annex_base.specs.Lists.{Each};
ghost use Rattle.node_model.specs.Jobs.{RowsAndEnds, new_work, running_job, taken_message, work_after};
ghost use Rattle.node_model.specs.Rows.{option_is};
ghost use Rattle.node_model.specs.Sessions.{line_in, message_said};
ghost use Rattle.node_model.specs.Slots.{free_slot, job_by, job_of, uses};
ghost use Rattle.state_jobs.specs.Around.{AreEndedBy, AreRows, IsTalkOf};
ghost use Rattle.state_jobs.specs.Phases.{IsBelow};
ghost use Rattle.state_jobs.specs.Works.{HasRoom, work_of};
ghost use Rattle.state_works.specs.Jobs.{begun_in};

use annex_base::NoMemory;
use p2p_wire::Message;
use run_data::{By, Entry, EntryKind, FrameText, FrameView, Job};
use state_ends::Ends;
use state_jobs::{Phase, Talk, Work, first_part};
use state_rows::Rows;
use std::alloc::Global;

pub(crate) fn reserve_all(running: &mut Vec<Work>) -> Result<(), NoMemory>
    ensures room { OnOk result (Each HasRoom running.new.items) }
    ensures same { map work_of running.new.items ≡ map work_of running.old.items }
    ensures below { (limit : ℕ) → Each (λ w. IsBelow limit w.phase) running.old.items → Each (λ w. IsBelow limit w.phase) running.new.items }
{
    for work in running.iter_mut() {
        reserve_one(work)?;
    }
    Ok(())
}

fn reserve_one(work: &mut Work) -> Result<(), NoMemory>
    ensures room { OnOk result (HasRoom work.new) }
    ensures same { work_of work.new ≡ work_of work.old }
    ensures phase { work.new.phase ≡ work.old.phase }
{
    work.heard.reserve(1)?;
    work.causes.reserve(1)?;
    Ok(())
}

fn job_by(by: By) -> Option<u32>
    ensures { result ≡ job_by by }
{
    match by {
        By::Job(job) => Some(job),
        By::Script | By::Peer { .. } => None,
    }
}

/// The job of its repository that made an entry of this kind.
pub fn job_of(kind: &EntryKind) -> Option<u32>
    ensures { result ≡ job_of kind.now }
{
    match kind {
        EntryKind::Begin { job, .. }
        | EntryKind::Bar { job, .. }
        | EntryKind::Order { job, .. }
        | EntryKind::End { job, .. } => Some(*job),
        EntryKind::Gain { by, .. }
        | EntryKind::Share { by, .. }
        | EntryKind::Gone { by, .. }
        | EntryKind::Fault { by, .. } => job_by(*by),
        EntryKind::Talk { job } => *job,
        _ => None,
    }
}

fn is_job(kind: &EntryKind, number: u32) -> bool
    ensures { result ≡ option_is (job_of kind.now) number }
{
    match job_of(kind) {
        Some(job) => job == number,
        None => false,
    }
}

fn first_of(running: &[Work], number: u32) -> Option<&Work>
    ensures { option_copied result ≡ find (λ w. w.number == number) running.now }
{
    running.iter().find(|work| work.number == number)
}

pub(crate) fn found(running: &[Work], number: u32) -> Option<&Work>
    ensures { option_map work_of (option_copied result) ≡ find (λ w. w.number == number) (map work_of running.now) }
{
    first_of(running, number)
}

pub(crate) fn end(running: &mut Vec<Work>, job: u32)
    ensures { running.new.items ≡ filter (λ w. not (w.number == job)) running.old.items }
{
    running.retain(|work| work.number != job);
}

/// The entry moves its job.
fn move_one(work: &mut Work, repo: u32, rows: &Rows, ends: &Ends, talk: &Talk, entry: &Entry)
    requires room { HasRoom work.old }
    requires small { IsBelow (2 ^ 127) work.old.phase }
    requires talk { IsTalkOf entry.now talk.now }
    ensures work { (x : RowsAndEnds) → AreRows x rows.now → AreEndedBy x entry.now ends.now → work_of work.new ≡ work_after x repo entry.now (work_of work.old) }
    ensures small { (limit : ℕ) → 2 ^ 64 ≤ limit → IsBelow limit work.old.phase → IsBelow (limit + 2 ^ 64) work.new.phase }
{
    if is_job(&entry.kind, work.number) {
        work.moves(repo, rows, ends, talk, entry);
    }
}

pub(crate) fn move_all(
    running: &mut Vec<Work>,
    repo: u32,
    rows: &Rows,
    ends: &Ends,
    talk: &Talk,
    entry: &Entry,
)
    requires room { Each HasRoom running.old.items }
    requires small { Each (λ w. IsBelow (2 ^ 127) w.phase) running.old.items }
    requires talk { IsTalkOf entry.now talk.now }
    ensures works { (x : RowsAndEnds) → AreRows x rows.now → AreEndedBy x entry.now ends.now → map work_of running.new.items ≡ map (work_after x repo entry.now) (map work_of running.old.items) }
    ensures small { (limit : ℕ) → 2 ^ 64 ≤ limit → Each (λ w. IsBelow limit w.phase) running.old.items → Each (λ w. IsBelow (limit + 2 ^ 64) w.phase) running.new.items }
{
    for work in running.iter_mut() {
        move_one(work, repo, rows, ends, talk, entry);
    }
}

fn has_slot(running: &[Work], slot: u32) -> bool
    ensures { result ≡ list_any (λ w. w.slot == slot) running.now }
{
    running.iter().any(|work| work.slot == slot)
}

fn is_used(running: &[Work], slot: u32) -> bool
    ensures { result ≡ uses (map running_job (map work_of running.now)) slot }
{
    has_slot(running, slot)
}

fn free_slot(running: &[Work]) -> u32
    ensures { result ≡ free_slot (map running_job (map work_of running.now)) }
{
    if !is_used(running, 0) {
        return 0;
    }
    if !is_used(running, 1) {
        return 1;
    }
    if !is_used(running, 2) {
        return 2;
    }
    3
}

fn new_work(alloc: Global, running: &[Work], job: u32, what: &Job) -> Result<Work, NoMemory>
    ensures { IfOk result (λ w. work_of w ≡ new_work (map work_of running.now) job what.now) }
{
    Ok(Work {
        number: job,
        slot: free_slot(running),
        part: first_part(what.kind),
        phase: Phase::Fresh,
        fills: false,
        version: 3,
        heard: Vec::new(alloc),
        causes: Vec::new(alloc),
        what: what.clone()?,
    })
}

pub(crate) fn begun_by(
    alloc: Global,
    running: &[Work],
    kind: &EntryKind,
) -> Result<Option<Work>, NoMemory>
    ensures { IfOk result (λ w. option_map work_of w ≡ begun_in (map work_of running.now) kind.now) }
{
    match kind {
        EntryKind::Begin { job, what } => Ok(Some(new_work(alloc, running, *job, what)?)),
        _ => Ok(None),
    }
}

fn line_in(alloc: Global, body: &FrameText) -> Result<Option<Message>, NoMemory>
    ensures { IfOk result (λ m. m ≡ line_in body.now) }
{
    match body {
        FrameText::Line(text) => Message::read(alloc, text.bytes()),
        _ => Ok(None),
    }
}

/// The messages of the frame that the entry took, and of the first that it sent, where it is one of a job.
pub(crate) fn talk_of(alloc: Global, entry: &Entry) -> Result<Talk, NoMemory>
    ensures { IfOk result (IsTalkOf entry.now) }
{
    let heard = heard_in(alloc, &entry.taken)?;
    let told = told_in(alloc, entry.sent.as_slice())?;
    Ok(Talk { heard, told })
}

fn heard_in(alloc: Global, taken: &Option<FrameView>) -> Result<Option<Message>, NoMemory>
    ensures { IfOk result (λ m. m ≡ taken_message taken.now) }
{
    match taken {
        Some(frame) => line_in(alloc, &frame.body),
        None => Ok(None),
    }
}

fn told_in(alloc: Global, sent: &[FrameView]) -> Result<Option<Message>, NoMemory>
    ensures { IfOk result (λ m. m ≡ message_said sent.now) }
{
    match sent {
        [frame, ..] => line_in(alloc, &frame.body),
        [] => Ok(None),
    }
}
