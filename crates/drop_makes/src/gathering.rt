//! What the candidates of a drop give, by what it has read and heard.
ghost use Rattle.std.specs.Prelude.{◌≡◌, ◌+◌, [], find, count_by, option_map, IfOk};
ghost use Rattle.drop_proof.specs.Judging.{counts, is_enough, least_end};
ghost use Rattle.node_model.specs.Evidence.{failures, gather, reached_candidates};
ghost use Rattle.node_model.specs.Knows.{asks_by, cause_by, cause_heard, cause_of_word, heard_offer, is_unasked, knows_by, offer_by};
ghost use Rattle.state_jobs.specs.Phases.{heard_of};
ghost use Rattle.state_jobs.specs.Works.{work_of};
ghost use Rattle.state_reads.specs.Standings.{standing_of};
ghost use Rattle.step_state.specs.States.{clock_of};
ghost use Rattle.drop_makes.specs.Items.{offer_as};
ghost use Rattle.drop_makes.specs.Knowings.{cause_in, reading_in};

use crate::item::{Given, Item, end_of, is_full};
use annex_base::{NoMemory, Word};
use drop_proof::{Need, Side};
use job_makes::Turn;
use run_data::{CandidateCause, Cause};
use state_jobs::Heard;
use state_reads::{KnownLogs, Standing};
use std::alloc::Global;

/// How long a lock lasts, in milliseconds: ten minutes.
pub(crate) const LOCK_TIME: u128 = 600_000;

fn is_unasked(standing: Standing, heard: Option<Heard>) -> bool
    ensures { result ≡ is_unasked (standing_of standing) (option_map heard_of heard) }
{
    match (standing, heard) {
        (Standing::Asked, None) => true,
        _ => false,
    }
}

/// Whether a candidate is to be asked.
fn asks(turn: &Turn, logs: &KnownLogs, candidate: u32) -> bool
    ensures { result ≡ asks_by (reading_in turn.now logs.now) (work_of turn.now.work.now) candidate }
{
    is_unasked(logs.standing(candidate), turn.heard(candidate))
}

/// What a candidate gives of which this was heard.
fn heard_offer(turn: &Turn, heard: Option<Heard>) -> Option<Given>
    ensures { offer_as result ≡ heard_offer (clock_of turn.now.state.now) (option_map heard_of heard) }
{
    match heard {
        Some(Heard::Held { since }) => Some(Given::Locked {
            end: turn.clock(since) + LOCK_TIME,
        }),
        Some(Heard::Seen) => Some(Given::Recent),
        _ => None,
    }
}

fn offer_by(turn: &Turn, standing: Standing, heard: Option<Heard>) -> Option<Given>
    ensures { offer_as result ≡ offer_by (clock_of turn.now.state.now) (standing_of standing) (option_map heard_of heard) }
{
    match standing {
        Standing::Claimed => Some(Given::Trusted),
        Standing::Ignored(_) => None,
        Standing::Asked => heard_offer(turn, heard),
    }
}

/// What a candidate gives.
fn offer(turn: &Turn, logs: &KnownLogs, candidate: u32) -> Option<Given>
    ensures { offer_as result ≡ knows_by (reading_in turn.now logs.now) (work_of turn.now.work.now) candidate }
{
    offer_by(turn, logs.standing(candidate), turn.heard(candidate))
}

fn is_counted(side: Side, item: &Item) -> bool
    ensures { result ≡ counts side item.now }
{
    match side {
        Side::Local => true,
        Side::Remote => is_full(item.kind()),
    }
}

fn counted(side: Side, items: &[Item]) -> usize
    ensures { result ≡ count_by (counts side) items.now }
{
    items.iter().filter(|item| is_counted(side, item)).count()
}

/// Whether the evidence is enough.
pub(crate) fn is_enough(side: Side, need: Need, items: &[Item]) -> bool
    ensures { result ≡ is_enough side need items.now }
{
    items.len() >= need.n.max(need.m) as usize && counted(side, items) >= need.m as usize
}

/// The least end of the holds.
pub(crate) fn least_end(items: &[Item]) -> Option<u128>
    ensures { result ≡ least_end items.now }
{
    items.iter().filter_map(|item| end_of(item.kind())).min()
}

/// The evidence of these candidates, asked one after the other.
pub(crate) fn gather(
    alloc: Global,
    turn: &Turn,
    logs: &KnownLogs,
    side: Side,
    candidates: &[u32],
) -> Result<Vec<Item>, NoMemory>
    ensures { IfOk result (λ items. items.items ≡ gather side logs.now.need (knows_by (reading_in turn.now logs.now) (work_of turn.now.work.now)) (reached_candidates (asks_by (reading_in turn.now logs.now) (work_of turn.now.work.now)) candidates.now) []) }
{
    let mut items = Vec::new(alloc);
    let need = logs.need();
    for c in candidates.iter() {
        if asks(turn, logs, *c) {
            return Ok(items);
        }
        if is_enough(side, need, &items) {
            return Ok(items);
        }
        if let Some(kind) = offer(turn, logs, *c) {
            items.push(Item::new(*c, kind))?;
        }
    }
    Ok(items)
}

/// The candidate that is asked next.
pub(crate) fn next(turn: &Turn, logs: &KnownLogs, candidates: &[u32]) -> Option<u32>
    ensures { result ≡ find (asks_by (reading_in turn.now logs.now) (work_of turn.now.work.now)) candidates.now }
{
    for c in candidates.iter() {
        if asks(turn, logs, *c) {
            return Some(*c);
        }
    }
    None
}

// ---- why candidates gave nothing

fn cause_of_word(word: Option<Word>) -> Cause
    ensures { result ≡ cause_of_word word }
{
    match word {
        Some(Word::Absent) => Cause::Absent,
        Some(Word::Barred) => Cause::Barred,
        _ => Cause::Fault,
    }
}

fn cause_heard(word: Option<Word>, heard: Option<Heard>) -> Cause
    ensures { result ≡ cause_heard word (option_map heard_of heard) }
{
    match heard {
        Some(Heard::Lacks(cause)) => cause,
        _ => cause_of_word(word),
    }
}

fn cause_by(word: Option<Word>, standing: Standing, heard: Option<Heard>) -> Cause
    ensures { result ≡ cause_by word (standing_of standing) (option_map heard_of heard) }
{
    match standing {
        Standing::Ignored(cause) => cause,
        Standing::Claimed | Standing::Asked => cause_heard(word, heard),
    }
}

/// Why a candidate gave nothing.
fn cause(turn: &Turn, logs: &KnownLogs, candidate: u32) -> Cause
    ensures { result ≡ cause_in turn.now logs.now candidate }
{
    cause_by(
        turn.word(candidate),
        logs.standing(candidate),
        turn.heard(candidate),
    )
}

/// The candidates that gave nothing, in order, each with its cause.
pub(crate) fn failures(
    alloc: Global,
    turn: &Turn,
    logs: &KnownLogs,
    candidates: &[u32],
) -> Result<Vec<CandidateCause>, NoMemory>
    ensures { IfOk result (λ causes. causes.items ≡ failures (knows_by (reading_in turn.now logs.now) (work_of turn.now.work.now)) (cause_in turn.now logs.now) candidates.now) }
{
    let mut causes = Vec::new(alloc);
    for c in candidates.iter() {
        if offer(turn, logs, *c).is_none() {
            let cause = cause(turn, logs, *c);
            causes.push(CandidateCause { repo: *c, cause })?;
        }
    }
    Ok(causes)
}
