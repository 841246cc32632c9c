//! What a drop knows of the copies, candidate by candidate, and what it is to do by that.
ghost use Rattle.std.specs.Prelude.{◌≡◌, ◌+◌, ◌<◌, ◌≤◌, ◌^◌, ℕ, Bool, List, [], ◌∷◌, find, length, count_by, true, false, Some, None, IfOk};
ghost use Rattle.drop_proof.specs.Judging.{counts, is_enough};
ghost use Rattle.std.specs.declared.option.Option.{Option};
ghost use Rattle.annex_base.specs.declared.kinds.Call.{Call};
ghost use Rattle.drop_proof.specs.declared.rule.Side.TheVariants as sides;
ghost use Rattle.node_model.specs.Jobs.{Drops, drop_side};
ghost use Rattle.node_model.specs.Turns.{next_needs, next_step};
ghost use Rattle.content_lock.specs.Rows.{Rows};
ghost use Rattle.drop_phases.specs.Working.{Rest, sight, turn_in};
ghost use Rattle.drop_phases.specs.Begun.{IsOther};
ghost use Rattle.drop_judging.specs.Judging.{step_by, needs_by, asks_of, evidence_of, offer_as, offer_heard, offer_of, others_in};

use annex_base::NoMemory;
use drop_phases::{Heard, Here, Standing, Time, Worker, newest};
use drop_proof::{Evidence, Judged, Kind, Need, Side};
use std::alloc::Global;

/// How long a lock lasts, in milliseconds: ten minutes.
pub const LOCK_TIME: u64 = 600_000;

/// Whether a candidate is to be asked.
fn asks<H: Here>(worker: &Worker, here: &H, candidate: u32) -> bool
    ensures { result ≡ asks_of (H.reading here.now) worker.now candidate }
{
    match here.standing(candidate) {
        Standing::Asked => match newest(worker.heard(), candidate) {
            None => true,
            Some(_) => false,
        },
        Standing::Claimed | Standing::Ignored(_) => false,
    }
}

/// A lock that was asked for at this time.
fn lock_since<H: Here>(since: Time, here: &H) -> Kind
    ensures { result ≡ Kind.Locked ((H.reading here.now).clock since + 600000) }
{
    let asked = here.clock(since);
    Kind::Locked {
        end: asked + LOCK_TIME,
    }
}

/// What a candidate gives of which this was heard.
fn heard_kind<H: Here>(heard: Heard, here: &H) -> Option<Kind>
    ensures { offer_as result ≡ offer_heard (H.reading here.now).clock (Some heard) }
{
    match heard {
        Heard::Held { since } => Some(lock_since(since, here)),
        Heard::Seen => Some(Kind::Recent),
        Heard::Unseen { word: _ } | Heard::Lacks(_) => None,
    }
}

/// What a candidate gives.
pub fn offer<H: Here>(worker: &Worker, here: &H, candidate: u32) -> Option<Kind>
    ensures { offer_as result ≡ offer_of (H.reading here.now) worker.now candidate }
{
    match here.standing(candidate) {
        Standing::Claimed => Some(Kind::Trusted),
        Standing::Ignored(_) => None,
        Standing::Asked => match newest(worker.heard(), candidate) {
            Some(heard) => heard_kind(heard, here),
            None => None,
        },
    }
}

/// The other repositories, in order of number.
pub fn others<H: Here>(alloc: Global, here: &H) -> Result<Vec<u32>, NoMemory>
    ensures all { IfOk result (λ cs. cs.items ≡ others_in (H.reading here.now)) }
    ensures few { IfOk result (λ cs. length cs.items < 2 ^ 32) }
{
    let mut found = Vec::new(alloc);
    let count = here.count();
    let repo = here.repo();
    for c in 0..count {
        if c != repo {
            found.push(c)?;
        }
    }
    Ok(found)
}

fn is_counted(side: Side, item: &Evidence) -> bool
    ensures { result ≡ counts side item.now }
{
    match side {
        Side::Local => true,
        Side::Remote => item.kind.is_full(),
    }
}

fn full_count(side: Side, items: &[Evidence]) -> usize
    ensures { result ≡ count_by (counts side) items.now }
{
    items.iter().filter(|item| is_counted(side, item)).count()
}

/// Whether the evidence is enough.
fn suffices(side: Side, need: Need, items: &[Evidence]) -> bool
    ensures { result ≡ is_enough side need items.now }
{
    items.len() >= need.n.max(need.m) as usize && full_count(side, items) >= need.m as usize
}

/// The evidence of these candidates, asked one after the other.
pub fn gather<H: Here>(
    worker: &Worker,
    alloc: Global,
    here: &H,
    side: Side,
    candidates: &[u32],
) -> Result<Vec<Evidence>, NoMemory>
    ensures known { IfOk result (λ items. items.items ≡ evidence_of side (H.reading here.now) worker.now candidates.now []) }
    ensures few { IfOk result (λ items. length items.items ≤ length candidates.now) }
{
    let mut items = Vec::new(alloc);
    let need = here.need();
    for c in candidates.iter() {
        if asks(worker, here, *c) {
            return Ok(items);
        }
        if suffices(side, need, &items) {
            return Ok(items);
        }
        if let Some(kind) = offer(worker, here, *c) {
            items.push(Evidence { repo: *c, kind })?;
        }
    }
    Ok(items)
}

/// The candidate that is asked next.
pub fn next<H: Here>(worker: &Worker, here: &H, candidates: &[u32]) -> Option<u32>
    ensures { result ≡ find (asks_of (H.reading here.now) worker.now) candidates.now }
{
    for c in candidates.iter() {
        if asks(worker, here, *c) {
            return Some(*c);
        }
    }
    None
}

/// What a local drop is to do next: ask a candidate, remove the content, or end, since its clock isn't below the least end of
/// its locks or since it lacks evidence.
#[derive(Clone, Copy, Debug, PartialEq, Eq)]
pub enum Verdict {
    Asks(u32),
    Removes,
    Late { end: u64, clock: u64 },
    Lacks,
}

/// Judges what a local drop knows.
pub fn judge<H: Here>(
    worker: &Worker,
    here: &H,
    time: Time,
    candidates: &[u32],
    items: &[Evidence],
) -> Verdict
    requires local { drop_side worker.now.job.kind worker.now.job.peer ≡ sides.Local }
    requires all { candidates.now ≡ others_in (H.reading here.now) }
    requires known { items.now ≡ evidence_of sides.Local (H.reading here.now) worker.now candidates.now [] }
    requires few { length items.now < 2 ^ 32 }
    ensures step { (number : ℕ) (rows : Rows) (p : List ℕ → Bool) (fails : Option Call) (rest : Rest) → step_by result (turn_in (sight (H.reading here.now) (H.ends here.now) time number) rows p fails rest worker.now) ≡ next_step (turn_in (sight (H.reading here.now) (H.ends here.now) time number) rows p fails rest worker.now) Drops }
    ensures needs { (number : ℕ) (rows : Rows) (p : List ℕ → Bool) (fails : Option Call) (rest : Rest) → needs_by result (turn_in (sight (H.reading here.now) (H.ends here.now) time number) rows p fails rest worker.now) ≡ next_needs (turn_in (sight (H.reading here.now) (H.ends here.now) time number) rows p fails rest worker.now) Drops }
    ensures other { (peer : ℕ) → result ≡ Verdict.Asks peer → IsOther (H.reading here.now) peer }
{
    match drop_proof::judge(items, here.need(), Side::Local) {
        Judged::Enough { end: None } => Verdict::Removes,
        Judged::Enough { end: Some(end) } => {
            let clock = here.clock(time);
            if clock < end {
                return Verdict::Removes;
            }
            Verdict::Late { end, clock }
        }
        Judged::Lacking { .. } => match next(worker, here, candidates) {
            Some(peer) => Verdict::Asks(peer),
            None => Verdict::Lacks,
        },
    }
}
