//! The steps of a remote drop that take no frame.
ghost use Rattle.std.specs.Prelude.{◌≡◌, ◌<◌, ◌==◌, ℕ, List, All, Bool, true, false, None, Some, IfOk, OnErr};
ghost use Rattle.std.specs.declared.option.Option.{Option};
ghost use Rattle.annex_base.specs.declared.kinds.Call.{Call};
ghost use Rattle.drop_proof.specs.declared.rule.Side.TheVariants as sides;
ghost use Rattle.drop_proof.specs.Judging.{least_end};
ghost use Rattle.node_model.specs.DropStep.{expiry, lacking_outcome, removal_outcome};
ghost use Rattle.node_model.specs.Evidence.{Asked};
ghost use Rattle.node_model.specs.Jobs.{unshared_cause};
ghost use Rattle.node_model.specs.Knows.{denial_of, obeyed_outcome};
ghost use Rattle.node_model.specs.Requests.{goes_to};
ghost use Rattle.node_model.specs.Turns.{outcome_of};
ghost use Rattle.content_lock.specs.Rows.{Rows, bar_at};
ghost use Rattle.drop_phases.specs.Apart.{StaysApart, StaysApartIn};
ghost use Rattle.drop_phases.specs.Working.{Rest, heard_in, outcome_as, phase_as, sight, turn_in};
ghost use Rattle.drop_phases.specs.Doing.{Acts};
ghost use Rattle.drop_phases.specs.Leaving.{GoesSo, stands_on, store};
ghost use Rattle.remote_requests.specs.Remote.{DidRemote, GivesNone, IsRemote, PassesBy, Speaks, StandsRemote, FollowsShareRefused, known_remotely, remote_candidates};
ghost use Rattle.drop_phases.specs.Begun.{CanStand, HasGone, IsOther, IsToEnd};
ghost use Rattle.drop_phases.specs.Sides.{HearsOwn, IsNumbered};
ghost use Rattle.drop_phases.specs.Calling.{MakesPhase};

use annex_base::{Items, NoMemory, Text, Word};
use content_lock::{LockTable, ShareRefused};
use drop_judging::{LOCK_TIME, failures, gather, next, proof};
use drop_phases::{
    Ending, Heard, Here, Input, Output, ParcelBody, Phase, Standing, Time, Worker, quietly, talk,
    telling,
};
use drop_proof::{Evidence, Judged, Side, judge};
use object_store::Keeper;
use remote_requests::{candidates, finish, first_end, locks_end, reads_all, request};
use run_data::{By, Cause, Denial, DropRefusal, EntryKind, Outcome, Proof};
use std::alloc::Global;

/// The step of a remote drop that awaits no frame.
pub fn act<K: Keeper, H: Here>(
    worker: &mut Worker,
    alloc: Global,
    here: &H,
    table: &mut LockTable,
    keeper: &mut K,
    input: &Input,
    target: u32,
) -> Result<Output, NoMemory>
    requires stands { StandsRemote target (K.records keeper.old) table.old worker.old }
    requires other { IsOther (H.reading here.now) target }
    requires own { (worker.old.phase ≡ Phase.Fresh → ⊥) → HearsOwn sides.Remote (H.reading here.now) worker.old }
    requires awaits { stands_on worker.old ≡ None }
    requires fresh { All (λ h. h.number < input.now.number) table.old.holds }
    ensures did { DidRemote table.old table.new (store (K.contents keeper.old) (K.records keeper.old) (K.faults keeper.old)) (store (K.contents keeper.new) (K.records keeper.new) (K.faults keeper.new)) worker.old worker.new
        (GoesSo (sight (H.reading here.now) (H.ends here.now) input.now.time input.now.number) (K.contents keeper.old) table.old table.new worker.old worker.new) result }
    ensures begun { IfOk result (λ out. CanStand (H.reading here.now) worker.old.phase → HasGone (H.reading here.now) worker.old worker.new out) }
    ensures apart { IfOk result (StaysApartIn (H.reading here.now).repo target worker.old worker.new) }
    ensures own { IfOk result (λ out. out.ended ≡ false → HearsOwn sides.Remote (H.reading here.now) worker.new) }
    ensures numbered { IfOk result (λ out. IsNumbered input.now.number out.kind) }
    ensures calls { MakesPhase (sight (H.reading here.now) (H.ends here.now) input.now.time input.now.number) (K.contents keeper.old) table.old worker.old (K.failing keeper.old) (K.failing keeper.new) result }
    ensures parts { K.parts keeper.new ≡ K.parts keeper.old }
    ensures files { K.files keeper.new ≡ K.files keeper.old }
{
    match worker.phase() {
        Phase::Fresh => begin(worker, alloc, here, table, keeper, input, target),
        Phase::Next => go_on(worker, alloc, here, table, keeper, input.time, target),
        Phase::Removed | Phase::Denied | Phase::Late { time: _ } | Phase::Ends(_) => {
            let outcome = outcome(worker, alloc, here, target)?;
            finish(worker, alloc, here, table, keeper, input.time, outcome)
        }
        _ => unreachable!(),
    }
}

// ---- its own share

/// The first step: a drop is refused whose target requires the content.
fn begin<K: Keeper, H: Here>(
    worker: &mut Worker,
    alloc: Global,
    here: &H,
    table: &mut LockTable,
    keeper: &mut K,
    input: &Input,
    target: u32,
) -> Result<Output, NoMemory>
    requires stands { StandsRemote target (K.records keeper.old) table.old worker.old }
    requires at { worker.old.phase ≡ Phase.Fresh }
    requires fresh { All (λ h. h.number < input.now.number) table.old.holds }
    ensures did { DidRemote table.old table.new (store (K.contents keeper.old) (K.records keeper.old) (K.faults keeper.old)) (store (K.contents keeper.new) (K.records keeper.new) (K.faults keeper.new)) worker.old worker.new
        (GoesSo (sight (H.reading here.now) (H.ends here.now) input.now.time input.now.number) (K.contents keeper.old) table.old table.new worker.old worker.new) result }
    ensures begun { IfOk result (λ out. CanStand (H.reading here.now) worker.old.phase → HasGone (H.reading here.now) worker.old worker.new out) }
    ensures apart { IfOk result (StaysApartIn (H.reading here.now).repo target worker.old worker.new) }
    ensures own { IfOk result (λ out. out.ended ≡ false → HearsOwn sides.Remote (H.reading here.now) worker.new) }
    ensures numbered { IfOk result (λ out. IsNumbered input.now.number out.kind) }
    ensures calls { MakesPhase (sight (H.reading here.now) (H.ends here.now) input.now.time input.now.number) (K.contents keeper.old) table.old worker.old (K.failing keeper.old) (K.failing keeper.new) result }
    ensures parts { K.parts keeper.new ≡ K.parts keeper.old }
    ensures files { K.files keeper.new ≡ K.files keeper.old }
{
    match here.required() {
        Some(text) => end_required(worker, alloc, here, table, keeper, input.time, target, text),
        None => try_own(worker, alloc, here, table, keeper, input, target),
    }
}

/// Its target requires the content by this expression.
fn end_required<K: Keeper, H: Here>(
    worker: &mut Worker,
    alloc: Global,
    here: &H,
    table: &mut LockTable,
    keeper: &mut K,
    time: Time,
    target: u32,
    text: &Text,
) -> Result<Output, NoMemory>
    requires stands { StandsRemote target (K.records keeper.old) table.old worker.old }
    requires at { worker.old.phase ≡ Phase.Fresh }
    requires required { (H.reading here.now).requires ≡ Some text.now }
    ensures did { (number : ℕ) → DidRemote table.old table.new (store (K.contents keeper.old) (K.records keeper.old) (K.faults keeper.old)) (store (K.contents keeper.new) (K.records keeper.new) (K.faults keeper.new)) worker.old worker.new
        (GoesSo (sight (H.reading here.now) (H.ends here.now) time number) (K.contents keeper.old) table.old table.new worker.old worker.new) result }
    ensures begun { IfOk result (λ out. CanStand (H.reading here.now) worker.old.phase → HasGone (H.reading here.now) worker.old worker.new out) }
    ensures apart { IfOk result (StaysApart target worker.old worker.new) }
    ensures ended { IfOk result (λ out. out.ended ≡ true) }
    ensures numbered { IfOk result (λ out. (n : ℕ) → IsNumbered n out.kind) }
    ensures calls { (number : ℕ) → MakesPhase (sight (H.reading here.now) (H.ends here.now) time number) (K.contents keeper.old) table.old worker.old (K.failing keeper.old) (K.failing keeper.new) result }
    ensures parts { K.parts keeper.new ≡ K.parts keeper.old }
    ensures files { K.files keeper.new ≡ K.files keeper.old }
{
    let expression = text.clone()?;
    let why = DropRefusal::Required { expression };
    finish(
        worker,
        alloc,
        here,
        table,
        keeper,
        time,
        Outcome::Refused(why),
    )
}

/// It tries a share of its own repository, unless that isn't asked.
fn try_own<K: Keeper, H: Here>(
    worker: &mut Worker,
    alloc: Global,
    here: &H,
    table: &mut LockTable,
    keeper: &mut K,
    input: &Input,
    target: u32,
) -> Result<Output, NoMemory>
    requires stands { StandsRemote target (K.records keeper.old) table.old worker.old }
    requires at { worker.old.phase ≡ Phase.Fresh }
    requires spared { (H.reading here.now).requires ≡ None }
    requires fresh { All (λ h. h.number < input.now.number) table.old.holds }
    ensures did { DidRemote table.old table.new (store (K.contents keeper.old) (K.records keeper.old) (K.faults keeper.old)) (store (K.contents keeper.new) (K.records keeper.new) (K.faults keeper.new)) worker.old worker.new
        (GoesSo (sight (H.reading here.now) (H.ends here.now) input.now.time input.now.number) (K.contents keeper.old) table.old table.new worker.old worker.new) result }
    ensures begun { IfOk result (λ out. CanStand (H.reading here.now) worker.old.phase → HasGone (H.reading here.now) worker.old worker.new out) }
    ensures apart { IfOk result (StaysApartIn (H.reading here.now).repo target worker.old worker.new) }
    ensures own { IfOk result (λ out. out.ended ≡ false → HearsOwn sides.Remote (H.reading here.now) worker.new) }
    ensures numbered { IfOk result (λ out. IsNumbered input.now.number out.kind) }
    ensures calls { MakesPhase (sight (H.reading here.now) (H.ends here.now) input.now.time input.now.number) (K.contents keeper.old) table.old worker.old (K.failing keeper.old) (K.failing keeper.new) result }
    ensures parts { K.parts keeper.new ≡ K.parts keeper.old }
    ensures files { K.files keeper.new ≡ K.files keeper.old }
{
    match here.standing(here.repo()) {
        Standing::Asked => share_own(worker, alloc, here, table, keeper, input, target),
        Standing::Claimed => pass_by(worker, alloc, here, table),
        Standing::Ignored(_) => pass_by(worker, alloc, here, table),
    }
}

/// Its own repository isn't asked: it hears why it has no share there.
fn pass_by<H: Here>(
    worker: &mut Worker,
    alloc: Global,
    here: &H,
    table: &LockTable,
) -> Result<Output, NoMemory>
    ensures passes { IfOk result (PassesBy (H.reading here.now).repo (bar_at table.now worker.old.job.key) worker.old worker.new) }
    ensures err { OnErr result (worker.new ≡ worker.old) }
{
    let cause = unshared_cause(table.barring(worker.key()));
    worker.hear(here.repo(), Heard::Lacks(cause))?;
    Ok(quietly(alloc, talk(worker.number())))
}

/// Why it has no share of its own repository's content, by the job whose bar stands there.
fn unshared_cause(barred: Option<u32>) -> Cause
    ensures { result ≡ unshared_cause barred }
{
    match barred {
        None => Cause::Absent,
        Some(_) => Cause::Barred,
    }
}

/// It takes a share of its own repository's content, or hears why there is none.
fn share_own<K: Keeper, H: Here>(
    worker: &mut Worker,
    alloc: Global,
    here: &H,
    table: &mut LockTable,
    keeper: &mut K,
    input: &Input,
    target: u32,
) -> Result<Output, NoMemory>
    requires stands { StandsRemote target (K.records keeper.old) table.old worker.old }
    requires at { worker.old.phase ≡ Phase.Fresh }
    requires spared { (H.reading here.now).requires ≡ None }
    requires asked { (H.reading here.now).standing (H.reading here.now).repo ≡ Asked }
    requires fresh { All (λ h. h.number < input.now.number) table.old.holds }
    ensures did { DidRemote table.old table.new (store (K.contents keeper.old) (K.records keeper.old) (K.faults keeper.old)) (store (K.contents keeper.new) (K.records keeper.new) (K.faults keeper.new)) worker.old worker.new
        (GoesSo (sight (H.reading here.now) (H.ends here.now) input.now.time input.now.number) (K.contents keeper.old) table.old table.new worker.old worker.new) result }
    ensures begun { IfOk result (λ out. CanStand (H.reading here.now) worker.old.phase → HasGone (H.reading here.now) worker.old worker.new out) }
    ensures apart { IfOk result (StaysApartIn (H.reading here.now).repo target worker.old worker.new) }
    ensures own { IfOk result (λ out. out.ended ≡ false → HearsOwn sides.Remote (H.reading here.now) worker.new) }
    ensures numbered { IfOk result (λ out. IsNumbered input.now.number out.kind) }
    ensures calls { MakesPhase (sight (H.reading here.now) (H.ends here.now) input.now.time input.now.number) (K.contents keeper.old) table.old worker.old (K.failing keeper.old) (K.failing keeper.new) result }
    ensures parts { K.parts keeper.new ≡ K.parts keeper.old }
    ensures files { K.files keeper.new ≡ K.files keeper.old }
{
    let by = By::Job(worker.number());
    let clock = here.clock(input.time);
    let key = worker.key().copy()?;
    worker.hear(here.repo(), Heard::Held { since: input.time })?;
    match table.share(keeper, worker.key(), input.number, clock, by) {
        Ok(share) => {
            worker.take_share(share);
            let end = clock + LOCK_TIME;
            let hold = input.number;
            Ok(quietly(alloc, EntryKind::Share { hold, end, by, key }))
        }
        Err(why) => unshared(worker, alloc, table, why),
    }
}

/// Its own repository gives nothing. Without memory the worker is as it was before it heard of its own repository.
fn unshared(
    worker: &mut Worker,
    alloc: Global,
    table: &LockTable,
    why: ShareRefused,
) -> Result<Output, NoMemory>
    ensures { FollowsShareRefused (bar_at table.now worker.old.job.key) why worker.old worker.new result }
{
    let number = worker.number();
    match why {
        ShareRefused::Absent => Ok(go_without(worker, alloc, table)),
        ShareRefused::Barred { job: _ } => Ok(go_without(worker, alloc, table)),
        ShareRefused::StoreFault { call } => {
            worker.rehear(Heard::Lacks(Cause::Fault));
            let by = By::Job(number);
            Ok(quietly(alloc, EntryKind::Fault { call, by }))
        }
        ShareRefused::NoMemory => {
            worker.unhear(Phase::Fresh);
            Err(NoMemory)
        }
    }
}

/// It has no share of its own repository's content.
fn go_without(worker: &mut Worker, alloc: Global, table: &LockTable) -> Output
    ensures { GivesNone (EntryKind.Talk (Some worker.old.number)) (unshared_cause (bar_at table.now worker.old.job.key)) worker.old worker.new result }
{
    let number = worker.number();
    let cause = unshared_cause(table.barring(worker.key()));
    worker.rehear(Heard::Lacks(cause));
    quietly(alloc, talk(number))
}

// ---- its judgement

/// The step of a remote drop that has heard of a candidate: it judges.
fn go_on<K: Keeper, H: Here>(
    worker: &mut Worker,
    alloc: Global,
    here: &H,
    table: &mut LockTable,
    keeper: &mut K,
    time: Time,
    target: u32,
) -> Result<Output, NoMemory>
    requires stands { StandsRemote target (K.records keeper.old) table.old worker.old }
    requires other { IsOther (H.reading here.now) target }
    requires own { HearsOwn sides.Remote (H.reading here.now) worker.old }
    requires at { worker.old.phase ≡ Phase.Next }
    ensures did { (number : ℕ) → DidRemote table.old table.new (store (K.contents keeper.old) (K.records keeper.old) (K.faults keeper.old)) (store (K.contents keeper.new) (K.records keeper.new) (K.faults keeper.new)) worker.old worker.new
        (GoesSo (sight (H.reading here.now) (H.ends here.now) time number) (K.contents keeper.old) table.old table.new worker.old worker.new) result }
    ensures begun { IfOk result (λ out. CanStand (H.reading here.now) worker.old.phase → HasGone (H.reading here.now) worker.old worker.new out) }
    ensures apart { IfOk result (StaysApart target worker.old worker.new) }
    ensures numbered { IfOk result (λ out. (n : ℕ) → IsNumbered n out.kind) }
    ensures calls { (number : ℕ) → MakesPhase (sight (H.reading here.now) (H.ends here.now) time number) (K.contents keeper.old) table.old worker.old (K.failing keeper.old) (K.failing keeper.new) result }
    ensures parts { K.parts keeper.new ≡ K.parts keeper.old }
    ensures files { K.files keeper.new ≡ K.files keeper.old }
{
    let candidates = candidates(alloc, here, target)?;
    let items = gather(worker, alloc, here, Side::Remote, &candidates)?;
    let end = first_end(&items);
    match judge(&items, here.need(), Side::Remote) {
        Judged::Enough { end: _ } => go_to(worker, alloc, here, time, target, target, end),
        Judged::Lacking { .. } => match next(worker, here, &candidates) {
            Some(peer) => go_to(worker, alloc, here, time, target, peer, end),
            None => {
                let why = lack(worker, alloc, here, target, &candidates, &items)?;
                finish(
                    worker,
                    alloc,
                    here,
                    table,
                    keeper,
                    time,
                    Outcome::Refused(why),
                )
            }
        },
    }
}

/// No candidate is left, and there is too little evidence.
fn lack<H: Here>(
    worker: &Worker,
    alloc: Global,
    here: &H,
    target: u32,
    candidates: &[u32],
    items: &[Evidence],
) -> Result<DropRefusal, NoMemory>
    requires remote { IsRemote target worker.now }
    requires apart { ((H.reading here.now).repo == target) ≡ false }
    requires all { candidates.now ≡ remote_candidates (H.reading here.now) target }
    requires known { items.now ≡ known_remotely (H.reading here.now) target worker.now }
    ensures { IfOk result (λ why. (time number : ℕ) (rows : Rows) (p : List ℕ → Bool) (fails : Option Call) (rest : Rest)
        → Outcome.Refused why ≡ lacking_outcome (turn_in (sight (H.reading here.now) (H.ends here.now) time number) rows p fails rest worker.now)) }
{
    let proof = proof(alloc, here, items)?;
    let causes = failures(worker, alloc, here, candidates)?;
    Ok(DropRefusal::Lacking {
        proof,
        causes: Items::from_vec(causes),
    })
}

// ---- its requests

/// It goes to a peer: the connection is opened, unless it is open. The end is the least of its locks, in milliseconds of the clock.
fn go_to<H: Here>(
    worker: &mut Worker,
    alloc: Global,
    here: &H,
    time: Time,
    target: u32,
    peer: u32,
    end: Option<u64>,
) -> Result<Output, NoMemory>
    requires remote { IsRemote target worker.old }
    requires next { worker.old.phase ≡ Phase.Next }
    requires other { IsOther (H.reading here.now) peer }
    requires known { end ≡ least_end (known_remotely (H.reading here.now) target worker.old) }
    ensures does { IfOk result (λ out. (rows : Rows) → Acts (H.reading here.now) (H.ends here.now) time rows rows worker.old worker.new (λ t. goes_to t peer) out) }
    ensures speaks { IfOk result (Speaks worker.old worker.new) }
    ensures begun { IfOk result (HasGone (H.reading here.now) worker.old worker.new) }
    ensures apart { IfOk result (λ out. heard_in worker.old.heard peer ≡ None → StaysApart target worker.old worker.new out) }
    ensures err { OnErr result (worker.new ≡ worker.old) }
{
    if !here.is_open(peer, worker.slot()) {
        let out = telling(alloc, worker.number(), peer, ParcelBody::Open)?;
        worker.go_to(Phase::Opens { peer });
        return Ok(out);
    }
    // For the proof: what it says are lines of the protocol.
    reads_all(worker.key());
    let version = worker.version();
    request(worker, alloc, here, time, target, peer, version, end)
}

// ---- its ends

/// How a job ends that is to end.
fn outcome<H: Here>(
    worker: &Worker,
    alloc: Global,
    here: &H,
    target: u32,
) -> Result<Outcome, NoMemory>
    requires remote { IsRemote target worker.now }
    requires at { IsToEnd worker.now.phase }
    ensures { IfOk result (λ o. (time number : ℕ) (rows : Rows) (p : List ℕ → Bool) (fails : Option Call) (rest : Rest)
        → o ≡ outcome_of (turn_in (sight (H.reading here.now) (H.ends here.now) time number) rows p fails rest worker.now) (phase_as worker.now.phase)) }
{
    match worker.phase() {
        Phase::Removed => obeyed(worker, alloc, here, target),
        Phase::Late { time } => late(worker, alloc, here, target, time),
        Phase::Denied => Ok(denied(worker.word())),
        Phase::Ends(why) => Ok(Outcome::Refused(refusal(why))),
        _ => unreachable!(),
    }
}

/// The target obeyed: it removed the content, or had none.
fn obeyed<H: Here>(
    worker: &Worker,
    alloc: Global,
    here: &H,
    target: u32,
) -> Result<Outcome, NoMemory>
    requires remote { IsRemote target worker.now }
    ensures { IfOk result (λ o. (time number : ℕ) (rows : Rows) (p : List ℕ → Bool) (fails : Option Call) (rest : Rest)
        → o ≡ removal_outcome sides.Remote (turn_in (sight (H.reading here.now) (H.ends here.now) time number) rows p fails rest worker.now)) }
{
    let candidates = candidates(alloc, here, target)?;
    let items = gather(worker, alloc, here, Side::Remote, &candidates)?;
    let proof = proof(alloc, here, &items)?;
    Ok(obeyed_outcome(worker.word(), proof))
}

fn obeyed_outcome(word: Option<Word>, proof: Proof) -> Outcome
    ensures { result ≡ obeyed_outcome word proof }
{
    match word {
        Some(Word::Absent) => Outcome::DroppedAbsent(proof),
        _ => Outcome::Dropped(proof),
    }
}

/// The locks had expired at this time.
fn late<H: Here>(
    worker: &Worker,
    alloc: Global,
    here: &H,
    target: u32,
    time: Time,
) -> Result<Outcome, NoMemory>
    ensures { IfOk result (λ o. o ≡ expiry ((H.reading here.now).clock time) (least_end (known_remotely (H.reading here.now) target worker.now))) }
{
    let end = locks_end(worker, alloc, here, target)?;
    Ok(expiry(here.clock(time), end))
}

fn expiry(clock: u64, end: Option<u64>) -> Outcome
    ensures { result ≡ expiry clock end }
{
    let end = end.unwrap_or(0);
    Outcome::Refused(DropRefusal::Expired { end, clock })
}

/// The target refused the order.
fn denied(word: Option<Word>) -> Outcome
    ensures { result ≡ Outcome.Refused (DropRefusal.Denied (denial_of word)) }
{
    let answer = denial(word);
    Outcome::Refused(DropRefusal::Denied { answer })
}

/// The word beside a refused order.
fn denial(word: Option<Word>) -> Denial
    ensures { result ≡ denial_of word }
{
    match word {
        Some(Word::Late) => Denial::Late,
        Some(Word::Barred) => Denial::Barred,
        Some(Word::Held) => Denial::Held,
        _ => Denial::Fault,
    }
}

fn refusal(why: Ending) -> DropRefusal
    ensures { Outcome.Refused result ≡ outcome_as why }
{
    match why {
        Ending::Lost { ordered } => DropRefusal::Lost { ordered },
        Ending::OldProtocol { version } => DropRefusal::OldProtocol { version },
        Ending::StoreFault => DropRefusal::StoreFault,
    }
}
