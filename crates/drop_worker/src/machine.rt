//! The step of a drop, which its contract ties to the step of the job's slot.
ghost use Rattle.std.specs.Prelude.{◌≡◌, ◌≤◌, ◌<◌, ℕ, All, List, map, false, Some, None, if◌then◌else◌, IfOk, IfSome, OnErr};
ghost use Rattle.std.specs.declared.option.Option.{Option};
ghost use Rattle.std.specs.Option.{ForSome, option_map};
ghost use Rattle.annex_base.specs.Causes.{Rose};
ghost use Rattle.drop_proof.specs.declared.rule.Side.TheVariants as sides;
ghost use Rattle.run_data.specs.declared.entry.EntryKind.TheVariants.{Crash};
ghost use Rattle.run_data.specs.declared.entry.FrameView.{FrameView};
ghost use Rattle.node_model.specs.Rows.{holds_after};
ghost use Rattle.node_model.specs.SetUp.{SetUp};
ghost use Rattle.node_model.specs.State.{State};
ghost use Rattle.node_model.specs.Look.{Effect, Look, failed_in};
ghost use Rattle.node_model.specs.Jobs.{Work, partner};
ghost use Rattle.node_model.specs.Turns.{slot_step};
ghost use Rattle.content_lock.specs.Rows.{AreAfter, bar_at};
ghost use Rattle.content_lock.specs.Stored.{Agrees, label_of};
ghost use Rattle.drop_phases.specs.Working.{phase_as, sight};
ghost use Rattle.drop_phases.specs.Doing.{Grows, HasToken, OthersStay, contents_after, is_barring};
ghost use Rattle.drop_phases.specs.Apart.{GoesApartSo, IsApart, StaysApartIn};
ghost use Rattle.drop_phases.specs.Begun.{CanStand, HasGone, IsOther};
ghost use Rattle.drop_phases.specs.Feeding.{FitsLocal, IsOfLocal, KeepsAnswer, KeepsWord, ToldAt};
ghost use Rattle.drop_phases.specs.Leaving.{Advances, Did, store};
ghost use Rattle.remote_requests.specs.Remote.{DidRemote, StandsRemote};
ghost use Rattle.drop_phases.specs.Sides.{CanShare, FitsSide, HasTarget, HearsOwn, IsNumbered, side_in};
ghost use Rattle.drop_worker.specs.States.{Sees, StepsSo};
ghost use Rattle.drop_phases.specs.Calling.{MakesSo};
ghost use Rattle.content_lock.specs.CallsMade.{MakesCalls, fewer};
ghost use Rattle.drop_worker.specs.Stepping.{AdvancesSo, DidSo};

use annex_base::NoMemory;
use content_lock::LockTable;
use drop_phases::{Here, Input, Output, Phase, Token, Worker};
use object_store::Keeper;
use std::alloc::Global;

/// One step of a drop: an entry, what is sent with it, and whether the job has ended with it. It is told what came at the
/// end on which the job awaits a frame, or nothing where the job awaits none. Want of memory changes nothing.
pub fn step<K: Keeper, H: Here>(
    worker: &mut Worker,
    alloc: Global,
    here: &H,
    table: &mut LockTable,
    keeper: &mut K,
    input: &Input,
) -> Result<Output, NoMemory>
    requires target { HasTarget (side_in worker.old) worker.old.job.peer (H.reading here.now) }
    requires own { (worker.old.phase ≡ Phase.Fresh → ⊥) → HearsOwn (side_in worker.old) (H.reading here.now) worker.old }
    requires fits { FitsSide (side_in worker.old) worker.old.phase worker.old.token }
    requires told { ToldAt (partner worker.old.job.peer (phase_as worker.old.phase)) input.now.taken }
    requires owns { HasToken worker.old.number worker.old.job.key worker.old.token table.old }
    requires shares { CanShare (side_in worker.old) (K.records keeper.old) table.old.holds input.now.number }

    // Of each state that these are, at a look at which the entry's call fails: the slot's step is this one.
    ensures step { IfOk result (λ out. ForSome (K.contents keeper.old) (λ c. (s : SetUp) (st : State) (k : Look) (v : Work) (f : Option FrameView)
        → Sees (sight (H.reading here.now) (H.ends here.now) input.now.time input.now.number) table.old c worker.old input.now.taken (failed_in out.kind) s st k v f
        → StepsSo (sight (H.reading here.now) (H.ends here.now) input.now.time input.now.number) worker.old worker.new out s st k v f)) }

    // Of each such state: of the calls that the slot's step makes, the first that was to fail has failed.
    ensures calls { IfOk result (λ out. ForSome (K.contents keeper.old) (λ c. (s : SetUp) (st : State) (k : Look) (v : Work) (f : Option FrameView)
        → Sees (sight (H.reading here.now) (H.ends here.now) input.now.time input.now.number) table.old c worker.old input.now.taken (failed_in out.kind) s st k v f
        → ForSome (slot_step s st k (Some v)) (λ (m : Effect). MakesCalls m.calls (failed_in out.kind) (K.failing keeper.old) (K.failing keeper.new)))) }
    ensures left { IfOk result (λ out. K.failing keeper.new ≡ option_map (fewer (failed_in out.kind)) (K.failing keeper.old)) }
    ensures err_failing { OnErr result (K.failing keeper.new ≡ K.failing keeper.old) }

    ensures word { IfOk result (λ out. KeepsWord input.now.taken input.now.word worker.old worker.new) }
    ensures answer { IfOk result (λ out. KeepsAnswer input.now.taken input.now.word worker.old worker.new) }
    ensures heard { Grows worker.old.heard worker.new.heard }
    ensures after { IfOk result (λ out. AreAfter out.kind table.old table.new) }
    ensures contents { IfOk result (λ out. K.contents keeper.new ≡ contents_after (K.contents keeper.old) out.kind) }
    ensures parts { K.parts keeper.new ≡ K.parts keeper.old }
    ensures files { K.files keeper.new ≡ K.files keeper.old }
    ensures agrees { Agrees (K.records keeper.old) table.old.holds → Agrees (K.records keeper.new) table.new.holds }
    ensures owns { HasToken worker.new.number worker.new.job.key worker.new.token table.new }
    ensures fits { IfOk result (λ out. out.ended ≡ false → FitsSide (side_in worker.old) worker.new.phase worker.new.token) }
    ensures begun { IfOk result (λ out. CanStand (H.reading here.now) worker.old.phase → HasGone (H.reading here.now) worker.old worker.new out) }
    ensures own { IfOk result (λ out. out.ended ≡ false → HearsOwn (side_in worker.old) (H.reading here.now) worker.new) }
    ensures apart { IfOk result (λ out. IsApart (side_in worker.old) worker.old.job.peer worker.old → GoesApartSo (side_in worker.old) worker.old.job.peer (H.reading here.now).repo worker.old worker.new out) }
    ensures job { (worker.new.number ≡ worker.old.number) × (worker.new.job ≡ worker.old.job) }
    ensures others { OthersStay worker.old.number table.old table.new }
    ensures err { OnErr result ((worker.new ≡ worker.old) × (table.new ≡ table.old) × (K.contents keeper.new ≡ K.contents keeper.old) × (K.records keeper.new ≡ K.records keeper.old)) }
    ensures later { K.faults keeper.old ≤ K.faults keeper.new }
    ensures cause { IfOk result (λ out. IfSome (failed_in out.kind) (λ call. Rose (K.faults keeper.old) (K.faults keeper.new))) }
    ensures numbered { IfOk result (λ out. IsNumbered input.now.number out.kind) }

    // A local drop has no holds.
    ensures holds { side_in worker.old ≡ sides.Local → table.new.holds ≡ table.old.holds }
    ensures records { side_in worker.old ≡ sides.Local → K.records keeper.new ≡ K.records keeper.old }
{
    advance(worker, alloc, here, table, keeper, input)
}

/// The step, in the words of a turn.
fn advance<K: Keeper, H: Here>(
    worker: &mut Worker,
    alloc: Global,
    here: &H,
    table: &mut LockTable,
    keeper: &mut K,
    input: &Input,
) -> Result<Output, NoMemory>
    requires target { HasTarget (side_in worker.old) worker.old.job.peer (H.reading here.now) }
    requires own { (worker.old.phase ≡ Phase.Fresh → ⊥) → HearsOwn (side_in worker.old) (H.reading here.now) worker.old }
    requires fits { FitsSide (side_in worker.old) worker.old.phase worker.old.token }
    requires told { ToldAt (partner worker.old.job.peer (phase_as worker.old.phase)) input.now.taken }
    requires owns { HasToken worker.old.number worker.old.job.key worker.old.token table.old }
    requires shares { CanShare (side_in worker.old) (K.records keeper.old) table.old.holds input.now.number }
    ensures does { DidSo table.old table.new (store (K.contents keeper.old) (K.records keeper.old) (K.faults keeper.old)) (store (K.contents keeper.new) (K.records keeper.new) (K.faults keeper.new)) worker.old worker.new
        (AdvancesSo (sight (H.reading here.now) (H.ends here.now) input.now.time input.now.number) (K.contents keeper.old) table.old table.new worker.old worker.new input.now.taken input.now.word) result }
    ensures begun { IfOk result (λ out. CanStand (H.reading here.now) worker.old.phase → HasGone (H.reading here.now) worker.old worker.new out) }
    ensures own { IfOk result (λ out. out.ended ≡ false → HearsOwn (side_in worker.old) (H.reading here.now) worker.new) }
    ensures apart { IfOk result (λ out. IsApart (side_in worker.old) worker.old.job.peer worker.old → GoesApartSo (side_in worker.old) worker.old.job.peer (H.reading here.now).repo worker.old worker.new out) }
    ensures numbered { IfOk result (λ out. IsNumbered input.now.number out.kind) }
    ensures calls { MakesSo (sight (H.reading here.now) (H.ends here.now) input.now.time input.now.number) (K.contents keeper.old) table.old worker.old input.now.taken (K.failing keeper.old) (K.failing keeper.new) result }
    ensures parts { K.parts keeper.new ≡ K.parts keeper.old }
    ensures files { K.files keeper.new ≡ K.files keeper.old }
{
    match worker.target() {
        None => step_local(worker, alloc, here, table, keeper, input),
        Some(target) => step_remote(worker, alloc, here, table, keeper, input, target),
    }
}

/// The step of a local drop: by the frame that came where the job awaits one, and else from where it stands.
fn step_local<K: Keeper, H: Here>(
    worker: &mut Worker,
    alloc: Global,
    here: &H,
    table: &mut LockTable,
    keeper: &mut K,
    input: &Input,
) -> Result<Output, NoMemory>
    requires local { side_in worker.old ≡ sides.Local }
    requires fits { FitsLocal worker.old.phase worker.old.token }
    requires told { ToldAt (partner worker.old.job.peer (phase_as worker.old.phase)) input.now.taken }
    requires owns { HasToken worker.old.number worker.old.job.key worker.old.token table.old }
    ensures does { Did table.old table.new (store (K.contents keeper.old) (K.records keeper.old) (K.faults keeper.old)) (store (K.contents keeper.new) (K.records keeper.new) (K.faults keeper.new)) worker.old worker.new
        (Advances (sight (H.reading here.now) (H.ends here.now) input.now.time input.now.number) (K.contents keeper.old) table.old table.new worker.old worker.new input.now.taken input.now.word) result }
    ensures begun { IfOk result (λ out. CanStand (H.reading here.now) worker.old.phase → HasGone (H.reading here.now) worker.old worker.new out) }
    ensures numbered { IfOk result (λ out. IsNumbered input.now.number out.kind) }
    ensures calls { MakesSo (sight (H.reading here.now) (H.ends here.now) input.now.time input.now.number) (K.contents keeper.old) table.old worker.old input.now.taken (K.failing keeper.old) (K.failing keeper.new) result }
    ensures parts { K.parts keeper.new ≡ K.parts keeper.old }
    ensures files { K.files keeper.new ≡ K.files keeper.old }
{
    match worker.awaits() {
        Some(peer) => local_drops::hear(worker, alloc, input, peer),
        None => local_drops::act(worker, alloc, here, table, keeper, input),
    }
}

/// The step of a remote drop.
fn step_remote<K: Keeper, H: Here>(
    worker: &mut Worker,
    alloc: Global,
    here: &H,
    table: &mut LockTable,
    keeper: &mut K,
    input: &Input,
    target: u32,
) -> Result<Output, NoMemory>
    requires stands { StandsRemote target (K.records keeper.old) table.old worker.old }
    requires other { IsOther (H.reading here.now) target }
    requires own { (worker.old.phase ≡ Phase.Fresh → ⊥) → HearsOwn sides.Remote (H.reading here.now) worker.old }
    requires told { ToldAt (partner worker.old.job.peer (phase_as worker.old.phase)) input.now.taken }
    requires fresh { All (λ h. h.number < input.now.number) table.old.holds }
    ensures did { DidRemote table.old table.new (store (K.contents keeper.old) (K.records keeper.old) (K.faults keeper.old)) (store (K.contents keeper.new) (K.records keeper.new) (K.faults keeper.new)) worker.old worker.new
        (AdvancesSo (sight (H.reading here.now) (H.ends here.now) input.now.time input.now.number) (K.contents keeper.old) table.old table.new worker.old worker.new input.now.taken input.now.word) result }
    ensures begun { IfOk result (λ out. CanStand (H.reading here.now) worker.old.phase → HasGone (H.reading here.now) worker.old worker.new out) }
    ensures own { IfOk result (λ out. out.ended ≡ false → HearsOwn sides.Remote (H.reading here.now) worker.new) }
    ensures apart { IfOk result (StaysApartIn (H.reading here.now).repo target worker.old worker.new) }
    ensures numbered { IfOk result (λ out. IsNumbered input.now.number out.kind) }
    ensures calls { MakesSo (sight (H.reading here.now) (H.ends here.now) input.now.time input.now.number) (K.contents keeper.old) table.old worker.old input.now.taken (K.failing keeper.old) (K.failing keeper.new) result }
    ensures parts { K.parts keeper.new ≡ K.parts keeper.old }
    ensures files { K.files keeper.new ≡ K.files keeper.old }
{
    match worker.awaits() {
        Some(peer) => {
            remote_answers::hear(worker, alloc, here, table, keeper, input, target, peer)
        }
        None => remote_drops::act(worker, alloc, here, table, keeper, input, target),
    }
}

/// Ends the worker where its job has ended, or at a crash. What it still has of the table is given up: its bar is off, and its
/// share is abandoned.
pub fn end(worker: Worker, table: &mut LockTable)
    requires owns { HasToken worker.number worker.job.key worker.token table.old }
    ensures owns { HasToken worker.number worker.job.key Token.Nothing table.new }
    ensures bars { (k : List ℕ) → bar_at table.new k ≡ (if is_barring worker.token k then None else bar_at table.old k) }
    ensures others { OthersStay worker.number table.old table.new }
    ensures fills { table.new.fills ≡ table.old.fills }
    ensures labels { map label_of table.new.holds ≡ map label_of table.old.holds }
    ensures crash { (clock : ℕ) → holds_after table.new.holds (Crash clock) ≡ holds_after table.old.holds (Crash clock) }
    ensures nothing { worker.token ≡ Token.Nothing → table.new ≡ table.old }
    ensures holds { IsOfLocal worker.token → table.new.holds ≡ table.old.holds }
{
    match worker.into_token() {
        Token::Nothing => {}
        Token::Bar(bar) => table.unbar(bar),
        Token::Share(share) => table.abandon(share),
    }
}
