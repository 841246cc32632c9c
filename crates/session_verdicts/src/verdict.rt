//! The verdict on a part: it becomes the content where it matches its key, and is dropped else.
ghost use Rattle.std.specs.Prelude.{◌≡◌, ◌≤◌, ◌<◌, ◌-◌, ℕ, Bool, length, [], ◌∷◌, false, true, Some, None, IfOk, OnErr, IfSome, is_some};
ghost use Rattle.std.specs.Option.{ForSome, option_map};
ghost use Rattle.annex_base.specs.Causes.{Rose};
ghost use Rattle.node_model.specs.Calls.{to_commit};
ghost use Rattle.node_model.specs.SessionStep.{on_valid};
ghost use Rattle.content_lock.specs.Rows.{Rows};
ghost use Rattle.session_state.specs.Answers.{AnswersAsAsked, LeavesContents, contents_after};
ghost use Rattle.node_model.specs.Look.{failed_in};
ghost use Rattle.session_state.specs.Bounds.{IsNumberedStep};
ghost use Rattle.content_lock.specs.CallsMade.{MakesCalls, fewer};
ghost use Rattle.session_state.specs.Phases.{IsJudged, IsNoGain};
ghost use Rattle.session_state.specs.Talking.{AreAfterStep, IsPlain, SeesTaken, Tells, parts_after_valid};
ghost use Rattle.annex_base.specs.declared.kinds.Call.TheVariants as calls;

use annex_base::{Call, Failed, NoMemory};
use annex_key::Key;
use key_verify::{Verdict, judge_sum};
use object_store::{Keeper, KeeperFault};
use p2p_wire::Message;
use run_data::EntryKind;
use session_state::{Scene, Step, Taken};
use std::alloc::Global;

/// VALID: the part becomes the content where it matches its key, and is dropped else.
pub(crate) fn verify<K: Keeper>(
    scene: Scene,
    alloc: Global,
    keeper: &mut K,
    taken: &Taken,
) -> Result<Step, NoMemory>
    ensures does { IfOk result (λ step. ForSome (K.contents keeper.old) (λ c. (rows : Rows) (part : ℕ) (right : Bool) → SeesTaken (K.parts keeper.old) taken.now right → AnswersAsAsked scene rows c (K.contents keeper.new) part right (λ h. on_valid h taken.now.fill taken.now.size) step)) }
    ensures after { IfOk result (λ step. (rows : Rows) → AreAfterStep step.kind rows rows) }
    ensures judged { IfOk result (λ step. IsJudged taken.now step.kind) }
    ensures fits { IfOk result (IsNumberedStep scene.number) }
    ensures plain { IfOk result IsPlain }
    ensures parts { IfOk result (λ step. K.parts keeper.new ≡ parts_after_valid taken.now.fill step.kind (K.parts keeper.old)) }
    ensures err_contents { OnErr result (K.contents keeper.new ≡ K.contents keeper.old) }
    ensures err_parts { OnErr result (K.parts keeper.new ≡ K.parts keeper.old) }
    ensures records { K.records keeper.new ≡ K.records keeper.old }
    ensures files { K.files keeper.new ≡ K.files keeper.old }
    ensures told { is_some (K.parts keeper.old) ≡ true → is_some (K.contents keeper.new) ≡ is_some (K.contents keeper.old) }
    ensures later { K.faults keeper.old ≤ K.faults keeper.new }
    ensures cause { IfOk result (λ step. IfSome (failed_in step.kind) (λ call. Rose (K.faults keeper.old) (K.faults keeper.new))) }
    ensures calls { IfOk result (λ step. (right : Bool) → SeesTaken (K.parts keeper.old) taken.now right → MakesCalls (to_commit right) (failed_in step.kind) (K.failing keeper.old) (K.failing keeper.new)) }
    ensures left { IfOk result (λ step. K.failing keeper.new ≡ option_map (fewer (failed_in step.kind)) (K.failing keeper.old)) }
    ensures err_failing { OnErr result (K.failing keeper.new ≡ K.failing keeper.old) }
    ensures contents { IfOk result (λ step. K.contents keeper.new ≡ contents_after (K.contents keeper.old) (K.parts keeper.old) step.kind) }
{
    let key = taken.fill.key().copy()?;
    match &taken.sum {
        Some(sum) => match judge_sum(alloc, &key, sum)? {
            Verdict::Right => commit(scene, keeper, key, sum.size),
            Verdict::WrongSize { .. } => Ok(discard(scene, keeper, &key)),
            Verdict::WrongDigest { .. } => Ok(discard(scene, keeper, &key)),
        },
        None => Ok(discard(scene, keeper, &key)),
    }
}

/// Makes the part the content.
fn commit<K: Keeper>(scene: Scene, keeper: &mut K, key: Key, size: u64) -> Result<Step, NoMemory>
    ensures does { IfOk result (λ step. ForSome (K.contents keeper.old) (λ c. (rows : Rows) (part : ℕ) → Tells (K.parts keeper.old) (λ p. size ≡ length (p key)) → AnswersAsAsked scene rows c (K.contents keeper.new) part true (λ h. on_valid h key size) step)) }
    ensures after { IfOk result (λ step. (rows : Rows) → AreAfterStep step.kind rows rows) }
    ensures fits { IfOk result (IsNumberedStep scene.number) }
    ensures plain { IfOk result IsPlain }
    ensures parts { IfOk result (λ step. K.parts keeper.new ≡ parts_after_valid key step.kind (K.parts keeper.old)) }
    ensures err_contents { OnErr result (K.contents keeper.new ≡ K.contents keeper.old) }
    ensures err_parts { OnErr result (K.parts keeper.new ≡ K.parts keeper.old) }
    ensures records { K.records keeper.new ≡ K.records keeper.old }
    ensures files { K.files keeper.new ≡ K.files keeper.old }
    ensures told { is_some (K.parts keeper.old) ≡ true → is_some (K.contents keeper.new) ≡ is_some (K.contents keeper.old) }
    ensures later { K.faults keeper.old ≤ K.faults keeper.new }
    ensures cause { IfOk result (λ step. IfSome (failed_in step.kind) (λ call. Rose (K.faults keeper.old) (K.faults keeper.new))) }
    ensures calls { IfOk result (λ step. MakesCalls (calls.Commit ∷ []) (failed_in step.kind) (K.failing keeper.old) (K.failing keeper.new)) }
    ensures err_failing { OnErr result (K.failing keeper.new ≡ K.failing keeper.old) }
    ensures contents { IfOk result (λ step. K.contents keeper.new ≡ contents_after (K.contents keeper.old) (K.parts keeper.old) step.kind) }
{
    match keeper.commit(&key) {
        Ok(()) => Ok(Step::says(
            EntryKind::Gain {
                by: scene.owner(),
                size,
                key,
            },
            Message::Success,
        )),
        Err(KeeperFault::Failed) => Ok(Step::failed(scene, Call::Commit)),
        Err(KeeperFault::NoMemory) => Err(NoMemory),
    }
}

/// Drops the part.
fn discard<K: Keeper>(scene: Scene, keeper: &mut K, key: &Key) -> Step
    ensures does { ForSome (K.contents keeper.old) (λ c. (rows : Rows) (part size : ℕ) → AnswersAsAsked scene rows c (K.contents keeper.new) part false (λ h. on_valid h key.now size) result) }
    ensures after { (rows : Rows) → AreAfterStep result.kind rows rows }
    ensures lost { IsNoGain result.kind }
    ensures fits { IsNumberedStep scene.number result }
    ensures plain { IsPlain result }
    ensures parts { K.parts keeper.new ≡ parts_after_valid key.now result.kind (K.parts keeper.old) }
    ensures contents { K.contents keeper.new ≡ K.contents keeper.old }
    ensures records { K.records keeper.new ≡ K.records keeper.old }
    ensures files { K.files keeper.new ≡ K.files keeper.old }
    ensures later { K.faults keeper.old ≤ K.faults keeper.new }
    ensures cause { IfSome (failed_in result.kind) (λ call. Rose (K.faults keeper.old) (K.faults keeper.new)) }
    ensures calls { MakesCalls (calls.DropPart ∷ []) (failed_in result.kind) (K.failing keeper.old) (K.failing keeper.new) }
    ensures leaves { LeavesContents result.kind }
{
    match keeper.drop_part(key) {
        Ok(()) => Step::says(EntryKind::Talk { job: None }, Message::Failure),
        Err(Failed) => Step::failed(scene, Call::DropPart),
    }
}
