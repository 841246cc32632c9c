//! A content that is asked for, and from where on it is sent.
ghost use Rattle.std.specs.Prelude.{◌≡◌, ◌≤◌, ◌<◌, ◌^◌, ◌-◌, ℕ, Bool, List, [], ◌∷◌, false, true, Some, None, IfOk, OnErr, IfSome, IfNone};
ghost use Rattle.std.specs.Option.{ForSome};
ghost use Rattle.std.specs.declared.option.Option.{Option};
ghost use Rattle.annex_base.specs.Causes.{Rose};
ghost use Rattle.run_data.specs.declared.entry.FrameText.TheVariants.{Closing};
ghost use Rattle.node_model.specs.Sessions.{Gives, gives, reaches, version_told};
ghost use Rattle.node_model.specs.SessionStep.{bytes_left, content_of, reply, tries};
ghost use Rattle.content_lock.specs.Rows.{Rows};
ghost use Rattle.session_state.specs.Answers.{AnswersAsAsked, LeavesContents, size_in};
ghost use Rattle.node_model.specs.Look.{failed_in};
ghost use Rattle.session_state.specs.Bounds.{IsNumberedStep};
ghost use Rattle.content_lock.specs.CallsMade.{MakesCalls};
ghost use Rattle.session_state.specs.Phases.{IsNoGain};
ghost use Rattle.session_state.specs.Talking.{AreAfterStep, Tells};
ghost use Rattle.annex_base.specs.declared.kinds.Call.TheVariants as calls;

use annex_base::{Call, NoMemory};
use annex_key::Key;
use object_store::{Keeper, KeeperFault};
use p2p_wire::Message;
use run_data::EntryKind;
use session_state::{Giving, Scene, Step};

/// The bytes of a content from a place on.
fn giving(key: Key, start: u64, size: Option<u64>) -> Giving
    requires small { IfSome size (λ n. n < 2 ^ 62) }
    ensures key { result.key ≡ key }
    ensures at { result.at ≡ start }
    ensures left { result.end - result.at ≡ bytes_left size start }
    ensures small { result.end - result.at < 2 ^ 62 }
    ensures good { result.good ≡ reaches size start }
{
    match size {
        Some(size) => Giving {
            key,
            at: start,
            end: size.max(start),
            good: start <= size,
        },
        None => Giving {
            key,
            at: start,
            end: start,
            good: false,
        },
    }
}

/// GET: the content's bytes from a place on are sent next.
pub(crate) fn get<K: Keeper>(
    scene: Scene,
    keeper: &mut K,
    start: u64,
    key: &Key,
) -> Result<(Step, Option<Giving>), NoMemory>
    ensures does { IfOk result (λ r. ForSome (K.contents keeper.old) (λ c. (rows : Rows) (part : ℕ) (right : Bool) → AnswersAsAsked scene rows c (K.contents keeper.new) part right (λ h. tries h (calls.Size ∷ []) (Closing ∷ []) (reply (EntryKind.Talk None) (Message.Data (bytes_left (content_of h key.now) start)))) r.0)) }
    ensures after { IfOk result (λ r. (rows : Rows) → AreAfterStep r.0.kind rows rows) }
    ensures still { IfOk result (λ r. IsNoGain r.0.kind) }
    ensures fits { IfOk result (λ r. IsNumberedStep scene.number r.0) }
    ensures given { IfOk result (λ r. IfSome r.1 (λ g. (r.0.close ≡ false) × ((size : List ℕ → Option ℕ) → Tells (K.contents keeper.old) (λ c. size key.now ≡ size_in c key.now) → gives key.now start (reaches (size key.now) start) r.0.reply ≡ Gives g.key g.at (g.end - g.at) g.good))) }
    ensures plain { IfOk result (λ r. (v : ℕ) → version_told v r.0.reply ≡ v) }
    ensures lost { IfOk result (λ r. IfNone r.1 (r.0.close ≡ true)) }
    ensures contents { K.contents keeper.new ≡ K.contents keeper.old }
    ensures parts { K.parts keeper.new ≡ K.parts keeper.old }
    ensures records { K.records keeper.new ≡ K.records keeper.old }
    ensures files { K.files keeper.new ≡ K.files keeper.old }
    ensures later { K.faults keeper.old ≤ K.faults keeper.new }
    ensures cause { IfOk result (λ r. IfSome (failed_in r.0.kind) (λ call. Rose (K.faults keeper.old) (K.faults keeper.new))) }
    ensures calls { IfOk result (λ r. MakesCalls (calls.Size ∷ []) (failed_in r.0.kind) (K.failing keeper.old) (K.failing keeper.new)) }
    ensures err_failing { OnErr result (K.failing keeper.new ≡ K.failing keeper.old) }
    ensures leaves { IfOk result (λ r. LeavesContents r.0.kind) }
{
    let key = key.copy()?;
    match keeper.size(&key) {
        Ok(size) => {
            let giving = giving(key, start, size);
            let left = giving.end - giving.at;
            Ok((
                Step::says(EntryKind::Talk { job: None }, Message::Data(left)),
                Some(giving),
            ))
        }
        Err(KeeperFault::Failed) => Ok((Step::lost(scene, Call::Size), None)),
        Err(KeeperFault::NoMemory) => Err(NoMemory),
    }
}
