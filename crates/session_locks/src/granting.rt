//! The answer to LOCKCONTENT, by the row of the key.
ghost use Rattle.std.specs.Prelude.{◌≡◌, ◌≤◌, ◌+◌, ◌<◌, ◌^◌, ℕ, Bool, List, false, Some, None, All, IfOk, OnErr, IfSome, IfNone, is_some};
ghost use Rattle.std.specs.declared.option.Option.{Option};
ghost use Rattle.std.specs.Option.{ForSome, option_map};
ghost use Rattle.annex_base.specs.Causes.{Rose};
ghost use Rattle.run_data.specs.declared.entry.By.{By};
ghost use Rattle.node_model.specs.SessionStep.{on_lock};
ghost use Rattle.node_model.specs.Calls.{to_lock};
ghost use Rattle.node_model.specs.Rows.{same_owner};
ghost use Rattle.node_model.specs.Sessions.{guards, Waits};
ghost use Rattle.content_lock.specs.Rows.{AreAfter, bar_at};
ghost use Rattle.content_lock.specs.Stored.{Agrees};
ghost use Rattle.content_lock.specs.Tokens.{Owns, ShareView};
ghost use Rattle.session_state.specs.Answers.{AnswersAsAsked, contents_after, is_in, owner_of};
ghost use Rattle.node_model.specs.Look.{failed_in};
ghost use Rattle.session_state.specs.Bounds.{IsNumberedStep};
ghost use Rattle.content_lock.specs.CallsMade.{MakesCalls, fewer};
ghost use Rattle.session_state.specs.Phases.{IsNoGain};
ghost use Rattle.session_state.specs.Talking.{IsPlain};

use annex_base::{Found, NoMemory};
use annex_key::Key;
use content_lock::{LockTable, Share, ShareRefused};
use object_store::Keeper;
use run_data::EntryKind;
use session_state::{Scene, Step};

/// Takes a hold on the content for the client; it goes with the step.
pub(crate) fn lock<K: Keeper>(
    scene: Scene,
    table: &mut LockTable,
    keeper: &mut K,
    key: Key,
) -> Result<(Step, Option<Share>), NoMemory>
    requires agrees { Agrees (K.records keeper.old) table.old.holds }
    requires early { scene.clock + 600000 < 2 ^ 62 }
    requires fresh { All (λ h. h.number < scene.number) table.old.holds }
    requires free { Owns (owner_of scene) None table.old.holds }
    ensures does { IfOk result (λ r. ForSome (K.contents keeper.old) (λ c. (part : ℕ) (right : Bool) → AnswersAsAsked scene table.old c (K.contents keeper.new) part right (λ h. on_lock h key) r.0)) }
    ensures after { IfOk result (λ r. AreAfter r.0.kind table.old table.new) }
    ensures bars { (k : List ℕ) → bar_at table.new k ≡ bar_at table.old k }
    ensures fits { IfOk result (λ r. IsNumberedStep scene.number r.0) }
    ensures shared { IfOk result (λ r. IfSome r.1 (λ s. guards r.0.kind ≡ guards (EntryKind.Share s.number 0 (owner_of scene) s.key))) }
    ensures refused { IfOk result (λ r. IfNone r.1 (guards r.0.kind ≡ Waits)) }
    ensures owns { IfOk result (λ r. Owns (owner_of scene) r.1 table.new.holds) }
    ensures others { (by : By) (share : Option ShareView) → same_owner (owner_of scene) by ≡ false → Owns by share table.old.holds → Owns by share table.new.holds }
    ensures plain { IfOk result (λ r. IsPlain r.0) }
    ensures still { IfOk result (λ r. IsNoGain r.0.kind) }
    ensures err { OnErr result (table.new ≡ table.old) }
    ensures err_contents { OnErr result (K.contents keeper.new ≡ K.contents keeper.old) }
    ensures parts { K.parts keeper.new ≡ K.parts keeper.old }
    ensures err_records { OnErr result (K.records keeper.new ≡ K.records keeper.old) }
    ensures files { K.files keeper.new ≡ K.files keeper.old }
    ensures told { is_some (K.contents keeper.new) ≡ is_some (K.contents keeper.old) }
    ensures agrees { Agrees (K.records keeper.new) table.new.holds }
    ensures later { K.faults keeper.old ≤ K.faults keeper.new }
    ensures cause { IfOk result (λ r. IfSome (failed_in r.0.kind) (λ call. Rose (K.faults keeper.old) (K.faults keeper.new))) }
    ensures calls { IfOk result (λ r. ForSome (K.contents keeper.old) (λ c. MakesCalls (to_lock scene.place.locks (is_in c key) (bar_at table.old key)) (failed_in r.0.kind) (K.failing keeper.old) (K.failing keeper.new))) }
    ensures left { IfOk result (λ r. K.failing keeper.new ≡ option_map (fewer (failed_in r.0.kind)) (K.failing keeper.old)) }
    ensures err_failing { OnErr result (K.failing keeper.new ≡ K.failing keeper.old) }
    ensures contents { IfOk result (λ r. K.contents keeper.new ≡ contents_after (K.contents keeper.old) (K.parts keeper.old) r.0.kind) }
{
    if !scene.place.locks {
        return Ok((Step::denied(Found::Nolock, key), None));
    }
    match table.share(keeper, &key, scene.number, scene.clock, scene.owner()) {
        Ok(share) => {
            let kind = EntryKind::Share {
                hold: scene.number,
                end: scene.clock + 600_000,
                by: scene.owner(),
                key,
            };
            Ok((Step::granted(kind), Some(share)))
        }
        Err(ShareRefused::Absent) => Ok((Step::denied(Found::Absent, key), None)),
        Err(ShareRefused::Barred { job: _ }) => Ok((Step::denied(Found::Barred, key), None)),
        Err(ShareRefused::StoreFault { call }) => Ok((Step::failed(scene, call), None)),
        Err(ShareRefused::NoMemory) => Err(NoMemory),
    }
}
