//! Answers by the row of a key: whether its content is there, and its removal.
ghost use Rattle.std.specs.Prelude.{◌≡◌, ◌≤◌, ◌+◌, ◌/◌, ◌<◌, ◌^◌, ◌*◌, ℕ, Bool, [], ◌∷◌, false, Some, None, IfSome, is_some, nat_lt, if◌then◌else◌};
ghost use Rattle.std.specs.Option.{ForSome, option_map};
ghost use Rattle.annex_base.specs.Causes.{Rose};
ghost use Rattle.node_model.specs.SessionStep.{tries, failure_line, check_answer, is_here, bar_on, on_remove, on_remove_before};
ghost use Rattle.node_model.specs.Calls.{to_remove};
ghost use Rattle.node_model.specs.Rows.{is_blocked};
ghost use Rattle.content_lock.specs.Rows.{AreAfter, bar_at};
ghost use Rattle.session_state.specs.Answers.{AnswersAsAsked, contents_after, is_in};
ghost use Rattle.node_model.specs.Look.{failed_in};
ghost use Rattle.session_state.specs.Bounds.{IsNumberedStep};
ghost use Rattle.content_lock.specs.CallsMade.{MakesCalls, fewer};
ghost use Rattle.session_state.specs.Phases.{IsNoGain};
ghost use Rattle.session_state.specs.Talking.{IsPlain};
ghost use Rattle.annex_base.specs.declared.kinds.Call.TheVariants as calls;

use annex_base::{Call, Failed, Found, RepoId};
use annex_key::Key;
use content_lock::{LockTable, Look, RemoveRefused, Removed};
use object_store::Keeper;
use p2p_wire::Message;
use run_data::EntryKind;
use session_state::{Scene, Step};

/// Says who the repository is.
pub fn welcome(id: RepoId) -> Step
    ensures says { result ≡ record { kind = EntryKind.Talk None; reply = Some (Message.AuthSuccess id); close = false } }
    ensures fits { (number : ℕ) → IsNumberedStep number result }
{
    // For the proof, which cites that it is an identifier.
    id.print();
    Step::says(EntryKind::Talk { job: None }, Message::AuthSuccess(id))
}

/// Says the clock in seconds.
pub fn time(scene: Scene) -> Step
    requires { scene.clock + 600000 < 2 ^ 62 }
    ensures says { result ≡ record { kind = EntryKind.Talk None; reply = Some (Message.Timestamp (scene.clock / 1000)); close = false } }
    ensures fits { (number : ℕ) → IsNumberedStep number result }
{
    Step::says(
        EntryKind::Talk { job: None },
        Message::Timestamp(scene.clock / 1000),
    )
}

/// Whether the content is there and has no bar.
pub fn check_present<K: Keeper>(scene: Scene, table: &LockTable, keeper: &mut K, key: Key) -> Step
    ensures does { ForSome (K.contents keeper.old) (λ c. (part : ℕ) (right : Bool) → AnswersAsAsked scene table.now c (K.contents keeper.new) part right (λ h. tries h (calls.Has ∷ []) failure_line (check_answer key (is_here h key) (bar_on h key))) result) }
    ensures plain { IsPlain result }
    ensures still { IsNoGain result.kind }
    ensures after { AreAfter result.kind table.now table.now }
    ensures fits { IsNumberedStep scene.number result }
    ensures parts { K.parts keeper.new ≡ K.parts keeper.old }
    ensures records { K.records keeper.new ≡ K.records keeper.old }
    ensures files { K.files keeper.new ≡ K.files keeper.old }
    ensures told { is_some (K.contents keeper.new) ≡ is_some (K.contents keeper.old) }
    ensures later { K.faults keeper.old ≤ K.faults keeper.new }
    ensures cause { IfSome (failed_in result.kind) (λ call. Rose (K.faults keeper.old) (K.faults keeper.new)) }
    ensures calls { MakesCalls (calls.Has ∷ []) (failed_in result.kind) (K.failing keeper.old) (K.failing keeper.new) }
    ensures contents { K.contents keeper.new ≡ contents_after (K.contents keeper.old) (K.parts keeper.old) result.kind }
{
    match table.check(keeper, &key) {
        Ok(Look::Present) => Step::granted(EntryKind::Check {
            found: Found::Present,
            key,
        }),
        Ok(Look::Absent) => Step::denied(Found::Absent, key),
        Ok(Look::Barred { job: _ }) => Step::denied(Found::Barred, key),
        Err(Failed) => Step::failed(scene, Call::Has),
    }
}

/// Removes the content, on a peer's order.
pub fn remove<K: Keeper>(scene: Scene, table: &LockTable, keeper: &mut K, key: Key) -> Step
    ensures does { ForSome (K.contents keeper.old) (λ c. (part : ℕ) (right : Bool) → AnswersAsAsked scene table.now c (K.contents keeper.new) part right (λ h. on_remove h key) result) }
    ensures plain { IsPlain result }
    ensures still { IsNoGain result.kind }
    ensures after { AreAfter result.kind table.now table.now }
    ensures fits { IsNumberedStep scene.number result }
    ensures parts { K.parts keeper.new ≡ K.parts keeper.old }
    ensures records { K.records keeper.new ≡ K.records keeper.old }
    ensures files { K.files keeper.new ≡ K.files keeper.old }
    ensures told { is_some (K.contents keeper.new) ≡ is_some (K.contents keeper.old) }
    ensures later { K.faults keeper.old ≤ K.faults keeper.new }
    ensures cause { IfSome (failed_in result.kind) (λ call. Rose (K.faults keeper.old) (K.faults keeper.new)) }
    ensures calls { ForSome (K.contents keeper.old) (λ c. MakesCalls (to_remove (is_in c key) (bar_at table.now key) (is_blocked table.now.holds key scene.clock)) (failed_in result.kind) (K.failing keeper.old) (K.failing keeper.new)) }
    ensures left { K.failing keeper.new ≡ option_map (fewer (failed_in result.kind)) (K.failing keeper.old) }
    ensures contents { K.contents keeper.new ≡ contents_after (K.contents keeper.old) (K.parts keeper.old) result.kind }
{
    match table.remove_now(keeper, &key, scene.clock) {
        Ok(Removed::Gone) => Step::granted(EntryKind::Gone {
            by: scene.owner(),
            key,
        }),
        Ok(Removed::Absent) => Step::granted(EntryKind::Check {
            found: Found::Absent,
            key,
        }),
        Err(RemoveRefused::Barred { job: _ }) => Step::denied(Found::Barred, key),
        Err(RemoveRefused::Held { hold: _, until: _ }) => Step::denied(Found::Held, key),
        Err(RemoveRefused::StoreFault { call }) => Step::failed(scene, call),
    }
}

/// Removes the content, where the clock is below a deadline in seconds.
pub fn remove_before<K: Keeper>(
    scene: Scene,
    table: &LockTable,
    keeper: &mut K,
    before: u64,
    key: Key,
) -> Step
    ensures does { ForSome (K.contents keeper.old) (λ c. (part : ℕ) (right : Bool) → AnswersAsAsked scene table.now c (K.contents keeper.new) part right (λ h. on_remove_before h before key) result) }
    ensures plain { IsPlain result }
    ensures still { IsNoGain result.kind }
    ensures after { AreAfter result.kind table.now table.now }
    ensures fits { IsNumberedStep scene.number result }
    ensures parts { K.parts keeper.new ≡ K.parts keeper.old }
    ensures records { K.records keeper.new ≡ K.records keeper.old }
    ensures files { K.files keeper.new ≡ K.files keeper.old }
    ensures told { is_some (K.contents keeper.new) ≡ is_some (K.contents keeper.old) }
    ensures later { K.faults keeper.old ≤ K.faults keeper.new }
    ensures cause { IfSome (failed_in result.kind) (λ call. Rose (K.faults keeper.old) (K.faults keeper.new)) }
    ensures calls { ForSome (K.contents keeper.old) (λ c. MakesCalls (if nat_lt scene.clock (1000 * before) then to_remove (is_in c key) (bar_at table.now key) (is_blocked table.now.holds key scene.clock) else []) (failed_in result.kind) (K.failing keeper.old) (K.failing keeper.new)) }
    ensures left { K.failing keeper.new ≡ option_map (fewer (failed_in result.kind)) (K.failing keeper.old) }
    ensures contents { K.contents keeper.new ≡ contents_after (K.contents keeper.old) (K.parts keeper.old) result.kind }
{
    if scene.clock / 1000 < before {
        remove(scene, table, keeper, key)
    } else {
        Step::denied(Found::Late, key)
    }
}
