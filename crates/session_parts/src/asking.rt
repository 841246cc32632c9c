//! What is asked for of a key that the client would send.
ghost use Rattle.std.specs.Prelude.{◌≡◌, ◌≤◌, ◌<◌, ◌-◌, ℕ, Bool, List, length, false, true, Some, None, IfOk, OnErr, IfSome};
ghost use Rattle.std.specs.Option.{ForSome, option_map};
ghost use Rattle.std.specs.declared.option.Option.{Option};
ghost use Rattle.annex_base.specs.Causes.{Rose};
ghost use Rattle.object_store.specs.Stores.{Contents};
ghost use Rattle.node_model.specs.Calls.{to_offer, to_resume};
ghost use Rattle.node_model.specs.Ends.{server_end};
ghost use Rattle.node_model.specs.Sessions.{Waits, wants};
ghost use Rattle.node_model.specs.SessionStep.{Here, on_put, reply};
ghost use Rattle.content_lock.specs.Rows.{bar_at, is_filling};
ghost use Rattle.session_state.specs.Answers.{as_said, Changes, AnswersAsAsked, LeavesContents, is_in, reply_of};
ghost use Rattle.node_model.specs.Look.{failed_in};
ghost use Rattle.session_state.specs.Bounds.{IsNumberedStep};
ghost use Rattle.content_lock.specs.CallsMade.{MakesCalls, fewer};
ghost use Rattle.session_state.specs.Phases.{IsNoGain, wanted_in};
ghost use Rattle.session_state.specs.Talking.{AreAfterStep, FillsSo, IsFedBy, IsPlain, Tells};

use annex_base::{Call, Failed, NoMemory, Text};
use annex_key::Key;
use content_lock::{FillRefused, LockTable};
use object_store::{Keeper, KeeperFault};
use p2p_wire::Message;
use part_filling::resume;
use run_data::EntryKind;
use session_state::{Scene, Step, Wanting};
use std::alloc::Global;

/// PUT: the part's size, from which on bytes are asked for, where the content isn't there, nor being filled.
pub(crate) fn put<K: Keeper>(
    scene: Scene,
    alloc: Global,
    table: &mut LockTable,
    keeper: &mut K,
    key: &Key,
) -> Result<(Step, Option<Wanting>), NoMemory>
    ensures does { IfOk result (λ r. ForSome (K.contents keeper.old) (λ c. (part : ℕ) (right : Bool) → Tells (K.parts keeper.old) (λ p. part ≡ length (p key.now)) → AnswersAsAsked scene table.old c (K.contents keeper.new) part right (λ h. on_put h key.now) r.0)) }
    ensures after { IfOk result (λ r. AreAfterStep r.0.kind table.old table.new) }
    ensures still { IfOk result (λ r. IsNoGain r.0.kind) }
    ensures fits { IfOk result (λ r. IsNumberedStep scene.number r.0) }
    ensures given { IfOk result (λ r. IfSome r.1 (λ w. is_filling table.new w.fill ≡ true)) }
    ensures filled { IfOk result (λ r. FillsSo Waits (wanted_in r.1) (is_filling table.old) (is_filling table.new)) }
    ensures next { IfOk result (λ r. wants key.now r.0.reply ≡ wanted_in r.1) }
    ensures plain { IfOk result (λ r. IsPlain r.0) }
    ensures fed { IfOk result (λ r. ForSome (K.parts keeper.old) (λ p. IfSome r.1 (λ w. IsFedBy w.digester w.fill (p w.fill)))) }
    ensures bars { (k : List ℕ) → bar_at table.new k ≡ bar_at table.old k }
    ensures holds { table.new.holds ≡ table.old.holds }
    ensures err { OnErr result (table.new ≡ table.old) }
    ensures contents { K.contents keeper.new ≡ K.contents keeper.old }
    ensures parts { K.parts keeper.new ≡ K.parts keeper.old }
    ensures records { K.records keeper.new ≡ K.records keeper.old }
    ensures files { K.files keeper.new ≡ K.files keeper.old }
    ensures later { K.faults keeper.old ≤ K.faults keeper.new }
    ensures cause { IfOk result (λ r. IfSome (failed_in r.0.kind) (λ call. Rose (K.faults keeper.old) (K.faults keeper.new))) }
    ensures calls { IfOk result (λ r. ForSome (K.contents keeper.old) (λ c. (part : ℕ) → Tells (K.parts keeper.old) (λ p. part ≡ length (p key.now)) → MakesCalls (to_offer part (is_in c key.now) (is_filling table.old key.now)) (failed_in r.0.kind) (K.failing keeper.old) (K.failing keeper.new))) }
    ensures left { IfOk result (λ r. K.failing keeper.new ≡ option_map (fewer (failed_in r.0.kind)) (K.failing keeper.old)) }
    ensures err_failing { OnErr result (K.failing keeper.new ≡ K.failing keeper.old) }
    ensures leaves { IfOk result (λ r. LeavesContents r.0.kind) }
{
    match keeper.has(key) {
        Ok(true) => Ok((
            Step::says(EntryKind::Talk { job: None }, Message::AlreadyHave),
            None,
        )),
        Ok(false) => {
            if table.is_filling(key) {
                let text = Text::new(alloc, b"busy")?;
                return Ok((
                    Step::says(EntryKind::Talk { job: None }, Message::Error(text)),
                    None,
                ));
            }
            ask(scene, alloc, table, keeper, key)
        }
        Err(Failed) => Ok((Step::failed(scene, Call::Has), None)),
    }
}

/// Asks for the bytes of a key from its part's end on.
fn ask<K: Keeper>(
    scene: Scene,
    alloc: Global,
    table: &mut LockTable,
    keeper: &mut K,
    key: &Key,
) -> Result<(Step, Option<Wanting>), NoMemory>
    requires free { is_filling table.old key.now ≡ false }
    ensures does { IfOk result (λ r. (h : Here) → Tells (K.parts keeper.old) (λ p. h.part ≡ length (p key.now)) → h.present key.now ≡ false → h.filled key.now ≡ false → h.at ≡ server_end scene.place.peer scene.place.slot → h.fails ≡ failed_in r.0.kind → reply_of r.0 ≡ as_said (on_put h key.now)) }
    ensures after { IfOk result (λ r. AreAfterStep r.0.kind table.old table.new) }
    ensures calm { IfOk result (λ r. IsNoGain r.0.kind) }
    ensures fits { IfOk result (λ r. IsNumberedStep scene.number r.0) }
    ensures still { IfOk result (λ r. (c : Contents) (known : Option Contents) → known ≡ Some c → Changes known c r.0.kind) }
    ensures given { IfOk result (λ r. IfSome r.1 (λ w. is_filling table.new w.fill ≡ true)) }
    ensures filled { IfOk result (λ r. FillsSo Waits (wanted_in r.1) (is_filling table.old) (is_filling table.new)) }
    ensures next { IfOk result (λ r. wants key.now r.0.reply ≡ wanted_in r.1) }
    ensures plain { IfOk result (λ r. IsPlain r.0) }
    ensures fed { IfOk result (λ r. ForSome (K.parts keeper.old) (λ p. IfSome r.1 (λ w. IsFedBy w.digester w.fill (p w.fill)))) }
    ensures bars { (k : List ℕ) → bar_at table.new k ≡ bar_at table.old k }
    ensures holds { table.new.holds ≡ table.old.holds }
    ensures err { OnErr result (table.new ≡ table.old) }
    ensures contents { K.contents keeper.new ≡ K.contents keeper.old }
    ensures parts { K.parts keeper.new ≡ K.parts keeper.old }
    ensures records { K.records keeper.new ≡ K.records keeper.old }
    ensures files { K.files keeper.new ≡ K.files keeper.old }
    ensures later { K.faults keeper.old ≤ K.faults keeper.new }
    ensures cause { IfOk result (λ r. IfSome (failed_in r.0.kind) (λ call. Rose (K.faults keeper.old) (K.faults keeper.new))) }
    ensures calls { IfOk result (λ r. (part : ℕ) → Tells (K.parts keeper.old) (λ p. part ≡ length (p key.now)) → MakesCalls (to_resume part) (failed_in r.0.kind) (K.failing keeper.old) (K.failing keeper.new)) }
    ensures left { IfOk result (λ r. K.failing keeper.new ≡ option_map (fewer (failed_in r.0.kind)) (K.failing keeper.old)) }
    ensures err_failing { OnErr result (K.failing keeper.new ≡ K.failing keeper.old) }
    ensures leaves { IfOk result (λ r. LeavesContents r.0.kind) }
{
    let size = match keeper.part_size(key) {
        Ok(size) => size,
        Err(KeeperFault::Failed) => return Ok((Step::failed(scene, Call::PartSize), None)),
        Err(KeeperFault::NoMemory) => return Err(NoMemory),
    };
    let digester = match resume(alloc, keeper, key, size) {
        Ok(digester) => digester,
        Err(KeeperFault::Failed) => return Ok((Step::failed(scene, Call::ReadPart), None)),
        Err(KeeperFault::NoMemory) => return Err(NoMemory),
    };
    match table.fill(key) {
        Ok(fill) => {
            let wanting = Wanting {
                fill,
                size,
                digester,
            };
            Ok((
                Step::says(EntryKind::Talk { job: None }, Message::PutFrom(size)),
                Some(wanting),
            ))
        }
        Err(FillRefused::Busy) => unreachable!(),
        Err(FillRefused::NoMemory) => Err(NoMemory),
    }
}
