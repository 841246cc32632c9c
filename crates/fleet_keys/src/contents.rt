//! Contents and parts that a script puts into a fleet, and store calls that will fail.
ghost use Rattle.std.specs.Prelude.{◌≡◌, ◌⊎◌, ℕ, ◌<◌, ◌^◌, length, Err, IfOk, OnErr, OnOk};
ghost use Rattle.annex_key.specs.KeyText.{IsKeyText};
ghost use Rattle.key_verify.specs.Matching.{MatchesKey};
ghost use Rattle.fleet_entries.specs.Stored.{store_view};
ghost use Rattle.driver_model.specs.ScriptSteps.{has, sets_part, will_fail};
ghost use Rattle.fleet_entries.specs.AtDriver.{EndsAtFull, GoesOn, HasRoom, IsDriven, OnlyAddsEntries, StopsWithin, WaitsForRoom};

use annex_base::{Call, NoMemory};
use annex_key::Key;
use driver_model::{drivers_only_add, drivers_stay_sound};
use fleet_entries::{FleetStop, Running, fleets_do_lines, fleets_stop_at_full_histories};
use object_store::FailingKeeper;
use script_words::Content;
use std::alloc::Global;

/// The bytes of a content.
fn bytes_of(alloc: Global, content: &Content) -> Result<Vec<u8>, NoMemory>
    requires { length content.now < 2 ^ 62 }
    ensures { IfOk result (λ bytes. bytes.items ≡ content.now) }
{
    let mut bytes = vec![in alloc; 0u8; content.size() as usize]?;
    let _ = content.piece(0, &mut bytes);
    Ok(bytes)
}

/// The content is there, unless it was, or is being filled, and the log says so.
pub fn place<K: FailingKeeper>(
    running: &mut Running<K>,
    repo: u32,
    key: &Key,
    content: &Content,
) -> Result<(), FleetStop>
    requires there { repo < length running.old.nodes }
    requires driven { IsDriven (λ k. store_view (K.contents k) (K.parts k) (K.failing k) (K.faults k)) running.old }
    requires key { IsKeyText key.now }
    requires right { MatchesKey key.now content.now }
    requires small { length content.now < 2 ^ 62 }
    ensures ok { OnOk result (GoesOn (λ k. store_view (K.contents k) (K.parts k) (K.failing k) (K.faults k)) (λ g d. has g repo key.now content.now d) running.old running.new) }
    ensures full { (r : ℕ) → result ≡ Err (FleetStop.Full r) → EndsAtFull (λ k. store_view (K.contents k) (K.parts k) (K.failing k) (K.faults k)) r (λ g d. has g repo key.now content.now d) running.old running.new ⊎ ((r ≡ repo) × WaitsForRoom (λ k. store_view (K.contents k) (K.parts k) (K.failing k) (K.faults k)) repo (λ g d. has g repo key.now content.now d) running.old running.new) }
    ensures stopped { OnErr result (StopsWithin (λ k. store_view (K.contents k) (K.parts k) (K.failing k) (K.faults k)) (λ g d. has g repo key.now content.now d) running.old running.new) }
    ensures room { OnOk result (HasRoom (λ k. store_view (K.contents k) (K.parts k) (K.failing k) (K.faults k)) repo running.old) }
    ensures rest { OnlyAddsEntries running.old running.new }
{
    // Laws: the fleet goes on as the driver, which stays sound and only adds entries, or stops at a full history.
    fleets_do_lines::<K>();
    drivers_stay_sound();
    drivers_only_add();
    fleets_stop_at_full_histories::<K>();
    let bytes = bytes_of(running.alloc, content)?;
    let had = running.raise(repo);
    let done = running.nodes.place(repo as usize, key, &bytes);
    let line = running.after_step(repo, done);
    running.end_call(repo, had, line)
}

/// The key's part has these bytes from now on, unless the content is there or is being filled. They may be other bytes than the
/// content's first, and more than it has.
pub fn place_part<K: FailingKeeper>(
    running: &mut Running<K>,
    repo: u32,
    key: &Key,
    content: &Content,
) -> Result<(), FleetStop>
    requires there { repo < length running.old.nodes }
    requires driven { IsDriven (λ k. store_view (K.contents k) (K.parts k) (K.failing k) (K.faults k)) running.old }
    requires small { length content.now < 2 ^ 62 }
    ensures ok { OnOk result (GoesOn (λ k. store_view (K.contents k) (K.parts k) (K.failing k) (K.faults k)) (λ g d. sets_part g repo key.now content.now d) running.old running.new) }
    ensures full { (r : ℕ) → result ≡ Err (FleetStop.Full r) → (r ≡ repo) × WaitsForRoom (λ k. store_view (K.contents k) (K.parts k) (K.failing k) (K.faults k)) repo (λ g d. sets_part g repo key.now content.now d) running.old running.new }
    ensures stopped { OnErr result (StopsWithin (λ k. store_view (K.contents k) (K.parts k) (K.failing k) (K.faults k)) (λ g d. sets_part g repo key.now content.now d) running.old running.new) }
    ensures room { OnOk result (HasRoom (λ k. store_view (K.contents k) (K.parts k) (K.failing k) (K.faults k)) repo running.old) }
    ensures rest { OnlyAddsEntries running.old running.new }
{
    // Laws: the fleet goes on as the driver, which stays sound and only adds entries, or stops at a full history.
    fleets_do_lines::<K>();
    drivers_stay_sound();
    drivers_only_add();
    fleets_stop_at_full_histories::<K>();
    let bytes = bytes_of(running.alloc, content)?;
    let had = running.raise(repo);
    let done = running.nodes.place_part(repo as usize, key, &bytes);
    let line = running.after_step(repo, done);
    running.end_call(repo, had, line)
}

/// The next call of this kind of a node's store fails.
pub fn fail_next<K: FailingKeeper>(
    running: &mut Running<K>,
    repo: u32,
    call: Call,
) -> Result<(), FleetStop>
    requires there { repo < length running.old.nodes }
    requires driven { IsDriven (λ k. store_view (K.contents k) (K.parts k) (K.failing k) (K.faults k)) running.old }
    ensures ok { OnOk result (GoesOn (λ k. store_view (K.contents k) (K.parts k) (K.failing k) (K.faults k)) (λ g d. will_fail repo call d) running.old running.new) }
    ensures full { (r : ℕ) → result ≡ Err (FleetStop.Full r) → ⊥ }
    ensures stopped { OnErr result (StopsWithin (λ k. store_view (K.contents k) (K.parts k) (K.failing k) (K.faults k)) (λ g d. will_fail repo call d) running.old running.new) }
    ensures rest { OnlyAddsEntries running.old running.new }
{
    // Laws: the fleet goes on as the driver, which stays sound and only adds entries.
    fleets_do_lines::<K>();
    drivers_stay_sound();
    drivers_only_add();
    running.nodes.fail_next(repo as usize, call)?;
    Ok(())
}
