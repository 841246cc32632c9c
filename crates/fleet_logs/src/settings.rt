//! The settings that nodes write into their logs.
ghost use Rattle.std.specs.Prelude.{◌≡◌, ◌≢◌, ℕ, ◌<◌, length, None, Err, IfOk, OnErr, OnOk};
ghost use Rattle.log_lines.specs.declared.entry.LogKind.TheVariants as kinds;
ghost use Rattle.fleet_entries.specs.Stored.{store_view};
ghost use Rattle.driver_model.specs.Scripts.{IsPlainTopic, IsPlainValue};
ghost use Rattle.driver_model.specs.ScriptSteps.{sets};
ghost use Rattle.fleet_entries.specs.AtDriver.{EndsAtFull, GoesOn, IsDriven, OnlyAddsEntries, StopsWithin};

use annex_base::NoMemory;
use driver_model::{drivers_only_add, drivers_stay_sound, settings_are_lines};
use fleet_entries::{FleetStop, Running, fleets_do_lines, fleets_stop_at_full_histories};
use log_lines::{Entry, LogKind, Topic, Value};
use object_store::FailingKeeper;

/// A copy of the topic.
fn copied_topic(topic: &Topic) -> Result<Topic, NoMemory>
    ensures { IfOk result (λ copy. copy ≡ topic.now) }
{
    Ok(topic.clone()?)
}

/// A copy of the value.
fn copied_value(value: &Value) -> Result<Value, NoMemory>
    ensures { IfOk result (λ copy. copy ≡ value.now) }
{
    Ok(value.clone()?)
}

/// A copy of an entry of the topic in the log of this kind.
pub fn set<K: FailingKeeper>(
    running: &mut Running<K>,
    repo: u32,
    kind: LogKind,
    topic: &Topic,
    value: &Value,
) -> Result<(), FleetStop>
    requires there { repo < length running.old.nodes }
    requires driven { IsDriven (λ k. store_view (K.contents k) (K.parts k) (K.failing k) (K.faults k)) running.old }
    requires kind { kind ≢ kinds.Location }
    requires topic { IsPlainTopic topic.now }
    requires value { IsPlainValue value.now }
    ensures ok { OnOk result (GoesOn (λ k. store_view (K.contents k) (K.parts k) (K.failing k) (K.faults k)) (λ g d. sets g repo kind topic.now value.now d) running.old running.new) }
    ensures full { (r : ℕ) → result ≡ Err (FleetStop.Full r) → EndsAtFull (λ k. store_view (K.contents k) (K.parts k) (K.failing k) (K.faults k)) r (λ g d. sets g repo kind topic.now value.now d) running.old running.new }
    ensures stopped { OnErr result (StopsWithin (λ k. store_view (K.contents k) (K.parts k) (K.failing k) (K.faults k)) (λ g d. sets g repo kind topic.now value.now d) running.old running.new) }
    ensures rest { OnlyAddsEntries running.old running.new }
{
    // A law: a setting only adds entries to the driver's, so the run is a start of them where memory runs out.
    drivers_only_add();
    let topic = copied_topic(topic)?;
    let value = copied_value(value)?;
    set_entry(running, repo, kind, topic, value)
}

/// An entry of the topic in the log of this kind, at the repository's wall clock.
fn set_entry<K: FailingKeeper>(
    running: &mut Running<K>,
    repo: u32,
    kind: LogKind,
    topic: Topic,
    value: Value,
) -> Result<(), FleetStop>
    requires there { repo < length running.old.nodes }
    requires driven { IsDriven (λ k. store_view (K.contents k) (K.parts k) (K.failing k) (K.faults k)) running.old }
    requires kind { kind ≢ kinds.Location }
    requires topic { IsPlainTopic topic }
    requires value { IsPlainValue value }
    ensures ok { OnOk result (GoesOn (λ k. store_view (K.contents k) (K.parts k) (K.failing k) (K.faults k)) (λ g d. sets g repo kind topic value d) running.old running.new) }
    ensures full { (r : ℕ) → result ≡ Err (FleetStop.Full r) → EndsAtFull (λ k. store_view (K.contents k) (K.parts k) (K.failing k) (K.faults k)) r (λ g d. sets g repo kind topic value d) running.old running.new }
    ensures stopped { OnErr result (StopsWithin (λ k. store_view (K.contents k) (K.parts k) (K.failing k) (K.faults k)) (λ g d. sets g repo kind topic value d) running.old running.new) }
    ensures rest { OnlyAddsEntries running.old running.new }
{
    // Laws: the fleet goes on as the driver, which stays sound and only adds entries, or stops at a full history.
    fleets_do_lines::<K>();
    drivers_stay_sound();
    drivers_only_add();
    fleets_stop_at_full_histories::<K>();
    // A law: the line of a setting is one line.
    settings_are_lines();
    let entry = Entry {
        topic,
        stamp: None,
        value,
    };
    let had = running.raise(repo);
    let done = running.nodes.write_log(repo as usize, kind, None, &entry);
    let line = running.after_step(repo, done);
    running.end_call(repo, had, line)
}
