//! A line of two steps: a file that is added.
ghost use Rattle.std.specs.Prelude.{◌≡◌, ℕ, ◌<◌, ◌^◌, length, Err, OnErr, OnOk};
ghost use Rattle.annex_key.specs.KeyText.{IsKeyText};
ghost use Rattle.key_verify.specs.Matching.{MatchesKey};
ghost use Rattle.script_commands.specs.declared.command.Action.TheVariants as actions;
ghost use Rattle.script_commands.specs.declared.command.Command.TheVariants as commands;
ghost use Rattle.fleet_entries.specs.Stored.{store_view};
ghost use Rattle.fleet_entries.specs.AtDriver.{GoesOn, IsDriven, OnlyAddsBehind, StopsWithin};
ghost use Rattle.fleet_run.specs.Commands.{CutsAt, HasRoomFor, does_command};

use annex_base::Text;
use annex_key::Key;
use driver_model::{drivers_only_add, runs_are_cut_where_histories_are_full};
use fleet_entries::{FleetStop, Running};
use fleet_syncs::{enter, place};
use object_store::FailingKeeper;
use script_words::Content;

/// The path names the key, and then the content is there, as `has` has it.
pub fn add<K: FailingKeeper>(
    running: &mut Running<K>,
    repo: u32,
    path: &Text,
    key: &Key,
    content: &Content,
) -> Result<(), FleetStop>
    requires there { repo < length running.old.nodes }
    requires driven { IsDriven (λ k. store_view (K.contents k) (K.parts k) (K.failing k) (K.faults k)) running.old }
    requires key { IsKeyText key.now }
    requires right { MatchesKey key.now content.now }
    requires small { length content.now < 2 ^ 62 }
    ensures ok { OnOk result (GoesOn (λ k. store_view (K.contents k) (K.parts k) (K.failing k) (K.faults k)) (does_command (commands.Does (actions.Add repo path.now key.now content.now))) running.old running.new) }
    ensures room { OnOk result (HasRoomFor (λ k. store_view (K.contents k) (K.parts k) (K.failing k) (K.faults k)) (commands.Does (actions.Add repo path.now key.now content.now)) running.old) }
    ensures full { (r : ℕ) → result ≡ Err (FleetStop.Full r) → CutsAt (λ k. store_view (K.contents k) (K.parts k) (K.failing k) (K.faults k)) r (commands.Does (actions.Add repo path.now key.now content.now)) running.old running.new }
    ensures stopped { OnErr result (StopsWithin (λ k. store_view (K.contents k) (K.parts k) (K.failing k) (K.faults k)) (does_command (commands.Does (actions.Add repo path.now key.now content.now))) running.old running.new) }
    ensures rest { OnlyAddsBehind running.old running.new }
{
    // Laws: a content only adds entries, and the run is cut where it meets a full history.
    drivers_only_add();
    runs_are_cut_where_histories_are_full();
    enter(running, path, key)?;
    place(running, repo, key, content)
}
