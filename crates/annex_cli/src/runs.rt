//! The run of a script, by a fleet of nodes.
ghost use Rattle.std.specs.Prelude.{◌≡◌, ◌≤◌, ℕ, true, [], List, length, None, Err, IfOk, OnOk};
ghost use Rattle.fleet_run.specs.Stored.{store_view};
ghost use Rattle.script_lang.specs.Script.{no_context};
ghost use Rattle.script_lang.specs.Preconditions.{AllStand};
ghost use Rattle.driver_model.specs.Driver.{at_first};
ghost use Rattle.driver_script.specs.Inputs.{driver_input_of};
ghost use Rattle.driver_script.specs.Lines.{first_unbuilt, repos_of};
ghost use Rattle.fleet_run.specs.AtDriver.{IsAtDriver, IsDrivenWithin, most_lines};
ghost use Rattle.fleet_run.specs.Joined.{MayRun};
ghost use Rattle.script_answers.specs.Runs.{IsRunOf};
ghost use Rattle.annex_cli.specs.Doing.{HasDone};

use annex_base::NoMemory;
use driver_model::{only_waits_take_time, runs_are_cut_where_histories_are_full};
use driver_script::{bytes_are_matched, lines_wait_as_long, scripts_are_built_or_not};
use fleet_run::{Fleet, FleetStop};
use object_store::{FailingKeeper, MemoryKeeper};
use script_answers::Ran;
use script_lang::Script;
use std::alloc::Global;
use std::thread::Threads;

/// Does the script's lines, one after the other, up to one that meets a full history.
fn run_lines<R: Threads + Sync, K: FailingKeeper>(
    rt: &R,
    fleet: &mut Fleet<K>,
    script: &Script,
) -> Result<(), FleetStop>
    requires built { first_unbuilt script.now ≡ None }
    requires stand { AllStand no_context script.now }
    requires few { length script.now ≤ most_lines }
    requires stands { IsAtDriver (λ k. store_view (K.contents k) (K.parts k) (K.failing k) (K.faults k)) (driver_input_of script.now) at_first fleet.old }
    requires driven { IsDrivenWithin (λ k. store_view (K.contents k) (K.parts k) (K.failing k) (K.faults k)) (length fleet.old.run.marks) fleet.old }
    ensures done { OnOk result (HasDone (λ k. store_view (K.contents k) (K.parts k) (K.failing k) (K.faults k)) script.now [] fleet.new) }
    ensures cut { (r : ℕ) → result ≡ Err (FleetStop.Full r) → IsRunOf script.now true fleet.new.run }
{
    // Laws: no line changes the marks before it, and each takes as much time as its command waits; and each is built.
    runs_are_cut_where_histories_are_full();
    only_waits_take_time();
    lines_wait_as_long();
    scripts_are_built_or_not();
    let commands = script.lines();
    for command in commands {
        fleet.line(rt, command)?;
    }
    Ok(())
}

/// The run of the script, each repository over a store in memory, up to where a line meets a full history, if one does.
pub fn run_script<R: Threads + Sync>(
    rt: &R,
    alloc: Global,
    script: &Script,
) -> Result<Ran, NoMemory>
    requires built { first_unbuilt script.now ≡ None }
    requires stand { AllStand no_context script.now }
    requires run { MayRun (repos_of script.now) }
    requires repos { length (repos_of script.now) ≤ 16 }
    requires few { length script.now ≤ most_lines }
    ensures { IfOk result (λ ran. IsRunOf script.now ran.is_cut ran.run) }
{
    // A law: what the driver is given decides whether bytes are a key's.
    bytes_are_matched();
    let mut fleet = Fleet::new(alloc, script)?;
    let ended = run_lines(rt, &mut fleet, script);
    let run = fleet.finish();
    match ended {
        Ok(()) => Ok(Ran { run, is_cut: false }),
        Err(FleetStop::Full { .. }) => Ok(Ran { run, is_cut: true }),
        Err(FleetStop::NoMemory) => Err(NoMemory),
    }
}
