//! What a fleet does at each form of line.
ghost use Rattle.std.specs.Prelude.{◌≡◌, ◌+◌, ◌<◌, ℕ, length, Err, OnErr, OnOk};
ghost use Rattle.fleet_entries.specs.Stored.{store_view};
ghost use Rattle.script_commands.specs.declared.command.Command.TheVariants as commands;
ghost use Rattle.fleet_run.specs.Commands.{CutsAt, HasRoomFor, MayBeDone, MeetsNone, does_and_marks, does_command};
ghost use Rattle.fleet_entries.specs.AtDriver.{GoesOn, IsDriven, IsDrivenWithin, OnlyAddsBehind, StopsWithin, most_lines};

use crate::two_steps::add;
use annex_key::key_texts_have_no_fault;
use driver_model::runs_are_cut_where_histories_are_full;
use driver_script::{added_contents_match, settings_are_plain};
use fleet_entries::{FleetStop, Running};
use fleet_syncs::{
    begin, begin_and_settle, close, compact, crash, enter, fail_next, merge, place, place_part,
    set, settle, sync, take_turns, wait, write,
};
use object_store::FailingKeeper;
use script_lang::{Action, Command};
use std::thread::Threads;

/// Does what the line says, and marks how many entries stand after it.
pub fn do_and_mark<R: Threads + Sync, K: FailingKeeper>(
    rt: &R,
    running: &mut Running<K>,
    command: &Command,
) -> Result<(), FleetStop>
    requires driven { IsDrivenWithin (λ k. store_view (K.contents k) (K.parts k) (K.failing k) (K.faults k)) (length running.old.run.marks) running.old }
    requires few { length running.old.run.marks < most_lines }
    requires may { MayBeDone running.old command.now }
    ensures ok { OnOk result (GoesOn (λ k. store_view (K.contents k) (K.parts k) (K.failing k) (K.faults k)) (does_and_marks command.now) running.old running.new) }
    ensures marked { OnOk result (IsDrivenWithin (λ k. store_view (K.contents k) (K.parts k) (K.failing k) (K.faults k)) (length running.new.run.marks) running.new) }
    ensures marks { OnOk result (length running.new.run.marks ≡ length running.old.run.marks + 1) }
    ensures within { OnOk result (MeetsNone (λ k. store_view (K.contents k) (K.parts k) (K.failing k) (K.faults k)) command.now running.old) }
    ensures full { (r : ℕ) → result ≡ Err (FleetStop.Full r) → CutsAt (λ k. store_view (K.contents k) (K.parts k) (K.failing k) (K.faults k)) r command.now running.old running.new }
    ensures stopped { OnErr result (StopsWithin (λ k. store_view (K.contents k) (K.parts k) (K.failing k) (K.faults k)) (does_command command.now) running.old running.new) }
    ensures kept { OnErr result (OnlyAddsBehind running.old running.new) }
{
    // Laws: no line changes the marks before it, and no past with few entries of each repository is too long.
    runs_are_cut_where_histories_are_full();
    do_line(rt, running, command)?;
    // For the proof: no history is longer than it may be.
    running.nodes.histories_are_few();
    running.mark()?;
    Ok(())
}

/// Does what the line says. A line that declares or shows something does nothing.
fn do_line<R: Threads + Sync, K: FailingKeeper>(
    rt: &R,
    running: &mut Running<K>,
    command: &Command,
) -> Result<(), FleetStop>
    requires driven { IsDriven (λ k. store_view (K.contents k) (K.parts k) (K.failing k) (K.faults k)) running.old }
    requires may { MayBeDone running.old command.now }
    ensures ok { OnOk result (GoesOn (λ k. store_view (K.contents k) (K.parts k) (K.failing k) (K.faults k)) (does_command command.now) running.old running.new) }
    ensures room { OnOk result (HasRoomFor (λ k. store_view (K.contents k) (K.parts k) (K.failing k) (K.faults k)) command.now running.old) }
    ensures full { (r : ℕ) → result ≡ Err (FleetStop.Full r) → CutsAt (λ k. store_view (K.contents k) (K.parts k) (K.failing k) (K.faults k)) r command.now running.old running.new }
    ensures stopped { OnErr result (StopsWithin (λ k. store_view (K.contents k) (K.parts k) (K.failing k) (K.faults k)) (does_command command.now) running.old running.new) }
    ensures rest { OnlyAddsBehind running.old running.new }
{
    match command {
        Command::Does { action } => act(rt, running, action),
        Command::Repo { .. } | Command::Shows { .. } => Ok(()),
        Command::Damage { .. } | Command::Par { .. } => unreachable!(),
    }
}

/// Does the action.
fn act<R: Threads + Sync, K: FailingKeeper>(
    rt: &R,
    running: &mut Running<K>,
    action: &Action,
) -> Result<(), FleetStop>
    requires driven { IsDriven (λ k. store_view (K.contents k) (K.parts k) (K.failing k) (K.faults k)) running.old }
    requires may { MayBeDone running.old (commands.Does action.now) }
    ensures ok { OnOk result (GoesOn (λ k. store_view (K.contents k) (K.parts k) (K.failing k) (K.faults k)) (does_command (commands.Does action.now)) running.old running.new) }
    ensures room { OnOk result (HasRoomFor (λ k. store_view (K.contents k) (K.parts k) (K.failing k) (K.faults k)) (commands.Does action.now) running.old) }
    ensures full { (r : ℕ) → result ≡ Err (FleetStop.Full r) → CutsAt (λ k. store_view (K.contents k) (K.parts k) (K.failing k) (K.faults k)) r (commands.Does action.now) running.old running.new }
    ensures stopped { OnErr result (StopsWithin (λ k. store_view (K.contents k) (K.parts k) (K.failing k) (K.faults k)) (does_command (commands.Does action.now)) running.old running.new) }
    ensures rest { OnlyAddsBehind running.old running.new }
{
    // Laws: the text of a key has no fault, a line sets what is of one line, a file that is added has its key's content, and the run
    // is cut where a line meets a full history.
    key_texts_have_no_fault();
    settings_are_plain();
    added_contents_match();
    runs_are_cut_where_histories_are_full();
    match action {
        Action::Have { repo, key, content } => place(running, *repo, key, content),
        Action::SetPart { repo, key, content } => place_part(running, *repo, key, content),
        Action::Add {
            repo,
            path,
            key,
            content,
        } => add(running, *repo, path, key, content),
        Action::File { path, key } => enter(running, path, key),
        Action::Set {
            repo,
            kind,
            topic,
            value,
        } => set(running, *repo, *kind, topic, value),
        Action::Raw { repo, file, line } => write(running, *repo, file, line),
        Action::Merge { repo, other } => merge(running, *repo, *other),
        Action::Compact { repo } => compact(running, *repo),
        Action::Sync { repo } => sync(rt, running, *repo),
        Action::Begin { repo, job } => begin(running, *repo, job),
        Action::Run { repo, job } => begin_and_settle(running, *repo, job),
        Action::Turns { repo, turns } => take_turns(running, *repo, *turns),
        Action::Settle => settle(running),
        Action::Close { repo, other } => close(running, *repo, *other),
        Action::Crash { repo, clock } => crash(running, *repo, *clock),
        Action::Wait { milliseconds } => wait(running, *milliseconds),
        Action::Fail { repo, call } => fail_next(running, *repo, *call),
    }
}
