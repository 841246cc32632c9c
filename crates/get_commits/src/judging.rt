//! The part of a get becomes the content, or is dropped.
ghost use Rattle.std.specs.Prelude.{◌≡◌, ◌&&◌, not, List, ℕ, false, true, Some, None, bytes_eq, is_some};
ghost use Rattle.node_model.specs.Jobs.{is_move};
ghost use Rattle.content_lock.specs.Rows.{is_filling};
ghost use Rattle.transfer_turns.specs.Steps.{seen};
ghost use Rattle.transfer_turns.specs.Turns.{Sight};
ghost use Rattle.get_phases.specs.Getting.{Does};
ghost use Rattle.get_phases.specs.Gets.{HasFill, fill_in};
ghost use Rattle.get_commits.specs.Judging.{IsJudged, IsServed, phase_gained};

use annex_base::{Call, Failed, NoMemory};
use content_lock::LockTable;
use get_phases::{Ending, Getting, Phase, give_up, go_on, say, with_cause};
use get_verdicts::right_size;
use object_store::{Keeper, KeeperFault};
use p2p_wire::Message;
use run_data::{By, EntryKind, SourceCause, SourceFailure};
use session_state::Incoming;
use std::alloc::Global;
use transfer_turns::{Output, done, failing, talk};

/// VALID: the part becomes the content where it matches its key, and is dropped else.
pub fn verify<K: Keeper>(
    getting: &mut Getting,
    alloc: Global,
    table: &mut LockTable,
    keeper: &mut K,
    peer: u32,
) -> Result<Output, NoMemory>
    requires served { IsServed peer getting.old.phase }
    requires has { HasFill table.old getting.old }
    ensures does { (x : Sight) → Does x (Some (Incoming.Message Message.Valid)) table.old table.new (seen (K.contents keeper.old) (K.parts keeper.old) (K.records keeper.old) (K.files keeper.old) (K.faults keeper.old) (K.failing keeper.old)) (seen (K.contents keeper.new) (K.parts keeper.new) (K.records keeper.new) (K.files keeper.new) (K.faults keeper.new) (K.failing keeper.new)) getting.old getting.new result }
{
    let Phase::Word {
        peer: _,
        start,
        taken,
    } = &getting.phase
    else {
        unreachable!()
    };
    let start = *start;
    match right_size(alloc, taken)? {
        Some(size) => commit(getting, alloc, table, keeper, peer, start, size),
        None => discard(getting, alloc, table, keeper, peer, start),
    }
}

/// The part becomes the content. A get is to end; the drop of a move is to begin.
fn commit<K: Keeper>(
    getting: &mut Getting,
    alloc: Global,
    table: &mut LockTable,
    keeper: &mut K,
    peer: u32,
    start: u64,
    size: u64,
) -> Result<Output, NoMemory>
    requires judged { IsJudged peer start (Some size) getting.old.phase }
    requires has { HasFill table.old getting.old }
    ensures does { (x : Sight) → Does x (Some (Incoming.Message Message.Valid)) table.old table.new (seen (K.contents keeper.old) (K.parts keeper.old) (K.records keeper.old) (K.files keeper.old) (K.faults keeper.old) (K.failing keeper.old)) (seen (K.contents keeper.new) (K.parts keeper.new) (K.records keeper.new) (K.files keeper.new) (K.faults keeper.new) (K.failing keeper.new)) getting.old getting.new result }
{
    let gain = EntryKind::Gain {
        by: By::Job(getting.number),
        size,
        key: getting.key().copy()?,
    };
    let output = say(alloc, getting.key(), gain, peer, Message::Success)?;
    match keeper.commit(getting.key()) {
        Ok(()) => Ok(gain_content(getting, table, peer, start, output)),
        Err(KeeperFault::Failed) => {
            give_up(getting);
            Ok(failing(alloc, getting.number, Call::Commit))
        }
        Err(KeeperFault::NoMemory) => Err(NoMemory),
    }
}

/// The content is there: the key is filled no more.
fn gain_content(
    getting: &mut Getting,
    table: &mut LockTable,
    peer: u32,
    start: u64,
    output: Output,
) -> Output
    requires fills { is_some (fill_in getting.old.phase) ≡ true }
    requires has { HasFill table.old getting.old }
    requires going { output.ended ≡ false }
    ensures output { result ≡ record output { ended = is_move getting.old.job.kind } }
    ensures next { getting.new ≡ record getting.old { phase = phase_gained (is_move getting.old.job.kind) peer start } }
    ensures filled { (key : List ℕ) → is_filling table.new key ≡ (not (bytes_eq getting.old.job.key key) && is_filling table.old key) }
    ensures holds { table.new.holds ≡ table.old.holds }
    ensures bars { table.new.bars ≡ table.old.bars }
{
    let fill = getting.take_fill();
    table.unfill(fill);
    if getting.is_move() {
        getting.go_to(Phase::Done);
        return done(output);
    }
    getting.go_to(Phase::Ends(Ending::Got { peer, start }));
    output
}

/// The part isn't the key's content: it is dropped, and the next peer is asked.
fn discard<K: Keeper>(
    getting: &mut Getting,
    alloc: Global,
    table: &LockTable,
    keeper: &mut K,
    peer: u32,
    start: u64,
) -> Result<Output, NoMemory>
    requires judged { IsJudged peer start None getting.old.phase }
    requires has { HasFill table.now getting.old }
    ensures does { (x : Sight) → Does x (Some (Incoming.Message Message.Valid)) table.now table.now (seen (K.contents keeper.old) (K.parts keeper.old) (K.records keeper.old) (K.files keeper.old) (K.faults keeper.old) (K.failing keeper.old)) (seen (K.contents keeper.new) (K.parts keeper.new) (K.records keeper.new) (K.files keeper.new) (K.faults keeper.new) (K.failing keeper.new)) getting.old getting.new result }
{
    let output = say(
        alloc,
        getting.key(),
        talk(getting.number),
        peer,
        Message::Failure,
    )?;
    let cause = SourceCause::Wrong;
    let causes = with_cause(alloc, &getting.causes, SourceFailure { repo: peer, cause })?;
    match keeper.drop_part(getting.key()) {
        Ok(()) => {
            go_on(getting, causes);
            Ok(output)
        }
        Err(Failed) => {
            give_up(getting);
            Ok(failing(alloc, getting.number, Call::DropPart))
        }
    }
}
