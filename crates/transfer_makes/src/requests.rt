//! The first request of a get or a copy to a peer.
ghost use Rattle.std.specs.Prelude.{◌≡◌, ◌≢◌, ℕ, IfOk};
ghost use Rattle.std.specs.Option.{option_copied};
ghost use Rattle.node_model.specs.Calls.{to_resume};
ghost use Rattle.node_model.specs.Jobs.{Gets, Puts};
ghost use Rattle.node_model.specs.Look.{failing_call};
ghost use Rattle.node_model.specs.Requests.{asks, goes_to};
ghost use Rattle.node_model.specs.SetUp.{SetUp};
ghost use Rattle.node_model.specs.State.{State};
ghost use Rattle.job_makes.specs.Turns.{turn_in};
ghost use Rattle.state_jobs.specs.Phases.{part_of};
ghost use Rattle.step_judging.specs.Rules.{effect_of};
ghost use Rattle.step_judging.specs.Same.{same_effect};

use annex_base::{Call, NoMemory, Text};
use job_makes::Turn;
use p2p_wire::Message;
use run_data::FrameView;
use state_jobs::Part;
use std::alloc::Global;
use step_effects::part_told;

/// The call that fails of those by which a part is read on.
fn failing_resume(turn: &Turn) -> Option<Call>
    ensures { (s : SetUp) (st : State) → result ≡ failing_call (turn_in turn.now s st).look.fails (to_resume (turn_in turn.now s st).look.part) }
{
    let part = part_told(turn.told);
    if part == 0 {
        turn.fails(Call::PartSize)
    } else {
        turn.fails_of(Call::PartSize, Call::ReadPart)
    }
}

/// A content is asked for from the end of its part on.
fn asks_get(
    alloc: Global,
    turn: &Turn,
    taken: Option<&FrameView>,
    peer: u32,
) -> Result<bool, NoMemory>
    ensures { IfOk result (λ b. (s : SetUp) (st : State) (version : ℕ) → b ≡ same_effect (asks (turn_in turn.now s st) version (option_copied taken.entry) peer Gets) (effect_of turn.now.told.now)) }
{
    let start = part_told(turn.told);
    let file = Text::new(alloc, b"")?;
    let key = turn.work.what.key.copy()?;
    let message = Message::Get { start, file, key };
    let said = turn.says_to(turn.talks(), taken, peer, &message);
    let failing = failing_resume(turn);
    Ok(turn.attempts(failing, taken, said))
}

/// A content is offered.
fn asks_put(
    alloc: Global,
    turn: &Turn,
    taken: Option<&FrameView>,
    peer: u32,
) -> Result<bool, NoMemory>
    ensures { IfOk result (λ b. (s : SetUp) (st : State) (version : ℕ) → b ≡ same_effect (asks (turn_in turn.now s st) version (option_copied taken.entry) peer Puts) (effect_of turn.now.told.now)) }
{
    let file = Text::new(alloc, b"")?;
    let key = turn.work.what.key.copy()?;
    let message = Message::Put { file, key };
    Ok(turn.says_to(turn.talks(), taken, peer, &message))
}

/// Whether the entry is the first request of a get or a copy on an open connection.
pub fn asks(
    alloc: Global,
    turn: &Turn,
    taken: Option<&FrameView>,
    peer: u32,
) -> Result<bool, NoMemory>
    requires { turn.now.work.now.part ≢ Part.Drops }
    ensures { IfOk result (λ b. (s : SetUp) (st : State) (version : ℕ) → b ≡ same_effect (asks (turn_in turn.now s st) version (option_copied taken.entry) peer (part_of turn.now.work.now.part)) (effect_of turn.now.told.now)) }
{
    match turn.work.part {
        Part::Gets => asks_get(alloc, turn, taken, peer),
        Part::Puts => asks_put(alloc, turn, taken, peer),
        Part::Drops => unreachable!(),
    }
}

/// Whether it is that request, or opens the connection first.
pub fn goes_to(alloc: Global, turn: &Turn, peer: u32) -> Result<bool, NoMemory>
    requires { turn.now.work.now.part ≢ Part.Drops }
    ensures { IfOk result (λ b. (s : SetUp) (st : State) → b ≡ same_effect (goes_to (turn_in turn.now s st) peer) (effect_of turn.now.told.now)) }
{
    if turn.is_open(peer) {
        asks(alloc, turn, None, peer)
    } else {
        Ok(turn.opens_to(peer))
    }
}
