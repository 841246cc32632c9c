//! The peers that a get asks, one after the other.
ghost use Rattle.std.specs.Prelude.{◌≡◌, ◌<◌, slice_get};
ghost use Rattle.std.specs.List.{range_with_len};
ghost use Rattle.node_model.specs.Evidence.{but};
ghost use Rattle.node_model.specs.SetUp.{SetUp};
ghost use Rattle.node_model.specs.State.{State};
ghost use Rattle.node_model.specs.TransferStep.{next_source};
ghost use Rattle.job_makes.specs.Turns.{turn_in};

use job_makes::Turn;

fn number_at(count: u32, place: usize) -> Option<u32>
    ensures { result ≡ slice_get (range_with_len 0 count) place }
{
    if place < count as usize {
        Some(place as u32)
    } else {
        None
    }
}

/// The other repository at this place among them, in order of number.
fn other_among(repo: u32, count: u32, place: usize) -> Option<u32>
    requires { repo < count }
    ensures { result ≡ slice_get (but repo (range_with_len 0 count)) place }
{
    if place < repo as usize {
        Some(place as u32)
    } else if place < count as usize - 1 {
        Some(place as u32 + 1)
    } else {
        None
    }
}

fn other_at(repo: u32, count: u32, place: usize) -> Option<u32>
    ensures { result ≡ slice_get (but repo (range_with_len 0 count)) place }
{
    if repo < count {
        other_among(repo, count, place)
    } else {
        number_at(count, place)
    }
}

/// The peer that a get asks next: the job's own, or else each other repository in order of number.
pub fn next_source(turn: &Turn) -> Option<u32>
    ensures { (s : SetUp) (st : State) → result ≡ next_source (turn_in turn.now s st) }
{
    let asked = turn.work.causes.len();
    match turn.work.what.peer {
        Some(peer) => { if asked == 0 { Some(peer) } else { None } }
        None => other_at(turn.repo, turn.count(), asked),
    }
}
