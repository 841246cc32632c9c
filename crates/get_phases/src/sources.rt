//! The peers that a get asks, one after the other.
ghost use Rattle.std.specs.Prelude.{◌≡◌, ◌<◌, slice_get};
ghost use Rattle.std.specs.List.{range_with_len};
ghost use Rattle.node_model.specs.Evidence.{but};
ghost use Rattle.get_phases.specs.Gets.{source_in};

use crate::getting::Getting;
use transfer_turns::Here;

/// The other repository at this place among them, in order of number.
fn other_at(repo: u32, count: u32, place: usize) -> Option<u32>
    requires { repo < count }
    ensures { result ≡ slice_get (but repo (range_with_len 0 count)) place }
{
    if place < repo as usize {
        Some(place as u32)
    } else if place < count as usize - 1 {
        Some(place as u32 + 1)
    } else {
        None
    }
}

/// The peer that it asks next: the job's own, or else each other repository in order of number.
pub fn next_source<H: Here>(getting: &Getting, here: &H) -> Option<u32>
    ensures { result ≡ source_in (H.sight here.now) getting.now }
{
    let asked = getting.causes.len();
    match getting.job.peer {
        Some(peer) => { if asked == 0 { Some(peer) } else { None } }
        None => other_at(here.repo(), here.count(), asked),
    }
}
