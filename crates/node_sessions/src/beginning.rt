//! The sessions of a repository before any connection is open.
ghost use Rattle.std.specs.Prelude.{◌≡◌, ◌≤◌, ◌+◌, ◌*◌, ◌<◌, ◌∷◌, ◌++◌, [], ℕ, IfOk, map, vec_capacity, vec_len};
ghost use Rattle.std.specs.List.{range_with_len};
ghost use Rattle.node_model.specs.Evidence.{but};
ghost use Rattle.node_model.specs.SetUp.{slots};
ghost use Rattle.p2p_server.specs.Talking.{place_of};
ghost use Rattle.node_sessions.specs.Built.{AreBuilt, place_in, places_in};

use annex_base::NoMemory;
use p2p_server::{Place, Session};
use std::alloc::Global;

/// Adds the session that stands here.
fn push_one(sessions: &mut Vec<Session>, place: &Place)
    requires room { vec_len sessions.old < vec_capacity sessions.old }
    requires slot { place.now.slot < 4 }
    ensures places { map place_of sessions.new.items ≡ map place_of sessions.old.items ++ place.now ∷ [] }
    ensures built { AreBuilt place.now.id place.now.version place.now.locks (place.now.peer * 4 + place.now.slot) sessions.old.items → AreBuilt place.now.id place.now.version place.now.locks (place.now.peer * 4 + place.now.slot + 1) sessions.new.items }
    ensures len { vec_len sessions.new ≡ vec_len sessions.old + 1 }
    ensures capacity { vec_capacity sessions.new ≡ vec_capacity sessions.old }
{
    sessions.push_reserved(Session::new(*place));
}

/// Adds the session of a slot of this client.
fn push_slot(sessions: &mut Vec<Session>, place: &Place, slot: u32)
    requires room { vec_len sessions.old < vec_capacity sessions.old }
    requires slot { slot < 4 }
    ensures places { map place_of sessions.new.items ≡ map place_of sessions.old.items ++ place_in place.now place.now.peer slot ∷ [] }
    ensures built { AreBuilt place.now.id place.now.version place.now.locks (place.now.peer * 4 + slot) sessions.old.items → AreBuilt place.now.id place.now.version place.now.locks (place.now.peer * 4 + slot + 1) sessions.new.items }
    ensures len { vec_len sessions.new ≡ vec_len sessions.old + 1 }
    ensures capacity { vec_capacity sessions.new ≡ vec_capacity sessions.old }
{
    let here = Place {
        id: place.id,
        version: place.version,
        locks: place.locks,
        peer: place.peer,
        slot,
    };
    push_one(sessions, &here);
}

/// Adds the sessions of this client.
fn push_client(sessions: &mut Vec<Session>, place: &Place)
    requires room { vec_len sessions.old + 4 ≤ vec_capacity sessions.old }
    ensures places { map place_of sessions.new.items ≡ map place_of sessions.old.items ++ map (place_in place.now place.now.peer) slots }
    ensures built { AreBuilt place.now.id place.now.version place.now.locks (place.now.peer * 4) sessions.old.items → AreBuilt place.now.id place.now.version place.now.locks (place.now.peer * 4 + 4) sessions.new.items }
    ensures len { vec_len sessions.new ≡ vec_len sessions.old + 4 }
    ensures capacity { vec_capacity sessions.new ≡ vec_capacity sessions.old }
{
    push_slot(sessions, place, 0);
    push_slot(sessions, place, 1);
    push_slot(sessions, place, 2);
    push_slot(sessions, place, 3);
}

/// Adds the sessions of a repository's client, if it is another repository.
fn push_other(sessions: &mut Vec<Session>, place: &Place, number: u32, peer: u32)
    requires room { vec_len sessions.old + 4 ≤ vec_capacity sessions.old }
    ensures places { map place_of sessions.new.items ≡ map place_of sessions.old.items ++ places_in place.now (but number (peer ∷ [])) }
    ensures built { AreBuilt place.now.id place.now.version place.now.locks (peer * 4) sessions.old.items → AreBuilt place.now.id place.now.version place.now.locks (peer * 4 + 4) sessions.new.items }
    ensures len { vec_len sessions.new ≤ vec_len sessions.old + 4 }
    ensures capacity { vec_capacity sessions.new ≡ vec_capacity sessions.old }
{
    if peer != number {
        let here = Place {
            id: place.id,
            version: place.version,
            locks: place.locks,
            peer,
            slot: place.slot,
        };
        push_client(sessions, &here);
    }
}

/// The sessions of the repository of this number among so many.
pub(crate) fn all_sessions(
    alloc: Global,
    place: &Place,
    number: u32,
    count: u32,
) -> Result<Vec<Session>, NoMemory>
    ensures places { IfOk result (λ v. map place_of v.items ≡ places_in place.now (but number (range_with_len 0 count))) }
    ensures built { IfOk result (λ v. AreBuilt place.now.id place.now.version place.now.locks (count * 4) v.items) }
{
    let mut sessions = Vec::with_capacity(alloc, count as usize * 4)?;
    for peer in 0..count {
        push_other(&mut sessions, place, number, peer);
    }
    Ok(sessions)
}
