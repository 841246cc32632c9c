//! All ends of a repository are closed.
ghost use Rattle.std.specs.Prelude.{◌≡◌, ◌≤◌, ◌<◌, ◌+◌, ◌*◌, ◌∷◌, [], true, is_some, length, vec_capacity, vec_len};
ghost use Rattle.node_model.specs.AnyTime.{ends_with};
ghost use Rattle.node_model.specs.Ends.{EndName};
ghost use Rattle.node_model.specs.Evidence.{but};
ghost use Rattle.node_ends.specs.Ends.{link_at, name_of};
ghost use Rattle.node_crash.specs.Closing.{SendsCloses, all_names, names_with};

use annex_base::{EntryStamp, Items};
use node_ends::{EndId, Ends, Sending, ends_are_there, room_permits_frames};
use run_data::FrameView;

/// Sends a Close at an end, if it is open, and lists it behind the others.
fn close_end(ends: &mut Ends, id: EndId, stamp: EntryStamp, sent: &mut Vec<FrameView>)
    requires there { is_some (link_at ends.old (name_of id)) ≡ true }
    requires room { vec_len sent.old < vec_capacity sent.old }
    ensures closes { SendsCloses (name_of id ∷ []) stamp ends.old ends.new sent.old.items sent.new.items }
    ensures len { vec_len sent.new ≤ vec_len sent.old + 1 }
    ensures capacity { vec_capacity sent.new ≡ vec_capacity sent.old }
{
    // A law, for the proof that an end that is open may send a Close.
    room_permits_frames();
    if ends.is_open(id) {
        sent.push_reserved(ends.send(id, stamp, None, Sending::Close));
    }
}

/// The same at the four ends with a peer of which this side is the client, or at the four others.
fn close_side(
    ends: &mut Ends,
    peer: u32,
    client: bool,
    stamp: EntryStamp,
    sent: &mut Vec<FrameView>,
)
    requires there { (a : EndName) → a.peer ≡ peer → a.slot < 4 → is_some (link_at ends.old a) ≡ true }
    requires room { vec_len sent.old + 4 ≤ vec_capacity sent.old }
    ensures closes { SendsCloses (ends_with peer client) stamp ends.old ends.new sent.old.items sent.new.items }
    ensures len { vec_len sent.new ≤ vec_len sent.old + 4 }
    ensures capacity { vec_capacity sent.new ≡ vec_capacity sent.old }
{
    close_end(
        ends,
        EndId {
            peer,
            slot: 0,
            client,
        },
        stamp,
        sent,
    );
    close_end(
        ends,
        EndId {
            peer,
            slot: 1,
            client,
        },
        stamp,
        sent,
    );
    close_end(
        ends,
        EndId {
            peer,
            slot: 2,
            client,
        },
        stamp,
        sent,
    );
    close_end(
        ends,
        EndId {
            peer,
            slot: 3,
            client,
        },
        stamp,
        sent,
    );
}

/// The same at the ends with a peer, the client's first.
fn close_peer(ends: &mut Ends, peer: u32, stamp: EntryStamp, sent: &mut Vec<FrameView>)
    requires there { (a : EndName) → a.peer ≡ peer → a.slot < 4 → is_some (link_at ends.old a) ≡ true }
    requires room { vec_len sent.old + 8 ≤ vec_capacity sent.old }
    ensures closes { SendsCloses (names_with (peer ∷ [])) stamp ends.old ends.new sent.old.items sent.new.items }
    ensures len { vec_len sent.new ≤ vec_len sent.old + 8 }
    ensures capacity { vec_capacity sent.new ≡ vec_capacity sent.old }
{
    close_side(ends, peer, true, stamp, sent);
    close_side(ends, peer, false, stamp, sent);
}

/// The same where the peer isn't the repository itself.
fn close_other(ends: &mut Ends, own: u32, peer: u32, stamp: EntryStamp, sent: &mut Vec<FrameView>)
    requires there { (a : EndName) → a.peer ≡ peer → a.slot < 4 → is_some (link_at ends.old a) ≡ true }
    requires room { vec_len sent.old + 8 ≤ vec_capacity sent.old }
    ensures closes { SendsCloses (names_with (but own (peer ∷ []))) stamp ends.old ends.new sent.old.items sent.new.items }
    ensures len { vec_len sent.new ≤ vec_len sent.old + 8 }
    ensures capacity { vec_capacity sent.new ≡ vec_capacity sent.old }
{
    if peer != own {
        close_peer(ends, peer, stamp, sent);
    }
}

/// The same at all ends of the repository of this number among so many, in order of the peer's number.
fn close_each(ends: &mut Ends, own: u32, count: u32, stamp: EntryStamp, sent: &mut Vec<FrameView>)
    requires count { length ends.old ≡ count * 8 }
    requires room { vec_len sent.old + count * 8 ≤ vec_capacity sent.old }
    ensures closes { SendsCloses (all_names own count) stamp ends.old ends.new sent.old.items sent.new.items }
{
    // A law, for the proof that each of these ends is there.
    ends_are_there();
    for peer in 0..count {
        close_other(ends, own, peer, stamp, sent);
    }
}

/// Closes all ends of the repository of this number among so many, as a crash does: each end that is open sends a Close of this stamp,
/// in order of the peer's number, of side, the client's first, and of slot. These frames are the list, in that order; they take
/// their places on one that is empty, and it takes no memory. Other ends stay as they are.
pub fn close_all_ends(
    ends: &mut Ends,
    own: u32,
    count: u32,
    stamp: EntryStamp,
    listing: Vec<FrameView>,
) -> Items<FrameView>
    requires count { length ends.old ≡ count * 8 }
    requires empty { listing.items ≡ [] }
    requires room { count * 8 ≤ vec_capacity listing }
    ensures { SendsCloses (all_names own count) stamp ends.old ends.new [] result }
{
    let mut sent = listing;
    close_each(ends, own, count, stamp, &mut sent);
    Items::from_vec(sent)
}
