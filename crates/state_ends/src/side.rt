//! The ends of one side of a repository's connections: those where it is the client, or those where it is the server.
ghost use Rattle.std.specs.Prelude.{◌≡◌, ◌≤◌, ◌<◌, ◌+◌, ◌^◌, ◌&&◌, ◌==◌, ℕ, if◌then◌else◌};
ghost use Rattle.indexmap.specs.IndexMap.{spare};
ghost use Rattle.node_model.specs.Ends.{end_sends, end_takes};
ghost use Rattle.state_ends.specs.Bounds.{IsBelow};
ghost use Rattle.state_ends.specs.Sides.{end_in};

use crate::standing::Standing;
use indexmap::IndexMap;
use run_data::FrameText;

/// A connection of a repository: the other repository, and the slot of the client.
#[derive(Clone, Copy, Debug, PartialEq, Eq, Hash)]
pub struct Connection {
    pub peer: u32,
    pub slot: u32,
}

/// How the end of a connection stands; one that isn't listed was never open.
pub(crate) fn end_in(side: &IndexMap<Connection, Standing>, at: Connection) -> Standing
    ensures { result ≡ end_in side.now.entries at.peer at.slot }
{
    match side.get(&at) {
        Some(standing) => *standing,
        None => Standing::never(),
    }
}

fn put(side: &mut IndexMap<Connection, Standing>, at: Connection, standing: Standing)
    requires { 0 < spare side.old }
    ensures end { (peer slot : ℕ) → end_in side.new.entries peer slot ≡ (if (at.peer == peer) && (at.slot == slot) then standing else end_in side.old.entries peer slot) }
    ensures room { spare side.old ≤ spare side.new + 1 }
{
    side.insert(at, standing).unwrap();
}

/// The end of a connection sends a frame.
pub(crate) fn send_in(side: &mut IndexMap<Connection, Standing>, at: Connection, body: &FrameText)
    requires room { 0 < spare side.old }
    requires small { IsBelow (2 ^ 127) (end_in side.old.entries at.peer at.slot) }
    ensures end { (peer slot : ℕ) → end_in side.new.entries peer slot ≡ (if (at.peer == peer) && (at.slot == slot) then end_sends (end_in side.old.entries peer slot) body.now else end_in side.old.entries peer slot) }
    ensures room { spare side.old ≤ spare side.new + 1 }
{
    let was = end_in(side, at);
    put(side, at, was.sends(body));
}

/// The end of a connection takes a frame of this epoch.
pub(crate) fn take_in(
    side: &mut IndexMap<Connection, Standing>,
    at: Connection,
    epoch: u32,
    body: &FrameText,
)
    requires { 0 < spare side.old }
    ensures end { (peer slot : ℕ) → end_in side.new.entries peer slot ≡ (if (at.peer == peer) && (at.slot == slot) then end_takes (end_in side.old.entries peer slot) epoch body.now else end_in side.old.entries peer slot) }
    ensures room { spare side.old ≤ spare side.new + 1 }
{
    let was = end_in(side, at);
    put(side, at, was.takes(epoch, body));
}
