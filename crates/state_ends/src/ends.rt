//! The ends of one running repository's connections.
ghost use Rattle.std.specs.Prelude.{◌≡◌, ◌≤◌, ◌<◌, ◌+◌, ◌^◌, ℕ, fold, length, if◌then◌else◌, OnOk};
ghost use Rattle.node_model.specs.After.{first_state, state_after};
ghost use Rattle.node_model.specs.Ends.{EndName, end_sends, end_took, sends_at, sent_at, taken_at};
ghost use Rattle.node_model.specs.SetUp.{SetUp};
ghost use Rattle.node_model.specs.State.{State};
ghost use Rattle.state_ends.specs.Ends.{AreBelow, AreEndsOf, HasRoom, StaySame, end_of};

use crate::side::{Connection, end_in, send_in, take_in};
use crate::standing::Standing;
use annex_base::NoMemory;
use indexmap::IndexMap;
use run_data::{Entry, FrameView};
use std::alloc::Global;

/// The ends of one repository's connections that were ever open: those where it is the client, and those where it is the
/// server (own).
#[derive(Drop)]
pub struct Ends {
    clients: IndexMap<Connection, Standing>,
    servers: IndexMap<Connection, Standing>,
}

impl Ends {
    /// None was ever open.
    pub fn new(alloc: Global) -> Ends
        ensures ends { (s : SetUp) → AreEndsOf result (first_state s) }
        ensures below { AreBelow 1 result }
    {
        Ends {
            clients: IndexMap::new(alloc),
            servers: IndexMap::new(alloc),
        }
    }

    /// How the end of a connection stands: the client's, where this repository is the client, or else the server's.
    pub fn end(&self, at: Connection, client: bool) -> Standing
        ensures { result ≡ end_of self.now (record { peer = at.peer; slot = at.slot; client = client }) }
    {
        if client {
            end_in(&self.clients, at)
        } else {
            end_in(&self.servers, at)
        }
    }

    /// Makes room for what an entry changes. The ends stay.
    pub fn ready(&mut self, entry: &Entry) -> Result<(), NoMemory>
        requires { length entry.now.sent + 1 < 2 ^ 64 }
        ensures room { OnOk result (HasRoom (length entry.now.sent + 1) self.new) }
        ensures same { StaySame self.old self.new }
    {
        let count = entry.sent.as_slice().len() + 1;
        self.clients.reserve(count)?;
        self.servers.reserve(count)?;
        Ok(())
    }

    /// Takes note of an entry, with room for it. It takes no memory, and looks up the end of each frame of the entry.
    pub fn note(&mut self, entry: &Entry)
        requires room { HasRoom (length entry.now.sent + 1) self.old }
        requires below { AreBelow (2 ^ 126) self.old }
        ensures ends { (s : SetUp) (st : State) → AreEndsOf self.old st → AreEndsOf self.new (state_after s st entry.now) }
        ensures below { (limit : ℕ) → 2 ^ 32 ≤ limit → AreBelow limit self.old → AreBelow (limit + length entry.now.sent) self.new }
    {
        take_if(self, &entry.taken);
        send_all(self, entry.sent.as_slice());
    }
}

/// Takes the frame, if there is one.
fn take_if(ends: &mut Ends, taken: &Option<FrameView>)
    requires { HasRoom 1 ends.old }
    ensures ends { (a : EndName) → end_of ends.new a ≡ end_took (end_of ends.old a) (taken_at a taken.now) }
    ensures room { (n : ℕ) → HasRoom (n + 1) ends.old → HasRoom n ends.new }
    ensures below { (limit : ℕ) → 2 ^ 32 ≤ limit → AreBelow limit ends.old → AreBelow limit ends.new }
{
    if let Some(frame) = taken {
        take(ends, frame);
    }
}

fn take(ends: &mut Ends, frame: &FrameView)
    requires { HasRoom 1 ends.old }
    ensures ends { (a : EndName) → end_of ends.new a ≡ end_took (end_of ends.old a) (taken_at a (Some frame.now)) }
    ensures room { (n : ℕ) → HasRoom (n + 1) ends.old → HasRoom n ends.new }
    ensures epoch { frame.now.epoch < 2 ^ 32 }
{
    let at = connection_of(frame);
    if frame.up {
        take_in(&mut ends.servers, at, frame.epoch, &frame.body);
    } else {
        take_in(&mut ends.clients, at, frame.epoch, &frame.body);
    }
}

/// Sends the frames, in order.
fn send_all(ends: &mut Ends, frames: &[FrameView])
    requires room { HasRoom (length frames.now) ends.old }
    requires below { AreBelow (2 ^ 126) ends.old }
    ensures ends { (a : EndName) → end_of ends.new a ≡ fold (λ c f. end_sends c f.body) (end_of ends.old a) (sent_at a frames.now) }
{
    for frame in frames {
        send(ends, frame);
    }
}

fn send(ends: &mut Ends, frame: &FrameView)
    requires room { HasRoom 1 ends.old }
    requires below { AreBelow (2 ^ 127) ends.old }
    ensures ends { (a : EndName) → end_of ends.new a ≡ (if sends_at a frame.now then end_sends (end_of ends.old a) frame.now.body else end_of ends.old a) }
    ensures room { (n : ℕ) → HasRoom (n + 1) ends.old → HasRoom n ends.new }
{
    let at = connection_of(frame);
    if frame.up {
        send_in(&mut ends.clients, at, &frame.body);
    } else {
        send_in(&mut ends.servers, at, &frame.body);
    }
}

fn connection_of(frame: &FrameView) -> Connection
    ensures { result ≡ record { peer = frame.now.peer; slot = frame.now.slot } }
{
    Connection {
        peer: frame.peer,
        slot: frame.slot,
    }
}
