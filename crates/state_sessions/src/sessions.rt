//! The sessions of one running repository.
ghost use Rattle.std.specs.Prelude.{◌≡◌, ◌≤◌, ◌<◌, ◌+◌, ◌^◌, ℕ, List, length, IfOk, OnOk};
ghost use Rattle.std.specs.declared.option.Option.{Option};
ghost use Rattle.std.specs.Option.{option_copied};
ghost use Rattle.indexmap.specs.IndexMap.{spare};
ghost use Rattle.node_model.specs.After.{first_state, state_after};
ghost use Rattle.node_model.specs.SetUp.{SetUp};
ghost use Rattle.node_model.specs.State.{State};
ghost use Rattle.state_rows.specs.Rows.{size_of};
ghost use Rattle.state_sessions.specs.Doings.{number_in};
ghost use Rattle.state_sessions.specs.Hearing.{Agrees};
ghost use Rattle.state_sessions.specs.Sessions.{AreBelow, AreSessionsOf, HasRoom, StaySame, session_of};
ghost use Rattle.state_sessions.specs.Heard.{IsHeardIn};
ghost use Rattle.state_sessions.specs.Tables.{or_new, session_in, taken_in, took_at};

use crate::doing::Session;
use crate::heard::{Heard, heard_in};
use crate::sending::{close_all, connection_of, send_all};
use crate::table::take;
use annex_base::NoMemory;
use indexmap::IndexMap;
use run_data::{Entry, FrameView};
use state_ends::Connection;
use state_rows::Rows;
use std::alloc::Global;

/// The sessions of one repository as a server: those whose connections were ever open (own).
#[derive(Drop)]
pub struct Sessions {
    alloc: Global,
    table: IndexMap<Connection, Session>,
}

impl Sessions {
    /// Each is new.
    pub fn new(alloc: Global) -> Sessions
        ensures sessions { (s : SetUp) → AreSessionsOf result (first_state s) }
        ensures below { AreBelow 1 result }
    {
        Sessions {
            alloc,
            table: IndexMap::new(alloc),
        }
    }

    /// The session of a connection; none is listed where it is new.
    pub fn session(&self, at: Connection) -> Option<&Session>
        ensures { or_new (option_copied result) ≡ session_of self.now at.peer at.slot }
    {
        self.table.get(&at)
    }

    /// What a session hears by an entry, by the rows before it, and room for what the entry changes. The sessions stay.
    pub fn ready(&mut self, rows: &Rows, entry: &Entry) -> Result<Option<Heard>, NoMemory>
        requires { length entry.now.sent + 1 < 2 ^ 64 }
        ensures heard { IfOk result (IsHeardIn (size_of rows.now) entry.now) }
        ensures room { OnOk result (HasRoom (length entry.now.sent + 1) self.new) }
        ensures same { StaySame self.old self.new }
    {
        self.table.reserve(entry.sent.as_slice().len() + 1)?;
        heard_in(self.alloc, rows, entry)
    }

    /// Takes note of an entry, by what was made ready for it. It takes no memory, and looks up the session of each frame of the
    /// entry.
    pub fn note(&mut self, entry: &Entry, heard: Option<Heard>)
        requires room { HasRoom (length entry.now.sent + 1) self.old }
        requires below { AreBelow (2 ^ 125) self.old }
        ensures sessions { (content : List ℕ → Option ℕ) (s : SetUp) (st : State) → IsHeardIn content entry.now heard → Agrees st.content content
            → AreSessionsOf self.old st → AreSessionsOf self.new (state_after s st entry.now) }
        ensures below { (limit : ℕ) → 2 ^ 64 ≤ limit → AreBelow limit self.old → AreBelow (limit + 2 ^ 65) self.new }
    {
        let took = taken_in(&entry.taken);
        take_if(&mut self.table, &entry.taken, heard);
        send_all(&mut self.table, took, entry.sent.as_slice());
        close_all(&mut self.table, entry.sent.as_slice());
    }
}

/// The connection whose session takes the frame, if one does.
fn taken_in(taken: &Option<FrameView>) -> Option<Connection>
    ensures { result ≡ taken_in taken.now }
{
    match taken {
        Some(frame) if frame.up => Some(connection_of(frame)),
        _ => None,
    }
}

/// The session takes the frame, if one does.
fn take_if(
    table: &mut IndexMap<Connection, Session>,
    taken: &Option<FrameView>,
    heard: Option<Heard>,
)
    requires room { 0 < spare table.old }
    requires small { (peer slot : ℕ) → number_in (session_in table.old.entries peer slot).doing < 2 ^ 127 }
    ensures session { (peer slot : ℕ) → session_in table.new.entries peer slot ≡ took_at taken.now heard peer slot (session_in table.old.entries peer slot) }
    ensures room { spare table.old ≤ spare table.new + 1 }
    ensures small { (limit peer slot : ℕ) → 2 ^ 64 ≤ limit → number_in (session_in table.old.entries peer slot).doing < limit → number_in (session_in table.new.entries peer slot).doing < limit + 2 ^ 64 }
{
    if let Some(frame) = taken {
        if frame.up {
            take(table, connection_of(frame), &frame.body, heard);
        }
    }
}
