//! The connections of a repository: their ends, and its sessions as a server.
ghost use Rattle.std.specs.Prelude.{◌≡◌, ◌≤◌, ◌<◌, ◌+◌, ◌^◌, ℕ, List, length, IfOk, OnOk};
ghost use Rattle.std.specs.declared.option.Option.{Option};
ghost use Rattle.node_model.specs.After.{first_state, state_after};
ghost use Rattle.node_model.specs.SetUp.{SetUp};
ghost use Rattle.node_model.specs.State.{State};
ghost use Rattle.state_rows.specs.Rows.{size_of};
ghost use Rattle.state_sessions.specs.Heard.{IsHeardIn};
ghost use Rattle.state_sessions.specs.Hearing.{Agrees};
ghost use Rattle.step_state.specs.Links.{AreBelow, AreLinksOf, HasRoom, StaySame};

use annex_base::NoMemory;
use run_data::Entry;
use state_ends::Ends;
use state_rows::Rows;
use state_sessions::{Heard, Sessions};
use std::alloc::Global;

/// The connections of one repository: how their ends stand, and its sessions as a server (own).
#[derive(Drop)]
pub struct Links {
    pub ends: Ends,
    pub sessions: Sessions,
}

impl Links {
    pub(crate) fn new(alloc: Global) -> Links
        ensures links { (s : SetUp) → AreLinksOf result (first_state s) }
        ensures below { AreBelow 1 result }
    {
        Links {
            ends: Ends::new(alloc),
            sessions: Sessions::new(alloc),
        }
    }

    /// What a session hears by an entry, by the rows before it, and room for what the entry changes. They stay.
    pub(crate) fn ready(&mut self, rows: &Rows, entry: &Entry) -> Result<Option<Heard>, NoMemory>
        requires { length entry.now.sent + 1 < 2 ^ 64 }
        ensures heard { IfOk result (IsHeardIn (size_of rows.now) entry.now) }
        ensures room { OnOk result (HasRoom (length entry.now.sent + 1) self.new) }
        ensures same { StaySame self.old self.new }
    {
        self.ends.ready(entry)?;
        self.sessions.ready(rows, entry)
    }

    /// Takes note of an entry, by what was made ready for it.
    pub(crate) fn note(&mut self, entry: &Entry, heard: Option<Heard>)
        requires sent { length entry.now.sent + 1 < 2 ^ 64 }
        requires room { HasRoom (length entry.now.sent + 1) self.old }
        requires below { AreBelow (2 ^ 125) self.old }
        ensures links { (content : List ℕ → Option ℕ) (s : SetUp) (st : State) → IsHeardIn content entry.now heard → Agrees st.content content
            → AreLinksOf self.old st → AreLinksOf self.new (state_after s st entry.now) }
        ensures below { (limit : ℕ) → 2 ^ 64 ≤ limit → AreBelow limit self.old → AreBelow (limit + 2 ^ 65) self.new }
    {
        self.ends.note(entry);
        self.sessions.note(entry, heard);
    }
}
