//! The state of a session, and what it lets go of.
ghost use Rattle.std.specs.Prelude.{◌≡◌, ◌<◌, ℕ, List, Some, None, IfOk};
ghost use Rattle.std.specs.declared.option.Option.{Option};
ghost use Rattle.annex_base.specs.declared.kinds.Call.{Call};
ghost use Rattle.object_store.specs.Stores.{Contents, Parts};
ghost use Rattle.object_store.specs.declared.keeper.HoldRecord.{HoldRecord};
ghost use Rattle.content_lock.specs.Stored.{Agrees};
ghost use Rattle.content_lock.specs.Tokens.{Owns, given_in};
ghost use Rattle.session_state.specs.Answers.{LeavesContents, owner_at};
ghost use Rattle.session_state.specs.Phases.{IsBare};
ghost use Rattle.session_state.specs.SessionCalls.{Makes, MakesStep};
ghost use Rattle.session_state.specs.Stepping.{Goes, IsLetGo, IsStep, IsUnexpected, moment_of};
ghost use Rattle.session_state.specs.Talking.{HasFill, share_in};

use crate::doing::{Doing, Taken, Taking, Wanting};
use crate::incoming::Incoming;
use crate::place::{Place, Scene};
use crate::step::Step;
use annex_base::{NoMemory, Text};
use content_lock::LockTable;
use p2p_wire::Message;
use run_data::EntryKind;
use std::alloc::Global;
use std::mem;

/// Where a session stands, the version that was agreed on (0 before), and what it does.
pub struct SessionState {
    pub place: Place,
    pub spoken: u64,
    pub doing: Doing,
}

impl SessionState {
    /// Lets go of what it has: a hold that it guards is kept, and a part that it fills stays.
    pub fn let_go(&mut self, table: &mut LockTable)
        requires owns { Owns (owner_at self.old.place) (share_in self.old.doing) table.old.holds }
        requires fills { HasFill table.old self.old.doing }
        ensures session { self.new ≡ record { place = self.old.place; spoken = self.old.spoken; doing = Doing.Waits } }
        ensures table { IsLetGo self.old.place self.old.doing table.old table.new }
    {
        let doing = mem::replace(&mut self.doing, Doing::Waits);
        spend(doing, table);
    }

    /// Makes it new.
    pub fn reset(&mut self, table: &mut LockTable)
        requires owns { Owns (owner_at self.old.place) (share_in self.old.doing) table.old.holds }
        requires fills { HasFill table.old self.old.doing }
        ensures session { self.new ≡ record { place = self.old.place; spoken = 0; doing = Doing.Waits } }
        ensures table { IsLetGo self.old.place self.old.doing table.old table.new }
    {
        self.spoken = 0;
        self.let_go(table);
    }

    /// Closes the connection on what isn't expected.
    pub fn refuse(&mut self, alloc: Global, table: &mut LockTable) -> Result<Step, NoMemory>
        requires owns { Owns (owner_at self.old.place) (share_in self.old.doing) table.old.holds }
        requires fills { HasFill table.old self.old.doing }
        ensures goes { (x : Scene) (i : Incoming) (contents : Option Contents) (parts : Option Parts) (records : Option (List HoldRecord)) (faults : ℕ) → x.place ≡ self.old.place → IsUnexpected i self.old → Agrees records table.old.holds
            → Goes x i
            (moment_of self.old table.old contents parts records faults)
            (moment_of self.new table.new contents parts records faults) result }
        ensures calls { (x : Scene) (i : Incoming) (contents : Option Contents) (parts : Option Parts) (failing : Option (Call → ℕ)) → IsUnexpected i self.old → Makes x i self.old table.old contents parts failing failing result }
        ensures leaves { IfOk result (λ step. LeavesContents step.kind) }
    {
        let text = Text::new(alloc, b"unexpected")?;
        self.reset(table);
        Ok(Step::closes(self.place.close_kind(), Some(Message::Error(text))))
    }

    /// ERROR: closes the connection.
    pub fn give_up(&mut self, table: &mut LockTable) -> Step
        requires owns { Owns (owner_at self.old.place) (share_in self.old.doing) table.old.holds }
        requires fills { HasFill table.old self.old.doing }
        ensures goes { (x : Scene) (text : List ℕ) (contents : Option Contents) (parts : Option Parts) (records : Option (List HoldRecord)) (faults : ℕ) → x.place ≡ self.old.place → Agrees records table.old.holds
            → IsStep x (Incoming.Message (Message.Error text))
            (moment_of self.old table.old contents parts records faults)
            (moment_of self.new table.new contents parts records faults) result }
        ensures calls { (x : Scene) (text : List ℕ) (contents : Option Contents) (parts : Option Parts) (failing : Option (Call → ℕ)) → MakesStep x (Incoming.Message (Message.Error text)) self.old table.old contents parts failing failing result }
        ensures leaves { LeavesContents result.kind }
    {
        self.reset(table);
        Step::closes(self.place.close_kind(), None)
    }
}

/// A session without a token does this from now on.
pub fn begin(doing: &mut Doing, next: Doing)
    requires { IsBare doing.old }
    ensures { doing.new ≡ next }
{
    match mem::replace(doing, next) {
        Doing::Waits | Doing::Gives(_) | Doing::Gave => {}
        _ => unreachable!(),
    }
}

/// Spends what a session has: a hold that it guards is kept, and a part that it fills stays.
pub fn spend(doing: Doing, table: &mut LockTable)
    requires given { given_in table.old.holds (share_in doing) ≡ share_in doing }
    requires fills { HasFill table.old doing }
    ensures { (place : Place) → Owns (owner_at place) (share_in doing) table.old.holds → IsLetGo place doing table.old table.new }
{
    match doing {
        Doing::Waits | Doing::Gives(_) | Doing::Gave => {}
        Doing::Guards { share } => table.abandon(share),
        Doing::Wants(
            Wanting {
                fill,
                size: _,
                digester: _,
            },
        ) => table.unfill(fill),
        Doing::Takes(
            Taking {
                fill,
                size: _,
                left: _,
                digester: _,
            },
        ) => table.unfill(fill),
        Doing::Took(
            Taken {
                fill,
                size: _,
                sum: _,
            },
        ) => table.unfill(fill),
    }
}
