//! The laws. Each is the contract of a function that does nothing.

ghost use Rattle.std.specs.Prelude.{◌≡◌, ℕ, true, List, Some, if◌then◌else◌};
ghost use Rattle.run_data.specs.declared.entry.EntryKind.TheVariants.{Talk};
ghost use Rattle.run_data.specs.declared.job.Cause.TheVariants as causes;
ghost use Rattle.run_data.specs.declared.run.Run.{Run};
ghost use Rattle.node_model.specs.Evidence.{Asked};
ghost use Rattle.node_model.specs.Jobs.{Drops, Fresh, Work, unshared_cause};
ghost use Rattle.node_model.specs.Knows.{standing_of};
ghost use Rattle.node_model.specs.Look.{Look, Effect};
ghost use Rattle.node_model.specs.Turns.{slot_step};
ghost use Rattle.run_model.specs.Causes.{HasCauses};
ghost use Rattle.run_model.specs.Past.{bar, present};
ghost use Rattle.run_model.specs.Run.{IsRun, set_up};
ghost use Rattle.run_model.specs.Safety.{past_at};
ghost use Rattle.run_model.specs.States.{state_of};

use p2p_wire::sent_messages_are_read;

/// Each drop and each transfer of a run that was refused has its cause there: by its row, by a candidate or a source, by
/// its target or its store, or by a connection that was closed (own).
pub fn refusals_have_causes()
    ensures { (run : Run) → IsRun run → HasCauses run }
{
    // a law, for the proof that a job is told the cause: each message that is sent is read from its line
    sent_messages_are_read();
}

/// A bar stands only on a content that is there. So what the first step of a drop hears of its own repository by the bar alone,
/// where it takes no share of it though its logs have it asked, is what the row says: the content is absent, or barred (own).
pub fn own_causes_are_of_the_row()
    ensures bars { (run : Run) (place r j : ℕ) (key : List ℕ) → IsRun run
        → bar (past_at run place) r key ≡ Some j → present (past_at run place) r key ≡ true }
    ensures causes { (run : Run) (place r : ℕ) (k : Look) (w : Work) (m : Effect) → IsRun run → w.part ≡ Drops → w.phase ≡ Fresh
        → slot_step (set_up run r) (state_of (set_up run r) (past_at run place)) k (Some w) ≡ Some m → m.kind ≡ Talk (Some w.number)
        → standing_of (set_up run r) (state_of (set_up run r) (past_at run place)) w r ≡ Asked
        → unshared_cause (bar (past_at run place) r w.what.key)
        ≡ (if present (past_at run place) r w.what.key then causes.Barred else causes.Absent) }
{
    // a law, for the proof that runs are lawful: each message that is sent is read from its line
    sent_messages_are_read();
}
