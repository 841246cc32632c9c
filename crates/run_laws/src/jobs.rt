//! The laws of running jobs, of the frames that repositories send and take, and of the answers whose words are kept.

ghost use Rattle.std.specs.Prelude.{◌≡◌, ◌≢◌, ◌<◌, ◌≤◌, ◌^◌, ℕ, List, ◌∷◌, Some, true, length, reverse};
ghost use Rattle.annex_base.specs.Lists.{Each};
ghost use Rattle.run_data.specs.declared.entry.Entry.{Entry};
ghost use Rattle.run_data.specs.declared.entry.FrameView.{FrameView};
ghost use Rattle.run_data.specs.declared.run.Run.{Run};
ghost use Rattle.node_model.specs.Look.{Look, Effect};
ghost use Rattle.node_model.specs.Step.{step};
ghost use Rattle.run_model.specs.Past.{Occurs, begun_count, is_of};
ghost use Rattle.run_model.specs.Run.{IsRun, set_up};
ghost use Rattle.run_model.specs.States.{state_of, works};
ghost use Rattle.run_laws.specs.Jobs.{AnswersAsked, AreJobs};

use p2p_wire::sent_messages_are_read;

/// In each run the running jobs of a repository have numbers of their own, those of their beginnings; one that gave an order drops
/// from its peer; and of a repository whose answer a job awaits it has heard nothing before (own).
pub fn jobs_hear_nobody_twice()
    ensures jobs { (run : Run) (r : ℕ) → IsRun run → AreJobs (works (reverse run.entries) r) }
    ensures numbers { (run : Run) (r : ℕ) → IsRun run
        → Each (λ w. w.number ≤ begun_count (reverse run.entries) r) (works (reverse run.entries) r) }
{
    // a law, for the proof of what a job has heard, and of whom: each message that is sent is read from its line
    sent_messages_are_read();
}

/// In each run an entry of a repository sends frames to others alone, and takes them from others alone; and so does each step that
/// may be made next (own).
pub fn frames_go_to_others()
    ensures sent { (run : Run) (e : Entry) (before : List Entry) (r : ℕ) → IsRun run → Occurs (reverse run.entries) e before
        → is_of r e ≡ true → Each (λ f. f.peer ≢ r) e.sent }
    ensures taken { (run : Run) (e : Entry) (before : List Entry) (r : ℕ) (f : FrameView) → IsRun run → Occurs (reverse run.entries) e before
        → is_of r e ≡ true → e.taken ≡ Some f → f.peer ≢ r }
    ensures sends { (run : Run) (r : ℕ) (k : Look) (m : Effect) → IsRun run → r < length run.repos → k.part < 2 ^ 62
        → step (set_up run r) (state_of (set_up run r) (reverse run.entries)) k ≡ Some m → Each (λ f. f.peer ≢ r) m.sent }
    ensures takes { (run : Run) (r : ℕ) (k : Look) (m : Effect) (f : FrameView) → IsRun run → r < length run.repos → k.part < 2 ^ 62
        → step (set_up run r) (state_of (set_up run r) (reverse run.entries)) k ≡ Some m → m.taken ≡ Some f → f.peer ≢ r }
{
    // a law, for the proof that a job's open ends are with others: each message that is sent is read from its line
    sent_messages_are_read();
}

/// In each run an answer that a job takes with the last entry, where the word beside it is kept, comes of an entry that was asked for
/// a word: it took CHECKPRESENT or an order (git-annex P2P protocol).
pub fn kept_words_were_asked()
    ensures { (run : Run) (past : List Entry) (e : Entry) (r : ℕ) → IsRun run → reverse run.entries ≡ e ∷ past → is_of r e ≡ true
        → AnswersAsked past r e }
{
    // a law, for the proof that an answer is to the job's last request: each message that is sent is read from its line
    sent_messages_are_read();
}
