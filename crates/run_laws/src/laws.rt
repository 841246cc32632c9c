//! The laws. Each is the contract of a function that does nothing.

ghost use Rattle.run_data.specs.declared.run.Run.{Run};
ghost use Rattle.run_model.specs.Safety.{IsSafe};
ghost use Rattle.run_model.specs.Run.{IsRun};
ghost use Rattle.past_facts.specs.Lawful.{IsLawful};

use p2p_wire::sent_messages_are_read;

/// Each run is lawful: every entry finds what it has to.
pub fn runs_are_lawful()
    ensures { (run : Run) → IsRun run → IsLawful run }
{
    // a law, for the proof that an entry finds what others have said: each message that is sent is read from its line
    sent_messages_are_read();
}

/// Each run is safe: copies and claims of a key are as many as its drops read that they have to be, each removal leaves
/// its drop's evidence, and is one drop's (git-annex-mincopies).
pub fn runs_are_safe()
    ensures { (run : Run) → IsRun run → IsSafe run }
{
    // a law, for the proof that runs are lawful: each message that is sent is read from its line
    sent_messages_are_read();
}
