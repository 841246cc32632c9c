//! The laws. Each is the contract of a function that does nothing.

ghost use Rattle.std.specs.Prelude.{◌≡◌, ℕ, List, Option, Some, reverse};
ghost use Rattle.drop_proof.specs.declared.rule.Need.{Need};
ghost use Rattle.run_data.specs.declared.entry.By.TheVariants.{Job as by_job, Peer};
ghost use Rattle.run_data.specs.declared.entry.Entry.{Entry};
ghost use Rattle.run_data.specs.declared.entry.EntryKind.TheVariants.{Gone, Order};
ghost use Rattle.run_data.specs.declared.run.Run.{Run};
ghost use Rattle.run_model.specs.Run.{IsRun, RunStep, set_up};
ghost use Rattle.audit_laws.specs.Proofs.{IsOrderFrame, TakesItsOrder, order_proof, proof_after, removed_proof};

use p2p_wire::sent_messages_are_read;
use run_laws::carried_states_agree;
use step_facts::{own_entries_suit_their_ends, steps_find_their_cause};

/// Where a job removes a key by the next entry of a run, the need and the evidence of the removal are those that the job's state tells.
pub fn removals_tell_their_evidence()
    ensures { (run : Run) (e : Entry) (r j : ℕ) (key : List ℕ) → IsRun run → RunStep (set_up run) (reverse run.entries) e → e.repo ≡ Some r → e.kind ≡ Gone (by_job j) key
        → removed_proof run.repos (reverse run.entries) key e ≡ proof_after run r j }
{
    // Laws, for the proof: messages are read from their lines, and what is carried of a state agrees with the entries.
    sent_messages_are_read();
    carried_states_agree();
}

/// Where a job orders a removal by the next entry of a run, its state tells the need and the evidence that it has then.
pub fn orders_tell_their_evidence()
    ensures { (run : Run) (e : Entry) (a j target : ℕ) (deadline : Option ℕ) (need : Need) (key : List ℕ) → IsRun run → RunStep (set_up run) (reverse run.entries) e → e.repo ≡ Some a
        → e.kind ≡ Order j target deadline need key → proof_after run a j ≡ Some (order_proof run.repos (reverse run.entries) a j target need) }
{
    // Laws, for the proof: messages are read from their lines, and what is carried of a state agrees with the entries.
    sent_messages_are_read();
    carried_states_agree();
}

/// An order that is the next entry of a run sends one frame, up, whose number is its place among those of its way.
pub fn orders_are_kept_by_their_frames()
    ensures { (run : Run) (e : Entry) (a j target : ℕ) (deadline : Option ℕ) (need : Need) (key : List ℕ) → IsRun run → RunStep (set_up run) (reverse run.entries) e → e.repo ≡ Some a
        → e.kind ≡ Order j target deadline need key → IsOrderFrame (reverse run.entries) a e }
{
    // Laws, for the proof: messages are read from their lines; what a step found tells what it sends, and its entry suits its ends.
    sent_messages_are_read();
    steps_find_their_cause();
    own_entries_suit_their_ends();
}

/// Where a repository removes a key by the next entry of a run since a peer ordered it, it takes the frame of the order, and the need
/// and the evidence of the removal are those that the peer's job had then.
pub fn removals_take_their_orders()
    ensures { (run : Run) (e : Entry) (r p slot : ℕ) (key : List ℕ) → IsRun run → RunStep (set_up run) (reverse run.entries) e → e.repo ≡ Some r → e.kind ≡ Gone (Peer p slot) key
        → TakesItsOrder run.repos (reverse run.entries) r key e }
{
    // A law, for the proof: messages are read from their lines.
    sent_messages_are_read();
}
