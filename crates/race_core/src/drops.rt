//! The laws that give each removal its one drop.

ghost use Rattle.std.specs.Prelude.{◌≡◌, ◌⊎◌, ℕ, true, List, Some, slice_get};
ghost use Rattle.drop_proof.specs.Judging.{is_enough};
ghost use Rattle.drop_proof.specs.declared.rule.Side.TheVariants.{Local};
ghost use Rattle.run_data.specs.declared.entry.By.{By};
ghost use Rattle.run_data.specs.declared.entry.By.TheVariants.{Job as by_job, Peer};
ghost use Rattle.run_data.specs.declared.entry.Entry.{Entry};
ghost use Rattle.run_data.specs.declared.entry.EntryKind.TheVariants.{Gone};
ghost use Rattle.run_data.specs.declared.run.Run.{Run};
ghost use Rattle.run_model.specs.Safety.{Removal};
ghost use Rattle.run_model.specs.Run.{IsRun};
ghost use Rattle.race_core.specs.Places.{removal_at};
ghost use Rattle.race_core.specs.Removals.{HasJob, HasOrder, IsAt};

use p2p_wire::sent_messages_are_read;

/// Each entry that takes a key away names its repository, is by a job of it or by a peer's order, and is the removal of a
/// drop whose evidence was enough for what it needed, by the rule of `judge` in the crate `drop_proof`
/// (git-annex-numcopies, git-annex-mincopies).
pub fn each_removal_is_one_drops()
    ensures repository { (run : Run) (key : List ℕ) (place : ℕ) (e : Entry) (by : By)
        → IsRun run → slice_get run.entries place ≡ Some e → e.kind ≡ Gone by key
        → (r : ℕ) × (e.repo ≡ Some r) }
    ensures dropped_by { (run : Run) (key : List ℕ) (place : ℕ) (e : Entry) (by : By)
        → IsRun run → slice_get run.entries place ≡ Some e → e.kind ≡ Gone by key
        → ((j : ℕ) × (by ≡ by_job j)) ⊎ ((a slot : ℕ) × (by ≡ Peer a slot)) }
    ensures enough { (run : Run) (key : List ℕ) (place : ℕ) (e : Entry) (by : By)
        → IsRun run → slice_get run.entries place ≡ Some e → e.kind ≡ Gone by key
        → (x : Removal) × (removal_at run key place e ≡ Some x)
        × (is_enough x.side x.need x.items ≡ true) }
{
    // a law, for the proof that each entry finds what it has to: each message that is sent is read from its line
    sent_messages_are_read();
}

/// A removal by a job is that of a local drop, or of the drop of a move, of this key, which began at one place before; and the
/// job removes nothing else here.
pub fn removals_by_jobs_are_one_drops()
    ensures job { (run : Run) (place r j : ℕ) (key : List ℕ)
        → IsRun run → IsAt run place r (Gone (by_job j) key) → HasJob run place r j key Local r }
    ensures once { (run : Run) (place other r j : ℕ) (key also : List ℕ)
        → IsRun run → IsAt run place r (Gone (by_job j) key) → IsAt run other r (Gone (by_job j) also) → other ≡ place }
{
    // a law, for the proof that a job removes under its bar: each message that is sent is read from its line
    sent_messages_are_read();
}

/// A removal by a peer obeys one order: one entry sent the frame that it took, an order of this key to this repository, by
/// one job of the peer, a drop or a move of this key from this repository that began at one place. No other entry took the frame, and no two
/// removals obey one order.
pub fn removals_by_orders_are_one_drops()
    ensures order { (run : Run) (place r a slot : ℕ) (key : List ℕ)
        → IsRun run → IsAt run place r (Gone (Peer a slot) key) → HasOrder run place r a key }
    ensures once { (run : Run) (place other r q a b : ℕ) (key also : List ℕ) → IsRun run
        → (x : HasOrder run place r a key) → (y : HasOrder run other q b also) → x.at ≡ y.at → other ≡ place }
{
    // a law, for the proof that an order is taken as it was sent: each message that is sent is read from its line
    sent_messages_are_read();
}
