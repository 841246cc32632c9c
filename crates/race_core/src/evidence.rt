//! The laws of a removal's evidence: whose it is, how many copies it leaves, and what its locks stand on.

ghost use Rattle.std.specs.Prelude.{◌≡◌, ◌≢◌, ℕ, ◌+◌, ◌<◌, ◌≤◌, true, List, Some, AllPairs, count_by, length, max, slice_get};
ghost use Rattle.annex_base.specs.Lists.{Member};
ghost use Rattle.drop_proof.specs.Judging.{is_full};
ghost use Rattle.drop_proof.specs.declared.evidence.Evidence.{Evidence};
ghost use Rattle.drop_proof.specs.declared.evidence.Kind.TheVariants.{Locked, Recent};
ghost use Rattle.run_data.specs.declared.entry.Entry.{Entry};
ghost use Rattle.run_data.specs.declared.run.Run.{Run};
ghost use Rattle.run_model.specs.Past.{is_of};
ghost use Rattle.run_model.specs.Safety.{Removal};
ghost use Rattle.run_model.specs.Run.{IsRun};
ghost use Rattle.race_core.specs.Items.{IsHeld, WasSeen};
ghost use Rattle.race_core.specs.Places.{count_at, removal_at};
ghost use Rattle.race_core.specs.Readings.{Judge, judge_at};

use p2p_wire::sent_messages_are_read;

/// The evidence of a removal has each repository at most once, never the one that loses the content, and no repository that
/// isn't one of the run (git-annex-numcopies; at most one item of a repository is own).
pub fn evidence_is_of_other_repositories()
    ensures distinct { (run : Run) (key : List ℕ) (place : ℕ) (e : Entry) (x : Removal)
        → IsRun run → slice_get run.entries place ≡ Some e → removal_at run key place e ≡ Some x
        → AllPairs (λ i k. i.repo ≢ k.repo) x.items }
    ensures other { (run : Run) (key : List ℕ) (place r : ℕ) (e : Entry) (x : Removal) (item : Evidence)
        → IsRun run → slice_get run.entries place ≡ Some e → removal_at run key place e ≡ Some x
        → is_of r e ≡ true → Member item x.items → item.repo ≢ r }
    ensures known { (run : Run) (key : List ℕ) (place : ℕ) (e : Entry) (x : Removal) (item : Evidence)
        → IsRun run → slice_get run.entries place ≡ Some e → removal_at run key place e ≡ Some x
        → Member item x.items → item.repo < length run.repos }
{
    // a law, for the proof of which drop judged the items: each message that is sent is read from its line
    sent_messages_are_read();
}

/// Right after a removal of the key, the repositories with a copy or a claim are no fewer than the locked and trusted
/// items of its drop; and where all its items were locked or trusted, no fewer than the larger of the two numbers that it
/// read (git-annex-numcopies, git-annex-mincopies; counting claims is own).
pub fn removals_leave_as_many()
    ensures evidence { (run : Run) (key : List ℕ) (place : ℕ) (e : Entry) (x : Removal)
        → IsRun run → slice_get run.entries place ≡ Some e → removal_at run key place e ≡ Some x
        → count_by is_full x.items ≤ count_at run key (place + 1) }
    ensures need { (run : Run) (key : List ℕ) (place : ℕ) (e : Entry) (x : Removal)
        → IsRun run → slice_get run.entries place ≡ Some e → removal_at run key place e ≡ Some x
        → ((item : Evidence) → Member item x.items → is_full item ≡ true)
        → max x.need.n x.need.m ≤ count_at run key (place + 1) }
{
    // a law, for the proof that runs are safe, and each removal judged: each message that is sent is read from its line
    sent_messages_are_read();
}

/// A recent item of a removal was seen: its repository looked after the drop had asked it, found the content present and
/// without a bar, and the drop took what it said (git-annex P2P protocol, CHECKPRESENT).
pub fn recent_items_were_seen()
    ensures { (run : Run) (key : List ℕ) (place : ℕ) (e : Entry) (x : Removal) (judge : Judge) (item : Evidence)
        → IsRun run → slice_get run.entries place ≡ Some e → removal_at run key place e ≡ Some x
        → judge_at run place e ≡ Some judge → Member item x.items → item.kind ≡ Recent
        → WasSeen judge item.repo key }
{
    // a law, for the proof of what the judging drop was told: each message that is sent is read from its line
    sent_messages_are_read();
}

/// A locked item of a removal ends ten minutes after its drop asked for the lock, on the clock of the repository that judged.
/// As the removal comes, the item's repository still has the hold that it gave for this, which ends no earlier than ten
/// minutes after the asking, on that repository's clock (git-annex P2P protocol, LOCKCONTENT; the clocks are own).
pub fn locked_items_are_held()
    ensures { (run : Run) (key : List ℕ) (place : ℕ) (e : Entry) (x : Removal) (judge : Judge) (item : Evidence) (end : ℕ)
        → IsRun run → slice_get run.entries place ≡ Some e → removal_at run key place e ≡ Some x
        → judge_at run place e ≡ Some judge → Member item x.items → item.kind ≡ Locked end
        → IsHeld run key place judge item.repo end }
{
    // a law, for the proof of what the judging drop was told: each message that is sent is read from its line
    sent_messages_are_read();
}
