//! The laws of the last copy, over every run. Each is the contract of a function that does nothing.

ghost use Rattle.std.specs.Prelude.{◌≡◌, ℕ, ◌+◌, ◌<◌, ◌≤◌, List, Some, slice_get};
ghost use Rattle.run_data.specs.declared.entry.By.{By};
ghost use Rattle.run_data.specs.declared.entry.Entry.{Entry};
ghost use Rattle.run_data.specs.declared.entry.EntryKind.TheVariants.{Gain};
ghost use Rattle.run_data.specs.declared.run.Run.{Run};
ghost use Rattle.run_model.specs.Run.{IsRun};
ghost use Rattle.run_model.specs.Safety.{copies_at};
ghost use Rattle.kept_copies.specs.Trusting.{CountsNoTrust, TrustsNobody};

use race_core::{
    copies_are_enough_without_claims, drops_read_their_need, each_removal_is_one_drops,
    ignored_never_count, least_is_what_drops_read, removals_are_of_entries,
};
use trust_groups::some_copies_are_wanted;

/// A copy of a content stays where no drop of its key counted a repository by trust: once one stands, anywhere, one stands at
/// each later place. A drop leaves as many copies as the least mincopies that drops read, and this is at least 1
/// (git-annex-mincopies).
pub fn a_copy_stays_where_no_drop_counts_trust()
    ensures { (run : Run) (key : List ℕ) (place later : ℕ) → IsRun run → CountsNoTrust run key later → place ≤ later
        → 1 ≤ copies_at run key place → 1 ≤ copies_at run key later }
{
    // Laws: what takes a content away is the removal of a drop, and leaves as many copies as the least that drops read.
    each_removal_is_one_drops();
    removals_are_of_entries();
    least_is_what_drops_read();
    copies_are_enough_without_claims();
    // A law: what a drop reads is at least 1.
    some_copies_are_wanted();
}

/// No drop counts a repository by trust where no line of a trust log ever said that one is trusted (git-annex trust).
pub fn no_drop_counts_trust_where_nobody_is_trusted()
    ensures { (run : Run) (key : List ℕ) (place : ℕ) → IsRun run → TrustsNobody run → CountsNoTrust run key place }
{
    // Laws: a drop counts by trust only whom it read as trusted, and it read the logs at one place of the run.
    ignored_never_count();
    drops_read_their_need();
}

/// A content that came to a repository, by the script or by a transfer, is a copy (own).
pub fn contents_that_came_are_copies()
    ensures { (run : Run) (key : List ℕ) (place size : ℕ) (e : Entry) (by : By) → IsRun run → slice_get run.entries place ≡ Some e
        → e.kind ≡ Gain by size key → 1 ≤ copies_at run key (place + 1) }
{}

/// A copy of each content stays where nobody is trusted: once some repository has it, or it came to one, at each later place
/// some repository has it, whatever is dropped, and whatever fails, crashes or is closed (git-annex-mincopies, git-annex trust).
pub fn a_copy_stays_where_nobody_is_trusted()
    ensures stays { (run : Run) (key : List ℕ) (place later : ℕ) → IsRun run → TrustsNobody run → place ≤ later
        → 1 ≤ copies_at run key place → 1 ≤ copies_at run key later }
    ensures came { (run : Run) (key : List ℕ) (place later size : ℕ) (e : Entry) (by : By) → IsRun run → TrustsNobody run
        → slice_get run.entries place ≡ Some e → e.kind ≡ Gain by size key → place < later → 1 ≤ copies_at run key later }
{
    // laws, of which this is made
    a_copy_stays_where_no_drop_counts_trust();
    no_drop_counts_trust_where_nobody_is_trusted();
    contents_that_came_are_copies();
}
