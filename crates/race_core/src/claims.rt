//! The laws that tie removals, the least need and claims to the entries that they come from.

ghost use Rattle.std.specs.Prelude.{◌≡◌, ℕ, ◌≤◌, true, false, List, Some};
ghost use Rattle.annex_base.specs.Lists.{Member};
ghost use Rattle.drop_proof.specs.declared.evidence.Evidence.{Evidence};
ghost use Rattle.run_data.specs.declared.run.Run.{Run};
ghost use Rattle.node_model.specs.Evidence.{is_trusted};
ghost use Rattle.run_model.specs.Safety.{Removal, copies_at, least_need};
ghost use Rattle.run_model.specs.Run.{IsRun};
ghost use Rattle.race_core.specs.Places.{claim_at, count_at, removals_at};
ghost use Rattle.race_core.specs.Removals.{IsReadBefore, IsRemovalBefore, IsTrustedBefore};

use p2p_wire::sent_messages_are_read;

/// The removals of a key before a place are those of the entries before it, and no others. The least need is what one of
/// them needed, and no other needed less. This is so in any run, lawful or not.
pub fn removals_are_of_entries()
    ensures only { (run : Run) (key : List ℕ) (place : ℕ) (x : Removal)
        → Member x (removals_at run key place) → IsRemovalBefore run key place x }
    ensures all { (run : Run) (key : List ℕ) (place : ℕ) (x : Removal)
        → IsRemovalBefore run key place x → Member x (removals_at run key place) }
    ensures needed { (run : Run) (key : List ℕ) (place least : ℕ)
        → least_need (removals_at run key place) ≡ Some least
        → (x : Removal) × IsRemovalBefore run key place x × (x.need.m ≡ least) }
    ensures least { (run : Run) (key : List ℕ) (place least : ℕ) (x : Removal)
        → least_need (removals_at run key place) ≡ Some least → IsRemovalBefore run key place x → least ≤ x.need.m }
{}

/// The least need is the least mincopies that the drops of the removals before read of their repositories' logs. So whatever
/// number is the least of these, the repositories with a copy or a claim are no fewer (git-annex-mincopies).
pub fn least_is_what_drops_read()
    ensures read { (run : Run) (key : List ℕ) (place least : ℕ) → IsRun run
        → least_need (removals_at run key place) ≡ Some least → IsReadBefore run key place least }
    ensures least { (run : Run) (key : List ℕ) (place least m : ℕ) → IsRun run
        → least_need (removals_at run key place) ≡ Some least → IsReadBefore run key place m → least ≤ m }
    ensures count { (run : Run) (key : List ℕ) (place least : ℕ) → IsRun run → IsReadBefore run key place least
        → ((m : ℕ) → IsReadBefore run key place m → least ≤ m) → least ≤ count_at run key place }
{
    // a law, for the proof that runs are safe, and each removal judged: each message that is sent is read from its line
    sent_messages_are_read();
}

/// A repository has a claim only where the drop of a removal before had it as a trusted item. This is so in any run, lawful
/// or not (counting claims is own).
pub fn claims_are_trusted_items()
    ensures { (run : Run) (key : List ℕ) (place r : ℕ) → claim_at run key place r ≡ true → IsTrustedBefore run key place r }
{}

/// Where no drop of the key had a trusted item, the repositories that have the key itself are no fewer than the least
/// mincopies that its drops read (git-annex-mincopies).
pub fn copies_are_enough_without_claims()
    ensures { (run : Run) (key : List ℕ) (place least : ℕ) → IsRun run
        → ((x : Removal) (item : Evidence) → Member x (removals_at run key place) → Member item x.items → is_trusted item.kind ≡ false)
        → least_need (removals_at run key place) ≡ Some least → least ≤ copies_at run key place }
{
    // a law, for the proof that runs are safe: each message that is sent is read from its line
    sent_messages_are_read();
}
