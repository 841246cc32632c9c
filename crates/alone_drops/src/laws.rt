//! The laws. Each is the contract of a function that does nothing.

ghost use Rattle.std.specs.Prelude.{◌≡◌, ℕ, true, Some, slice_get};
ghost use Rattle.drop_proof.specs.declared.rule.Side.TheVariants.{Local, Remote};
ghost use Rattle.run_data.specs.declared.job.Job.{Job};
ghost use Rattle.run_data.specs.declared.job.Outcome.{Outcome};
ghost use Rattle.run_data.specs.declared.run.Run.{Run};
ghost use Rattle.run_model.specs.Past.{present};
ghost use Rattle.run_model.specs.Run.{IsRun, job_paths};
ghost use Rattle.run_model.specs.Safety.{past_at};
ghost use Rattle.node_model.specs.Jobs.{drop_side};
ghost use Rattle.node_model.specs.SetUp.{version_in};
ghost use Rattle.alone_drops.specs.Alone.{MayGo, RanAlone, is_done};
ghost use Rattle.alone_drops.specs.Offers.{OffersSuffice};

use p2p_wire::sent_messages_are_read;
use run_model::others_change_nothing;

/// A local drop that ran alone is done exactly where, as it began, its content was there without a bar or a hold that
/// blocks, was not required, and the offers of its candidates were enough (git-annex-drop).
pub fn local_drops_alone_are_done_where_offers_suffice()
    ensures done { (run : Run) (first last a j : ℕ) (what : Job) (outcome : Outcome) → IsRun run
        → (x : RanAlone run first last a j what outcome) → drop_side what.kind what.peer ≡ Local
        → present (past_at run first) a what.key ≡ true → MayGo run (past_at run first) x.begin.time a j a what.key
        → OffersSuffice Local run.repos (job_paths run a j) (past_at run first) a a what.key → is_done outcome ≡ true }
    ensures only { (run : Run) (first last a j : ℕ) (what : Job) (outcome : Outcome) → IsRun run
        → (x : RanAlone run first last a j what outcome) → drop_side what.kind what.peer ≡ Local → is_done outcome ≡ true
        → (present (past_at run first) a what.key ≡ true) × MayGo run (past_at run first) x.begin.time a j a what.key
        × OffersSuffice Local run.repos (job_paths run a j) (past_at run first) a a what.key }
{
    // a law, for the proof that a drop hears what its candidates offer: each message that is sent is read from its line
    sent_messages_are_read();
    // a law: no entry of another repository changes a repository's state
    others_change_nothing();
}

/// A remote drop that ran alone, toward a target of version 3 that had no bar and no hold that blocks on its content and
/// didn't require it, is done exactly where, as it began, the offers of its candidates were enough (git-annex-drop).
pub fn remote_drops_alone_are_done_where_offers_suffice()
    ensures done { (run : Run) (first last a j : ℕ) (what : Job) (outcome : Outcome) → IsRun run
        → (x : RanAlone run first last a j what outcome) → (to : ℕ) → what.peer ≡ Some to
        → version_in (slice_get run.repos to) ≡ 3 → MayGo run (past_at run first) x.begin.time a j to what.key
        → OffersSuffice Remote run.repos (job_paths run a j) (past_at run first) a to what.key → is_done outcome ≡ true }
    ensures only { (run : Run) (first last a j : ℕ) (what : Job) (outcome : Outcome) → IsRun run
        → (x : RanAlone run first last a j what outcome) → (to : ℕ) → what.peer ≡ Some to
        → version_in (slice_get run.repos to) ≡ 3 → MayGo run (past_at run first) x.begin.time a j to what.key
        → is_done outcome ≡ true → OffersSuffice Remote run.repos (job_paths run a j) (past_at run first) a to what.key }
{
    // a law, for the proof that a drop hears what its candidates offer: each message that is sent is read from its line
    sent_messages_are_read();
    // a law: no entry of another repository changes a repository's state
    others_change_nothing();
}
