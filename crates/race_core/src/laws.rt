//! The laws. Each is the contract of a function that does nothing.

ghost use Rattle.std.specs.Prelude.{◌≡◌, ◌≢◌, ℕ, ◌+◌, ◌≤◌, true, List, None, Some, slice_get};
ghost use Rattle.annex_base.specs.declared.kinds.Level.TheVariants as levels;
ghost use Rattle.drop_proof.specs.declared.evidence.Evidence.{Evidence};
ghost use Rattle.run_data.specs.declared.entry.Entry.{Entry};
ghost use Rattle.run_data.specs.declared.run.Run.{Run};
ghost use Rattle.run_model.specs.Logs.{need_read, read_at};
ghost use Rattle.node_model.specs.Evidence.{is_locked, is_trusted};
ghost use Rattle.annex_base.specs.Lists.{Member};
ghost use Rattle.run_model.specs.Past.{is_of, present};
ghost use Rattle.run_model.specs.Safety.{Removal, least_need, past_at, within};
ghost use Rattle.run_model.specs.Run.{IsRun, job_paths};
ghost use Rattle.race_core.specs.Copies.{KeepsCopies};
ghost use Rattle.race_core.specs.Places.{claim_at, count_at, removal_at, removals_at};
ghost use Rattle.race_core.specs.Readings.{IsFirstStep, IsLocalRemoval, Judge, claim_read, judge_at, key_read, level_read, need_of_judge, settings_read};
ghost use Rattle.run_data.specs.Repos.{id_of};
ghost use Rattle.wanted_expr.specs.Wanted.{required};

use crate::claims::{least_is_what_drops_read, removals_are_of_entries};
use crate::drops::each_removal_is_one_drops;
use crate::evidence::removals_leave_as_many;
use p2p_wire::sent_messages_are_read;

/// Each run keeps the last copies, by what its drops read: once a key was dropped anywhere, its copies, with the claims that
/// its drops trusted, are no fewer than the least mincopies that they read; a drop leaves at least as many, so counted, as its
/// locked and trusted items; and each removal is one drop's, with evidence enough for what it read that it needs
/// (git-annex-numcopies, git-annex-mincopies; counting claims is own).
pub fn runs_keep_copies()
    ensures { (run : Run) → IsRun run → KeepsCopies run }
{
    // Laws, of which these are the fields: the least number that was read, what a removal leaves, its evidence and its need.
    removals_are_of_entries();
    least_is_what_drops_read();
    removals_leave_as_many();
    each_removal_is_one_drops();
    ignored_never_count();
    drops_read_their_need();
}

/// For each key and before each place, the repositories with a copy or a claim are no fewer than the least
/// mincopies that the drops of the key read (git-annex-mincopies). Where no drop has removed the key, nothing is asked.
pub fn never_fewer_than_mincopies()
    ensures within { (run : Run) (key : List ℕ) (place : ℕ) → IsRun run
        → within (least_need (removals_at run key place)) (count_at run key place) ≡ true }
    ensures least { (run : Run) (key : List ℕ) (place least : ℕ) → IsRun run
        → least_need (removals_at run key place) ≡ Some least → least ≤ count_at run key place }
{
    // a law, for the proof that runs are safe: each message that is sent is read from its line
    sent_messages_are_read();
}

/// Right after a removal of the key, each repository that its drop had locked still has the content, and each whose
/// claim its drop trusted is among the claims (git-annex-mincopies; counting claims is own).
pub fn drops_leave_their_evidence()
    ensures locked { (run : Run) (key : List ℕ) (place : ℕ) (e : Entry) (x : Removal) (item : Evidence)
        → IsRun run → slice_get run.entries place ≡ Some e → removal_at run key place e ≡ Some x
        → Member item x.items → is_locked item.kind ≡ true
        → present (past_at run (place + 1)) item.repo key ≡ true }
    ensures trusted { (run : Run) (key : List ℕ) (place : ℕ) (e : Entry) (x : Removal) (item : Evidence)
        → IsRun run → slice_get run.entries place ≡ Some e → removal_at run key place e ≡ Some x
        → Member item x.items → is_trusted item.kind ≡ true
        → claim_at run key (place + 1) item.repo ≡ true }
{
    // a law, for the proof that runs are safe: each message that is sent is read from its line
    sent_messages_are_read();
}

/// In every run, lawful or not, no evidence of a removal is of a repository that its drop read as untrusted or dead, and
/// a repository that counts without a lock, by its claim, was read as trusted, and as one that is claimed to have the
/// key of the drop's job (git-annex untrust, git-annex dead; counting claims is own). Each removal has one judge: the
/// job that read the logs, with what had happened as it judged its evidence.
pub fn ignored_never_count()
    ensures judged { (run : Run) (key : List ℕ) (place : ℕ) (e : Entry) (x : Removal)
        → removal_at run key place e ≡ Some x → (judge : Judge) × (judge_at run place e ≡ Some judge) }
    ensures untrusted { (run : Run) (key : List ℕ) (place : ℕ) (e : Entry) (x : Removal) (judge : Judge) (item : Evidence)
        → removal_at run key place e ≡ Some x → judge_at run place e ≡ Some judge → Member item x.items
        → level_read run judge item.repo ≢ levels.Untrusted }
    ensures dead { (run : Run) (key : List ℕ) (place : ℕ) (e : Entry) (x : Removal) (judge : Judge) (item : Evidence)
        → removal_at run key place e ≡ Some x → judge_at run place e ≡ Some judge → Member item x.items
        → level_read run judge item.repo ≢ levels.Dead }
    ensures trusted { (run : Run) (key : List ℕ) (place : ℕ) (e : Entry) (x : Removal) (judge : Judge) (item : Evidence)
        → removal_at run key place e ≡ Some x → judge_at run place e ≡ Some judge → Member item x.items
        → is_trusted item.kind ≡ true → level_read run judge item.repo ≡ levels.Trusted }
    ensures claimed { (run : Run) (key : List ℕ) (place : ℕ) (e : Entry) (x : Removal) (judge : Judge) (item : Evidence)
        → removal_at run key place e ≡ Some x → judge_at run place e ≡ Some judge → Member item x.items
        → is_trusted item.kind ≡ true → claim_read run judge (key_read judge) item.repo ≡ true }
{}

/// The need of a removal is what the logs of the repository that judged gave at its drop's first step, for the paths that the
/// key had as the drop's job began, whichever side it removes on: of a removal by an order, the logs of the repository that
/// sent it. The removal is of the key of the drop's job, as it stood then (git-annex-numcopies, git-annex-mincopies; numbers
/// by path are own).
pub fn drops_read_their_need()
    ensures first { (run : Run) (key : List ℕ) (place : ℕ) (e : Entry) (x : Removal) (judge : Judge)
        → IsRun run → slice_get run.entries place ≡ Some e → removal_at run key place e ≡ Some x
        → judge_at run place e ≡ Some judge
        → (first : ℕ) × IsFirstStep run judge.repo judge.job first × (read_at judge.past judge.repo judge.job ≡ past_at run first) }
    ensures judged { (run : Run) (key : List ℕ) (place : ℕ) (e : Entry) (x : Removal) (judge : Judge)
        → IsRun run → slice_get run.entries place ≡ Some e → removal_at run key place e ≡ Some x
        → judge_at run place e ≡ Some judge → x.need ≡ need_of_judge run judge }
    ensures key { (run : Run) (key : List ℕ) (place : ℕ) (e : Entry) (x : Removal) (judge : Judge)
        → IsRun run → slice_get run.entries place ≡ Some e → removal_at run key place e ≡ Some x
        → judge_at run place e ≡ Some judge → key_read judge ≡ key }
    ensures local { (run : Run) (key : List ℕ) (place r j : ℕ) (x : Removal) → IsRun run
        → (w : IsLocalRemoval run key place r j) → removal_at run key place w.entry ≡ Some x
        → x.need ≡ need_read (job_paths run r j) (past_at run place) r j }
{
    // a law, for the proof of which job judged a removal: each message that is sent is read from its line
    sent_messages_are_read();
}

/// No drop removes a content that its target requires, by the logs of the repository that judged the evidence, as they were
/// at the drop's first step, and by the paths that the key had as its job began (git-annex-required).
pub fn required_content_stays()
    ensures { (run : Run) (key : List ℕ) (place : ℕ) (e : Entry) (x : Removal) (judge : Judge) (r : ℕ)
        → IsRun run → slice_get run.entries place ≡ Some e → removal_at run key place e ≡ Some x
        → judge_at run place e ≡ Some judge → is_of r e ≡ true
        → required (settings_read judge) (id_of run.repos r) key (job_paths run judge.repo judge.job) ≡ None }
{
    // a law, for the proof of which job judged a removal: each message that is sent is read from its line
    sent_messages_are_read();
}
