//! The laws by which runs grow: entry by entry, or by the histories that their repositories kept alone.

ghost use Rattle.std.specs.Prelude.{◌≡◌, ℕ, ◌<◌, ◌≤◌, List, [], ◌∷◌, ◌++◌, Option, Some, None, filter, length, reverse, take};
ghost use Rattle.annex_base.specs.Lists.{Each};
ghost use Rattle.annex_base.specs.declared.kinds.Word.{Word};
ghost use Rattle.run_data.specs.declared.entry.Entry.{Entry};
ghost use Rattle.run_data.specs.declared.run.Run.{Run};
ghost use Rattle.run_data.specs.declared.run.TreeMark.{TreeMark};
ghost use Rattle.run_model.specs.Frames.{Way, sender_of, taker_of};
ghost use Rattle.run_model.specs.Past.{begun_count, is_of};
ghost use Rattle.run_data.specs.Repos.{IsSetUp};
ghost use Rattle.growth_laws.specs.Merged.{AreFirstLetters, IsMerge, IsHistory, Letter, MayMerge, NodeKeeps, history, last_count, letters, merged_run};
ghost use Rattle.run_model.specs.Run.{FramesPart, IsRun, OnlyWaits, ComesInOrder, OwnPart, RunStep, job_paths, paths_at, set_up};
ghost use Rattle.run_model.specs.Safety.{past_at};

/// A run begins without entries, its repositories set up within their bounds. It stays a run by each entry that may come next:
/// a turn of a repository, as its own history and the frames on their way allow, or a wait; by each change of the tree at
/// its end; and by the end of a command. And so each start of a run is a run.
pub fn runs_grow()
    ensures first { (run : Run) → Each IsSetUp run.repos → run.entries ≡ [] → IsRun run }
    ensures entry { (run : Run) (e : Entry) → IsRun run → RunStep (set_up run) (reverse run.entries) e
        → IsRun (record run { entries = run.entries ++ e ∷ [] }) }
    ensures turn { (run : Run) (e : Entry) (r : ℕ) (words : ℕ → Option Word) → IsRun run → e.repo ≡ Some r
        → ComesInOrder (reverse run.entries) e → OwnPart (set_up run r) (filter (is_of r) (reverse run.entries)) words e
        → FramesPart (reverse run.entries) r words e → IsRun (record run { entries = run.entries ++ e ∷ [] }) }
    ensures wait { (run : Run) (e : Entry) → IsRun run → e.repo ≡ None → ComesInOrder (reverse run.entries) e → OnlyWaits e
        → IsRun (record run { entries = run.entries ++ e ∷ [] }) }
    ensures tree { (run : Run) (m : TreeMark) → length run.entries ≤ m.place → IsRun run
        → IsRun (record run { tree = run.tree ++ m ∷ [] }) }
    ensures command { (run : Run) (marks : List ℕ) → IsRun run → IsRun (record run { marks = marks }) }
    ensures start { (run : Run) (place : ℕ) → place ≤ length run.entries → IsRun run
        → IsRun (record run { entries = take place run.entries }) }
{}

/// The paths of a job's key are those that the tree has as the job begins: no later entry gives it others, and no change of the
/// tree at the end of a run.
pub fn jobs_keep_their_paths()
    ensures entries { (run : Run) (place r job : ℕ) → IsRun run → place ≤ length run.entries → job ≤ begun_count (past_at run place) r
        → job_paths run r job ≡ paths_at run.tree (past_at run place) r job }
    ensures tree { (marks : List TreeMark) (m : TreeMark) (past : List Entry) (r job : ℕ) → length past ≤ m.place → paths_at (marks ++ m ∷ []) past r job ≡ paths_at marks past r job }
{}

/// What repositories added each alone, behind a run, and merged in order of time, count and number, is a run: where each
/// has made its entries as its own history allows, and each letter that it took comes from its sender's, in order. So is
/// any other list with the same entries in this order.
pub fn merged_histories_are_runs()
    ensures merged { (run : Run) (news : List (List Entry)) (got : ℕ → Way → List Letter)
        → IsRun run → MayMerge run news got → IsRun (merged_run run news) }
    ensures in_order { (run : Run) (news : List (List Entry)) (got : ℕ → Way → List Letter) (all : List Entry)
        → IsRun run → MayMerge run news got → IsMerge news all → IsRun (record run { entries = run.entries ++ all }) }
{}

/// The histories that nodes keep may be merged, and are then a run: each node's own with the paths of its jobs, its new
/// entries at the time of the run's end with rising counts, and what each took from another a part of what that sent. A block
/// begins with what a run already has: each repository keeps its history of it.
pub fn histories_of_nodes_are_runs()
    ensures nodes { (run : Run) (news : List (List Entry)) (c : ℕ) (paths : ℕ → ℕ → List (List ℕ)) (got : ℕ → Way → List Letter) → IsRun run
        → Each (λ m. m.place ≤ length run.entries) run.tree → length news ≤ length run.repos → last_count 0 (reverse run.entries) ≤ c
        → ((r : ℕ) → r < length run.repos → NodeKeeps run news r c (paths r) (got r))
        → ((r q : ℕ) (w : Way) → r < length run.repos → taker_of w ≡ r → sender_of w ≡ q → AreFirstLetters (got r w) (history run news q) w)
        → IsRun (merged_run run news) }
    ensures block { (run : Run) → IsRun run → Each (λ m. m.place ≤ length run.entries) run.tree
        → MayMerge run [] (λ r. letters (reverse run.entries)) }
    ensures kept { (run : Run) → IsRun run → (r : ℕ)
        → IsHistory (set_up run r) (letters (reverse run.entries)) (filter (is_of r) (reverse run.entries)) }
{}
