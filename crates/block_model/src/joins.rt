//! The laws of blocks by the histories that repositories kept alone, and that the driver's runs are of their scripts, and where its
//! blocks end. Each is the contract of a function that does nothing.

ghost use Rattle.std.specs.Prelude.{◌≡◌, ℕ, ◌<◌, ◌≤◌, false, List, [], ◌∷◌, ◌++◌, length};
ghost use Rattle.annex_base.specs.Lists.{Each};
ghost use Rattle.run_data.specs.Repos.{IsSetUp};
ghost use Rattle.run_data.specs.declared.entry.Entry.{Entry};
ghost use Rattle.node_model.specs.Ends.{EndName};
ghost use Rattle.run_model.specs.Frames.{Way};
ghost use Rattle.run_model.specs.Past.{begun_count};
ghost use Rattle.run_model.specs.Run.{IsRun};
ghost use Rattle.growth_laws.specs.Merged.{Letter, MayMerge, merge_all, merged_run, new_of};
ghost use Rattle.driver_model.specs.Driver.{Driver, DriverInput, FailLine, at_first, state_at};
ghost use Rattle.driver_model.specs.Driving.{driver_after, run_of, run_with, with_mark};
ghost use Rattle.driver_model.specs.Limits.{is_too_long, limited_run};
ghost use Rattle.script_commands.specs.declared.command.Agendum.{Agendum};
ghost use Rattle.script_commands.specs.declared.command.Command.{Command};
ghost use Rattle.script_commands.specs.declared.command.Command.TheVariants.{Par};
ghost use Rattle.driver_model.specs.Rounds.{settles};
ghost use Rattle.driver_model.specs.Scripts.{HasBoundedPast, IsOne};
ghost use Rattle.driver_model.specs.Sound.{IsSound};
ghost use Rattle.block_model.specs.Alone.{IsAlone, after_owns, alone};
ghost use Rattle.block_model.specs.Blocks.{HasBegun, IsBlock, left_after, with_fails};
ghost use Rattle.block_model.specs.Doings.{can_go_on};
ghost use Rattle.block_model.specs.Leading.{HavePlaces, IsRunOf, IsSingle, LineLeads, LinesLead};
ghost use Rattle.block_model.specs.Merging.{AreAllServed, CameFrom, HasWorked, WorksAlone};
ghost use Rattle.block_model.specs.Nodes.{NodesAreDone, NodesHaveWorked, set_up_by};
ghost use Rattle.block_model.specs.Rest.{AreAllAtRest};

use annex_key::key_texts_have_no_fault;
use growth_laws::{merged_histories_are_runs, runs_grow};
use node_model::steps_tell_their_calls;
use run_data::files_have_their_paths;
use run_laws::frames_go_to_others;
use step_facts::{
    own_entries_suit_their_ends, running_jobs_stay_the_same, steps_find_their_cause,
    steps_name_their_jobs, steps_take_what_is_at_hand,
};
use union_merge::{differences_make_the_union, unions_have_the_lines_of_both};

/// What the repositories added each alone, by their agendas and their steps, and merged in order of time, count and number, is a block
/// as far as it has come, where it may be merged and the stores serve its entries; and it is a whole block where no repository can go on
/// with its agenda and all are at rest. The run is then the one before it, with the merged entries (own).
pub fn merged_histories_are_blocks()
    ensures begun { (g : DriverInput) (xs : List Agendum) (d : Driver) (news : List (List Entry)) (got : ℕ → Way → List Letter) (fails : List FailLine)
        → IsSound g d → Each (λ x. x.repo < length g.repos) fails → MayMerge (run_with g d) news got → AreAllServed g (with_fails fails d) (merge_all news)
        → ((r : ℕ) → r < length g.repos → HasWorked g xs d news fails r)
        → HasBegun g xs d (left_after g (merge_all news) fails d) }
    ensures block { (g : DriverInput) (xs : List Agendum) (d : Driver) (news : List (List Entry)) (got : ℕ → Way → List Letter) (fails : List FailLine)
        → IsSound g d → Each (λ x. x.repo < length g.repos) fails → MayMerge (run_with g d) news got → AreAllServed g (with_fails fails d) (merge_all news)
        → (works : (r : ℕ) → r < length g.repos → HasWorked g xs d news fails r)
        → ((r : ℕ) (known : r < length g.repos)
        → can_go_on (begun_count d.past r) (state_at g (left_after g (merge_all news) fails d) r) (works r known).left ≡ false)
        → AreAllAtRest g (left_after g (merge_all news) fails d)
        → IsBlock g xs d (left_after g (merge_all news) fails d) }
    ensures run { (g : DriverInput) (d : Driver) (news : List (List Entry)) (fails : List FailLine)
        → run_with g (left_after g (merge_all news) fails d) ≡ merged_run (run_with g d) news }
{
    // A law: histories that may be merged are a run.
    merged_histories_are_runs();
}

/// The stores serve the merged entries where each repository knows it alone of its own store, and where what came to each end is what
/// the other had in flight to it and sent since. So what is asked of a block is asked of one repository, or of two that meet (own).
pub fn histories_kept_alone_are_served()
    ensures served { (g : DriverInput) (xs : List Agendum) (d : Driver) (news : List (List Entry)) (got : ℕ → Way → List Letter)
        (pieces : ℕ → Way → List (List ℕ)) (fails : List FailLine) → IsSound g d → MayMerge (run_with g d) news got
        → ((r : ℕ) → r < length g.repos → WorksAlone g xs d news got pieces fails r)
        → ((q : ℕ) (a : EndName) (n : ℕ) → CameFrom g d news pieces fails q a n)
        → AreAllServed g (with_fails fails d) (merge_all news) }
    ensures begun { (g : DriverInput) (xs : List Agendum) (d : Driver) (news : List (List Entry)) (got : ℕ → Way → List Letter)
        (pieces : ℕ → Way → List (List ℕ)) (fails : List FailLine) → IsSound g d
        → Each (λ x. x.repo < length g.repos) fails → MayMerge (run_with g d) news got
        → ((r : ℕ) → r < length g.repos → WorksAlone g xs d news got pieces fails r)
        → ((q : ℕ) (a : EndName) (n : ℕ) → CameFrom g d news pieces fails q a n)
        → HasBegun g xs d (left_after g (merge_all news) fails d) }
    ensures block { (g : DriverInput) (xs : List Agendum) (d : Driver) (news : List (List Entry)) (got : ℕ → Way → List Letter)
        (pieces : ℕ → Way → List (List ℕ)) (fails : List FailLine) → IsSound g d
        → Each (λ x. x.repo < length g.repos) fails → MayMerge (run_with g d) news got
        → (works : (r : ℕ) → r < length g.repos → WorksAlone g xs d news got pieces fails r)
        → ((q : ℕ) (a : EndName) (n : ℕ) → CameFrom g d news pieces fails q a n)
        → ((r : ℕ) (known : r < length g.repos)
        → can_go_on (begun_count d.past r) (state_at g (left_after g (merge_all news) fails d) r) (works r known).worked.left ≡ false)
        → AreAllAtRest g (left_after g (merge_all news) fails d)
        → IsBlock g xs d (left_after g (merge_all news) fails d) }
{
    // Laws: what a step found, and that its entry suits its ends.
    steps_find_their_cause();
    own_entries_suit_their_ends();
    // A law: histories that may be merged are a run.
    merged_histories_are_runs();
}

/// What the nodes of a block give back, each by its own history, agenda and store, and each two of what came, merged in order of time,
/// count and number, is a block as far as it has come, and a whole one where it is over. So the run goes on from the one before it by the
/// merged entries, the driver's stores are those that the nodes keep, and a script's lines lead on by the block (own).
pub fn nodes_make_blocks()
    ensures begun { (g : DriverInput) (xs : List Agendum) (d : Driver) (news : List (List Entry)) (c : ℕ) (paths : ℕ → ℕ → List (List ℕ))
        (got : ℕ → Way → List Letter) (pieces : ℕ → Way → List (List ℕ)) (fails : List FailLine) → IsSound g d
        → NodesHaveWorked g xs d news c paths got pieces fails → HasBegun g xs d (left_after g (merge_all news) fails d) }
    ensures block { (g : DriverInput) (xs : List Agendum) (d : Driver) (news : List (List Entry)) (c : ℕ) (paths : ℕ → ℕ → List (List ℕ))
        (got : ℕ → Way → List Letter) (pieces : ℕ → Way → List (List ℕ)) (fails : List FailLine) → IsSound g d
        → (worked : NodesHaveWorked g xs d news c paths got pieces fails) → NodesAreDone g xs d news c paths got pieces fails worked
        → IsBlock g xs d (left_after g (merge_all news) fails d) }
    ensures run { (g : DriverInput) (xs : List Agendum) (d : Driver) (news : List (List Entry)) (c : ℕ) (paths : ℕ → ℕ → List (List ℕ))
        (got : ℕ → Way → List Letter) (pieces : ℕ → Way → List (List ℕ)) (fails : List FailLine) → IsSound g d
        → NodesHaveWorked g xs d news c paths got pieces fails → IsRun (merged_run (run_with g d) news) }
    ensures stores { (g : DriverInput) (xs : List Agendum) (d : Driver) (news : List (List Entry)) (c : ℕ) (paths : ℕ → ℕ → List (List ℕ))
        (got : ℕ → Way → List Letter) (pieces : ℕ → Way → List (List ℕ)) (fails : List FailLine) → IsSound g d
        → NodesHaveWorked g xs d news c paths got pieces fails → (r : ℕ)
        → IsAlone (left_after g (merge_all news) fails d) r
        (after_owns (set_up_by g paths r) (pieces r) (new_of news r) (alone (with_fails fails d) r)) }
    ensures leads { (g : DriverInput) (lines : List Command) (xs : List Agendum) (d : Driver) (news : List (List Entry)) (c : ℕ)
        (paths : ℕ → ℕ → List (List ℕ)) (got : ℕ → Way → List Letter) (pieces : ℕ → Way → List (List ℕ)) (fails : List FailLine)
        → LinesLead g lines at_first d → IsSound g d
        → (worked : NodesHaveWorked g xs d news c paths got pieces fails) → NodesAreDone g xs d news c paths got pieces fails worked
        → LinesLead g (lines ++ Par xs ∷ []) at_first (with_mark (settles g (left_after g (merge_all news) fails d))) }
{
    // Laws: what a step found, and that its entry suits its ends.
    steps_find_their_cause();
    own_entries_suit_their_ends();
    // A law: histories that may be merged are a run.
    merged_histories_are_runs();
}

/// Where lines lead to a driver, one more line leads on from it; so does a block, which is then settled and marked (own).
pub fn lines_lead_on()
    ensures line { (g : DriverInput) (lines : List Command) (line : Command) (first d after : Driver) → LinesLead g lines first d
        → LineLeads g line d after → LinesLead g (lines ++ line ∷ []) first (with_mark after) }
    ensures block { (g : DriverInput) (lines : List Command) (xs : List Agendum) (first d mid : Driver) → LinesLead g lines first d
        → IsBlock g xs d mid → LinesLead g (lines ++ Par xs ∷ []) first (with_mark (settles g mid)) }
{}

/// The run that the sequential driver makes of a script is one of the script's, where its lines are right, it stays within its bounds
/// and each history within its limit, and no close in a block lacks places: each block that the driver makes is one that repositories
/// may make side by side. So it is where no line meets a full history; and so it is of each script without blocks, in any case (own).
pub fn driven_runs_are_of_their_scripts()
    ensures blocks { (g : DriverInput) (lines : List Command) → Each IsSetUp g.repos → length g.repos ≤ 16 → Each (IsOne g) lines
        → HasBoundedPast (driver_after g lines) → is_too_long g (driver_after g lines).past ≡ false → HavePlaces g lines at_first
        → IsRunOf g lines (run_of g lines) }
    ensures whole { (g : DriverInput) (lines : List Command) → Each IsSetUp g.repos → length g.repos ≤ 16 → Each (IsOne g) lines
        → HasBoundedPast (driver_after g lines) → (limited_run g lines).is_cut ≡ false → IsRunOf g lines (limited_run g lines).run }
    ensures single { (g : DriverInput) (lines : List Command) → Each IsSingle lines → IsRunOf g lines (run_of g lines) }
{
    // Laws of a step: what it found, takes and names, and that its entry suits its ends and goes to others.
    steps_find_their_cause();
    own_entries_suit_their_ends();
    steps_take_what_is_at_hand();
    steps_name_their_jobs();
    steps_tell_their_calls();
    frames_go_to_others();
    // A law: a running job keeps the key that was asked of it.
    running_jobs_stay_the_same();
    // A law: a run grows by each such entry.
    runs_grow();
    // Laws: a file is read off its path, what its log lacks is a set of lines, and a text without a fault is a key's.
    files_have_their_paths();
    unions_have_the_lines_of_both();
    differences_make_the_union();
    key_texts_have_no_fault();
}

/// A block ends at rest: the driver that settles behind it adds nothing, drops nothing and changes nothing (own).
pub fn blocks_end_at_rest()
    ensures { (g : DriverInput) (xs : List Agendum) (d after : Driver) → IsBlock g xs d after → settles g after ≡ after }
{}
