//! The laws of judging. Each is the contract of a function that does nothing.

ghost use Rattle.step_judging.specs.Carried.{judge_of, judged};
ghost use Rattle.step_judging.specs.Audits.{IsAudit, audit};
ghost use Rattle.std.specs.Prelude.{reverse, ◌≡◌, ℕ, ◌<◌, ◌≤◌, ◌^◌, ◌↔◌, true, List, ◌∷◌, Option, Some, None};
ghost use Rattle.annex_base.specs.declared.kinds.Word.{Word};
ghost use Rattle.run_data.specs.declared.entry.Entry.{Entry};
ghost use Rattle.node_model.specs.Jobs.{taken_message};
ghost use Rattle.node_model.specs.Look.{Effect, Look, as_told, entry_of};
ghost use Rattle.node_model.specs.SetUp.{SetUp};
ghost use Rattle.node_model.specs.State.{State};
ghost use Rattle.node_model.specs.Step.{step};
ghost use Rattle.annex_base.specs.Lists.{Each};
ghost use Rattle.run_data.specs.Repos.{IsSetUp};
ghost use Rattle.run_data.specs.declared.run.Run.{Run};
ghost use Rattle.run_data.specs.declared.run.RepoView.{RepoView};
ghost use Rattle.run_model.specs.Run.{IsRun, OwnPart, OwnRun, RunPast, RunStep, set_up};
ghost use Rattle.run_model.specs.States.{state_of};
ghost use Rattle.run_laws.specs.Sound.{HasOneSlotEach, IsSeated, IsSound};
ghost use Rattle.step_judging.specs.Rules.{breaks_none, broken_rule, has_row, is_step, needs_row};
ghost use Rattle.std.specs.Option.{option_map};
ghost use Rattle.step_judging.specs.Told.{is_told};
ghost use Rattle.step_judging.specs.Telling.{is_end, look_of};

use annex_key::key_texts_have_no_fault;
use run_laws::{carried_states_agree, runs_are_safe, states_are_sound, steps_find_their_cause};

/// An entry that is the step of a repository for some look is its step for the look that the entry tells of, but
/// for store calls that no entry tells; and that is a look that a turn may have.
pub fn one_look_tells()
    ensures step { (s : SetUp) (st : State) (k : Look) (m : Effect) (words : ℕ → Option Word) (e : Entry) → HasOneSlotEach st
        → k.part < 2 ^ 62 → step s st k ≡ Some m → e ≡ entry_of s.number k m → (is_end e.kind ≡ true → words ≡ k.words)
        → option_map as_told (step s st (look_of st words e)) ≡ Some (as_told m) }
    ensures part { (st : State) (words : ℕ → Option Word) (e : Entry) → (look_of st words e).part < 2 ^ 62 }
{}

/// A step finds the row that its entry needs, and so does each entry that is its repository's own part: what breaks the rule on
/// rows breaks the one on steps too.
pub fn steps_find_their_rows()
    ensures step { (s : SetUp) (st : State) (k : Look) (m : Effect) → IsSound st → k.part < 2 ^ 62 → step s st k ≡ Some m
        → needs_row st (st.clock k.time) (taken_message m.taken) m.kind ≡ true }
    ensures own { (s : SetUp) (past : List Entry) (words : ℕ → Option Word) (e : Entry) → IsSound (state_of s past)
        → OwnPart s past words e → has_row (state_of s past) e ≡ true }
{
    // a law, for the proof: a step found what its kind of entry says
    steps_find_their_cause();
}

/// An entry breaks no rule exactly where it may come next.
pub fn rules_decide()
    ensures permits { (s : ℕ → SetUp) (past : List Entry) (e : Entry) → ((r : ℕ) → (s r).number ≡ r)
        → broken_rule s past e ≡ None → RunStep s past e }
    ensures breaks { (s : ℕ → SetUp) (past : List Entry) (e : Entry) → ((r : ℕ) → (s r).number ≡ r)
        → ((r : ℕ) → e.repo ≡ Some r → IsSound (state_of (s r) past)) → RunStep s past e → broken_rule s past e ≡ None }
{
    // a law, for the proof: a text without a fault is a key's
    key_texts_have_no_fault();
    // a law, for the proof: a step found what its kind of entry says
    steps_find_their_cause();
}

/// After the entries of a run another one breaks no rule exactly where it may come next; and entries are those of a run exactly where
/// none of them breaks a rule.
pub fn runs_break_no_rule()
    ensures next { (run : Run) (past : List Entry) (e : Entry) → Each IsSetUp run.repos → RunPast (set_up run) past
        → (broken_rule (set_up run) past e ≡ None) ↔ RunStep (set_up run) past e }
    ensures all { (run : Run) → Each IsSetUp run.repos → (breaks_none (set_up run) (reverse run.entries) ≡ true) ↔ IsRun run }
{
    // a law, for the proof: a text without a fault is a key's
    key_texts_have_no_fault();
    // a law, for the proof: a step found what its kind of entry says
    steps_find_their_cause();
    // a law, for the proof: what holds of every state
    states_are_sound();
}

/// What an audit keeps of a key entry by entry is the number of its removals, the least count of its copies and claims at a time that
/// has a removal of it, and the least m that the drops of its removals read.
pub fn audits_tell()
    ensures { (repos : List RepoView) (past : List Entry) (key : List ℕ) → IsAudit repos past key (audit repos past key) }
{}

/// What a judge carries from entry to entry, without a past, tells of the next entry what the past tells.
pub fn judges_carry_enough()
    ensures { (run : Run) (past : List Entry) (e : Entry) → Each IsSetUp run.repos → RunPast (set_up run) past
        → judged (set_up run) (judge_of (set_up run) past) e ≡ broken_rule (set_up run) past e }
{
    // a law, for the proof: the state that a repository carries makes the same step
    carried_states_agree();
}

/// Whether an entry is the step is told by who made it: an owed line, a session whose frame it is, or a job that no earlier job keeps
/// from its turn.
pub fn makers_tell()
    ensures { (s : SetUp) (st : State) (words : ℕ → Option Word) (e : Entry) → IsSeated st
        → is_step s st words e ≡ is_told s st words e }
{}

/// In a run the least count that an audit tells of a key is no less than the least m that it tells.
pub fn audited_runs_keep_enough()
    ensures { (run : Run) (key : List ℕ) (n m : ℕ) → IsRun run → (audit run.repos (reverse run.entries) key).least ≡ Some n
        → (audit run.repos (reverse run.entries) key).need ≡ Some m → m ≤ n }
{
    // a law, for the proof: runs are safe
    runs_are_safe();
}
