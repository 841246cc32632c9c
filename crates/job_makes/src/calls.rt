//! The calls of the store that a job's step makes, and the one that failed.
ghost use Rattle.std.specs.Prelude.{◌≡◌, ◌∷◌, [], if◌then◌else◌, Some, None};
ghost use Rattle.node_model.specs.Look.{failing_call};
ghost use Rattle.step_judging.specs.Telling.{failed_call};

use crate::turn::Turn;
use annex_base::Call;
use run_data::{EntryKind, FrameView};
use step_effects::{is_fault, same_call};

impl Turn<'_> {
    ghost use Rattle.std.specs.Prelude.{List};
    ghost use Rattle.std.specs.Option.{option_copied};
    ghost use Rattle.annex_base.specs.declared.kinds.Call.{Call};
    ghost use Rattle.node_model.specs.JobStep.{attempts};
    ghost use Rattle.node_model.specs.Look.{Effect};
    ghost use Rattle.node_model.specs.SetUp.{SetUp};
    ghost use Rattle.node_model.specs.State.{State};
    ghost use Rattle.step_judging.specs.Rules.{effect_of};
    ghost use Rattle.step_judging.specs.Same.{same_effect};
    ghost use Rattle.job_makes.specs.Turns.{turn_in};

    /// The call that failed, if it is this one.
    pub fn fails(&self, call: Call) -> Option<Call>
        ensures { (s : SetUp) (st : State) → result ≡ failing_call (turn_in self.now s st).look.fails (call ∷ []) }
    {
        fails_at(&self.told.kind, call)
    }

    /// The call that failed, if it is one of these.
    pub fn fails_of(&self, first: Call, second: Call) -> Option<Call>
        ensures { (s : SetUp) (st : State) → result ≡ failing_call (turn_in self.now s st).look.fails (first ∷ second ∷ []) }
    {
        fails_at_one(&self.told.kind, first, second)
    }

    /// Whether the entry tells of a step that makes such calls, the one of which that fails is given, and of what is made where none
    /// fails.
    pub fn attempts(&self, failing: Option<Call>, taken: Option<&FrameView>, made: bool) -> bool
        ensures { (s : SetUp) (st : State) (cs : List Call) (m : Effect) → failing ≡ failing_call (turn_in self.now s st).look.fails cs → made ≡ same_effect m (effect_of self.now.told.now)
            → result ≡ same_effect (attempts (turn_in self.now s st) cs (option_copied taken.entry) m) (effect_of self.now.told.now) }
    {
        match failing {
            Some(call) => self.quietly(is_fault(&self.told.kind, call, self.by_me()), taken),
            None => made,
        }
    }
}

pub(crate) fn failed_call(kind: &EntryKind) -> Option<Call>
    ensures { result ≡ failed_call kind.now }
{
    match kind {
        EntryKind::Fault { call, .. } => Some(*call),
        _ => None,
    }
}

fn fails_at(kind: &EntryKind, call: Call) -> Option<Call>
    ensures { result ≡ failing_call (failed_call kind.now) (call ∷ []) }
{
    match failed_call(kind) {
        Some(failed) => failed_if(failed, same_call(failed, call)),
        None => None,
    }
}

/// The failed call, if it is one that is made.
pub(crate) fn failed_if(failed: Call, yes: bool) -> Option<Call>
    ensures { result ≡ (if yes then Some failed else None) }
{
    if yes { Some(failed) } else { None }
}

fn fails_at_one(kind: &EntryKind, first: Call, second: Call) -> Option<Call>
    ensures { result ≡ failing_call (failed_call kind.now) (first ∷ second ∷ []) }
{
    match failed_call(kind) {
        Some(failed) => failed_if(
            failed,
            same_call(failed, first) || same_call(failed, second),
        ),
        None => None,
    }
}
