//! The removal of a local drop, and the ends of drops.
ghost use Rattle.std.specs.Prelude.{◌≡◌, IfOk, Some, None};
ghost use Rattle.std.specs.Option.{option_copied};
ghost use Rattle.run_data.specs.declared.job.DropRefusal.TheVariants as refusals;
ghost use Rattle.run_data.specs.declared.job.Outcome.TheVariants.{Refused};
ghost use Rattle.node_model.specs.DropStep.{denial_outcome};
ghost use Rattle.node_model.specs.JobStep.{ends};
ghost use Rattle.node_model.specs.SetUp.{SetUp};
ghost use Rattle.node_model.specs.State.{State};
ghost use Rattle.step_effects.specs.Outcomes.{outcome_told};
ghost use Rattle.step_judging.specs.Rules.{effect_of};
ghost use Rattle.step_judging.specs.Same.{same_effect};
ghost use Rattle.job_makes.specs.Turns.{turn_in};

use crate::knowing::Knowing;
use crate::outcome::{denial_of, obeyed_outcome};
use annex_base::{Call, Items, NoMemory};
use drop_proof::Side;
use job_makes::Turn;
use run_data::{DropRefusal, Outcome};
use std::alloc::Global;
use step_effects::{is_gone, is_number};

impl Knowing<'_> {
    ghost use Rattle.node_model.specs.DropStep.{expiry, first_end, lacking_outcome, removal_outcome, removes};
    ghost use Rattle.node_model.specs.Jobs.{side_of};
    ghost use Rattle.state_jobs.specs.Works.{work_of};
    ghost use Rattle.drop_makes.specs.Knowings.{drop_in};

    /// Whether it ends, since the first of its locks had ended by this clock.
    fn is_late(&self, clock: u128) -> bool
        ensures { (s : SetUp) (st : State) → result ≡ same_effect (ends (drop_in self.now.turn.now self.now.logs.now s st) None (expiry clock (first_end (drop_in self.now.turn.now self.now.logs.now s st)))) (effect_of self.now.turn.now.told.now) }
    {
        let end = self.first_end().unwrap_or(0);
        self.turn
            .ends(None, is_expired(self.turn.ended(), end, clock), false)
    }

    /// Whether it ends, since the first of its locks had ended at this time of the script.
    pub fn expires(&self, time: u64) -> bool
        ensures { (s : SetUp) (st : State) → result ≡ same_effect (ends (drop_in self.now.turn.now self.now.logs.now s st) None (expiry ((drop_in self.now.turn.now self.now.logs.now s st).clock time) (first_end (drop_in self.now.turn.now self.now.logs.now s st)))) (effect_of self.now.turn.now.told.now) }
    {
        self.is_late(self.turn.clock(time))
    }

    /// Whether it removes the content of its repository, or ends, since a lock has ended.
    pub fn removes(&self) -> bool
        ensures { (s : SetUp) (st : State) → result ≡ same_effect (removes (drop_in self.now.turn.now self.now.logs.now s st)) (effect_of self.now.turn.now.told.now) }
    {
        if !self.in_time() {
            return self.is_late(self.clock());
        }
        let turn = self.turn;
        let is = is_gone(&turn.told.kind, turn.by_me(), turn.key());
        turn.attempts(turn.fails(Call::Remove), None, turn.quietly(is, None))
    }

    /// Whether it ends, since no candidate is left and its evidence isn't enough.
    pub fn lacks(&self, alloc: Global) -> Result<bool, NoMemory>
        ensures { IfOk result (λ b. (s : SetUp) (st : State) → b ≡ same_effect (ends (drop_in self.now.turn.now self.now.logs.now s st) None (lacking_outcome (drop_in self.now.turn.now self.now.logs.now s st))) (effect_of self.now.turn.now.told.now)) }
    {
        let proof = self.proof(alloc)?;
        let causes = Items::from_vec(self.causes(alloc)?);
        let outcome = Outcome::Refused(DropRefusal::Lacking { proof, causes });
        Ok(self.turn.ends_as(None, &outcome))
    }

    /// Whether it ends, since the content is removed.
    pub fn is_removed(&self, alloc: Global) -> Result<bool, NoMemory>
        ensures { IfOk result (λ b. (s : SetUp) (st : State) → b ≡ same_effect (ends (drop_in self.now.turn.now self.now.logs.now s st) None (removal_outcome (side_of (drop_in self.now.turn.now self.now.logs.now s st).w) (drop_in self.now.turn.now self.now.logs.now s st))) (effect_of self.now.turn.now.told.now)) }
    {
        let outcome = self.removal_outcome(alloc)?;
        Ok(self.turn.ends_as(None, &outcome))
    }

    fn removal_outcome(&self, alloc: Global) -> Result<Outcome, NoMemory>
        ensures { IfOk result (λ o. (s : SetUp) (st : State) → o ≡ removal_outcome (side_of (work_of self.now.turn.now.work.now)) (drop_in self.now.turn.now self.now.logs.now s st)) }
    {
        let proof = self.proof(alloc)?;
        match self.turn.side() {
            Side::Local => Ok(obeyed_outcome(None, proof)),
            Side::Remote => Ok(obeyed_outcome(self.turn.word(self.turn.target()), proof)),
        }
    }
}

/// Whether the job ends, since the target refused its order.
pub fn denied(turn: &Turn) -> bool
    ensures { (s : SetUp) (st : State) → result ≡ same_effect (ends (turn_in turn.now s st) None (denial_outcome (turn_in turn.now s st))) (effect_of turn.now.told.now) }
{
    let answer = denial_of(turn.word(turn.target()));
    turn.ends_as(None, &Outcome::Refused(DropRefusal::Denied { answer }))
}

/// Whether the outcome that is told is that of locks of which the first ended then, by this clock.
pub(crate) fn is_expired(told: Option<&Outcome>, end: u128, clock: u128) -> bool
    ensures { result ≡ outcome_told (Refused (refusals.Expired end clock)) (option_copied told.entry) }
{
    match told {
        Some(Outcome::Refused(DropRefusal::Expired { end: e, clock: c })) => {
            is_number(end, *e) && is_number(clock, *c)
        }
        _ => false,
    }
}
