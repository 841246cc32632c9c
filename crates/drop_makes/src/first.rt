//! The first step of a drop.
ghost use Rattle.std.specs.Prelude.{◌≡◌, filter, map, max, not, reverse, IfOk};
ghost use Rattle.std.specs.List.{list_any, reduce};
ghost use Rattle.std.specs.Option.{option_copied};
ghost use Rattle.node_model.specs.DropStep.{row_refusal, until};
ghost use Rattle.node_model.specs.Rows.{blocks};
ghost use Rattle.drop_makes.specs.Holds.{until_by};

use crate::gathering::LOCK_TIME;
use crate::knowing::Knowing;
use annex_base::{Call, NoMemory, Text};
use annex_key::Key;
use drop_proof::Side;
use run_data::{DropRefusal, Hold, Outcome};
use state_reads::Standing;
use step_effects::{is_bar, is_share};

impl Knowing<'_> {
    ghost use Rattle.std.specs.Prelude.{◌+◌, None};
    ghost use Rattle.node_model.specs.Calls.{to_hold};
    ghost use Rattle.node_model.specs.Clocks.{hold_time};
    ghost use Rattle.node_model.specs.DropStep.{bars, first_drop, first_local, first_remote, held_until, own_share, shares, tries_own};
    ghost use Rattle.node_model.specs.JobStep.{by_me, clock_of, ends, talk};
    ghost use Rattle.node_model.specs.Jobs.{side_of};
    ghost use Rattle.node_model.specs.Look.{failing_call};
    ghost use Rattle.node_model.specs.SetUp.{SetUp};
    ghost use Rattle.node_model.specs.State.{State};
    ghost use Rattle.run_data.specs.declared.job.Outcome.TheVariants.{Refused};
    ghost use Rattle.run_data.specs.declared.job.DropRefusal.TheVariants as refusals;
    ghost use Rattle.state_reads.specs.Standings.{standing_of};
    ghost use Rattle.step_judging.specs.Rules.{effect_of};
    ghost use Rattle.step_judging.specs.Same.{same_effect, same_kind};
    ghost use Rattle.drop_makes.specs.Knowings.{drop_in};

    /// Until when holds block its key: an open one without an end.
    fn held_until(&self) -> Option<Option<u64>>
        ensures { (s : SetUp) (st : State) → result ≡ held_until (drop_in self.now.turn.now self.now.logs.now s st) }
    {
        held_until(self.turn.rows.holds(), self.turn.key(), self.clock())
    }

    /// Whether it puts its bar, or ends, refused.
    fn bars(&self, refusal: Option<DropRefusal>) -> bool
        ensures { (s : SetUp) (st : State) → result ≡ same_effect (bars (drop_in self.now.turn.now self.now.logs.now s st) refusal) (effect_of self.now.turn.now.told.now) }
    {
        let turn = self.turn;
        match refusal {
            Some(refusal) => turn.ends_as(None, &Outcome::Refused(refusal)),
            None => {
                let is = is_bar(
                    &turn.told.kind,
                    turn.work.number,
                    self.logs.need(),
                    turn.key(),
                );
                turn.quietly(is, None)
            }
        }
    }

    /// Whether it begins as a local drop.
    fn first_local(&self) -> Result<bool, NoMemory>
        ensures { IfOk result (λ b. (s : SetUp) (st : State) → b ≡ same_effect (first_local (drop_in self.now.turn.now self.now.logs.now s st)) (effect_of self.now.turn.now.told.now)) }
    {
        let turn = self.turn;
        let refusal = row_refusal(
            turn.is_there(),
            self.logs.required(),
            turn.bar_there(),
            self.held_until(),
        )?;
        let made = self.bars(refusal);
        Ok(turn.attempts(turn.fails(Call::Has), None, made))
    }

    /// The call that failed, of those that put a hold.
    fn fails_to_hold(&self, here: bool, bar: Option<u32>) -> Option<Call>
        ensures { (s : SetUp) (st : State) → result ≡ failing_call (drop_in self.now.turn.now self.now.logs.now s st).look.fails (to_hold here bar) }
    {
        if !here {
            return self.turn.fails(Call::Has);
        }
        match bar {
            None => self.turn.fails_of(Call::Has, Call::Hold),
            Some(_) => self.turn.fails(Call::Has),
        }
    }

    /// Whether the entry is its own share, where the row permits that, or else a talk.
    fn is_own_share(&self, here: bool, bar: Option<u32>) -> bool
        ensures { (s : SetUp) (st : State) → result ≡ same_kind (own_share (drop_in self.now.turn.now self.now.logs.now s st).number (clock_of (drop_in self.now.turn.now self.now.logs.now s st) + hold_time) self.now.turn.now.work.now.number self.now.turn.now.work.now.what.key
            (talk (drop_in self.now.turn.now self.now.logs.now s st)) (by_me (drop_in self.now.turn.now self.now.logs.now s st)) here bar) self.now.turn.now.told.now.kind }
    {
        let turn = self.turn;
        if !here {
            return turn.talks();
        }
        match bar {
            None => {
                let clock = turn.clock(turn.told.time);
                is_share(
                    &turn.told.kind,
                    turn.number(),
                    clock + LOCK_TIME,
                    turn.by_me(),
                    turn.key(),
                )
            }
            Some(_) => turn.talks(),
        }
    }

    /// Whether it takes a share of its own repository.
    fn shares(&self) -> bool
        ensures { (s : SetUp) (st : State) → result ≡ same_effect (shares (drop_in self.now.turn.now self.now.logs.now s st)) (effect_of self.now.turn.now.told.now) }
    {
        let here = self.turn.is_there();
        let bar = self.turn.bar_there();
        let made = self.turn.quietly(self.is_own_share(here, bar), None);
        self.turn
            .attempts(self.fails_to_hold(here, bar), None, made)
    }

    fn tries_own(&self, standing: Standing) -> bool
        ensures { (s : SetUp) (st : State) → result ≡ same_effect (tries_own (drop_in self.now.turn.now self.now.logs.now s st) (standing_of standing)) (effect_of self.now.turn.now.told.now) }
    {
        match standing {
            Standing::Asked => self.shares(),
            Standing::Claimed => self.turn.quietly(self.turn.talks(), None),
            Standing::Ignored(_) => self.turn.quietly(self.turn.talks(), None),
        }
    }

    /// Whether it ends, since its target requires the content by this.
    fn is_required(&self, expression: &Text) -> Result<bool, NoMemory>
        ensures { IfOk result (λ b. (s : SetUp) (st : State) → b ≡ same_effect (ends (drop_in self.now.turn.now self.now.logs.now s st) None (Refused (refusals.Required expression.now))) (effect_of self.now.turn.now.told.now)) }
    {
        let outcome = Outcome::Refused(DropRefusal::Required {
            expression: expression.clone()?,
        });
        Ok(self.turn.ends_as(None, &outcome))
    }

    /// Whether it begins as a remote drop.
    fn first_remote(&self) -> Result<bool, NoMemory>
        ensures { IfOk result (λ b. (s : SetUp) (st : State) → b ≡ same_effect (first_remote (drop_in self.now.turn.now self.now.logs.now s st) self.now.logs.now.requires) (effect_of self.now.turn.now.told.now)) }
    {
        match self.logs.required() {
            Some(expression) => self.is_required(expression),
            None => Ok(self.tries_own(self.logs.standing(self.turn.repo))),
        }
    }

    /// Whether the entry tells of its first step.
    pub fn first_drop(&self) -> Result<bool, NoMemory>
        ensures { IfOk result (λ b. (s : SetUp) (st : State) → b ≡ same_effect (first_drop (drop_in self.now.turn.now self.now.logs.now s st) (side_of (drop_in self.now.turn.now self.now.logs.now s st).w)) (effect_of self.now.turn.now.told.now)) }
    {
        match self.turn.side() {
            Side::Local => self.first_local(),
            Side::Remote => self.first_remote(),
        }
    }
}

/// Why a local drop is refused by its row, if it is.
fn row_refusal(
    here: bool,
    required: Option<&Text>,
    bar: Option<u32>,
    held: Option<Option<u64>>,
) -> Result<Option<DropRefusal>, NoMemory>
    ensures { IfOk result (λ refusal. refusal ≡ row_refusal here (option_copied required.entry) bar held) }
{
    if !here {
        return Ok(Some(DropRefusal::NotPresent));
    }
    match (required, bar, held) {
        (Some(text), _, _) => Ok(Some(DropRefusal::Required {
            expression: text.clone()?,
        })),
        (None, Some(job), _) => Ok(Some(DropRefusal::Barred { job })),
        (None, None, Some(until)) => Ok(Some(DropRefusal::Held { until })),
        (None, None, None) => Ok(None),
    }
}

// ---- holds

fn blocks(hold: &Hold, key: &Key, clock: u128) -> bool
    ensures { result ≡ blocks key.now clock hold.now }
{
    hold.key == *key && (!hold.kept || clock < u128::from(hold.end))
}

/// Whether one that blocks is open.
fn has_open(holds: &[Hold], key: &Key, clock: u128) -> bool
    ensures { result ≡ list_any (λ h. not h.kept) (filter (blocks key.now clock) holds.now) }
{
    holds
        .iter()
        .filter(|hold| blocks(hold, key, clock))
        .any(|hold| !hold.kept)
}

/// The latest end of those that block.
fn latest(holds: &[Hold], key: &Key, clock: u128) -> Option<u64>
    ensures { result ≡ reduce max (map (λ h. h.end) (filter (blocks key.now clock) holds.now)) }
{
    holds
        .iter()
        .filter(|hold| blocks(hold, key, clock))
        .map(|hold| hold.end)
        .max()
}

fn until_by(endless: bool, latest: Option<u64>) -> Option<Option<u64>>
    ensures { result ≡ until_by endless latest }
{
    match latest {
        Some(end) => Some(if endless { None } else { Some(end) }),
        None => None,
    }
}

/// Until when holds block a key, of which the oldest stands first: an open one without an end.
fn held_until(holds: &[Hold], key: &Key, clock: u128) -> Option<Option<u64>>
    ensures { result ≡ until (filter (blocks key.now clock) (reverse holds.now)) }
{
    until_by(has_open(holds, key, clock), latest(holds, key, clock))
}
