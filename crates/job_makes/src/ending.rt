//! Whether an entry tells that a job ends.
ghost use Rattle.std.specs.Prelude.{◌≡◌, ◌&&◌, not, length, option_map};
ghost use Rattle.std.specs.List.{list_any, range_with_len};
ghost use Rattle.std.specs.Option.{option_copied};
ghost use Rattle.node_model.specs.Calls.{to_release};
ghost use Rattle.node_model.specs.JobStep.{is_held};
ghost use Rattle.node_model.specs.Look.{failing_call};
ghost use Rattle.node_model.specs.Rows.{is_lost_ordered, same_owner};
ghost use Rattle.state_jobs.specs.Phases.{heard_of};
ghost use Rattle.step_judging.specs.Telling.{failed_call};
ghost use Rattle.step_effects.specs.Outcomes.{outcome_told};
ghost use Rattle.job_makes.specs.Partings.{lock_in, owes_in};

use crate::calls::{failed_call, failed_if};
use crate::turn::Turn;
use annex_base::Call;
use run_data::{By, DropRefusal, EntryKind, FrameView, Hold, Outcome};
use state_jobs::Heard;
use step_effects::{
    ended, past_close, past_unlock, same_call, same_outcome, same_owner, says_nothing,
};

impl Turn<'_> {
    ghost use Rattle.std.specs.Prelude.{◌++◌, List};
    ghost use Rattle.run_data.specs.declared.entry.EntryKind.TheVariants.{End};
    ghost use Rattle.run_data.specs.declared.entry.FrameView.{FrameView};
    ghost use Rattle.run_data.specs.declared.job.Outcome.{Outcome};
    ghost use Rattle.node_model.specs.Ends.{frames};
    ghost use Rattle.node_model.specs.Jobs.{job_end};
    ghost use Rattle.node_model.specs.JobStep.{end_needs, ends, farewells, locked_peers, owns_share};
    ghost use Rattle.node_model.specs.SetUp.{SetUp};
    ghost use Rattle.node_model.specs.State.{State};
    ghost use Rattle.state_ends.specs.Ends.{end_of};
    ghost use Rattle.state_jobs.specs.Works.{work_of};
    ghost use Rattle.step_judging.specs.Rules.{effect_of, is_nil};
    ghost use Rattle.step_judging.specs.Same.{same_effect, same_frames, same_kind};
    ghost use Rattle.step_effects.specs.Sendings.{rest_told};
    ghost use Rattle.job_makes.specs.Partings.{closing, parting};
    ghost use Rattle.job_makes.specs.Turns.{turn_in};

    /// The outcome with which the job ends, if the entry is its end.
    pub fn ended(&self) -> Option<&Outcome>
        ensures { (s : SetUp) (st : State) (outcome : Outcome) → same_kind (End (turn_in self.now s st).w.number outcome) self.now.told.now.kind ≡ outcome_told outcome (option_copied result) }
    {
        ended(&self.told.kind, self.work.number)
    }

    /// Whether the job has a share of its own repository that is open.
    fn owns_share(&self) -> bool
        ensures { (s : SetUp) (st : State) → result ≡ owns_share (turn_in self.now s st) }
    {
        owns_open(self.rows.holds(), self.by_me())
    }

    /// The release of its share that failed, if it releases one.
    fn unreleased(&self, lost: bool) -> Option<Call>
        ensures { (s : SetUp) (st : State) → result ≡ failing_call (turn_in self.now s st).look.fails (to_release (owns_share (turn_in self.now s st) && not lost)) }
    {
        fails_to_release(&self.told.kind, self.owns_share(), lost)
    }

    /// Whether a peer gave the job a lock.
    fn has_lock(&self, peer: u32) -> bool
        ensures { result ≡ lock_in self.now peer }
    {
        is_held(self.heard(peer))
    }

    /// What is left of sent frames after those by which the job closes its connection with a peer, if they are these: it gives back
    /// a lock that it has, unless the answer to an order was lost.
    fn past_closing<'b>(
        &self,
        peer: u32,
        locked: bool,
        lost: bool,
        sent: &'b [FrameView],
    ) -> Option<&'b [FrameView]>
        ensures { (more : List FrameView) → same_frames (frames (job_end (work_of self.now.work.now) peer) (end_of self.now.ends.now (job_end (work_of self.now.work.now) peer)) (closing (locked && not lost) self.now.work.now.what.key) ++ more) sent.now ≡ rest_told more (option_copied result) }
    {
        let at = self.at(peer);
        if locked && !lost {
            past_unlock(at, &self.work.what.key, sent)
        } else {
            past_close(at, sent)
        }
    }

    /// What is left of sent frames after those by which the job parts from a repository, if they are these.
    fn past_parting<'b>(
        &self,
        peer: u32,
        lost: bool,
        sent: &'b [FrameView],
    ) -> Option<&'b [FrameView]>
        ensures { (s : SetUp) (st : State) (more : List FrameView) → same_frames (parting (turn_in self.now s st) lost peer ++ more) sent.now ≡ rest_told more (option_copied result) }
    {
        if peer == self.repo {
            return Some(sent);
        }
        if !self.is_open(peer) {
            return Some(sent);
        }
        let locked = self.has_lock(peer);
        self.past_closing(peer, locked, lost, sent)
    }

    /// Whether the frames that are sent are those by which the job parts from all peers.
    fn parts(&self, lost: bool) -> bool
        ensures { (s : SetUp) (st : State) → result ≡ same_frames (farewells (turn_in self.now s st) lost) self.now.told.now.sent }
    {
        let mut left = self.told.sent.as_slice();
        let count = self.count();
        for peer in 0..count {
            match self.past_parting(peer, lost, left) {
                Some(rest) => left = rest,
                None => return false,
            }
        }
        says_nothing(left)
    }

    /// Whether the job ends by a step that may take a frame, with this outcome, which is or isn't that of a lost order.
    pub fn ends(&self, taken: Option<&FrameView>, outcome_is: bool, lost: bool) -> bool
        ensures { (s : SetUp) (st : State) (outcome : Outcome) → outcome_is ≡ same_kind (End (turn_in self.now s st).w.number outcome) self.now.told.now.kind → lost ≡ is_lost_ordered outcome
            → result ≡ same_effect (ends (turn_in self.now s st) (option_copied taken.entry) outcome) (effect_of self.now.told.now) }
    {
        let last = self.sends(outcome_is, taken, self.parts(lost));
        self.attempts(self.unreleased(lost), taken, last)
    }

    /// Whether the job ends with this outcome, by a step that may take a frame.
    pub fn ends_as(&self, taken: Option<&FrameView>, outcome: &Outcome) -> bool
        ensures { (s : SetUp) (st : State) → result ≡ same_effect (ends (turn_in self.now s st) (option_copied taken.entry) outcome.now) (effect_of self.now.told.now) }
    {
        let is = is_told(outcome, self.ended());
        self.ends(taken, is, is_lost_ordered(outcome))
    }

    /// Whether the job owes a repository the release of its lock.
    fn owes(&self, peer: u32) -> bool
        ensures { result ≡ owes_in self.now peer }
    {
        peer != self.repo && self.has_lock(peer) && self.at(peer).was.opened
    }

    /// Whether it owes one that.
    fn owes_some(&self) -> bool
        ensures { result ≡ list_any (owes_in self.now) (range_with_len 0 (length self.now.repos.now)) }
    {
        let count = self.repos.len() as u32;
        (0..count).any(|peer| self.owes(peer))
    }

    /// Whether the job owes no peer the release of a lock.
    pub fn owes_none(&self) -> bool
        ensures { (s : SetUp) (st : State) → result ≡ is_nil (locked_peers (turn_in self.now s st)) }
    {
        !self.owes_some()
    }

    /// Whether such an end sends no more than a Close to each peer.
    pub fn ends_freely(&self, lost: bool) -> bool
        ensures { (s : SetUp) (st : State) (outcome : Outcome) → lost ≡ is_lost_ordered outcome → result ≡ is_nil (end_needs (turn_in self.now s st) outcome) }
    {
        lost || self.owes_none()
    }
}

fn is_told(outcome: &Outcome, told: Option<&Outcome>) -> bool
    ensures { result ≡ outcome_told outcome.now (option_copied told.entry) }
{
    match told {
        Some(told) => same_outcome(outcome, told),
        None => false,
    }
}

/// Whether a job that ends so has lost the answer to an order.
fn is_lost_ordered(outcome: &Outcome) -> bool
    ensures { result ≡ is_lost_ordered outcome.now }
{
    match outcome {
        Outcome::Refused(DropRefusal::Lost { ordered }) => *ordered,
        _ => false,
    }
}

fn owns_open(holds: &[Hold], owner: By) -> bool
    ensures { result ≡ list_any (λ h. same_owner h.owner owner && not h.kept) holds.now }
{
    holds
        .iter()
        .any(|hold| same_owner(hold.owner, owner) && !hold.kept)
}

/// The release of an own share that failed, where it is made: unless the answer to an order was lost.
fn fails_to_release(kind: &EntryKind, owns: bool, lost: bool) -> Option<Call>
    ensures { result ≡ failing_call (failed_call kind.now) (to_release (owns && not lost)) }
{
    match (failed_call(kind), owns, lost) {
        (Some(failed), true, false) => failed_if(failed, same_call(failed, Call::Unhold)),
        _ => None,
    }
}

fn is_held(heard: Option<Heard>) -> bool
    ensures { result ≡ is_held (option_map heard_of heard) }
{
    matches!(heard, Some(Heard::Held { .. }))
}
