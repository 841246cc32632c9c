//! Whether an entry tells that a job's step says something, or nothing.
ghost use Rattle.std.specs.Prelude.{◌≡◌};
ghost use Rattle.std.specs.Option.{option_copied};
ghost use Rattle.step_judging.specs.Rules.{effect_of};
ghost use Rattle.step_judging.specs.Same.{same_effect};

use crate::turn::Turn;
use p2p_wire::Message;
use run_data::FrameView;
use step_effects::{closes, gives, is_talk, opens, says, says_nothing, tells};

impl Turn<'_> {
    ghost use Rattle.std.specs.Prelude.{List, [], ◌∷◌, Some, None};
    ghost use Rattle.run_data.specs.declared.entry.EntryKind.{EntryKind};
    ghost use Rattle.run_data.specs.declared.entry.FrameText.TheVariants as texts;
    ghost use Rattle.run_data.specs.declared.entry.FrameView.{FrameView};
    ghost use Rattle.node_model.specs.JobStep.{hears, quietly, says_to, sends_to, talk, wrong_message};
    ghost use Rattle.node_model.specs.SetUp.{SetUp};
    ghost use Rattle.node_model.specs.State.{State};
    ghost use Rattle.step_judging.specs.Same.{same_frames, same_kind};
    ghost use Rattle.job_makes.specs.Turns.{turn_in};

    /// Whether the entry is of this kind, takes this frame and sends nothing.
    pub fn quietly(&self, kind_is: bool, taken: Option<&FrameView>) -> bool
        ensures { (kind : EntryKind) → kind_is ≡ same_kind kind self.now.told.now.kind → result ≡ same_effect (quietly kind (option_copied taken.entry)) (effect_of self.now.told.now) }
    {
        tells(
            self.told,
            kind_is,
            taken,
            says_nothing(self.told.sent.as_slice()),
        )
    }

    /// Whether the entry is of this kind, takes this frame and sends these.
    pub fn sends(&self, kind_is: bool, taken: Option<&FrameView>, sent_is: bool) -> bool
        ensures { (kind : EntryKind) (sent : List FrameView) → kind_is ≡ same_kind kind self.now.told.now.kind → sent_is ≡ same_frames sent self.now.told.now.sent
            → result ≡ same_effect (record { kind = kind; taken = option_copied taken.entry; sent = sent; lines = []; calls = [] }) (effect_of self.now.told.now) }
    {
        tells(self.told, kind_is, taken, sent_is)
    }

    /// Whether the entry is of this kind, takes this frame and says this to a peer.
    pub fn says_to(
        &self,
        kind_is: bool,
        taken: Option<&FrameView>,
        peer: u32,
        message: &Message,
    ) -> bool
        ensures { (s : SetUp) (st : State) (kind : EntryKind) → kind_is ≡ same_kind kind self.now.told.now.kind
            → result ≡ same_effect (says_to (turn_in self.now s st) kind (option_copied taken.entry) peer message.now) (effect_of self.now.told.now) }
    {
        let said = says(self.at(peer), message, self.told.sent.as_slice());
        self.sends(kind_is, taken, said)
    }

    /// Whether the entry is a talk of the job.
    pub fn talks(&self) -> bool
        ensures { (s : SetUp) (st : State) → result ≡ same_kind (talk (turn_in self.now s st)) self.now.told.now.kind }
    {
        is_talk(&self.told.kind, Some(self.work.number))
    }

    /// Whether the job opens its connection with a peer.
    pub fn opens_to(&self, peer: u32) -> bool
        ensures { (s : SetUp) (st : State) → result ≡ same_effect (sends_to (turn_in self.now s st) (talk (turn_in self.now s st)) None peer (texts.Opening ∷ [])) (effect_of self.now.told.now) }
    {
        let said = opens(self.at(peer), self.told.sent.as_slice());
        self.sends(self.talks(), None, said)
    }

    /// Whether the job takes this frame and closes its connection with a peer.
    pub fn closes_to(&self, taken: Option<&FrameView>, peer: u32) -> bool
        ensures { (s : SetUp) (st : State) → result ≡ same_effect (sends_to (turn_in self.now s st) (talk (turn_in self.now s st)) (option_copied taken.entry) peer (texts.Closing ∷ [])) (effect_of self.now.told.now) }
    {
        let said = closes(self.at(peer), self.told.sent.as_slice());
        self.sends(self.talks(), taken, said)
    }

    /// Whether the job sends so many bytes to a peer.
    pub fn gives_to(&self, peer: u32, count: u64) -> bool
        ensures { (s : SetUp) (st : State) → result ≡ same_effect (sends_to (turn_in self.now s st) (talk (turn_in self.now s st)) None peer (texts.Bytes count ∷ [])) (effect_of self.now.told.now) }
    {
        let said = gives(self.at(peer), count, self.told.sent.as_slice());
        self.sends(self.talks(), None, said)
    }

    /// Whether the job takes this frame and answers nothing.
    pub fn hears(&self, frame: &FrameView) -> bool
        ensures { (s : SetUp) (st : State) → result ≡ same_effect (hears (turn_in self.now s st) frame.now) (effect_of self.now.told.now) }
    {
        self.quietly(self.talks(), Some(frame))
    }

    /// Whether the job handles this frame of a peer as one that isn't permitted.
    pub fn wrong_message(&self, frame: &FrameView, peer: u32) -> bool
        ensures { (s : SetUp) (st : State) → result ≡ same_effect (wrong_message (turn_in self.now s st) frame.now peer) (effect_of self.now.told.now) }
    {
        self.closes_to(Some(frame), peer)
    }
}
