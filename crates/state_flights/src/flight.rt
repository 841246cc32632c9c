//! The frames of one way that were sent and not yet taken.
ghost use Rattle.std.specs.Prelude.{◌≡◌, ◌<◌, ◌≤◌, ◌+◌, ◌&&◌, ◌==◌, ◌∷◌, [], map, true, IfOk, OnOk, option_copied};
ghost use Rattle.step_judging.specs.Carried.{first_word, flight_sent, flight_took, is_first};
ghost use Rattle.step_judging.specs.Same.{same_body};
ghost use Rattle.state_flights.specs.Tables.{IsFront, flight_of, no_flight, room_of, waiting_frame};

use annex_base::{NoMemory, Word};
use run_data::{FrameText, FrameView};
use std::alloc::Global;
use std::collections::VecDeque;
use step_effects::same_body;

/// A frame that was sent and not yet taken: what it carries, and the word that its sender found.
#[derive(Drop)]
pub struct Waiting {
    pub body: FrameText,
    pub word: Option<Word>,
}

/// The frames of a way that wait, the first sent first, and how many were taken before (own).
#[derive(Drop)]
pub struct Flight {
    pub waiting: VecDeque<Waiting>,
    pub taken: u64,
}

/// Whether the frame is this one, as the next after so many.
fn is_front(first: &Waiting, taken: u64, frame: &FrameView) -> bool
    ensures { result ≡ ((frame.now.seq == taken + 1) && same_body first.now.body frame.now.body) }
{
    u128::from(frame.seq) == u128::from(taken) + 1 && same_body(&first.body, &frame.body)
}

impl Flight {
    /// None was sent.
    pub(crate) fn new(alloc: Global) -> Flight
        ensures { flight_of result ≡ no_flight }
    {
        Flight {
            waiting: VecDeque::new(alloc),
            taken: 0,
        }
    }

    fn front(&self) -> Option<&Waiting>
        ensures { IsFront (option_copied result) self.now.waiting.items }
    {
        self.waiting.front()
    }

    /// Whether the frame is the one that may be taken next.
    pub(crate) fn is_next(&self, frame: &FrameView) -> bool
        ensures { result ≡ is_first (flight_of self.now).waiting self.now.taken frame.now }
    {
        match self.front() {
            Some(first) => is_front(first, self.taken, frame),
            None => false,
        }
    }

    /// The word beside the frame that may be taken next.
    pub(crate) fn word(&self) -> Option<Word>
        ensures { result ≡ first_word (flight_of self.now).waiting }
    {
        match self.front() {
            Some(first) => first.word,
            None => None,
        }
    }

    /// The next frame is taken, which has this number.
    pub(crate) fn take(&mut self, seq: u64)
        requires { seq ≡ self.old.taken + 1 }
        ensures flight { flight_of self.new ≡ flight_took true (flight_of self.old) }
        ensures room { room_of self.old ≤ room_of self.new }
    {
        self.waiting.pop_front();
        self.taken = seq;
    }

    /// One more frame is sent.
    pub(crate) fn push(&mut self, waiting: Waiting)
        requires { 0 < room_of self.old }
        ensures flight { flight_of self.new ≡ flight_sent true (waiting_frame waiting ∷ []) (flight_of self.old) }
        ensures room { room_of self.old ≤ room_of self.new + 1 }
    {
        self.waiting.push_back_reserved(waiting);
    }

    /// Makes room for so many frames more.
    pub(crate) fn reserve(&mut self, count: usize) -> Result<(), NoMemory>
        ensures room { OnOk result (count ≤ room_of self.new) }
        ensures more { room_of self.old ≤ room_of self.new }
        ensures same { flight_of self.new ≡ flight_of self.old }
    {
        self.waiting.reserve(count)?;
        Ok(())
    }
}
