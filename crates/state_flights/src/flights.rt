//! The frames on their way between the repositories of a run.
ghost use Rattle.std.specs.Prelude.{◌≡◌, ◌<◌, ◌≤◌, ◌+◌, ◌∷◌, ◌^◌, [], ℕ, true, length, Some, IfOk, OnOk};
ghost use Rattle.run_data.specs.declared.entry.FrameView.{FrameView};
ghost use Rattle.run_model.specs.Frames.{Way, way_of};
ghost use Rattle.step_judging.specs.Carried.{first_word, flight_after, flight_sent, flight_took, takes_next};
ghost use Rattle.state_flights.specs.Flights.{AreBodiesOf, AreNone, HasOpenings, HasRoom, HasRoomFor, HaveLess, HaveSame, StaySame, bodies_of, flight_on, room_on, took_on, waits_on};
ghost use Rattle.state_flights.specs.Tables.{waiting_frame};
ghost use Rattle.state_flights.specs.Ways.{same_way, way_sent};

use crate::flight::{Flight, Waiting};
use crate::opening::{Opening, opening_sent, opening_taken};
use crate::table::{is_next, push, reserve, take, word};
use crate::words::word_of_kind;
use annex_base::{NoMemory, Word};
use indexmap::IndexMap;
use run_data::{Entry, FrameText, FrameView};
use std::alloc::Global;
use std::collections::VecDeque;

/// The frames on their way between the repositories of a run, by opening: from clients to servers, and from servers to
/// clients (own).
#[derive(Drop)]
pub struct Flights {
    alloc: Global,
    up: IndexMap<Opening, Flight>,
    down: IndexMap<Opening, Flight>,
}

/// What these frames carry, in their order.
pub fn bodies_of(alloc: Global, frames: &[FrameView]) -> Result<VecDeque<FrameText>, NoMemory>
    ensures { IfOk result (λ bodies. bodies.items ≡ bodies_of frames.now) }
{
    let mut bodies = VecDeque::new(alloc);
    for frame in frames {
        bodies.push_back(copy_of(&frame.body)?)?;
    }
    Ok(bodies)
}

fn copy_of(body: &FrameText) -> Result<FrameText, NoMemory>
    ensures { IfOk result (λ copy. copy ≡ body.now) }
{
    match body {
        FrameText::Opening => Ok(FrameText::Opening),
        FrameText::Closing => Ok(FrameText::Closing),
        FrameText::Bytes(count) => Ok(FrameText::Bytes(*count)),
        FrameText::Line(text) => Ok(FrameText::Line(text.clone()?)),
    }
}

impl Flights {
    /// No frame was sent.
    pub fn new(alloc: Global) -> Flights
        ensures { AreNone result }
    {
        Flights {
            alloc,
            up: IndexMap::new(alloc),
            down: IndexMap::new(alloc),
        }
    }

    /// Whether the frame, if there is one, is the next that this repository may take on its way.
    pub fn may_take(&self, repo: u32, taken: &Option<FrameView>) -> bool
        ensures { result ≡ takes_next (flight_on self.now) repo taken.now }
    {
        match taken {
            Some(frame) => self.is_next(repo, frame),
            None => true,
        }
    }

    fn is_next(&self, repo: u32, frame: &FrameView) -> bool
        ensures { result ≡ takes_next (flight_on self.now) repo (Some frame.now) }
    {
        let at = opening_taken(repo, frame);
        if frame.up {
            is_next(&self.up, at, frame)
        } else {
            is_next(&self.down, at, frame)
        }
    }

    /// The word beside the next frame that this repository may take on the way of this one.
    pub fn word(&self, repo: u32, frame: &FrameView) -> Option<Word>
        ensures { result ≡ first_word (flight_on self.now (way_of repo frame.now)).waiting }
    {
        let at = opening_taken(repo, frame);
        if frame.up {
            word(&self.up, at)
        } else {
            word(&self.down, at)
        }
    }

    /// Makes room for what an entry of this repository changes. The frames stay.
    pub fn ready(&mut self, repo: u32, entry: &Entry) -> Result<(), NoMemory>
        requires { length entry.now.sent + 1 < 2 ^ 64 }
        ensures room { OnOk result (HasRoom repo entry.now self.new) }
        ensures same { StaySame self.old self.new }
    {
        let frames = entry.sent.as_slice();
        self.reserve_all(repo, frames)?;
        self.reserve_openings(frames.len() + 1)?;
        Ok(())
    }

    /// Takes note of an entry of this repository, whose frames carry this. It takes no memory, and looks up the opening of each frame
    /// of the entry.
    pub fn note(&mut self, repo: u32, entry: &Entry, bodies: VecDeque<FrameText>)
        requires own { entry.now.repo ≡ Some repo }
        requires next { takes_next (flight_on self.old) repo entry.now.taken ≡ true }
        requires bodies { AreBodiesOf entry.now bodies.items }
        requires room { HasRoom repo entry.now self.old }
        ensures { (w : Way) → flight_on self.new w ≡ flight_after w (flight_on self.old w) entry.now }
    {
        let frames = entry.sent.as_slice();
        let word = word_of_kind(&entry.kind);
        self.take_if(repo, &entry.taken);
        self.send_all(repo, word, frames, bodies);
    }

    fn reserve_openings(&mut self, count: usize) -> Result<(), NoMemory>
        ensures room { OnOk result (HasOpenings count self.new) }
        ensures same { HaveSame self.old self.new }
    {
        self.up.reserve(count)?;
        self.down.reserve(count)?;
        Ok(())
    }

    /// Makes room for as many frames as these on the way of each of them.
    fn reserve_all(&mut self, repo: u32, frames: &[FrameView]) -> Result<(), NoMemory>
        ensures room { OnOk result (HasRoomFor repo frames.now (length frames.now) self.new) }
        ensures same { StaySame self.old self.new }
    {
        for frame in frames {
            self.reserve(repo, frame, frames.len())?;
        }
        Ok(())
    }

    fn reserve(&mut self, repo: u32, frame: &FrameView, count: usize) -> Result<(), NoMemory>
        ensures room { OnOk result (count ≤ room_on self.new (way_sent repo frame.now)) }
        ensures more { HaveLess 0 self.old self.new }
        ensures same { StaySame self.old self.new }
    {
        let at = opening_sent(repo, frame);
        if frame.up {
            reserve(&mut self.up, self.alloc, at, count)
        } else {
            reserve(&mut self.down, self.alloc, at, count)
        }
    }

    fn take_if(&mut self, repo: u32, taken: &Option<FrameView>)
        requires openings { HasOpenings 1 self.old }
        requires next { takes_next (flight_on self.old) repo taken.now ≡ true }
        ensures flight { (w : Way) → flight_on self.new w ≡ flight_took (took_on repo taken.now w) (flight_on self.old w) }
        ensures frames { HaveLess 0 self.old self.new }
        ensures openings { (count : ℕ) → HasOpenings (count + 1) self.old → HasOpenings count self.new }
    {
        match taken {
            Some(frame) => self.take(repo, frame),
            None => {}
        }
    }

    fn take(&mut self, repo: u32, frame: &FrameView)
        requires openings { HasOpenings 1 self.old }
        requires next { takes_next (flight_on self.old) repo (Some frame.now) ≡ true }
        ensures flight { (w : Way) → flight_on self.new w ≡ flight_took (same_way (way_of repo frame.now) w) (flight_on self.old w) }
        ensures frames { HaveLess 0 self.old self.new }
        ensures openings { (count : ℕ) → HasOpenings (count + 1) self.old → HasOpenings count self.new }
    {
        let at = opening_taken(repo, frame);
        if frame.up {
            take(&mut self.up, self.alloc, at, frame.seq)
        } else {
            take(&mut self.down, self.alloc, at, frame.seq)
        }
    }

    fn send_all(
        &mut self,
        repo: u32,
        word: Option<Word>,
        frames: &[FrameView],
        mut bodies: VecDeque<FrameText>,
    )
        requires openings { HasOpenings (length frames.now) self.old }
        requires frames { HasRoomFor repo frames.now (length frames.now) self.old }
        requires bodies { bodies.items ≡ bodies_of frames.now }
        ensures { (w : Way) → flight_on self.new w ≡ flight_sent true (waits_on repo word frames.now w) (flight_on self.old w) }
    {
        for frame in frames {
            let body = bodies.pop_front().unwrap();
            self.send(repo, frame, Waiting { body, word });
        }
    }

    fn send(&mut self, repo: u32, frame: &FrameView, waiting: Waiting)
        requires openings { HasOpenings 1 self.old }
        requires frame { 0 < room_on self.old (way_sent repo frame.now) }
        ensures flight { (w : Way) → flight_on self.new w ≡ flight_sent (same_way (way_sent repo frame.now) w) (waiting_frame waiting ∷ []) (flight_on self.old w) }
        ensures frames { HaveLess 1 self.old self.new }
        ensures openings { (count : ℕ) → HasOpenings (count + 1) self.old → HasOpenings count self.new }
    {
        let at = opening_sent(repo, frame);
        if frame.up {
            push(&mut self.up, self.alloc, at, waiting)
        } else {
            push(&mut self.down, self.alloc, at, waiting)
        }
    }
}
