//! One end of a connection.
ghost use Rattle.std.specs.Prelude.{◌≡◌, ◌≤◌, ◌<◌, ◌+◌, ◌-◌, ◌++◌, vec_len, ◌^◌, ◌↔◌, [], true, false, not, nat_le, IfOk, IfErr, IsErr, IsOk, OnOk, OnErr, filter, nat_lt, vec_capacity, option_copied};
ghost use Rattle.std.specs.List.{find, after_first};
ghost use Rattle.link_ring.specs.Frames.{is_old, is_close};
ghost use Rattle.link_ring.specs.Ends.{ArePaired, StaysPaired, after_carry, fresh, accepts, after_send, next_frame, after_take, after_drop, after_open, after_close, free, has_frames, phase_after_send};

use crate::frame::{Body, Frame};
use annex_base::NoMemory;
use std::alloc::Global;
use std::marker::Model;

/// How many frames of one way may be on it, or at hand at its other end.
pub(crate) const PLACES: usize = 8;

/// How an end stands.
#[derive(Clone, Copy, Debug, PartialEq, Eq)]
pub enum Phase {
    /// It takes no frame of its epoch.
    Closed,
    /// It takes frames of its epoch, and has sent none yet.
    Opening,
    /// It has sent a frame of its epoch, and keeps a place for its Close.
    Open,
}

/// One end of a connection: a client's, or that of the server (own).
#[derive(Debug, Drop)]
pub struct End {
    epoch: u32,
    phase: Phase,
    // The frames that it has sent since its opening.
    sent: u64,
    at_hand: Vec<Frame>,
    on_way: Vec<Frame>,
    // The frames that were sent and of which it isn't known that they were taken.
    used: usize,
}

impl Model for End {
    ghost use Rattle.link_ring.specs.Ends.{EndView};
    ghost use Rattle.std.specs.Prelude.{vec_len, vec_capacity};
    ghost use Rattle.link_ring.specs.Invariant.{IsEnd};

    ghost Value = { EndView };

    ghost view = { λ e. record { epoch = e.epoch; phase = e.phase; sent = e.sent; at_hand = e.at_hand.items; on_way = e.on_way.items; used = e.used } };

    ghost invariant = { λ e. IsEnd e.phase (vec_len e.on_way) e.used (vec_capacity e.at_hand) (vec_capacity e.on_way) };
}

fn is_old(epoch: u32, phase: Phase, frame: &Frame) -> bool
    ensures { result ≡ is_old epoch phase frame.now }
{
    frame.epoch < epoch || (frame.epoch == epoch && phase == Phase::Closed)
}

// Takes the first frame that isn't old, and drops those before it.
fn take_first(frames: &mut Vec<Frame>, epoch: u32, phase: Phase) -> Option<Frame>
    ensures frame { result ≡ find (λ f. not (is_old epoch phase f)) frames.old.items }
    ensures rest { frames.new.items ≡ after_first (λ f. not (is_old epoch phase f)) frames.old.items }
    ensures room { vec_capacity frames.new ≡ vec_capacity frames.old }
{
    while !frames.is_empty() {
        let frame = frames.remove(0);
        if !is_old(epoch, phase, &frame) {
            return Some(frame);
        }
    }
    None
}

// The first frame that isn't old.
fn first_of(frames: &[Frame], epoch: u32, phase: Phase) -> Option<&Frame>
    ensures { option_copied result ≡ find (λ f. not (is_old epoch phase f)) frames.now }
{
    frames
        .iter()
        .find(|frame: &&Frame| !is_old(epoch, phase, frame))
}

// Drops the frames of the epochs up to this one.
fn drop_old(frames: &mut Vec<Frame>, epoch: u32)
    ensures rest { frames.new.items ≡ filter (λ f. nat_lt epoch f.epoch) frames.old.items }
    ensures room { vec_capacity frames.new ≡ vec_capacity frames.old }
{
    frames.retain(|frame: &Frame| epoch < frame.epoch);
}

// Drops the frames that are old.
fn keep_new(frames: &mut Vec<Frame>, epoch: u32, phase: Phase)
    ensures rest { frames.new.items ≡ filter (λ f. not (is_old epoch phase f)) frames.old.items }
    ensures room { vec_capacity frames.new ≡ vec_capacity frames.old }
{
    // Each turn comes here with every end, and most have no frame at hand: these cost one test.
    if !frames.is_empty() {
        frames.retain(|frame: &Frame| !is_old(epoch, phase, frame));
    }
}

fn phase_after_send(phase: Phase, frame: &Frame) -> Phase
    ensures { result ≡ phase_after_send phase frame.now }
{
    if frame.is_close() {
        return Phase::Closed;
    }
    match phase {
        Phase::Closed => Phase::Closed,
        Phase::Opening | Phase::Open => Phase::Open,
    }
}

impl End {
    /// An end that was never opened.
    pub fn new(alloc: Global) -> Result<End, NoMemory>
        ensures { IfOk result (λ e. e ≡ fresh) }
    {
        Ok(End {
            epoch: 0,
            phase: Phase::Closed,
            sent: 0,
            at_hand: Vec::with_capacity(alloc, PLACES)?,
            on_way: Vec::with_capacity(alloc, PLACES)?,
            used: 0,
        })
    }

    /// The number of the opening that it is at, 0 before the first.
    pub fn epoch(&self) -> u32
        ensures { result ≡ self.now.epoch }
    {
        self.epoch
    }

    /// How many frames it has sent since its opening.
    pub fn sent(&self) -> u64
        ensures { result ≡ self.now.sent }
    {
        self.sent
    }

    /// How it stands.
    pub fn phase(&self) -> Phase
        ensures { result ≡ self.now.phase }
    {
        self.phase
    }

    fn free(&self) -> usize
        ensures { result ≡ free self.now }
    {
        PLACES - self.used
    }

    /// Whether there is room for a frame other than a Close: two free places, one of which is kept for the Close.
    pub fn room(&mut self) -> bool
        ensures room { result ≡ nat_le 2 (free self.old) }
        ensures same { self.new ≡ self.old }
    {
        self.free() >= 2
    }

    fn accepts(&self, frame: &Frame) -> bool
        ensures { result ≡ accepts self.now frame.now }
    {
        let free = self.free();
        if frame.is_close() {
            self.phase != Phase::Closed && free >= 1
        } else {
            free >= 2
        }
    }

    /// Sends a frame. A Close is handed back where the end is closed, or has no place free, which an open end has;
    /// another frame where fewer than two places are free.
    pub fn send(&mut self, frame: Frame) -> Result<(), Frame>
        requires few { self.old.sent < 2 ^ 62 }
        ensures ok { OnOk result (self.new ≡ after_send self.old frame) }
        ensures err { OnErr result (self.new ≡ self.old) }
        ensures same { IfErr result (λ back. back ≡ frame) }
        ensures handed_back { IsErr result ↔ (accepts self.old frame ≡ false) }
        ensures close { is_close frame ≡ true → self.old.phase ≡ Phase.Open → IsOk result }
        ensures places { self.new.used ≤ 8 }
        ensures paired { StaysPaired self.old self.new }
    {
        if !self.accepts(&frame) {
            return Err(frame);
        }
        self.phase = phase_after_send(self.phase, &frame);
        self.sent += 1;
        self.used += 1;
        self.on_way.push_reserved(frame);
        Ok(())
    }

    /// The frame that `take` takes next; nothing changes.
    pub fn first(&self) -> Option<&Frame>
        ensures { option_copied result ≡ next_frame self.now }
    {
        first_of(&self.at_hand, self.epoch, self.phase)
    }

    /// Whether a frame is at hand, of whatever epoch.
    pub fn has_frames(&self) -> bool
        ensures { result ≡ has_frames self.now }
    {
        !self.at_hand.is_empty()
    }

    /// Takes the first frame at hand that isn't of an older epoch, or of one that this end has closed; it drops those
    /// before it. With an Open the end is at its epoch, and takes frames; with a Close it takes no more.
    pub fn take(&mut self) -> Option<Frame>
        ensures frame { result ≡ next_frame self.old }
        ensures end { self.new ≡ after_take self.old }
        ensures paired { StaysPaired self.old self.new }
    {
        let frame = take_first(&mut self.at_hand, self.epoch, self.phase)?;
        match &frame.body {
            Body::Open => {
                self.epoch = frame.epoch;
                self.phase = Phase::Opening;
                self.sent = 0;
            }
            Body::Close => self.phase = Phase::Closed,
            Body::Line(_) | Body::Bytes(_) => {}
        }
        Some(frame)
    }

    /// Drops the frames at hand that are of an older epoch, or of one that this end has closed: none of them is ever taken.
    pub fn drop_old(&mut self)
        ensures end { self.new ≡ after_drop self.old }
        ensures first { next_frame self.new ≡ next_frame self.old }
        ensures paired { StaysPaired self.old self.new }
    {
        keep_new(&mut self.at_hand, self.epoch, self.phase);
    }

    /// Begins the next epoch, and drops what is at hand of those before.
    pub fn open(&mut self)
        requires { self.old.epoch < 2 ^ 32 - 1 }
        ensures end { self.new ≡ after_open self.old }
        ensures paired { StaysPaired self.old self.new }
    {
        drop_old(&mut self.at_hand, self.epoch);
        self.epoch += 1;
        self.phase = Phase::Opening;
        self.sent = 0;
    }

    /// Closes the end without a word to the other one.
    pub fn close(&mut self)
        ensures end { self.new ≡ after_close self.old }
        ensures paired { StaysPaired self.old self.new }
    {
        self.phase = Phase::Closed;
    }
}

// Moves the frames that are on the way to the end that takes them.
fn arrive(on_way: &mut Vec<Frame>, at_hand: &mut Vec<Frame>)
    requires { vec_len at_hand.old + vec_len on_way.old ≤ vec_capacity at_hand.old }
    ensures at_hand { at_hand.new.items ≡ at_hand.old.items ++ on_way.old.items }
    ensures on_way { on_way.new.items ≡ [] }
    ensures room { (vec_capacity at_hand.old ≤ vec_capacity at_hand.new) × (vec_capacity on_way.new ≡ vec_capacity on_way.old) }
{
    // Every end is carried, and most have no frame on the way: these cost one test.
    if on_way.is_empty() {
        return;
    }
    let Ok(()) = at_hand.append(on_way) else {
        unreachable!();
    };
}

/// Carries the frames of both ways to the ends that take them: then each end knows all frames that the other one sent,
/// and all that it took.
pub fn carry(a: &mut End, b: &mut End)
    requires { ArePaired a.old b.old }
    ensures first { a.new ≡ after_carry a.old b.old }
    ensures second { b.new ≡ after_carry b.old a.old }
    ensures paired { ArePaired a.new b.new }
{
    arrive(&mut a.on_way, &mut b.at_hand);
    arrive(&mut b.on_way, &mut a.at_hand);
    a.used = b.at_hand.len();
    b.used = a.at_hand.len();
}
