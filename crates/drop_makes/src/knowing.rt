//! What a drop knows, by its turn and by what it has read.
ghost use Rattle.std.specs.Prelude.{◌≡◌, IfOk};
ghost use Rattle.node_model.specs.DropStep.{in_time};
ghost use Rattle.node_model.specs.Knows.{candidates_by, known_by};
ghost use Rattle.state_jobs.specs.Works.{work_of};
ghost use Rattle.drop_makes.specs.Knowings.{reading_in};

use crate::candidates::candidates;
use crate::gathering::{failures, gather, is_enough, least_end, next};
use crate::item::Item;
use crate::outcome::proof;
use annex_base::NoMemory;
use job_makes::Turn;
use run_data::{CandidateCause, Proof};
use state_reads::KnownLogs;
use std::alloc::Global;

/// What a drop knows: its turn, what it has read of the logs, its candidates and its evidence (own).
#[derive(Drop)]
pub struct Knowing<'a> {
    pub turn: &'a Turn<'a>,
    pub logs: &'a KnownLogs,
    candidates: Vec<u32>,
    items: Vec<Item>,
    ghost asked: { candidates.items ≡ candidates_by (reading_in turn.now logs.now) (work_of turn.now.work.now) },
    ghost known: { items.items ≡ known_by (reading_in turn.now logs.now) (work_of turn.now.work.now) },
}

impl<'a> Knowing<'a> {
    ghost use Rattle.node_model.specs.DropStep.{first_end};
    ghost use Rattle.node_model.specs.JobStep.{clock_of as clock_at};
    ghost use Rattle.node_model.specs.Knows.{causes_by, enough_by, next_by, proof_by};
    ghost use Rattle.node_model.specs.SetUp.{SetUp};
    ghost use Rattle.node_model.specs.State.{State};
    ghost use Rattle.job_makes.specs.Turns.{word_in};
    ghost use Rattle.drop_makes.specs.Knowings.{drop_in};

    /// What the drop of a job knows in this turn, where it has read this.
    pub fn new(
        alloc: Global,
        turn: &'a Turn<'a>,
        logs: &'a KnownLogs,
    ) -> Result<Knowing<'a>, NoMemory>
        ensures turn { IfOk result (λ k. k.turn.now ≡ turn.now) }
        ensures logs { IfOk result (λ k. k.logs.now ≡ logs.now) }
    {
        let side = turn.side();
        let candidates = candidates(alloc, side, turn.count(), turn.repo, turn.target())?;
        let items = gather(alloc, turn, logs, side, &candidates)?;
        Ok(Knowing {
            turn,
            logs,
            candidates,
            items,
        })
    }

    /// Whether its evidence is enough.
    pub fn enough(&self) -> bool
        ensures { (s : SetUp) (st : State) → result ≡ enough_by (drop_in self.now.turn.now self.now.logs.now s st).read (drop_in self.now.turn.now self.now.logs.now s st).w }
    {
        is_enough(self.turn.side(), self.logs.need(), &self.items)
    }

    /// The candidate that it asks next.
    pub fn next(&self) -> Option<u32>
        ensures { (s : SetUp) (st : State) → result ≡ next_by (drop_in self.now.turn.now self.now.logs.now s st).read (drop_in self.now.turn.now self.now.logs.now s st).w }
    {
        next(self.turn, self.logs, &self.candidates)
    }

    /// The least end of its locks, in milliseconds on the clock of its repository.
    pub fn first_end(&self) -> Option<u128>
        ensures { (s : SetUp) (st : State) → result ≡ first_end (drop_in self.now.turn.now self.now.logs.now s st) }
    {
        least_end(&self.items)
    }

    /// What the clock of its repository says at the entry, in milliseconds.
    pub(crate) fn clock(&self) -> u128
        ensures { (s : SetUp) (st : State) → result ≡ clock_at (drop_in self.now.turn.now self.now.logs.now s st) }
    {
        self.turn.clock(self.turn.told.time)
    }

    /// Whether none of its locks has ended.
    pub fn in_time(&self) -> bool
        ensures { (s : SetUp) (st : State) → result ≡ in_time (clock_at (drop_in self.now.turn.now self.now.logs.now s st)) (first_end (drop_in self.now.turn.now self.now.logs.now s st)) }
    {
        is_in_time(self.clock(), self.first_end())
    }

    /// Its evidence, as its outcome states it.
    pub fn proof(&self, alloc: Global) -> Result<Proof, NoMemory>
        ensures { IfOk result (λ p. p ≡ proof_by (reading_in self.now.turn.now self.now.logs.now) (work_of self.now.turn.now.work.now)) }
    {
        proof(alloc, self.turn.count(), self.logs.need(), &self.items)
    }

    /// The candidates that gave nothing, each with its cause.
    pub(crate) fn causes(&self, alloc: Global) -> Result<Vec<CandidateCause>, NoMemory>
        ensures { IfOk result (λ causes. causes.items ≡ causes_by (reading_in self.now.turn.now self.now.logs.now) (word_in self.now.turn.now.words.now) (work_of self.now.turn.now.work.now)) }
    {
        failures(alloc, self.turn, self.logs, &self.candidates)
    }
}

fn is_in_time(clock: u128, end: Option<u128>) -> bool
    ensures { result ≡ in_time clock end }
{
    match end {
        Some(end) => clock < end,
        None => true,
    }
}
