//! The words beside the answers that the jobs of a repository took.
ghost use Rattle.std.specs.Prelude.{◌≡◌, ◌<◌, ◌≤◌, ◌+◌, ◌&&◌, ◌==◌, ℕ, Option, [], length, None, Some, if◌then◌else◌, vec_len, OnOk};
ghost use Rattle.annex_base.specs.declared.kinds.Word.{Word};
ghost use Rattle.indexmap.specs.IndexMap.{spare};
ghost use Rattle.job_makes.specs.Turns.{word_in};
ghost use Rattle.step_rules.specs.Members.{HasWordRoom, StaySaid, words_after, words_at};

use annex_base::{NoMemory, Word};
use indexmap::IndexMap;
use std::alloc::Global;

/// The words that jobs heard, by the jobs' numbers: for each job a list by the numbers of the repositories that answered (own).
#[derive(Drop)]
pub struct Words {
    alloc: Global,
    heard: IndexMap<u32, Vec<Option<Word>>>,
}

/// A job takes an answer of a peer, with this word beside it.
#[derive(Clone, Copy, Debug)]
pub struct Hears {
    pub job: u32,
    pub peer: u32,
    pub word: Option<Word>,
}

impl Words {
    pub(crate) fn new(alloc: Global) -> Words
        ensures { (job c : ℕ) → word_in (words_at result job) c ≡ None }
    {
        Words {
            alloc,
            heard: IndexMap::new(alloc),
        }
    }

    /// The words that a job heard, by the numbers of the repositories that said them.
    pub(crate) fn of(&self, job: u32) -> &[Option<Word>]
        ensures { result.now ≡ words_at self.now job }
    {
        match self.heard.get(&job) {
            Some(words) => words,
            None => &[],
        }
    }

    /// Makes room for the word that a job hears, if one does. The words stay.
    pub(crate) fn ready(&mut self, hears: &Option<Hears>) -> Result<(), NoMemory>
        ensures room { OnOk result (HasWordRoom hears.now self.new) }
        ensures same { StaySaid self.old self.new }
    {
        match hears {
            Some(hears) => self.ready_for(hears.job, hears.peer),
            None => Ok(()),
        }
    }

    /// Takes note of the word that a job hears, if one does. It takes no memory.
    pub(crate) fn note(&mut self, hears: Option<Hears>)
        requires { HasWordRoom hears self.old }
        ensures { (job c : ℕ) → word_in (words_at self.new job) c ≡ words_after (λ j d. word_in (words_at self.old j) d) hears job c }
    {
        match hears {
            Some(hears) => self.hear(hears),
            None => {}
        }
    }

    fn hear(&mut self, hears: Hears)
        requires { HasWordRoom (Some hears) self.old }
        ensures { (job c : ℕ) → word_in (words_at self.new job) c ≡ (if (hears.job == job) && (hears.peer == c) then hears.word else word_in (words_at self.old job) c) }
    {
        let mut words = self.take_out(hears.job);
        words[hears.peer as usize] = hears.word;
        self.put(hears.job, words);
    }

    fn ready_for(&mut self, job: u32, peer: u32) -> Result<(), NoMemory>
        ensures room { OnOk result ((0 < spare self.new.heard) × (peer < length (words_at self.new job))) }
        ensures same { StaySaid self.old self.new }
    {
        self.heard.reserve(1)?;
        let mut words = self.take_out(job);
        let grown = grow(&mut words, peer as usize);
        self.put(job, words);
        grown?;
        self.heard.reserve(1)?;
        Ok(())
    }

    fn take_out(&mut self, job: u32) -> Vec<Option<Word>>
        ensures value { result.items ≡ words_at self.old job }
        ensures out { (other : ℕ) → words_at self.new other ≡ (if job == other then [] else words_at self.old other) }
        ensures room { spare self.old.heard ≤ spare self.new.heard }
    {
        match self.heard.swap_remove(&job) {
            Some(words) => words,
            None => Vec::new(self.alloc),
        }
    }

    fn put(&mut self, job: u32, words: Vec<Option<Word>>)
        requires { 0 < spare self.old.heard }
        ensures words { (other : ℕ) → words_at self.new other ≡ (if job == other then words.items else words_at self.old other) }
    {
        self.heard.insert(job, words).unwrap();
    }
}

/// Makes the list longer than this, where it isn't.
fn grow(words: &mut Vec<Option<Word>>, place: usize) -> Result<(), NoMemory>
    ensures long { OnOk result (place < vec_len words.new) }
    ensures same { (c : ℕ) → word_in words.new.items c ≡ word_in words.old.items c }
{
    while words.len() <= place {
        words.push(None)?;
    }
    Ok(())
}
