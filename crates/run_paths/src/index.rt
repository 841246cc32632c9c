//! An index of the paths that the marks of a run give keys.
ghost use Rattle.std.specs.Prelude.{◌≡◌, ◌+◌, ◌<◌, ◌≤◌, ◌^◌, ℕ, List, [], length, take, IfOk, OnOk};
ghost use Rattle.annex_key.specs.Tree.{key_of, paths_of};
ghost use Rattle.run_data.specs.declared.run.TreeMark.{TreeMark};
ghost use Rattle.run_paths.specs.Paths.{IsIndexOf, with_marks};

use annex_base::{Items, NoMemory, Text};
use annex_key::{Key, Tree};
use run_data::TreeMark;
use std::alloc::Global;
use std::marker::Model;

/// The paths of keys by the first marks of a run (own). A mark that came since is taken in when paths are asked for next, so that a run
/// gets a mark by one push, and where memory runs out the index has some marks more and goes on from there.
#[derive(Debug, Drop)]
pub struct PathIndex {
    tree: Tree,
    taken: usize,
}

impl Model for PathIndex {
    ghost use Rattle.run_paths.specs.Paths.{IndexView};

    ghost Value = { IndexView };

    ghost view = { λ x. record { tree = x.tree; taken = x.taken } };
}

/// The tree takes in these marks, in order, and they are counted. Where memory runs out, it has taken in some first ones.
fn take_in(
    tree: &mut Tree,
    taken: &mut usize,
    alloc: Global,
    marks: &[TreeMark],
) -> Result<(), NoMemory>
    requires few { taken.old + length marks.now < 2 ^ 63 }
    ensures all { OnOk result (tree.new ≡ with_marks tree.old marks.now) }
    ensures some { (count : ℕ) × (count ≤ length marks.now) × (taken.new ≡ taken.old + count) × (tree.new ≡ with_marks tree.old (take count marks.now)) }
{
    for mark in marks {
        tree.set(alloc, mark.path.bytes(), &mark.key)?;
        *taken += 1;
    }
    Ok(())
}

impl PathIndex {
    /// An index that has taken in no mark.
    pub fn new(alloc: Global) -> Result<PathIndex, NoMemory>
        ensures { IfOk result (λ index. (marks : List TreeMark) → IsIndexOf marks index) }
    {
        Ok(PathIndex {
            tree: Tree::new(alloc)?,
            taken: 0,
        })
    }

    /// Takes in the marks that came since it was asked last.
    pub fn follow(&mut self, alloc: Global, marks: &[TreeMark]) -> Result<(), NoMemory>
        requires first { IsIndexOf marks.now self.old }
        ensures all { OnOk result (self.new.tree ≡ with_marks [] marks.now) }
        ensures first { IsIndexOf marks.now self.new }
    {
        let (_, later) = marks.split_at(self.taken);
        take_in(&mut self.tree, &mut self.taken, alloc, later)
    }

    /// The tree that the marks make that were taken in.
    pub fn tree(&self) -> &Tree
        ensures { result.now ≡ self.now.tree }
    {
        &self.tree
    }

    /// The key that the marks of the run give the path, if they give it one.
    pub fn key(
        &mut self,
        alloc: Global,
        marks: &[TreeMark],
        path: &Text,
    ) -> Result<Option<Key>, NoMemory>
        requires first { IsIndexOf marks.now self.old }
        ensures value { IfOk result (λ key. key ≡ key_of (with_marks [] marks.now) path.now) }
        ensures first { IsIndexOf marks.now self.new }
    {
        self.follow(alloc, marks)?;
        match self.tree.key(path.bytes()) {
            Some(key) => Ok(Some(key.copy()?)),
            None => Ok(None),
        }
    }

    /// The paths that the marks of the run give the key, in byte order.
    pub fn paths(
        &mut self,
        alloc: Global,
        marks: &[TreeMark],
        key: &Key,
    ) -> Result<Items<Text>, NoMemory>
        requires first { IsIndexOf marks.now self.old }
        ensures value { IfOk result (λ paths. paths ≡ paths_of (with_marks [] marks.now) key.now) }
        ensures first { IsIndexOf marks.now self.new }
    {
        self.follow(alloc, marks)?;
        let paths = self.tree.paths(alloc, key)?;
        Ok(Items::from_vec(paths))
    }
}
