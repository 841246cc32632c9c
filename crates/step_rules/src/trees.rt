//! The tree of a run at the place of its next entry.
ghost use Rattle.std.specs.Prelude.{◌≡◌, ◌<◌, ◌≤◌, ◌^◌, drop, length, take, IfOk};
ghost use Rattle.annex_base.specs.Lists.{Each};
ghost use Rattle.annex_key.specs.Tree.{paths_of};
ghost use Rattle.run_model.specs.Run.{tree_at};
ghost use Rattle.step_rules.specs.Trees.{AreInOrder, IsTreeBefore};

use annex_base::{Items, NoMemory, Text};
use annex_key::Key;
use run_data::TreeMark;
use run_paths::{PathIndex, trees_have_all_marks_before};
use std::alloc::Global;

/// The changes of a run's tree, how many of them were passed, and an index of the paths that those give keys (own).
#[derive(Drop)]
pub struct Trees<'a> {
    marks: &'a [TreeMark],
    passed: usize,
    index: PathIndex,
}

impl<'a> Trees<'a> {
    pub(crate) fn new(alloc: Global, marks: &'a [TreeMark]) -> Result<Trees<'a>, NoMemory>
        requires { AreInOrder 0 marks.now }
        ensures tree { IfOk result (IsTreeBefore 0) }
        ensures marks { IfOk result (λ x. x.marks.now ≡ marks.now) }
    {
        Ok(Trees {
            marks,
            passed: 0,
            index: PathIndex::new(alloc)?,
        })
    }

    /// The paths of the key in the tree at this place.
    pub(crate) fn paths(
        &mut self,
        alloc: Global,
        place: u64,
        key: &Key,
    ) -> Result<Items<Text>, NoMemory>
        requires { IsTreeBefore place self.old }
        ensures value { IfOk result (λ paths. paths ≡ paths_of (tree_at self.old.marks.now place) key.now) }
        ensures tree { IsTreeBefore place self.new }
        ensures marks { self.new.marks ≡ self.old.marks }
    {
        // A law, for the proof: the tree at a place is that of the changes before it.
        trees_have_all_marks_before();
        let passed = passed(self.marks, self.passed, place);
        self.passed = passed;
        let (before, _) = self.marks.split_at(passed);
        self.index.paths(alloc, before, key)
    }
}

/// How many changes stand up to this place, of which so many were passed.
fn passed(marks: &[TreeMark], passed: usize, place: u64) -> usize
    requires order { AreInOrder 0 marks.now }
    requires few { passed ≤ length marks.now }
    requires before { Each (λ m. m.place ≤ place) (take passed marks.now) }
    ensures more { passed ≤ result }
    ensures few { result ≤ length marks.now }
    ensures before { Each (λ m. m.place ≤ place) (take result marks.now) }
    ensures later { Each (λ m. place < m.place) (drop result marks.now) }
{
    let mut count = passed;
    while count < marks.len() && u64::from(marks[count].place) <= place {
        count += 1;
    }
    count
}
