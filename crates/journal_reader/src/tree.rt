//! The tree at the place of an entry.
ghost use Rattle.std.specs.Prelude.{◌≡◌, ◌≤◌, ℕ, IfOk};
ghost use Rattle.journal_reading.specs.Lines.{tree_from};

use annex_base::NoMemory;
use annex_key::Tree;
use run_data::TreeMark;
use std::alloc::Global;

/// The tree takes in the changes up to this place, and those of later places are left.
pub(crate) fn follow<'a>(
    tree: &mut Tree,
    alloc: Global,
    marks: &'a [TreeMark],
    place: u64,
) -> Result<&'a [TreeMark], NoMemory>
    ensures stands { IfOk result (λ rest. tree.new ≡ tree_from tree.old marks.now place) }
    ensures later { IfOk result (λ rest. (n : ℕ) → place ≤ n → tree_from tree.old marks.now n ≡ tree_from tree.new rest.now n) }
{
    let mut left = marks;
    while let Some((mark, after)) = left.split_first() {
        if mark.place as u64 > place {
            return Ok(left);
        }
        tree.set(alloc, mark.path.bytes(), &mark.key)?;
        left = after;
    }
    Ok(left)
}
