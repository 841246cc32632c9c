//! A branch of a text.
ghost use Rattle.std.specs.Prelude.{◌≡◌, ◌⊎◌, ℕ, Some, Ok, Err, IfOk, IfSome, flat_map};
ghost use Rattle.union_merge.specs.Branch.{Files, IsBranch};
ghost use Rattle.branch_bundle.specs.Bundle.{IsBundle, IsFirstWrong, file_text};

use crate::fault::BundleFault;
use crate::parts::{split_file, strip};
use crate::place::first_wrong;
use crate::printing::{HEADER, bundle};
use annex_base::NoMemory;
use std::alloc::Global;
use union_merge::{Branch, LineSet, texts_of_sets_read_back};

/// The branch of a bundle. A text that is none is refused at the place where it goes wrong, as a file whose count has a
/// leading zero, or a path or a line that isn't greater than the one before (own).
pub fn read_bundle(alloc: Global, bytes: &[u8]) -> Result<Branch, BundleFault>
    ensures found { IfOk result (λ b. IsBundle bytes.now b) }
    ensures only { (files : Files) → IsBundle bytes.now files → (result ≡ Ok files) ⊎ (result ≡ Err BundleFault.NoMemory) }

    // The place is the first wrong one, and no other.
    ensures wrong { (at : ℕ) → result ≡ Err (BundleFault.BadBundle at) → IsFirstWrong bytes.now at }
    ensures first { (at : ℕ) → IsFirstWrong bytes.now at → (result ≡ Err (BundleFault.BadBundle at)) ⊎ (result ≡ Err BundleFault.NoMemory) }
{
    match read(alloc, bytes)? {
        Some(branch) => Ok(branch),
        None => Err(BundleFault::BadBundle {
            at: first_wrong(bytes) as u64,
        }),
    }
}

// The branch whose bundle the text is, if there is one. The files are read in whatever order they stand, and their
// lines likewise; then only the text that the branch has is taken.
fn read(alloc: Global, bytes: &[u8]) -> Result<Option<Branch>, NoMemory>
    ensures found { IfOk result (λ o. IfSome o (λ b. IsBundle bytes.now b)) }
    ensures only { (files : Files) → IsBundle bytes.now files → IfOk result (λ o. o ≡ Some files) }
{
    let Some(rest) = strip(bytes, HEADER) else {
        return Ok(None);
    };
    let branch = read_files(alloc, rest)?;
    let text = bundle(alloc, &branch)?;
    if text.as_slice() == bytes {
        Ok(Some(branch))
    } else {
        Ok(None)
    }
}

fn read_files(alloc: Global, text: &[u8]) -> Result<Branch, NoMemory>
    ensures { (files : Files) → IsBranch files → text.now ≡ flat_map file_text files → IfOk result (λ b. b ≡ files) }
{
    // For the proof: the lines of a file are those of its text.
    texts_of_sets_read_back();
    let mut branch = Branch::new(alloc);
    let mut rest = text;
    while let Some(file) = split_file(rest) {
        let lines = LineSet::from_bytes(alloc, file.lines)?;
        branch.replace_file(file.path, lines)?;
        rest = file.rest;
    }
    Ok(branch)
}
