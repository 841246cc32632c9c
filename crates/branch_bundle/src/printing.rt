//! The text of a branch.
ghost use Rattle.std.specs.Prelude.{◌≡◌, ◌++◌, IfOk, OnOk};
ghost use Rattle.branch_bundle.specs.Bundle.{IsBundle, bundle_text, file_text};

use crate::parts::FILE;
use annex_base::{NoMemory, put_number};
use std::alloc::Global;
use union_merge::{Branch, LineSet};

pub(crate) const HEADER: &[u8] = b"annex-bundle 1\n";

fn put_file(out: &mut Vec<u8>, path: &[u8], lines: &LineSet) -> Result<(), NoMemory>
    ensures { OnOk result (out.new.items ≡ out.old.items ++ file_text (path.now, lines.now)) }
{
    let text = lines.to_bytes()?;
    out.extend_from_slice(FILE)?;
    put_number(out, text.len() as u64)?;
    out.push(b' ')?;
    out.extend_from_slice(path)?;
    out.push(b'\n')?;
    out.extend_from_slice(&text)?;
    Ok(())
}

/// The branch as one text, as it travels: `annex-bundle 1`, and then for each file `file N PATH` and its lines, which
/// are N bytes (own).
pub fn bundle(alloc: Global, branch: &Branch) -> Result<Vec<u8>, NoMemory>
    ensures { IfOk result (λ v. IsBundle v.items branch.now) }
{
    let mut out = Vec::from_slice(alloc, HEADER)?;
    for (path, lines) in branch.files() {
        put_file(&mut out, path, lines)?;
    }
    Ok(out)
}
