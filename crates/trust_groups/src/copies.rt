//! How many copies a branch asks for, read alone.

ghost use Rattle.std.specs.Prelude.{◌≡◌, ◌≤◌, IfOk};
ghost use Rattle.std.specs.Option.{option_copied};
ghost use Rattle.log_lines.specs.declared.entry.Topic.TheVariants as topics;
ghost use Rattle.union_merge.specs.Branch.{lines_at};
ghost use Rattle.trust_groups.specs.Settings.{entry_in, value_in, number_in, numcopies, mincopies};

use crate::files::lines_of;
use crate::values::number_in;
use annex_base::NoMemory;
use log_lines::{Entry, LogKind, Topic, Value, newest_of};
use std::alloc::Global;
use union_merge::Branch;

fn value_in(entry: Option<&Entry>) -> Option<&Value>
    ensures { option_copied result ≡ value_in (option_copied entry.entry) }
{
    match entry {
        Some(entry) => Some(&entry.value),
        None => None,
    }
}

fn copies_of(alloc: Global, kind: LogKind, branch: &Branch) -> Result<u32, NoMemory>
    ensures value { IfOk result (λ n. n ≡ number_in (value_in (entry_in kind (lines_at branch.now) topics.Whole))) }
    ensures some { IfOk result (λ n. 1 ≤ n) }
{
    let lines = lines_of(branch, kind.file_name());
    let entry = newest_of(alloc, kind, lines, &Topic::Whole)?;
    Ok(number_in(value_in(entry.as_ref())))
}

/// How many copies of a content are to be preserved, 1 where none is set (git-annex-numcopies). A 0 reads as 1 (own).
pub fn numcopies_of(alloc: Global, branch: &Branch) -> Result<u32, NoMemory>
    ensures value { IfOk result (λ n. n ≡ numcopies (lines_at branch.now)) }
    ensures some { IfOk result (λ n. 1 ≤ n) }
{
    copies_of(alloc, LogKind::Numcopies, branch)
}

/// How many copies are never to be gone below, 1 where none is set (git-annex-mincopies). A 0 reads as 1 (own).
pub fn mincopies_of(alloc: Global, branch: &Branch) -> Result<u32, NoMemory>
    ensures value { IfOk result (λ n. n ≡ mincopies (lines_at branch.now)) }
    ensures some { IfOk result (λ n. 1 ≤ n) }
{
    copies_of(alloc, LogKind::Mincopies, branch)
}
