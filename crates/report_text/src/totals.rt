//! How many contents each repository has.
ghost use Rattle.std.specs.Prelude.{◌≡◌, ◌++◌, ◌<◌, ◌^◌, ℕ, IfOk, OnOk, length};
ghost use Rattle.std.specs.List.{range_with_len};
ghost use Rattle.report_tables.specs.Walk.{StandsAt};
ghost use Rattle.report_text.specs.Report.{totals_text};

use annex_base::{NoMemory, put_number};
use report_tables::Walk;
use run_data::{RepoView, Run};
use run_text::{ItemWords, put_joined, put_name};
use std::alloc::{AllocError, Global};

/// Numbers of repositories, whose words are their names and how many contents they have where the walk stands.
#[derive(Clone, Copy)]
struct Totals<'a> {
    repos: &'a [RepoView],
    walk: &'a Walk,
}

impl ItemWords<u32> for Totals<'_> {
    ghost use Rattle.report_tables.specs.Contents.{count_of};
    ghost use Rattle.report_text.specs.Report.{total_word};

    ghost word_of = { λ totals repo. total_word totals.repos.now repo (count_of totals.walk.now.contents.sets.items repo) };

    fn put(&self, out: &mut Vec<u8>, item: &u32) -> Result<(), AllocError> {
        put_name(out, self.repos, *item)?;
        out.push(b'=')?;
        put_number(out, self.walk.total(*item))
    }
}

fn numbers_below(alloc: Global, count: u32) -> Result<Vec<u32>, AllocError>
    ensures { IfOk result (λ numbers. numbers.items ≡ range_with_len 0 count) }
{
    let mut numbers = Vec::new(alloc);
    for number in 0..count {
        numbers.push(number)?;
    }
    Ok(numbers)
}

/// Adds how many contents each repository has where the walk stands.
pub(crate) fn put_totals(out: &mut Vec<u8>, run: &Run, walk: &Walk) -> Result<(), NoMemory>
    requires { length run.now.repos < 2 ^ 32 }
    ensures { OnOk result ((place : ℕ) → StandsAt walk.now run.now place → out.new.items ≡ out.old.items ++ totals_text run.now place) }
{
    let repos = run.repos.as_slice();
    let numbers = numbers_below(*out.allocator(), repos.len() as u32)?;
    out.extend_from_slice(b"totals ")?;
    put_joined(out, b' ', &Totals { repos, walk }, &numbers)?;
    out.push(b'\n')?;
    Ok(())
}
