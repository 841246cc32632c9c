//! Lists with a byte between their items, or a dash.
ghost use Rattle.std.specs.Prelude.{◌≡◌, ◌<◌, ◌^◌, length, IfOk};
ghost use Rattle.journal_reading.specs.Forms.{items_in, parts_of};
ghost use Rattle.journal_reading.specs.Fields.{rises, rises_from, repo_list};
ghost use Rattle.journal_fields.specs.Lists.{joined_read};

use crate::marks::cut;
use crate::names::read_repo;
use annex_base::{Items, NoMemory};
use run_data::RepoView;
use script_words::is_word;
use std::alloc::Global;

/// What reads an item of a list off its word.
pub trait ReadsItem<X> {
    ghost use Rattle.std.specs.Prelude.{◌≡◌, List, ℕ};
    ghost use Rattle.std.specs.declared.option.Option.{Option};

    /// The item that a word is read as.
    ghost item_of: { Self → List ℕ → Option X };

    fn read(&self, word: &[u8]) -> Option<X>
        ensures { result ≡ item_of self.now word.now };
}

/// The items that stand between bytes of this kind.
fn read_items<X: Drop, R: ReadsItem<X>>(
    alloc: Global,
    between: u8,
    reader: &R,
    word: &[u8],
) -> Result<Option<Items<X>>, NoMemory>
    ensures { IfOk result (λ o. o ≡ items_in (R.item_of reader.now) (parts_of between word.now)) }
{
    let mut items = Items::new(alloc);
    let mut rest = word;
    while let Some((part, after)) = cut(rest, between) {
        let Some(item) = reader.read(part) else {
            return Ok(None);
        };
        items.push(item)?;
        rest = after;
    }
    let Some(last) = reader.read(rest) else {
        return Ok(None);
    };
    items.push(last)?;
    Ok(Some(items))
}

/// Items with a byte between them, or a dash where there is none.
pub fn read_joined<X: Drop, R: ReadsItem<X>>(
    alloc: Global,
    between: u8,
    reader: &R,
    word: &[u8],
) -> Result<Option<Items<X>>, NoMemory>
    ensures { IfOk result (λ o. o ≡ joined_read between (R.item_of reader.now) word.now) }
{
    if is_word(word, b"-") {
        return Ok(Some(Items::new(alloc)));
    }
    read_items(alloc, between, reader, word)
}

fn rise_from(first: u32, rest: &[u32]) -> bool
    ensures { result ≡ rises_from first rest.now }
{
    let mut last = first;
    let mut left = rest;
    while let Some((next, after)) = left.split_first() {
        if *next <= last {
            return false;
        }
        last = *next;
        left = after;
    }
    true
}

/// Whether the numbers rise.
pub fn rises(numbers: &[u32]) -> bool
    ensures { result ≡ rises numbers.now }
{
    match numbers.split_first() {
        None => true,
        Some((first, rest)) => rise_from(*first, rest),
    }
}

/// Repositories, which are read by their names.
#[derive(Drop)]
struct RepoItems<'r> {
    repos: &'r [RepoView],
    ghost few: { length repos.now < 2 ^ 32 },
}

impl ReadsItem<u32> for RepoItems<'_> {
    ghost use Rattle.journal_reading.specs.Fields.{repo_number};

    ghost item_of = { λ items word. (repo_number items.repos.now).read word };

    fn read(&self, word: &[u8]) -> Option<u32> {
        read_repo(self.repos, word)
    }
}

/// Repositories in order of number, by their names with a comma between them, or a dash.
pub fn read_repo_list(
    alloc: Global,
    repos: &[RepoView],
    word: &[u8],
) -> Result<Option<Items<u32>>, NoMemory>
    requires few { length repos.now < 2 ^ 32 }
    ensures { IfOk result (λ o. o ≡ (repo_list repos.now).read word.now) }
{
    let listed: Option<Items<u32>> = read_joined(alloc, b',', &RepoItems { repos }, word)?;
    let Some(numbers) = listed else {
        return Ok(None);
    };
    if rises(numbers.as_slice()) {
        Ok(Some(numbers))
    } else {
        Ok(None)
    }
}
