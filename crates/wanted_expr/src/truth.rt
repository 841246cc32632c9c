//! Whether an expression holds.
ghost use Rattle.std.specs.Prelude.{◌≡◌, ◌&&◌, ◌||◌, not, count_by};
ghost use Rattle.std.specs.List.{list_all, list_any};
ghost use Rattle.std.specs.Str.{bytes_eq};
ghost use Rattle.wanted_expr.specs.Formula.{formula_of};
ghost use Rattle.wanted_expr.specs.Truth.{rank, is_alive, is_in_group, is_among, copies_among, is_no_lack, is_claimed, path_matches, secure_backends, word_holds, holds, is_groupwanted, has_groupwanted};

use crate::data::{Among, Claimant, Facts, Member, Tree, Word};
use annex_base::{Level, RepoId, Text};
use glob_match::Glob;

const SECURE_BACKENDS: [&[u8]; 8] = [
    b"SHA224", b"SHA256", b"SHA384", b"SHA512", b"SHA224E", b"SHA256E", b"SHA384E", b"SHA512E",
];

fn rank(level: Level) -> u8
    ensures { result ≡ rank level }
{
    match level {
        Level::Dead => 0,
        Level::Untrusted => 1,
        Level::Semitrusted => 2,
        Level::Trusted => 3,
    }
}

fn is_alive(claimant: &Claimant) -> bool
    ensures { result ≡ is_alive claimant.now }
{
    rank(claimant.level) >= 1
}

fn is_no_lack(claimant: &Claimant) -> bool
    ensures { result ≡ is_no_lack claimant.now }
{
    rank(claimant.level) >= 2
}

fn is_in_group(group: &Text, claimant: &Claimant) -> bool
    ensures { result ≡ is_in_group group.now claimant.now }
{
    claimant
        .groups
        .as_slice()
        .iter()
        .any(|g| group.bytes() == g.bytes())
}

fn is_among(among: &Among, claimant: &Claimant) -> bool
    ensures { result ≡ is_among among.now claimant.now }
{
    match among {
        Among::All => true,
        Among::OfLevel(level) => rank(claimant.level) == rank(*level),
        Among::OfLevelOrMore(level) => rank(claimant.level) >= rank(*level),
        Among::InGroup(group) => is_in_group(group, claimant),
    }
}

fn copies_among(among: &Among, claimed: &[Claimant]) -> usize
    ensures { result ≡ count_by (λ c. is_alive c && is_among among.now c) claimed.now }
{
    claimed
        .iter()
        .filter(|c| is_alive(c) && is_among(among, c))
        .count()
}

fn no_lacks(claimed: &[Claimant]) -> usize
    ensures { result ≡ count_by is_no_lack claimed.now }
{
    claimed.iter().filter(|c| is_no_lack(c)).count()
}

fn is_claimed(claimed: &[Claimant], repo: &RepoId) -> bool
    ensures { result ≡ list_any (λ c. is_alive c && bytes_eq repo.now c.repo) claimed.now }
{
    claimed.iter().any(|c| is_alive(c) && *repo == c.repo)
}

fn all_claimed(members: &[Member], group: &Text, claimed: &[Claimant]) -> bool
    ensures { result ≡ list_all (λ m. not (bytes_eq group.now m.group) || list_any (λ c. is_alive c && bytes_eq m.repo c.repo) claimed.now) members.now }
{
    members.iter().all(|m| group.bytes() != m.group.bytes() || is_claimed(claimed, &m.repo))
}

fn any_alive(claimed: &[Claimant]) -> bool
    ensures { result ≡ list_any is_alive claimed.now }
{
    claimed.iter().any(|c| is_alive(c))
}

fn all_in_group(group: &Text, claimed: &[Claimant]) -> bool
    ensures { result ≡ list_all (λ c. not (is_alive c) || is_in_group group.now c) claimed.now }
{
    claimed
        .iter()
        .all(|c| !is_alive(c) || is_in_group(group, c))
}

fn path_matches(glob: &Glob, path: &Option<Text>) -> bool
    ensures { result ≡ path_matches glob.now path.now }
{
    match path {
        Some(path) => glob.matches_path(path.bytes()),
        None => false,
    }
}

fn is_secure(backend: &[u8]) -> bool
    ensures { result ≡ list_any (bytes_eq backend.now) secure_backends }
{
    is_one_of(backend, &SECURE_BACKENDS)
}

fn is_one_of(word: &[u8], words: &[&[u8]]) -> bool
    ensures { result ≡ list_any (λ w. bytes_eq word.now w.now) words.now }
{
    words.iter().any(|w| word == *w)
}

fn word_holds(word: &Word, facts: &Facts) -> bool
    ensures { result ≡ word_holds word.now facts.now }
{
    let claimed = facts.claimed.as_slice();
    match word {
        Word::Anything => true,
        Word::Nothing => false,
        Word::Present => facts.present,
        Word::Include(glob) => path_matches(glob, &facts.path),
        Word::Exclude(glob) => !path_matches(glob, &facts.path),
        Word::Copies(among, least) => copies_among(among, claimed) as u64 >= *least as u64,
        Word::LackingCopies(least) => {
            no_lacks(claimed) as u128 + *least as u128 <= facts.numcopies as u128
        }
        Word::InAllGroup(group) => all_claimed(facts.members.as_slice(), group, claimed),
        Word::OnlyInGroup(group) => any_alive(claimed) && all_in_group(group, claimed),
        Word::InBackend(backend) => backend.bytes() == facts.backend.bytes(),
        Word::SecureHash => is_secure(facts.backend.bytes()),
        Word::LargerThan(limit) => facts.size.is_some_and(|size| size > *limit),
        Word::SmallerThan(limit) => facts.size.is_some_and(|size| size < *limit),
        Word::Standard => facts.standard,
        Word::GroupWanted => facts.groupwanted,
    }
}

/// Whether the expression holds.
pub(crate) fn tree_holds(tree: &Tree, facts: &Facts) -> bool
    ensures { result ≡ holds (formula_of tree.now) facts.now }
{
    match tree {
        Tree::Single(word) => word_holds(word, facts),
        Tree::Not(part) => !tree_holds(part, facts),
        Tree::Both(left, right) => tree_holds(left, facts) && tree_holds(right, facts),
        Tree::Either(left, right) => tree_holds(left, facts) || tree_holds(right, facts),
    }
}

fn is_groupwanted(word: &Word) -> bool
    ensures { result ≡ is_groupwanted word.now }
{
    matches!(word, Word::GroupWanted)
}

/// Whether `groupwanted` stands in the expression.
pub(crate) fn has_groupwanted(tree: &Tree) -> bool
    ensures { result ≡ has_groupwanted (formula_of tree.now) }
{
    match tree {
        Tree::Single(word) => is_groupwanted(word),
        Tree::Not(part) => has_groupwanted(part),
        Tree::Both(left, right) | Tree::Either(left, right) => {
            has_groupwanted(left) || has_groupwanted(right)
        }
    }
}
