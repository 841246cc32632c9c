//! Numbers of copies by path: the greatest number whose pattern matches.

ghost use Rattle.std.specs.Prelude.{◌≡◌, None, Some, option_to_list};
ghost use Rattle.std.specs.Option.{option_copied};
ghost use Rattle.glob_match.specs.Numbers.{number_of_path, number_of_paths, pattern_matches};
ghost use Rattle.glob_match.specs.Spelled.{glob_in};
ghost use Rattle.log_lines.specs.Index.{entries_in};
ghost use Rattle.trust_groups.specs.Globs.{HasGlob, HaveGlobsOf, greater, greatest, numbers_for, pattern_of};
ghost use Rattle.trust_groups.specs.Reads.{entries_or_none};
ghost use Rattle.trust_groups.specs.Settings.{number_in, pattern_in, patterns_of};

use crate::patterns::Globs;
use crate::values::number_in;
use annex_base::Text;
use glob_match::Glob;
use log_lines::{Newest, Statement, Topic};
use std::collections::btree_map::Iter;

fn greater(found: Option<u32>, other: Option<u32>) -> Option<u32>
    ensures { result ≡ greater found other }
{
    match (found, other) {
        (None, other) => other,
        (Some(n), None) => Some(n),
        (Some(n), Some(m)) => Some(n.max(m)),
    }
}

/// The glob that the pattern spells.
fn glob_of<'a>(globs: &'a Globs, pattern: &Text) -> Option<&'a Glob>
    requires { HasGlob globs.now.entries (Some pattern.now) }
    ensures { option_copied result ≡ glob_in pattern.now }
{
    match globs.get(pattern) {
        Some(glob) => glob.as_ref(),
        None => None,
    }
}

fn pattern_matches(globs: &Globs, pattern: &Text, path: &[u8]) -> bool
    requires { HasGlob globs.now.entries (Some pattern.now) }
    ensures { result ≡ pattern_matches pattern.now path.now }
{
    match glob_of(globs, pattern) {
        Some(glob) => glob.matches_path(path),
        None => false,
    }
}

/// The number of an entry whose pattern matches the path.
fn number_for(globs: &Globs, topic: &Topic, statement: &Statement, path: &[u8]) -> Option<u32>
    requires { HasGlob globs.now.entries (pattern_of topic.now) }
    ensures { option_to_list result ≡ numbers_for path.now (pattern_in topic.now (number_in (Some statement.now.value))) }
{
    match topic {
        Topic::Pattern(pattern) => {
            if pattern_matches(globs, pattern, path) {
                Some(number_in(Some(&statement.value)))
            } else {
                None
            }
        }
        Topic::Repo(_) | Topic::Group(_) | Topic::Whole => None,
    }
}

fn greatest_for(globs: &Globs, entries: Iter<'_, Topic, Statement>, path: &[u8]) -> Option<u32>
    requires { HaveGlobsOf globs.now.entries (entries_in entries) }
    ensures { result ≡ greatest None (numbers_for path.now (patterns_of (entries_in entries.entry))) }
{
    let mut found = None;
    for (topic, statement) in entries {
        let number = number_for(globs, topic, statement, path);
        found = greater(found, number);
    }
    found
}

/// The number of a path: the greatest of the entries whose pattern matches it, or else the whole number.
pub(crate) fn number_of_path(globs: &Globs, index: Option<&Newest>, whole: u32, path: &[u8]) -> u32
    requires { HaveGlobsOf globs.now.entries (entries_or_none (option_copied index)) }
    ensures { result ≡ number_of_path whole (patterns_of (entries_or_none (option_copied index.entry))) path.now }
{
    match index {
        Some(index) => greatest_for(globs, index.entries(), path).unwrap_or(whole),
        None => whole,
    }
}

/// The number of some paths: the greatest of theirs, or else the whole number.
pub(crate) fn number_of_paths(
    globs: &Globs,
    index: Option<&Newest>,
    whole: u32,
    paths: &[Text],
) -> u32
    requires { HaveGlobsOf globs.now.entries (entries_or_none (option_copied index)) }
    ensures { result ≡ number_of_paths whole (patterns_of (entries_or_none (option_copied index.entry))) paths.now }
{
    let mut found = None;
    for path in paths {
        let number = number_of_path(globs, index, whole, path.bytes());
        found = greater(found, Some(number));
    }
    found.unwrap_or(whole)
}
