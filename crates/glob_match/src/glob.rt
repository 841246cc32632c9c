//! Globs.
ghost use Rattle.std.specs.Prelude.{◌≡◌, ◌↔◌, ◌⊎◌, List, ℕ, IsTrue, IfOk, IsErrOf, MatchResult};
ghost use Rattle.std.specs.Str.{chars};
ghost use Rattle.glob_match.specs.declared.item.Item.{Item};
ghost use Rattle.glob_match.specs.Glob.{IsGlob, HasOpenSet, IsMatch, glob_matches};
ghost use Rattle.glob_match.specs.Numbers.{matches_path};
ghost use Rattle.glob_match.specs.Spelled.{glob_in};

use crate::fault::GlobFault;
use crate::item::Item;
use crate::reading::read;
use crate::walk::items_match;
use annex_base::NoMemory;
use std::alloc::Global;
use std::marker::Model;

/// A glob, which contracts see as the list of its items (own): `*` matches any run of characters, `/` included, `?` one
/// character, `[..]` one character of a set, and every other character itself.
#[derive(Debug, Drop)]
pub struct Glob {
    items: Vec<Item>,
}

impl Model for Glob {
    ghost use Rattle.std.specs.Prelude.{List};
    ghost use Rattle.glob_match.specs.declared.item.Item.{Item};

    ghost Value = { List Item };

    ghost view = { λ g. g.items.items };
}

impl Glob {
    /// The glob that the text spells, all of the text. OpenSet stands exactly where a `[` has no closing `]`.
    pub fn parse(alloc: Global, text: &str) -> Result<Glob, GlobFault>
        ensures found { IfOk result (λ g. IsGlob g (chars text.now)) }
        ensures only { (items : List Item) → IsGlob items (chars text.now) → MatchResult result (λ g. g ≡ items) (λ e. e ≡ GlobFault.NoMemory) }
        ensures open { (at : ℕ) → IsErrOf result (GlobFault.OpenSet at) → HasOpenSet at (chars text.now) }
        ensures first { (at : ℕ) → HasOpenSet at (chars text.now) → IsErrOf result (GlobFault.OpenSet at) ⊎ IsErrOf result GlobFault.NoMemory }
    {
        let items = read(alloc, text)?;
        Ok(Glob { items })
    }

    /// The glob that the bytes of a pattern spell; none where they aren't UTF-8, or where a set is never closed (own).
    pub fn spelled(alloc: Global, pattern: &[u8]) -> Result<Option<Glob>, NoMemory>
        ensures { IfOk result (λ g. g ≡ glob_in pattern.now) }
    {
        let Ok(text) = str::from_utf8(pattern) else {
            return Ok(None);
        };
        match Glob::parse(alloc, text) {
            Ok(glob) => Ok(Some(glob)),
            Err(GlobFault::OpenSet { .. }) => Ok(None),
            Err(GlobFault::NoMemory) => Err(NoMemory),
        }
    }

    /// Whether the text can be cut into parts that fit the items, one part for each. It takes no memory, and time of at
    /// most the product of both lengths.
    pub fn matches(&self, path: &str) -> bool
        ensures cut { IsTrue result ↔ IsMatch self.now (chars path.now) }
        ensures exact { result ≡ glob_matches self.now (chars path.now) }
    {
        items_match(&self.items, path)
    }

    /// Whether the bytes of a path match; a path that isn't UTF-8 matches no glob (own). It takes no memory.
    pub fn matches_path(&self, path: &[u8]) -> bool
        ensures { result ≡ matches_path self.now path.now }
    {
        match str::from_utf8(path) {
            Ok(text) => self.matches(text),
            Err(_) => false,
        }
    }
}
