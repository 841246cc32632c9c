//! The list of a repository's groups.

ghost use Rattle.std.specs.Prelude.{◌≡◌, List, ℕ, [], ◌∷◌, ◌++◌, OnOk, OnErr};

use annex_base::{NoMemory, Text};
use std::alloc::Global;
use std::marker::Model;

/// The groups of a repository as a line of group.log has them: in its order, doubled names kept.
#[derive(Clone, Debug, Drop)]
pub struct GroupList {
    names: Vec<Text>,
}

impl Model for GroupList {
    ghost Value = { List (List ℕ) };

    ghost view = { λ g. g.names.items };
}

impl GroupList {
    /// No group.
    pub fn new(alloc: Global) -> GroupList
        ensures { result ≡ [] }
    {
        GroupList {
            names: Vec::new(alloc),
        }
    }

    /// The names in order.
    pub fn as_slice(&self) -> &[Text]
        ensures { result.now ≡ self.now }
    {
        &self.names
    }

    /// Adds a name at the end.
    pub fn push(&mut self, name: Text) -> Result<(), NoMemory>
        ensures ok { OnOk result (self.new ≡ self.old ++ name ∷ []) }
        ensures err { OnErr result (self.new ≡ self.old) }
    {
        self.names.push(name)?;
        Ok(())
    }
}

impl PartialEq for GroupList {
    ghost use Rattle.std.specs.Prelude.{◌==◌};
    ghost use Rattle.std.specs.Cmp.Lexicographic.{pointwise};
    ghost use Rattle.std.specs.Cmp.Rules.{comparing};
    ghost use Rattle.std.proofs.Common.{rules};

    ghost eq = { pointwise (pointwise ◌==◌) };

    ghost laws = { Prim.search (comparing, rules) };

    fn eq(&self, other: &GroupList) -> bool {
        self.names == other.names
    }
}

impl Eq for GroupList {
    ghost use Rattle.std.specs.Cmp.Rules.{comparing};
    ghost use Rattle.std.proofs.Common.{rules};

    ghost laws = { Prim.search (comparing, rules) };
}
