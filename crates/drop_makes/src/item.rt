//! The evidence of a drop, item by item.
ghost use Rattle.std.specs.Prelude.{◌≡◌};
ghost use Rattle.drop_proof.specs.Judging.{end_of_kind, is_full_kind};
ghost use Rattle.drop_makes.specs.Items.{kind_of};

use std::marker::Model;

/// What a repository gave a drop (git-annex-numcopies, git-annex-mincopies): a hold that ends then, in milliseconds on the clock of
/// the drop's repository; the claim of a trusted repository; or an answer that it has the content.
#[derive(Clone, Copy, Debug)]
pub enum Given {
    Locked { end: u128 },
    Trusted,
    Recent,
}

/// What one repository gave.
#[derive(Debug, Drop)]
pub struct Item {
    repo: u32,
    kind: Given,
}

impl Model for Item {
    ghost use Rattle.drop_proof.specs.declared.evidence.Evidence.{Evidence};
    ghost use Rattle.drop_makes.specs.Items.{kind_of};

    ghost Value = { Evidence };

    ghost view = { λ i. record { repo = i.repo; kind = kind_of i.kind } };
}

impl Item {
    pub(crate) fn new(repo: u32, kind: Given) -> Item
        ensures { result ≡ record { repo = repo; kind = kind_of kind } }
    {
        Item { repo, kind }
    }

    pub(crate) fn repo(&self) -> u32
        ensures { result ≡ self.now.repo }
    {
        self.repo
    }

    pub(crate) fn kind(&self) -> Given
        ensures { kind_of result ≡ self.now.kind }
    {
        self.kind
    }
}

/// Whether such a copy counts towards mincopies of each drop.
pub(crate) fn is_full(kind: Given) -> bool
    ensures { result ≡ is_full_kind (kind_of kind) }
{
    match kind {
        Given::Locked { .. } | Given::Trusted => true,
        Given::Recent => false,
    }
}

/// The end of a hold.
pub(crate) fn end_of(kind: Given) -> Option<u128>
    ensures { result ≡ end_of_kind (kind_of kind) }
{
    match kind {
        Given::Locked { end } => Some(end),
        Given::Trusted | Given::Recent => None,
    }
}
