//! What a repository said of a content.
/// What a repository answered about a content, and so how far its copy is relied on
/// (git-annex-numcopies, git-annex-mincopies; the three kinds are own).
#[derive(Debug, Clone, Copy, PartialEq, Eq, PartialOrd, Ord)]
pub enum Kind {
    /// A hold on the content. It ends at `end`, in milliseconds on the clock of the job that drops.
    Locked { end: u64 },
    /// The claim of a trusted repository, not verified.
    Trusted,
    /// An answer that the repository has the content, with no lock on it.
    Recent,
}

/// An item of the evidence: what one repository, by its number, answered.
#[derive(Debug, Clone, Copy, PartialEq, Eq, PartialOrd, Ord)]
pub struct Evidence {
    pub repo: u32,
    pub kind: Kind,
}

impl Kind {
    ghost use Rattle.std.specs.Prelude.{◌≡◌};
    ghost use Rattle.drop_proof.specs.Judging.{is_full_kind, end_of_kind};

    /// Whether a copy of this kind counts towards mincopies: one that is locked or trusted.
    pub fn is_full(self) -> bool
        ensures { result ≡ is_full_kind self }
    {
        match self {
            Kind::Locked { .. } | Kind::Trusted => true,
            Kind::Recent => false,
        }
    }

    /// The end of a hold, in milliseconds on the clock of the job that drops.
    pub fn end(self) -> Option<u64>
        ensures { result ≡ end_of_kind self }
    {
        match self {
            Kind::Locked { end } => Some(end),
            Kind::Trusted | Kind::Recent => None,
        }
    }
}
