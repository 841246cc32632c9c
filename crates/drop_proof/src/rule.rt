//! Whether what was said is enough to drop a copy.
ghost use Rattle.std.specs.Prelude.{◌≡◌, ◌<◌, ◌^◌, ◌↔◌, ℕ, List, [], Option, true, false, max, length, count_by};
ghost use Rattle.drop_proof.specs.Judging.{is_full, is_enough, full_needed, MeetsRule, ends, least_end, IsFirstEnd, judgement};

use crate::evidence::Evidence;

/// The numbers of copies that must stay in other repositories: `n` is numcopies and `m` is mincopies.
#[derive(Debug, Clone, Copy, PartialEq, Eq, PartialOrd, Ord)]
pub struct Need {
    pub n: u32,
    pub m: u32,
}

/// Where a copy is dropped, seen from the repository that runs the drop: from itself, or from a peer (own).
#[derive(Debug, Clone, Copy, PartialEq, Eq, PartialOrd, Ord)]
pub enum Side {
    Local,
    Remote,
}

/// What the evidence comes to.
#[derive(Debug, Clone, Copy, PartialEq, Eq, PartialOrd, Ord)]
pub enum Judged {
    /// There is enough. `end` is when the first of its holds ends, in milliseconds on the clock of the job that
    /// drops; `None` where it has no hold.
    Enough {
        end: Option<u64>,
    },
    /// There is too little: `counted` items where `needed` are, or `full` that are locked or trusted where
    /// `full_needed` are.
    Lacking {
        counted: u32,
        needed: u32,
        full: u32,
        full_needed: u32,
    },
}

/// Judges whether this evidence is enough to drop a copy (git-annex-numcopies, git-annex-mincopies). It is where it has
/// max(numcopies, mincopies) items and, for a remote drop, mincopies of them are locked or trusted (the split is own).
/// The caller sees to it that it has at most one item for each repository.
pub fn judge(evidence: &[Evidence], need: Need, side: Side) -> Judged
    requires { length evidence.now < 2 ^ 32 }
    ensures exact { result ≡ judgement side need evidence.now }

    // there is enough exactly where the rule is met
    ensures rule { (result ≡ Judged.Enough (least_end evidence.now)) ↔ MeetsRule side need evidence.now }
    ensures enough { (end : Option ℕ) → result ≡ Judged.Enough end → is_enough side need evidence.now ≡ true }
    ensures when_enough { is_enough side need evidence.now ≡ true → result ≡ Judged.Enough (least_end evidence.now) }

    // the end is that of the first hold that ends
    ensures held { (end : ℕ) → result ≡ Judged.Enough (Some end) → IsFirstEnd evidence.now end }
    ensures no_hold { result ≡ Judged.Enough None → ends evidence.now ≡ [] }

    // what is lacking is told in full
    ensures lacking { (counted needed full full_asked : ℕ) → result ≡ Judged.Lacking counted needed full full_asked
        → (is_enough side need evidence.now ≡ false) × (counted ≡ length evidence.now) × (needed ≡ max need.n need.m)
        × (full ≡ count_by is_full evidence.now) × (full_asked ≡ full_needed side need) }
    ensures when_lacking { is_enough side need evidence.now ≡ false → result ≡ Judged.Lacking
        (length evidence.now) (max need.n need.m) (count_by is_full evidence.now) (full_needed side need) }
{
    let counted = evidence.len() as u32;
    let full = full_count(evidence);
    let needed = needed_count(need);
    let full_needed = full_needed_count(need, side);
    if counted >= needed && full >= full_needed {
        Judged::Enough {
            end: first_end(evidence),
        }
    } else {
        Judged::Lacking {
            counted,
            needed,
            full,
            full_needed,
        }
    }
}

fn needed_count(need: Need) -> u32
    ensures { result ≡ max need.n need.m }
{
    need.n.max(need.m)
}

fn full_needed_count(need: Need, side: Side) -> u32
    ensures { result ≡ full_needed side need }
{
    match side {
        Side::Local => 0,
        Side::Remote => need.m,
    }
}

fn full_count(evidence: &[Evidence]) -> u32
    requires { length evidence.now < 2 ^ 32 }
    ensures { result ≡ count_by is_full evidence.now }
{
    evidence.iter().filter(|item| item.kind.is_full()).count() as u32
}

fn first_end(evidence: &[Evidence]) -> Option<u64>
    ensures { result ≡ least_end evidence.now }
{
    evidence.iter().filter_map(|item| item.kind.end()).min()
}
