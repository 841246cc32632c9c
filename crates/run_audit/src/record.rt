//! What is kept of one key.
ghost use Rattle.std.specs.Prelude.{◌≡◌, ◌<◌, ◌+◌, ◌^◌, Some, count_by, length, IfOk};
ghost use Rattle.run_model.specs.Safety.{smaller};
ghost use Rattle.step_judging.specs.Audits.{with_count};
ghost use Rattle.run_audit.specs.Changes.{ClaimsHolders, IsChanged, IsNew, claims_of, removed_by};
ghost use Rattle.run_audit.specs.Holders.{is_held};
ghost use Rattle.run_audit.specs.Records.{audit_in};

use crate::holders::Holders;
use annex_base::NoMemory;
use run_data::Proof;
use std::alloc::Global;

/// Of one key its removals, the fewest copies and claims since the first of them, the least mincopies that their drops read, and the
/// repositories that have a copy or a claim (own).
#[derive(Drop)]
pub struct KeyRecord {
    pub removals: u32,
    pub least: Option<u32>,
    pub need: Option<u32>,
    pub holders: Holders,
}

fn smaller(one: u32, other: Option<u32>) -> u32
    ensures { result ≡ smaller one other }
{
    match other {
        Some(other) => one.min(other),
        None => one,
    }
}

impl KeyRecord {
    /// The record of a key that no entry has changed, among so many repositories.
    pub(crate) fn new(alloc: Global, repos: usize) -> Result<KeyRecord, NoMemory>
        ensures { IfOk result (IsNew repos) }
    {
        Ok(KeyRecord {
            removals: 0,
            least: None,
            need: None,
            holders: Holders::new(alloc, repos)?,
        })
    }

    /// A repository has a copy from now on, or has none; where a drop removed it, this is the drop's need and evidence.
    pub(crate) fn change(&mut self, repo: u32, copy: bool, proof: &Option<Proof>)
        requires few { self.old.removals + 1 < 2 ^ 32 }
        requires many { length self.old.holders.each.items < 2 ^ 32 }
        ensures { IsChanged repo copy proof.now self.old self.new }
    {
        self.holders.hold(repo, copy);
        self.remove_if(proof);
        self.count();
    }

    fn remove_if(&mut self, proof: &Option<Proof>)
        requires few { self.old.removals + 1 < 2 ^ 32 }
        ensures audit { audit_in self.new ≡ removed_by proof.now (audit_in self.old) }
        ensures holders { ClaimsHolders (claims_of proof.now) self.old.holders.each.items self.new.holders.each.items }
    {
        match proof {
            Some(proof) => self.remove(proof),
            None => {}
        }
    }

    /// A drop with this need and evidence has removed a copy.
    fn remove(&mut self, proof: &Proof)
        requires few { self.old.removals + 1 < 2 ^ 32 }
        ensures audit { audit_in self.new ≡ removed_by (Some proof.now) (audit_in self.old) }
        ensures holders { ClaimsHolders (claims_of (Some proof.now)) self.old.holders.each.items self.new.holders.each.items }
    {
        self.holders.claim_all(proof.trusted.as_slice());
        self.removals += 1;
        self.need = Some(smaller(proof.need.m, self.need));
    }

    /// Counts the copies and claims, once there is a removal.
    fn count(&mut self)
        requires { length self.old.holders.each.items < 2 ^ 32 }
        ensures holders { self.new.holders ≡ self.old.holders }
        ensures audit { audit_in self.new ≡ with_count (count_by is_held self.old.holders.each.items) (audit_in self.old) }
    {
        if self.removals == 0 {
            return;
        }
        self.least = Some(smaller(self.holders.count(), self.least));
    }
}
