//! The repositories that have a key, or whose claims of it count.
ghost use Rattle.std.specs.Prelude.{◌≡◌, ◌<◌, ◌^◌, ◌==◌, ◌||◌, ℕ, count_by, if◌then◌else◌, length, set, slice_get, IfOk};
ghost use Rattle.std.specs.List.{list_any};
ghost use Rattle.run_audit.specs.Holders.{AreNone, holder_at, is_held};

use annex_base::NoMemory;
use std::alloc::Global;

/// Whether a repository has a copy of the key, and whether a drop of it counted its claim (own).
#[derive(Clone, Copy, Debug, PartialEq, Eq)]
pub struct Holder {
    pub copy: bool,
    pub claim: bool,
}

/// That of each repository of a run, by its number (own).
#[derive(Drop)]
pub struct Holders {
    pub each: Vec<Holder>,
}

/// Whether it has a copy or a claim.
fn is_held(holder: &Holder) -> bool
    ensures { result ≡ is_held holder.now }
{
    holder.copy || holder.claim
}

impl Holders {
    /// So many repositories have none.
    pub(crate) fn new(alloc: Global, repos: usize) -> Result<Holders, NoMemory>
        ensures { IfOk result (AreNone repos) }
    {
        let none = Holder {
            copy: false,
            claim: false,
        };
        Ok(Holders {
            each: vec![in alloc; none; repos]?,
        })
    }

    fn get(&self, repo: u32) -> Option<Holder>
        ensures { result ≡ slice_get self.now.each.items repo }
    {
        self.each.get(repo as usize).copied()
    }

    fn set(&mut self, repo: u32, holder: Holder)
        requires { repo < length self.old.each.items }
        ensures { self.new.each.items ≡ set self.old.each.items repo holder }
    {
        self.each[repo as usize] = holder;
    }

    /// The repository has a copy from now on, or has none; nothing changes where it isn't one of the run.
    pub(crate) fn hold(&mut self, repo: u32, copy: bool)
        ensures all { length self.new.each.items ≡ length self.old.each.items }
        ensures each { (r : ℕ) → r < length self.old.each.items
            → holder_at self.new.each.items r ≡ record (holder_at self.old.each.items r) { copy = if repo == r then copy else (holder_at self.old.each.items r).copy } }
    {
        match self.get(repo) {
            Some(holder) => {
                let claim = holder.claim;
                self.set(repo, Holder { copy, claim });
            }
            None => {}
        }
    }

    fn claim(&mut self, repo: u32)
        ensures all { length self.new.each.items ≡ length self.old.each.items }
        ensures each { (r : ℕ) → r < length self.old.each.items → holder_at self.new.each.items r ≡ record (holder_at self.old.each.items r) { claim = (holder_at self.old.each.items r).claim || (repo == r) } }
    {
        match self.get(repo) {
            Some(holder) => {
                let copy = holder.copy;
                self.set(repo, Holder { copy, claim: true });
            }
            None => {}
        }
    }

    /// A drop counted the claims of these.
    pub(crate) fn claim_all(&mut self, repos: &[u32])
        ensures all { length self.new.each.items ≡ length self.old.each.items }
        ensures each { (r : ℕ) → r < length self.old.each.items
            → holder_at self.new.each.items r ≡ record (holder_at self.old.each.items r) { claim = (holder_at self.old.each.items r).claim || list_any (λ c. c == r) repos.now } }
    {
        for repo in repos {
            self.claim(*repo);
        }
    }

    fn held(&self) -> usize
        ensures { result ≡ count_by is_held self.now.each.items }
    {
        self.each.iter().filter(|holder| is_held(holder)).count()
    }

    /// How many of them have a copy or a claim.
    pub(crate) fn count(&self) -> u32
        requires { length self.now.each.items < 2 ^ 32 }
        ensures { result ≡ count_by is_held self.now.each.items }
    {
        let held = self.held();
        held as u32
    }
}
