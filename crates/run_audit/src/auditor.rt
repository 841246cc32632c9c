//! The auditor of a run.
ghost use Rattle.std.specs.Prelude.{◌≡◌, ◌<◌, ◌+◌, ◌^◌, Some, length, option_copied, option_map, slice_get, IfErr, IfOk, OnErr, OnOk};
ghost use Rattle.annex_base.specs.Lists.{Each};
ghost use Rattle.run_data.specs.Repos.{IsSetUp};
ghost use Rattle.run_data.specs.declared.run.Run.{Run};
ghost use Rattle.audit_laws.specs.Proofs.{proof_after};
ghost use Rattle.step_rules.specs.Runs.{start_of, with_entry};
ghost use Rattle.step_rules.specs.States.{TellsOf, taken_by};
ghost use Rattle.step_rules.specs.Trees.{AreInOrder};
ghost use Rattle.run_audit.specs.Audited.{AreKeysOf, IsAuditing, IsAuditorOf};
ghost use Rattle.run_audit.specs.Telling.{ordered_by, ordered_on, removed_by, removed_for, taken_proof};

use crate::evidence::proof_of_job;
use crate::key_audit::KeyAudit;
use crate::orders::{OrderName, Ordered, Orders, name_sent, name_taken};
use crate::records::Records;
use annex_base::NoMemory;
use audit_laws::{
    orders_are_kept_by_their_frames, orders_tell_their_evidence, removals_take_their_orders,
    removals_tell_their_evidence,
};
use run_data::{By, Entry, EntryKind, FrameView, Proof, RepoView, Run};
use run_laws::carried_states_agree;
use std::alloc::Global;
use step_judging::{audits_tell, rules_decide};
use step_rules::{RunState, Wanted, starts_of_runs_break_no_rule};

/// A run after entries of it: its state, the orders of removals that were sent, and what is kept of each key (own).
#[derive(Drop)]
pub struct Auditor<'a> {
    alloc: Global,
    repos: &'a [RepoView],
    state: RunState<'a>,
    orders: Orders,
    records: Records,
}

impl<'a> Auditor<'a> {
    /// Before the first entry of a run of these repositories and these changes of the tree.
    pub fn new(alloc: Global, run: &'a Run) -> Result<Auditor<'a>, NoMemory>
        requires many { length run.now.repos < 2 ^ 32 }
        requires set_up { Each IsSetUp run.now.repos }
        requires tree { AreInOrder 0 run.now.tree }
        ensures after { IfOk result (λ x. IsAuditorOf x (start_of run.now 0)) }
        ensures carried { IfOk result IsAuditing }
        ensures taken { IfOk result (λ x. taken_by x.state ≡ 0) }
    {
        let repos = run.repos.as_slice();
        Ok(Auditor {
            alloc,
            repos,
            state: RunState::start(alloc, run)?,
            orders: Orders::new(alloc),
            records: Records::new(alloc, repos.len()),
        })
    }

    /// Takes the next entry, if it is permitted after those that were taken; else it tells the first rule that the entry breaks, and
    /// the row that it found. A refusal leaves the auditor that it was. It does what `RunState::take` does, and goes over the
    /// repositories where the entry gains or removes a key; the entries that were taken don't count.
    pub fn take(&mut self, entry: &Entry) -> Result<(), Wanted>
        requires carried { IsAuditing self.old }
        requires few { taken_by self.old.state + 1 < 2 ^ 32 }
        requires sent { length entry.now.sent + 1 < 2 ^ 64 }
        ensures ok { OnOk result ((run : Run) → IsAuditorOf self.old run → IsAuditorOf self.new (with_entry run entry.now)) }
        ensures wanted { IfErr result (λ w. (run : Run) → IsAuditorOf self.old run → TellsOf run entry.now w) }
        ensures same { OnErr result ((run : Run) → IsAuditorOf self.old run → IsAuditorOf self.new run) }
        ensures carried { IsAuditing self.new }
        ensures taken { OnOk result (taken_by self.new.state ≡ taken_by self.old.state + 1) }
    {
        match entry.repo {
            Some(repo) => self.take_of(repo, entry),
            None => {
                self.state.take(entry)?;
                Ok(())
            }
        }
    }

    fn take_of(&mut self, repo: u32, entry: &Entry) -> Result<(), Wanted>
        requires own { entry.now.repo ≡ Some repo }
        requires carried { IsAuditing self.old }
        requires few { taken_by self.old.state + 1 < 2 ^ 32 }
        requires sent { length entry.now.sent + 1 < 2 ^ 64 }
        ensures ok { OnOk result ((run : Run) → IsAuditorOf self.old run → IsAuditorOf self.new (with_entry run entry.now)) }
        ensures wanted { IfErr result (λ w. (run : Run) → IsAuditorOf self.old run → TellsOf run entry.now w) }
        ensures same { OnErr result ((run : Run) → IsAuditorOf self.old run → IsAuditorOf self.new run) }
        ensures carried { IsAuditing self.new }
        ensures taken { OnOk result (taken_by self.new.state ≡ taken_by self.old.state + 1) }
    {
        // Laws, for the proof: an entry that was taken breaks no rule, and so may come; what its drop knew is what is kept.
        starts_of_runs_break_no_rule();
        rules_decide();
        removals_tell_their_evidence();
        removals_take_their_orders();
        orders_tell_their_evidence();
        orders_are_kept_by_their_frames();
        let ordered = self.order(repo, entry)?;
        let proof = self.proof(repo, entry)?;
        self.records.ready(&entry.kind)?;
        self.orders.reserve()?;
        self.state.take(entry)?;
        self.records.note(repo, &entry.kind, &proof);
        self.orders.keep(ordered);
        Ok(())
    }

    /// The need and the evidence of the drop of a job of this repository, before the entry.
    fn proof_of(&self, repo: u32, job: u32, entry: &Entry) -> Result<Option<Proof>, NoMemory>
        requires carried { IsAuditing self.now }
        requires few { taken_by self.now.state + 1 < 2 ^ 32 }
        ensures { IfOk result (λ p. (run : Run) → IsAuditorOf self.now run → p ≡ proof_after run repo job) }
    {
        // A law, for the proof: what is carried has the jobs of the entries so far.
        carried_states_agree();
        match self.state.repo(repo) {
            Some(state) => {
                let paths = self.state.paths(repo, job);
                proof_of_job(self.alloc, self.repos, state, paths, job, entry)
            }
            None => Ok(None),
        }
    }

    /// The order that an entry of this repository sends, if it is one.
    fn order(&self, repo: u32, entry: &Entry) -> Result<Option<Ordered>, NoMemory>
        requires carried { IsAuditing self.now }
        requires few { taken_by self.now.state + 1 < 2 ^ 32 }
        ensures { IfOk result (λ ordered. (run : Run) → IsAuditorOf self.now run → ordered ≡ ordered_by run repo entry.now entry.now.kind) }
    {
        match &entry.kind {
            EntryKind::Order { job, .. } => self.order_of(repo, *job, entry),
            _ => Ok(None),
        }
    }

    /// The order of a job by the first frame that the entry sends, if the job runs.
    fn order_of(&self, repo: u32, job: u32, entry: &Entry) -> Result<Option<Ordered>, NoMemory>
        requires carried { IsAuditing self.now }
        requires few { taken_by self.now.state + 1 < 2 ^ 32 }
        ensures { IfOk result (λ ordered. (run : Run) → IsAuditorOf self.now run → ordered ≡ ordered_on repo (slice_get entry.now.sent 0) (proof_after run repo job)) }
    {
        match first_of(entry.sent.as_slice()) {
            Some(frame) => {
                let proof = self.proof_of(repo, job, entry)?;
                Ok(ordered_as(name_sent(repo, frame), proof))
            }
            None => Ok(None),
        }
    }

    /// The need and the evidence of the drop whose removal an entry of this repository is, if it is one.
    fn proof(&self, repo: u32, entry: &Entry) -> Result<Option<Proof>, NoMemory>
        requires carried { IsAuditing self.now }
        requires few { taken_by self.now.state + 1 < 2 ^ 32 }
        ensures { IfOk result (λ p. (run : Run) → IsAuditorOf self.now run → p ≡ removed_by run self.now.orders repo entry.now entry.now.kind) }
    {
        match &entry.kind {
            EntryKind::Gone { by, .. } => self.proof_by(repo, by, entry),
            _ => Ok(None),
        }
    }

    /// For a job's removal those that the job has, and for one that a peer ordered those that are kept for the order.
    fn proof_by(&self, repo: u32, by: &By, entry: &Entry) -> Result<Option<Proof>, NoMemory>
        requires carried { IsAuditing self.now }
        requires few { taken_by self.now.state + 1 < 2 ^ 32 }
        ensures { IfOk result (λ p. (run : Run) → IsAuditorOf self.now run → p ≡ removed_for run self.now.orders repo entry.now.taken by.now) }
    {
        match by {
            By::Job(job) => self.proof_of(repo, *job, entry),
            By::Peer { .. } => self.ordered(repo, &entry.taken),
            By::Script => Ok(None),
        }
    }

    /// What is kept for the order that this repository takes.
    fn ordered(&self, repo: u32, taken: &Option<FrameView>) -> Result<Option<Proof>, NoMemory>
        ensures { IfOk result (λ p. p ≡ taken_proof self.now.orders repo taken.now) }
    {
        match taken {
            Some(frame) => copy_of(self.orders.proof(name_taken(repo, frame))),
            None => Ok(None),
        }
    }

    /// Each key with a removal, in byte order of the keys' texts. It goes once over the keys.
    pub fn keys(&self) -> Result<Vec<KeyAudit>, NoMemory>
        requires carried { IsAuditing self.now }
        ensures { IfOk result (λ keys. (run : Run) → IsAuditorOf self.now run → AreKeysOf run keys.items) }
    {
        // A law, for the proof: a key with a removal has a least count and a least need.
        audits_tell();
        self.records.told(self.alloc)
    }
}

fn first_of(frames: &[FrameView]) -> Option<&FrameView>
    ensures { option_copied result ≡ slice_get frames.now 0 }
{
    frames.first()
}

fn ordered_as(name: OrderName, proof: Option<Proof>) -> Option<Ordered>
    ensures { result ≡ option_map (λ p. record { name = name; proof = p }) proof }
{
    match proof {
        Some(proof) => Some(Ordered { name, proof }),
        None => None,
    }
}

fn copy_of(proof: Option<&Proof>) -> Result<Option<Proof>, NoMemory>
    ensures { IfOk result (λ copy. copy ≡ option_copied proof.entry) }
{
    match proof {
        Some(proof) => Ok(Some(copy(proof)?)),
        None => Ok(None),
    }
}

fn copy(proof: &Proof) -> Result<Proof, NoMemory>
    ensures { IfOk result (λ copy. copy ≡ proof.now) }
{
    Ok(Proof {
        need: proof.need,
        locked: proof.locked.clone()?,
        trusted: proof.trusted.clone()?,
        recent: proof.recent.clone()?,
    })
}
