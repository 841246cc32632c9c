//! What is due for the bytes of a journal.
ghost use Rattle.std.specs.Prelude.{◌≡◌, ◌<◌, ◌≤◌, ◌+◌, ◌^◌, None, length, IfOk};
ghost use Rattle.annex_base.specs.Lists.{Each};
ghost use Rattle.run_data.specs.declared.run.Run.{Run};
ghost use Rattle.journal_reading.specs.WellFormed.{IsJournal};
ghost use Rattle.script_answers.specs.declared.status.Status.{Status};
ghost use Rattle.step_rules.specs.Runs.{start_of};
ghost use Rattle.step_rules.specs.States.{taken_by};
ghost use Rattle.run_audit.specs.Audited.{IsAuditing, IsAuditorOf};
ghost use Rattle.audit_answers.specs.Due.{HasGoodJournal, HasTaken, IsAuditDue, TakesOne, TellsKeys, input_limit};
ghost use Rattle.audit_answers.specs.Texts.{refusal_text};

use crate::texts::{audit_text, outside_text, refusal_text};
use annex_base::NoMemory;
use cause_laws::refusals_have_causes;
use journal_reader::{JournalFault, read_journal};
use journal_reading::texts_read_as_their_runs;
use race_core::runs_keep_copies;
use run_audit::Auditor;
use run_data::{Entry, RowView, Run};
use run_laws::runs_are_safe;
use script_answers::{Due, Status, limit_due};
use std::alloc::Global;
use step_judging::audited_runs_keep_enough;
use step_rules::Wanted;

/// The greatest number of bytes of a journal.
pub const INPUT_LIMIT: usize = 67_108_864;

/// What is due for these bytes.
pub fn audit_due(alloc: Global, bytes: &[u8]) -> Result<Due, NoMemory>
    ensures due { IfOk result (λ d. IsAuditDue bytes.now d.status d.text.items) }
    ensures good { IfOk result (λ d. d.status ≡ Status.Done → HasGoodJournal bytes.now) }
{
    // A law, for the proof: a text is the journal of at most one run.
    texts_read_as_their_runs();
    if bytes.len() > INPUT_LIMIT {
        return limit_due(alloc, "input", INPUT_LIMIT as u64);
    }
    match read_journal(alloc, bytes) {
        Ok(run) => run_due(alloc, bytes, &run),
        Err(JournalFault::BadLine { line }) => Ok(Due {
            status: Status::Input,
            text: outside_text(alloc, line)?,
        }),
        Err(JournalFault::NoMemory) => Err(NoMemory),
    }
}

/// What is due for the journal of these repositories and entries.
fn run_due(alloc: Global, _bytes: &[u8], run: &Run) -> Result<Due, NoMemory>
    requires short { length _bytes.now ≤ input_limit }
    requires journal { IsJournal _bytes.now run.now }
    ensures due { IfOk result (λ d. IsAuditDue _bytes.now d.status d.text.items) }
    ensures good { IfOk result (λ d. d.status ≡ Status.Done → HasGoodJournal _bytes.now) }
{
    // Laws, for the proof: a text is the journal of at most one run; a run is good, and keeps enough of each key.
    texts_read_as_their_runs();
    runs_keep_copies();
    runs_are_safe();
    refusals_have_causes();
    audited_runs_keep_enough();
    let mut auditor = Auditor::new(alloc, run)?;
    let refusal = take_all(&mut auditor, run)?;
    match refusal {
        Some(refusal) => refused_due(alloc, &refusal),
        None => audited_due(alloc, &auditor, run.entries.as_slice().len() as u64),
    }
}

/// The first entry of a run that isn't permitted: how many stand before it, the rule that it breaks, and the row that it found.
#[derive(Drop)]
pub struct Refusal {
    pub place: u64,
    pub rule: u32,
    pub found: RowView,
}

/// Takes all entries of the run, up to the first that isn't permitted.
fn take_all(auditor: &mut Auditor, run: &Run) -> Result<Option<Refusal>, NoMemory>
    requires carried { IsAuditing auditor.old }
    requires first { IsAuditorOf auditor.old (start_of run.now 0) }
    requires none { taken_by auditor.old.state ≡ 0 }
    requires few { length run.now.entries < 2 ^ 32 }
    requires sent { Each (λ e. length e.sent + 1 < 2 ^ 64) run.now.entries }
    ensures taken { IfOk result (λ refusal. HasTaken run.now auditor.new refusal) }
    ensures carried { IsAuditing auditor.new }
{
    let mut place: u64 = 0;
    for entry in run.entries.as_slice() {
        let refusal = take(auditor, entry, place)?;
        if refusal.is_some() {
            return Ok(refusal);
        }
        place += 1;
    }
    Ok(None)
}

/// Takes an entry, or tells why it isn't permitted.
fn take(auditor: &mut Auditor, entry: &Entry, place: u64) -> Result<Option<Refusal>, NoMemory>
    requires carried { IsAuditing auditor.old }
    requires few { taken_by auditor.old.state + 1 < 2 ^ 32 }
    requires sent { length entry.now.sent + 1 < 2 ^ 64 }
    ensures taken { IfOk result (λ refusal. (run : Run) → IsAuditorOf auditor.old run → TakesOne run entry.now place auditor.new refusal) }
    ensures count { IfOk result (λ refusal. refusal ≡ None → taken_by auditor.new.state ≡ taken_by auditor.old.state + 1) }
    ensures carried { IsAuditing auditor.new }
{
    match auditor.take(entry) {
        Ok(()) => Ok(None),
        Err(Wanted::Broken { rule, found }) => Ok(Some(Refusal { place, rule, found })),
        Err(Wanted::NoMemory) => Err(NoMemory),
    }
}

/// What is due where each entry is permitted.
fn audited_due(alloc: Global, auditor: &Auditor, entries: u64) -> Result<Due, NoMemory>
    requires carried { IsAuditing auditor.now }
    ensures { IfOk result (λ d. (d.status ≡ Status.Done) × ((run : Run) → IsAuditorOf auditor.now run → TellsKeys run entries d.text.items)) }
{
    let keys = auditor.keys()?;
    // No run of fewer than 2^32 entries removes so many keys.
    if keys.len() > u32::MAX as usize {
        return Err(NoMemory);
    }
    Ok(Due {
        status: Status::Done,
        text: audit_text(alloc, &keys, entries)?,
    })
}

fn refused_due(alloc: Global, refusal: &Refusal) -> Result<Due, NoMemory>
    requires { refusal.now.place + 1 < 2 ^ 64 }
    ensures { IfOk result (λ d. (d.status ≡ Status.NotARun) × (d.text.items ≡ refusal_text (refusal.now.place + 1) refusal.now.rule refusal.now.found)) }
{
    Ok(Due {
        status: Status::NotARun,
        text: refusal_text(alloc, refusal.place + 1, refusal.rule, &refusal.found)?,
    })
}
