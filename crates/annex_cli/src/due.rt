//! What is due for the bytes of a script.

ghost use Rattle.std.specs.Prelude.{IfOk, OnOk, ◌≡◌, ◌≤◌, None, length};
ghost use Rattle.script_lang.specs.Script.{reading, Commands};
ghost use Rattle.driver_script.specs.Lines.{first_unbuilt};
ghost use Rattle.script_answers.specs.declared.status.Status.{Status};
ghost use Rattle.script_answers.specs.Whole.{script_limit};
ghost use Rattle.script_answers.specs.Top.{IsCutReport, IsDue, HasGoodRun};

use crate::runs::run_script;
use annex_base::NoMemory;
use driver_script::{first_missing, scripts_may_be_driven};
use script_answers::{Due, SCRIPT_LIMIT, complaint_due, limit_due, missing_due, report_due};
use script_lang::{Script, ScriptFault, commands_stand, scripts_have_few_lines};
use std::alloc::Global;
use std::thread::Threads;

/// What is due for these bytes.
pub fn due_text<R: Threads + Sync>(rt: &R, alloc: Global, bytes: &[u8]) -> Result<Due, NoMemory>
    ensures due { IfOk result (λ d. IsDue bytes.now d.status d.text.items) }
    ensures good { IfOk result (λ d. d.status ≡ Status.Done → HasGoodRun bytes.now) }
    ensures good_start { IfOk result (λ d. IsCutReport bytes.now d.text.items → HasGoodRun bytes.now) }
{
    if bytes.len() > SCRIPT_LIMIT {
        return limit_due(alloc, "script", SCRIPT_LIMIT as u64);
    }
    match Script::parse(alloc, bytes) {
        Ok(script) => script_due(rt, alloc, bytes, &script),
        Err(ScriptFault::BadLine { line, byte }) => complaint_due(alloc, line, byte),
        Err(ScriptFault::TooMuch { quantity }) => {
            limit_due(alloc, quantity.name(), quantity.limit())
        }
        Err(ScriptFault::NoMemory) => Err(NoMemory),
    }
}

/// What is due for a script: the report of its run, where all its forms are built, or else the line that names the first
/// that isn't.
fn script_due<R: Threads + Sync>(
    rt: &R,
    alloc: Global,
    bytes: &[u8],
    script: &Script,
) -> Result<Due, NoMemory>
    requires short { length bytes.now ≤ script_limit }
    requires says { reading bytes.now ≡ Commands script.now }
    ensures due { IfOk result (λ d. IsDue bytes.now d.status d.text.items) }
    ensures good { OnOk result (HasGoodRun bytes.now) }
{
    let commands = script.lines();
    match first_missing(commands) {
        None => run_due(rt, alloc, bytes, script),
        Some(place) => missing_due(alloc, bytes, script, place),
    }
}

/// The report of the run of a script.
fn run_due<R: Threads + Sync>(
    rt: &R,
    alloc: Global,
    bytes: &[u8],
    script: &Script,
) -> Result<Due, NoMemory>
    requires short { length bytes.now ≤ script_limit }
    requires says { reading bytes.now ≡ Commands script.now }
    requires built { first_unbuilt script.now ≡ None }
    ensures due { IfOk result (λ d. IsDue bytes.now d.status d.text.items) }
    ensures good { OnOk result (HasGoodRun bytes.now) }
{
    // Laws, for the proof that the script may be run.
    commands_stand();
    scripts_may_be_driven();
    scripts_have_few_lines();
    let ran = run_script(rt, alloc, script)?;
    report_due(alloc, bytes, script, &ran)
}
