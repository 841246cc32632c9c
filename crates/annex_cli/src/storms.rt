//! What is due for a storm.

ghost use Rattle.std.specs.Prelude.{IfOk, ◌≡◌, ◌≤◌, None, length};
ghost use Rattle.script_lang.specs.Script.{reading, Commands, IsFault};
ghost use Rattle.driver_script.specs.Lines.{first_unbuilt};
ghost use Rattle.storm_script.specs.Storm.{storm_text};
ghost use Rattle.script_answers.specs.Storms.{IsStormAnswer};
ghost use Rattle.script_answers.specs.Whole.{script_limit};

use crate::runs::run_script;
use annex_base::NoMemory;
use driver_script::{first_missing, scripts_may_be_driven};
use script_answers::{Due, SCRIPT_LIMIT, Storm, complaint_due, limit_due, missing_due, storm_due};
use script_lang::{Script, ScriptFault, commands_stand, scripts_have_few_lines};
use std::alloc::Global;
use std::thread::Threads;
use storm_text::storm_lines;

/// What is due for a storm.
pub fn storm_answer<R: Threads + Sync>(rt: &R, alloc: Global, storm: Storm) -> Result<Due, NoMemory>
    ensures { IfOk result (λ d. IsStormAnswer storm.number storm.jobs d.status d.text.items) }
{
    let bytes = storm_lines(alloc, storm.number, storm.jobs)?;
    text_due(rt, alloc, storm, &bytes)
}

/// What is due for a storm whose text this is.
fn text_due<R: Threads + Sync>(
    rt: &R,
    alloc: Global,
    storm: Storm,
    bytes: &[u8],
) -> Result<Due, NoMemory>
    requires { bytes.now ≡ storm_text storm.number storm.jobs }
    ensures { IfOk result (λ d. IsStormAnswer storm.number storm.jobs d.status d.text.items) }
{
    if bytes.len() > SCRIPT_LIMIT {
        return limit_due(alloc, "script", SCRIPT_LIMIT as u64);
    }
    match Script::parse(alloc, bytes) {
        Ok(script) => script_due(rt, alloc, storm, bytes, &script),
        Err(fault) => fault_due(alloc, storm, bytes, fault),
    }
}

/// What is due for a storm whose text has this fault.
fn fault_due(
    alloc: Global,
    storm: Storm,
    _bytes: &[u8],
    fault: ScriptFault,
) -> Result<Due, NoMemory>
    requires text { _bytes.now ≡ storm_text storm.number storm.jobs }
    requires short { length _bytes.now ≤ script_limit }
    requires fault { IsFault fault (reading _bytes.now) }
    ensures { IfOk result (λ d. IsStormAnswer storm.number storm.jobs d.status d.text.items) }
{
    match fault {
        ScriptFault::BadLine { line, byte } => complaint_due(alloc, line, byte),
        ScriptFault::TooMuch { quantity } => limit_due(alloc, quantity.name(), quantity.limit()),
        ScriptFault::NoMemory => Err(NoMemory),
    }
}

/// What is due for a storm with this script.
fn script_due<R: Threads + Sync>(
    rt: &R,
    alloc: Global,
    storm: Storm,
    bytes: &[u8],
    script: &Script,
) -> Result<Due, NoMemory>
    requires text { bytes.now ≡ storm_text storm.number storm.jobs }
    requires short { length bytes.now ≤ script_limit }
    requires says { reading bytes.now ≡ Commands script.now }
    ensures { IfOk result (λ d. IsStormAnswer storm.number storm.jobs d.status d.text.items) }
{
    let commands = script.lines();
    match first_missing(commands) {
        None => run_due(rt, alloc, storm, bytes, script),
        Some(place) => missing_due(alloc, bytes, script, place),
    }
}

/// The line of a storm with this script.
fn run_due<R: Threads + Sync>(
    rt: &R,
    alloc: Global,
    storm: Storm,
    bytes: &[u8],
    script: &Script,
) -> Result<Due, NoMemory>
    requires text { bytes.now ≡ storm_text storm.number storm.jobs }
    requires short { length bytes.now ≤ script_limit }
    requires says { reading bytes.now ≡ Commands script.now }
    requires built { first_unbuilt script.now ≡ None }
    ensures { IfOk result (λ d. IsStormAnswer storm.number storm.jobs d.status d.text.items) }
{
    // Laws, for the proof that the script may be run.
    commands_stand();
    scripts_may_be_driven();
    scripts_have_few_lines();
    let ran = run_script(rt, alloc, script)?;
    storm_due(alloc, storm, bytes, script, &ran)
}
