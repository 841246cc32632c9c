//! The texts that are due for a script: the report of its run, and the lines that name a place or a limit.

ghost use Rattle.std.specs.Prelude.{IfOk, OnOk, ◌≡◌, ◌≤◌, ◌<◌, ◌++◌, length, slice_get, Some};
ghost use Rattle.script_lang.specs.Script.{reading, Commands};
ghost use Rattle.driver_script.specs.Lines.{first_unbuilt};
ghost use Rattle.script_answers.specs.Runs.{IsRunOf};
ghost use Rattle.script_answers.specs.Whole.{script_limit};
ghost use Rattle.script_answers.specs.Top.{IsDue, HasGoodRun, limit_text, place_text};

use crate::laws::cut_script_runs_have_a_full_history;
use crate::ran::{ENTRY_LIMIT, Ran};
use crate::status::Status;
use annex_base::{NoMemory, put_number};
use cause_laws::refusals_have_causes;
use driver_model::runs_log_lines;
use driver_script::{scripts_are_built_or_not, scripts_may_be_driven};
use race_core::runs_keep_copies;
use report_text::report;
use run_laws::runs_are_safe;
use script_lang::{Script, commands_have_lines, commands_stand, line_numbers};
use std::alloc::Global;

/// A status, and the text that is written with it.
#[derive(Drop)]
pub struct Due {
    pub status: Status,
    pub text: Vec<u8>,
}

/// The report of a script's run. Where a line met a full history, the line that names the limit stands behind it.
pub fn report_due(alloc: Global, _bytes: &[u8], script: &Script, ran: &Ran) -> Result<Due, NoMemory>
    requires short { length _bytes.now ≤ script_limit }
    requires says { reading _bytes.now ≡ Commands script.now }
    requires run { IsRunOf script.now ran.now.is_cut ran.now.run }
    ensures due { IfOk result (λ d. IsDue _bytes.now d.status d.text.items) }
    ensures good { OnOk result (HasGoodRun _bytes.now) }
{
    // Laws, for the proof that the run is good, and has what the report wants.
    commands_stand();
    scripts_may_be_driven();
    scripts_are_built_or_not();
    runs_keep_copies();
    runs_are_safe();
    refusals_have_causes();
    runs_log_lines();
    cut_script_runs_have_a_full_history();
    let commands = script.lines();
    let mut text = report(alloc, commands, &ran.run)?;
    if ran.is_cut {
        put_limit(&mut text, "entries", ENTRY_LIMIT)?;
        return Ok(Due {
            status: Status::Limit,
            text,
        });
    }
    Ok(Due {
        status: Status::Done,
        text,
    })
}

/// The line that names the line of the command at a place, the first that can't be run yet.
pub fn missing_due(
    alloc: Global,
    bytes: &[u8],
    _script: &Script,
    place: usize,
) -> Result<Due, NoMemory>
    requires short { length bytes.now ≤ script_limit }
    requires says { reading bytes.now ≡ Commands _script.now }
    requires first { first_unbuilt _script.now ≡ Some place }
    ensures due { IfOk result (λ d. IsDue bytes.now d.status d.text.items) }
    ensures script { IfOk result (λ d. d.status ≡ Status.Script) }
    ensures good { OnOk result (HasGoodRun bytes.now) }
{
    // Laws, for the proof: the command has a line, and no text is both told its lines and that one is missing.
    commands_have_lines();
    scripts_are_built_or_not();
    let numbers = line_numbers(alloc, bytes)?;
    complaint_due(alloc, line_at(&numbers, place), 0)
}

/// The number of the line at a place.
fn line_at(numbers: &[u64], place: usize) -> u64
    requires { place < length numbers.now }
    ensures { slice_get numbers.now place ≡ Some result }
{
    numbers[place]
}

/// The line that names a limit which is passed.
pub fn limit_due(alloc: Global, name: &str, number: u64) -> Result<Due, NoMemory>
    ensures { IfOk result (λ d. (d.status ≡ Status.Limit)
        × (d.text.items ≡ limit_text name.now number)) }
{
    let mut text = Vec::new(alloc);
    put_limit(&mut text, name, number)?;
    Ok(Due {
        status: Status::Limit,
        text,
    })
}

/// Adds the line that names a limit.
fn put_limit(text: &mut Vec<u8>, name: &str, number: u64) -> Result<(), NoMemory>
    ensures { OnOk result (text.new.items ≡ text.old.items ++ limit_text name.now number) }
{
    text.extend_from_slice(b"limit ")?;
    text.extend_from_slice(name.as_bytes())?;
    text.push(b' ')?;
    put_number(text, number)?;
    text.push(b'\n')?;
    Ok(())
}

/// The line that names the place of a script's first fault.
pub fn complaint_due(alloc: Global, line: u64, byte: u64) -> Result<Due, NoMemory>
    ensures { IfOk result (λ d. (d.status ≡ Status.Script)
        × (d.text.items ≡ place_text line byte)) }
{
    let mut text = Vec::new(alloc);
    text.extend_from_slice(b"script line ")?;
    put_number(&mut text, line)?;
    text.extend_from_slice(b" byte ")?;
    put_number(&mut text, byte)?;
    text.push(b'\n')?;
    Ok(Due {
        status: Status::Script,
        text,
    })
}
