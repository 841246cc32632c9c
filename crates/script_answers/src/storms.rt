//! Storms: what the words ask for, and the line that is due.

ghost use Rattle.std.specs.Prelude.{◌≡◌, ℕ, IfOk, IfSome, IsNone, map};
ghost use Rattle.std.specs.String.{string_bytes};
ghost use Rattle.script_lang.specs.Script.{reading, Commands};
ghost use Rattle.storm_script.specs.Storm.{storm_text};
ghost use Rattle.script_answers.specs.Runs.{IsRunOf};
ghost use Rattle.script_answers.specs.Storms.{AreNumbers, IsStormAnswer, IsStormCommand};

use crate::due::{Due, limit_due};
use crate::laws::good_storms_keep_their_keys;
use crate::ran::{ENTRY_LIMIT, Ran};
use crate::status::Status;
use annex_base::{NoMemory, parse_decimal};
use cause_laws::refusals_have_causes;
use driver_model::runs_log_lines;
use driver_script::{scripts_are_built_or_not, scripts_may_be_driven};
use race_core::runs_keep_copies;
use run_laws::runs_are_safe;
use script_lang::Script;
use std::alloc::Global;
use storm_line::storm_line;
use storm_reading::storms_say_their_commands;

/// The greatest number of jobs of a storm.
const JOB_LIMIT: u64 = 2_000;

/// A storm as words ask for it: the number that its jobs are drawn from, and how many they are (own).
#[derive(Clone, Copy, Debug)]
pub struct Storm {
    pub number: u64,
    pub jobs: u32,
}

/// The storm that the words ask for, if they do.
pub fn storm_of(words: &[String]) -> Option<Storm>
    ensures asked { IfSome result (λ s. IsStormCommand (map string_bytes words.now) s.number s.jobs) }
    ensures other { IsNone result → (number jobs : ℕ) → IsStormCommand (map string_bytes words.now) number jobs → ⊥ }
{
    match words {
        [word, number, jobs] if word.as_str() == "storm" => {
            parse_storm(number.as_str().as_bytes(), jobs.as_str().as_bytes())
        }
        _ => None,
    }
}

/// The storm of these two words, if they are its numbers.
fn parse_storm(number: &[u8], jobs: &[u8]) -> Option<Storm>
    ensures asked { IfSome result (λ s. AreNumbers number.now jobs.now s.number s.jobs) }
    ensures other { IsNone result → (n m : ℕ) → AreNumbers number.now jobs.now n m → ⊥ }
{
    let number = parse_decimal(number)?;
    let jobs = parse_decimal(jobs)?;
    if jobs > JOB_LIMIT {
        return None;
    }
    Some(Storm {
        number,
        jobs: jobs as u32,
    })
}

/// The line of a storm with this script, by its run; where a line met a full history, the line that names the limit alone.
pub fn storm_due(
    alloc: Global,
    storm: Storm,
    _bytes: &[u8],
    script: &Script,
    ran: &Ran,
) -> Result<Due, NoMemory>
    requires text { _bytes.now ≡ storm_text storm.number storm.jobs }
    requires says { reading _bytes.now ≡ Commands script.now }
    requires run { IsRunOf script.now ran.now.is_cut ran.now.run }
    ensures { IfOk result (λ d. IsStormAnswer storm.number storm.jobs d.status d.text.items) }
{
    // Laws, for the proof that the run is that of the storm's commands, is good, has what the line wants, and keeps the storm's keys.
    scripts_may_be_driven();
    scripts_are_built_or_not();
    runs_keep_copies();
    runs_are_safe();
    refusals_have_causes();
    runs_log_lines();
    storms_say_their_commands();
    good_storms_keep_their_keys();
    if ran.is_cut {
        return limit_due(alloc, "entries", ENTRY_LIMIT);
    }
    let commands = script.lines();
    let text = storm_line(alloc, storm.number, storm.jobs, commands, &ran.run)?;
    Ok(Due {
        status: Status::Done,
        text,
    })
}
