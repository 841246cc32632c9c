//! The program's top call: what the words ask for, and what is written.
#![tactic(auto)]

ghost use Rattle.std.specs.Prelude.{◌≡◌, ◌≢◌, ℕ, ◌<◌, ◌≤◌, true, false, List, ◌++◌, length, map, None, Some};
ghost use Rattle.std.specs.String.{string_bytes};
ghost use Rattle.annex_base.specs.Causes.{Rose};
ghost use Rattle.script_commands.specs.declared.command.Command.{Command};
ghost use Rattle.script_lang.specs.Script.{reading, Commands};
ghost use Rattle.run_data.specs.Histories.{most_entries};
ghost use Rattle.driver_model.specs.Limits.{limited_run};
ghost use Rattle.driver_script.specs.Inputs.{driver_input_of};
ghost use Rattle.driver_script.specs.Lines.{first_unbuilt};
ghost use Rattle.report_text.specs.Report.{report};
ghost use Rattle.script_answers.specs.declared.status.Status.{Status};
ghost use Rattle.script_answers.specs.Whole.{script_limit};
ghost use Rattle.script_answers.specs.Top.{IsRunCommand, IsDue, EndsWith, AnswersOther, AnswersRun, entries_name, limit_text};
ghost use Rattle.script_answers.specs.Storms.{Answers, AnswersStorm, AsksStorm, IsStormCommand};

mod due;
mod runs;
mod storms;

use annex_base::{Failed, Gate, Sink, Source};
use driver_script::scripts_are_built_or_not;
use due::due_text;
pub use runs::run_script;
use script_answers::{ReadStop, SCRIPT_LIMIT, Storm, is_run, read_whole, storm_of, write_whole};
pub use script_answers::{
    Ran, Status, cut_script_runs_have_a_full_history, one_answer_is_due_for_every_text,
};
use std::alloc::Global;
use std::sync::Wait;
use std::thread::Threads;
use storms::storm_answer;

const USAGE: &[u8] = b"usage: annex run | threads | storm NUMBER JOBS\n";

/// Does what the words ask for. With the word `run` it reads a script from the source, runs it, and writes the
/// report to the sink. With `storm` and two numbers it runs the script of that storm and writes its line. Any other words are
/// answered by the usage line (own).
pub fn annex<R: Threads + Wait + Sync, S: Source, K: Sink, G: Gate>(
    rt: &R,
    alloc: Global,
    words: &[String],
    source: &mut S,
    sink: &mut K,
    _gate: &G,
) -> Status
    ensures answers { Answers (map string_bytes words.now) (S.left source.old) (S.left source.new) (K.taken sink.old) (K.taken sink.new) result }

    // for other words than `run` the source stays unread
    ensures unread { (IsRunCommand (map string_bytes words.now) → ⊥) → source.new ≡ source.old }

    // a fault is answered only where the count rose, and always where it did
    ensures read { result ≡ Status.ReadFault → Rose (S.faults source.old) (S.faults source.new) }
    ensures write { result ≡ Status.WriteFault → Rose (K.faults sink.old) (K.faults sink.new) }
    ensures read_failed { S.faults source.old < S.faults source.new → result ≡ Status.ReadFault }
    ensures write_failed { K.faults sink.old < K.faults sink.new → result ≡ Status.WriteFault }

    // without a fault and with enough memory, what is due is answered: for a script whose forms are built its report, up to where a
    // line meets a full history, if one does
    ensures usage { (IsRunCommand (map string_bytes words.now) → ⊥) → (AsksStorm (map string_bytes words.now) → ⊥) → (Rose (K.faults sink.old) (K.faults sink.new) → ⊥) → result ≡ Status.Usage }
    ensures due { (bytes text : List ℕ) (status : Status) → IsRunCommand (map string_bytes words.now) → S.left source.old ≡ Some bytes → IsDue bytes status text
        → (Rose (S.faults source.old) (S.faults source.new) → ⊥) → (Rose (K.faults sink.old) (K.faults sink.new) → ⊥)
        → EndsWith status text (K.taken sink.old) (K.taken sink.new) result }
    ensures reported { (bytes : List ℕ) (script : List Command) → IsRunCommand (map string_bytes words.now) → S.left source.old ≡ Some bytes
        → length bytes ≤ script_limit → reading bytes ≡ Commands script → first_unbuilt script ≡ None → (limited_run (driver_input_of script) script).is_cut ≡ false
        → (Rose (S.faults source.old) (S.faults source.new) → ⊥) → (Rose (K.faults sink.old) (K.faults sink.new) → ⊥)
        → EndsWith Status.Done (report script (limited_run (driver_input_of script) script).run) (K.taken sink.old) (K.taken sink.new) result }
    ensures cut { (bytes : List ℕ) (script : List Command) → IsRunCommand (map string_bytes words.now) → S.left source.old ≡ Some bytes
        → length bytes ≤ script_limit → reading bytes ≡ Commands script → first_unbuilt script ≡ None → (limited_run (driver_input_of script) script).is_cut ≡ true
        → (Rose (S.faults source.old) (S.faults source.new) → ⊥) → (Rose (K.faults sink.old) (K.faults sink.new) → ⊥)
        → EndsWith Status.Limit (report script (limited_run (driver_input_of script) script).run ++ limit_text entries_name most_entries) (K.taken sink.old) (K.taken sink.new) result }
{
    if !is_run(words) {
        return answer_other(rt, alloc, words, sink);
    }
    // laws, for the proof of what is due
    scripts_are_built_or_not();
    cut_script_runs_have_a_full_history();
    run(rt, alloc, source, sink)
}

/// Runs the storm that the words ask for, if they do, and else writes the usage line.
fn answer_other<R: Threads + Sync, K: Sink>(
    rt: &R,
    alloc: Global,
    words: &[String],
    sink: &mut K,
) -> Status
    ensures storm { (number jobs : ℕ) → IsStormCommand (map string_bytes words.now) number jobs → AnswersStorm number jobs (K.taken sink.old) (K.taken sink.new) result }
    ensures other { (AsksStorm (map string_bytes words.now) → ⊥) → AnswersOther (K.taken sink.old) (K.taken sink.new) result }
    ensures read { result ≢ Status.ReadFault }
    ensures write { result ≡ Status.WriteFault → Rose (K.faults sink.old) (K.faults sink.new) }
    ensures write_failed { K.faults sink.old < K.faults sink.new → result ≡ Status.WriteFault }
{
    let Some(storm) = storm_of(words) else {
        return match write_whole(sink, USAGE) {
            Ok(()) => Status::Usage,
            Err(Failed) => Status::WriteFault,
        };
    };
    run_storm(rt, alloc, storm, sink)
}

/// Runs a storm and writes its line.
fn run_storm<R: Threads + Sync, K: Sink>(
    rt: &R,
    alloc: Global,
    storm: Storm,
    sink: &mut K,
) -> Status
    ensures answers { AnswersStorm storm.number storm.jobs (K.taken sink.old) (K.taken sink.new) result }
    ensures write { result ≡ Status.WriteFault → Rose (K.faults sink.old) (K.faults sink.new) }
    ensures write_failed { K.faults sink.old < K.faults sink.new → result ≡ Status.WriteFault }
{
    let Ok(due) = storm_answer(rt, alloc, storm) else {
        return Status::NoMemory;
    };
    match write_whole(sink, &due.text) {
        Ok(()) => due.status,
        Err(Failed) => Status::WriteFault,
    }
}

/// Reads a script, runs it and writes the report.
fn run<R: Threads + Sync, S: Source, K: Sink>(
    rt: &R,
    alloc: Global,
    source: &mut S,
    sink: &mut K,
) -> Status
    ensures answers { AnswersRun (S.left source.old) (S.left source.new) (K.taken sink.old) (K.taken sink.new) result }
    ensures read { result ≡ Status.ReadFault → Rose (S.faults source.old) (S.faults source.new) }
    ensures write { result ≡ Status.WriteFault → Rose (K.faults sink.old) (K.faults sink.new) }
    ensures read_failed { S.faults source.old < S.faults source.new → result ≡ Status.ReadFault }
    ensures write_failed { K.faults sink.old < K.faults sink.new → result ≡ Status.WriteFault }
{
    let bytes = match read_whole(alloc, source, SCRIPT_LIMIT) {
        Ok(bytes) => bytes,
        Err(ReadStop::Failed) => return Status::ReadFault,
        Err(ReadStop::NoMemory) => return Status::NoMemory,
    };
    let Ok(due) = due_text(rt, alloc, &bytes) else {
        return Status::NoMemory;
    };
    match write_whole(sink, &due.text) {
        Ok(()) => due.status,
        Err(Failed) => Status::WriteFault,
    }
}
