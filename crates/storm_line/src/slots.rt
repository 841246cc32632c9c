//! How many beginnings of a script found no slot.

ghost use Rattle.std.specs.Prelude.{◌≡◌, IfOk};
ghost use Rattle.storm_line.specs.Counts.{lacks_slot, noslots_from};

use annex_base::NoMemory;
use run_data::Run;
use script_commands::Command;
use shown_text::put_slot;
use std::alloc::Global;

/// How many lines of the script began a job that found no slot.
pub(crate) fn noslots(alloc: Global, script: &[Command], run: &Run) -> Result<u64, NoMemory>
    ensures { IfOk result (λ count. count ≡ noslots_from run.now 0 script.now run.now.marks) }
{
    let mut count = 0;
    let mut from = 0;
    for (command, mark) in script.iter().zip(run.marks.as_slice()) {
        let place = *mark as usize;
        if lacks_slot(alloc, run, from, place, command)? {
            count += 1;
        }
        from = place;
    }
    Ok(count)
}

/// Whether the line, which made the entries from one place up to another, begins a job that found no slot.
fn lacks_slot(
    alloc: Global,
    run: &Run,
    from: usize,
    upto: usize,
    command: &Command,
) -> Result<bool, NoMemory>
    ensures { IfOk result (λ lacks. lacks ≡ lacks_slot run.now from upto command.now) }
{
    let mut text = Vec::new(alloc);
    put_slot(&mut text, run, from, upto, command)?;
    Ok(!text.is_empty())
}
