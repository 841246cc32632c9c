//! How a reading ends.
ghost use Rattle.std.specs.Prelude.{◌≡◌, ◌<◌, ◌^◌};
ghost use Rattle.journal_reading.specs.Reading.{line_number, ended};
ghost use Rattle.journal_reader.specs.declared.fault.JournalFault.TheVariants as faults;
ghost use Rattle.journal_reader.specs.Answers.{IsReading};
ghost use Rattle.journal_reader.specs.Steps.{lines_in, said};

use crate::fault::JournalFault;
use crate::lines::{measure, next_line};
use run_data::Run;

/// The number of the line with which this text begins, which stands behind so many lines less its own.
fn bad_line(count: usize, rest: &[u8]) -> JournalFault
    requires few { count < 2 ^ 32 }
    ensures { result ≡ faults.BadLine (line_number count (lines_in rest.now)) }
{
    let (left, _) = measure(rest);
    let before = count.saturating_sub(left);
    JournalFault::BadLine {
        line: before as u64 + 1,
    }
}

/// The run, where no line and no text is left behind it.
pub(crate) fn ended(
    count: usize,
    tail: &[u8],
    run: Option<Run>,
    rest: &[u8],
) -> Result<Run, JournalFault>
    requires few { count < 2 ^ 32 }
    ensures { IsReading result (ended count tail.now (said run (lines_in rest.now))) }
{
    let Some(run) = run else {
        return Err(bad_line(count, rest));
    };
    if let Some((_, _)) = next_line(rest) {
        return Err(bad_line(count, rest));
    }
    if let Some((_, _)) = tail.split_first() {
        return Err(JournalFault::BadLine {
            line: count as u64 + 1,
        });
    }
    Ok(run)
}
