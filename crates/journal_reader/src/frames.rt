//! What stands behind the first line of an entry: frames, and the lines that it adds.
ghost use Rattle.std.specs.Prelude.{◌≡◌, ◌<◌, ◌^◌, length, None, IfOk, IfSome, option_map, option_copied};
ghost use Rattle.journal_reading.specs.Reading.{taken_in, sent_in, added_in};
ghost use Rattle.journal_reader.specs.Steps.{lines_in, said, next_sent};

use crate::lines::next_line;
use annex_base::{Items, Line, NoMemory};
use journal_lines::{may_follow, read_added, read_frame};
use run_data::{FrameView, RepoView};
use std::alloc::Global;

/// The frame that an entry took, if the next line is one.
pub(crate) fn read_taken<'a>(
    alloc: Global,
    repos: &[RepoView],
    text: &'a [u8],
) -> Result<(Option<FrameView>, &'a [u8]), NoMemory>
    requires few { length repos.now < 2 ^ 32 }
    ensures { IfOk result (λ x. (x.0, lines_in x.1.now) ≡ taken_in repos.now (lines_in text.now)) }
{
    let Some((line, rest)) = next_line(text) else {
        return Ok((None, text));
    };
    match read_frame(alloc, repos, b"< ", line)? {
        Some(frame) => Ok((Some(frame), rest)),
        None => Ok((None, text)),
    }
}

/// The next frame that an entry sent, if the next line is one that may stand behind the last.
fn next_sent<'a>(
    alloc: Global,
    repos: &[RepoView],
    last: Option<&FrameView>,
    text: &'a [u8],
) -> Result<Option<(FrameView, &'a [u8])>, NoMemory>
    requires few { length repos.now < 2 ^ 32 }
    ensures next { IfOk result (λ o. option_map (λ x. (x.0, lines_in x.1.now)) o ≡ next_sent repos.now (option_copied last.entry) (lines_in text.now)) }
    ensures shorter { IfOk result (λ o. IfSome o (λ x. length x.1.now < length text.now)) }
{
    let Some((line, rest)) = next_line(text) else {
        return Ok(None);
    };
    let Some(frame) = read_frame(alloc, repos, b"> ", line)? else {
        return Ok(None);
    };
    if may_follow(last, &frame) {
        Ok(Some((frame, rest)))
    } else {
        Ok(None)
    }
}

/// The frames that an entry sent, in their order.
pub(crate) fn read_sent<'a>(
    alloc: Global,
    repos: &[RepoView],
    text: &'a [u8],
) -> Result<(Items<FrameView>, &'a [u8]), NoMemory>
    requires few { length repos.now < 2 ^ 32 }
    ensures { IfOk result (λ x. (x.0, lines_in x.1.now) ≡ sent_in repos.now None (lines_in text.now)) }
{
    let mut frames = Items::new(alloc);
    let mut rest = text;
    while let Some((frame, after)) = next_sent(alloc, repos, frames.as_slice().last(), rest)? {
        frames.push(frame)?;
        rest = after;
    }
    Ok((frames, rest))
}

/// So many lines that an entry added, in their order.
pub(crate) fn read_lines<'a>(
    alloc: Global,
    count: u64,
    text: &'a [u8],
) -> Result<(Option<Items<Line>>, &'a [u8]), NoMemory>
    ensures { IfOk result (λ x. said x.0 (lines_in x.1.now) ≡ added_in count None (lines_in text.now)) }
{
    let mut added = Items::new(alloc);
    let mut rest = text;
    let mut left = count;
    while left > 0 {
        let Some((line, after)) = next_line(rest) else {
            return Ok((None, rest));
        };
        let Some(next) = read_added(alloc, added.as_slice().last(), line)? else {
            return Ok((None, rest));
        };
        added.push(next)?;
        rest = after;
        left -= 1;
    }
    Ok((Some(added), rest))
}
