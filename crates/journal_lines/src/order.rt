//! The order of frames, and of lines.
ghost use Rattle.std.specs.Prelude.{◌≡◌, option_copied};
ghost use Rattle.journal_reading.specs.Lines.{then_less, side_rank, comes_before, may_follow, line_may_follow};

use annex_base::Line;
use run_data::FrameView;
use std::cmp::Ordering;

fn then_less(x: u64, y: u64, rest: bool) -> bool
    ensures { result ≡ then_less x y rest }
{
    x < y || (x == y && rest)
}

fn side_rank(up: bool) -> u64
    ensures { result ≡ side_rank up }
{
    if up { 0 } else { 1 }
}

fn comes_before(first: &FrameView, next: &FrameView) -> bool
    ensures { result ≡ comes_before first.now next.now }
{
    let by_number = then_less(first.epoch as u64, next.epoch as u64, first.seq < next.seq);
    let by_slot = then_less(first.slot as u64, next.slot as u64, by_number);
    let by_side = then_less(side_rank(first.up), side_rank(next.up), by_slot);
    then_less(first.peer as u64, next.peer as u64, by_side)
}

/// Whether a frame that an entry sent may stand behind the last one: frames stand in order of the peer's number, of
/// the side (this end the client's first), of slot, epoch and number.
pub fn may_follow(last: Option<&FrameView>, next: &FrameView) -> bool
    ensures { result ≡ may_follow (option_copied last.entry) next.now }
{
    match last {
        None => true,
        Some(last) => comes_before(last, next),
    }
}

/// Whether a line that an entry added may stand behind the last one: they stand in byte order, each once.
pub fn line_may_follow(last: Option<&Line>, line: &[u8]) -> bool
    ensures { result ≡ line_may_follow (option_copied last.entry) line.now }
{
    let Some(last) = last else {
        return true;
    };
    match last.bytes().cmp(line) {
        Ordering::Less => true,
        Ordering::Equal => false,
        Ordering::Greater => false,
    }
}
