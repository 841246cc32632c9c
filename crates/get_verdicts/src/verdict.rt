//! The verdict on a part whose bytes have come.
ghost use Rattle.std.specs.Prelude.{IfOk};
ghost use Rattle.get_verdicts.specs.Verdicts.{IsVerdict};

use annex_base::NoMemory;
use key_verify::{Verdict, judge_sum};
use session_state::Taken;
use std::alloc::Global;

/// The size of the part in bytes, if its sum is its key's.
pub fn right_size(alloc: Global, taken: &Taken) -> Result<Option<u64>, NoMemory>
    ensures { IfOk result (IsVerdict taken.now) }
{
    match &taken.sum {
        None => Ok(None),
        Some(sum) => match judge_sum(alloc, taken.fill.key(), sum)? {
            Verdict::Right => Ok(Some(sum.size)),
            Verdict::WrongSize { .. } => Ok(None),
            Verdict::WrongDigest { .. } => Ok(None),
        },
    }
}
