//! Whether an entry tells an effect: its kind, how a job ended, its frames and its lines.
#![tactic(auto)]

mod effect;
mod frames;
mod kinds;
mod look;
mod names;
mod outcomes;
mod sending;
mod texts;

pub use effect::{tells, tells_lines};
pub use frames::{same_body, same_frame, says_nothing};
pub use kinds::{
    is_bar, is_check, is_close, is_fault, is_gain, is_gone, is_location, is_order, is_release,
    is_share, is_talk,
};
pub use look::{failed_call, matches_told, part_told};
pub use names::{
    is_number, same_call, same_lines, same_need, same_number, same_numbers, same_owner,
};
pub use outcomes::{
    ended, same_candidates, same_failures, same_outcome, same_proof, same_refusal, same_transfer,
};
pub use sending::{
    EndAt, closes, gives, opens, past_close, past_unlock, says, says_error, says_error_and_closes,
    says_order, says_time,
};
