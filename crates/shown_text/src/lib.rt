//! The lines of a report: of jobs, crashes, faults and syncs, and what is shown of a branch, of a row and of a plan.
#![tactic(auto)]

mod crashes;
mod lines;
mod logs;
mod named;
mod plan;
mod row;
mod settings;
mod syncs;
mod wanted;

pub use lines::{put_ended, put_slot};
pub use logs::{put_claims, put_file, put_files, put_location};
pub use plan::put_plan;
pub use row::{put_found, put_row};
pub use settings::{put_level, put_numbers_for};
pub use syncs::put_sync;
pub use wanted::put_wants;
