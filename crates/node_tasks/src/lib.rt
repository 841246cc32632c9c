//! A running job of a repository, a drop or a transfer: whether it has a step, its step, and its end.
#![tactic(auto)]

mod acted;
mod acting;
mod readiness;
mod task;
mod telling;

pub use acted::{Output, Sent};
pub use acting::act;
pub use node_drops::{Clock, DropJob, Place, Time, Worker as DropWorker, holds_are_numbered};
pub use node_transfers::{TransferJob, Worker};
pub use readiness::{Told, ready};
pub use task::{Task, end};
pub use telling::tells;
