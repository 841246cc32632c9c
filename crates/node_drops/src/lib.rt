//! A drop of a repository's job: what it read of the logs, whether it has a step, and its step.
#![tactic(auto)]

mod acting;
mod desk;
mod feed;
mod job;
mod known;
mod place;
mod readiness;

pub use acting::act;
pub use drop_worker;
pub use drop_worker::{
    Ending, Heard, Input, Output, Parcel, ParcelBody, Phase, Said, Sends, Taken, Time, Token,
    Worker, end, holds_are_numbered,
};
pub use feed::Feed;
pub use job::DropJob;
pub use known::KnownLogs;
pub use place::{Clock, Place};
pub use readiness::ready;
