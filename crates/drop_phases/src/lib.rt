//! A drop: what it heard, where it stands, what it has of its row, and what its steps take and give.
#![tactic(auto)]

mod here;
mod phase;
mod said;
mod sends;
mod time;
mod turn;
mod worker;

pub use here::{Here, Standing};
pub use phase::{Ending, Heard, Phase, Token};
pub use said::Said;
pub use sends::Sends;
pub use time::Time;
pub use turn::{Input, Output, Parcel, ParcelBody, Taken};
pub use worker::{Worker, ending, newest, quietly, reads, talk, telling};
