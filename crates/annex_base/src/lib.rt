//! Byte strings, small lists, identifiers, and the traits through which the program meets the outside.
#![tactic(auto)]

mod crossing;
mod decimal;
mod gate;
mod in_memory;
mod items;
mod kinds;
mod memory;
mod repo;
mod source;
mod stamp;
mod standard;
mod text;

pub use crossing::crosses;
pub use decimal::{parse_decimal, put_number};
pub use gate::{Gate, OpenGate};
pub use in_memory::{SliceSource, VecSink};
pub use items::Items;
pub use kinds::{Call, EntryStamp, Found, Level, Word};
pub use memory::NoMemory;
pub use repo::{NotUuid, RepoId};
pub use source::{Failed, Sink, Source};
pub use stamp::{NotStamp, Stamp};
pub use standard::{StdSink, StdSource};
pub use text::Text;

/// A line of a log: a byte string.
pub type Line = Text;
