//! Which types go from thread to thread.
use crate::gate::OpenGate;
use crate::in_memory::{SliceSource, VecSink};
use crate::items::Items;
use crate::kinds::{Call, EntryStamp, Found, Level, Word};
use crate::memory::NoMemory;
use crate::repo::{NotUuid, RepoId};
use crate::source::Failed;
use crate::stamp::{NotStamp, Stamp};
use crate::text::Text;

/// A call of it shows that the type may be moved to another thread, and shared with one.
pub fn crosses<T: Send + Sync>() {}

fn cross_threads() {
    crosses::<RepoId>();
    crosses::<NotUuid>();
    crosses::<Text>();
    crosses::<Items<u32>>();
    crosses::<NoMemory>();
    crosses::<Failed>();
    crosses::<Call>();
    crosses::<Found>();
    crosses::<Word>();
    crosses::<Level>();
    crosses::<EntryStamp>();
    crosses::<Stamp>();
    crosses::<NotStamp>();
    crosses::<OpenGate>();
    crosses::<SliceSource>();
    crosses::<VecSink>();
}
