//! Log files, and what their lines say.

pub use log_grammar::{Entry, LogKind, Topic, Value};
