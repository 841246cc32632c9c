//! What owes a line.
use crate::line::ToldLine;

/// What owes a repository's branch a line (own).
#[derive(Drop)]
pub enum Debt {
    /// The entry at this place of its history, from 0: by it a copy came or went.
    Entry(usize),
    /// What a job was told.
    Told(ToldLine),
}
