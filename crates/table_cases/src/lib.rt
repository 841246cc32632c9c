//! How tables of cases are written and run: a case a line, its texts spelled by signs.
#![tactic(auto)]

mod case;
mod fault;
mod spelling;
mod table;
mod tally;
mod writing;

pub use case::Case;
pub use fault::TableFault;
pub use spelling::spelled;
pub use table::{Subject, run_table};
pub use tally::Tally;
pub use writing::{put_bytes, put_truth};
