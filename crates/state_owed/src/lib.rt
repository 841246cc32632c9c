//! The lines that one running repository owes its branch, as data that is carried over its entries.
#![tactic(auto)]

mod changes;
mod debts;
mod owed;
mod paying;
mod telling;

pub use changes::OwedChange;
pub use debts::Debt;
pub use owed::Owed;
