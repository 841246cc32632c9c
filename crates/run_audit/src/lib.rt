//! A run that is audited: its entries are judged one by one, and of each key its removals are counted, and the fewest copies and
//! claims after them.
#![tactic(auto)]

mod auditor;
mod evidence;
mod holders;
mod key_audit;
mod orders;
mod record;
mod records;

pub use auditor::Auditor;
pub use key_audit::KeyAudit;
