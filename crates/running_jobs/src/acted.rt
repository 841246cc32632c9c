//! What a job's step does.
use node_tasks::Sent;
use owed_lines::ToldLine;
use run_data::EntryKind;

/// What a job's step does: an entry, and what is taken and sent with it. The last step ends the job (own).
#[derive(Drop)]
pub struct Acted {
    /// The job's number, and its slot.
    pub job: u32,
    pub slot: u32,
    /// The peer from whose end the frame that waits there is taken.
    pub takes: Option<u32>,
    pub kind: EntryKind,
    pub sent: Sent,
    pub ended: bool,
    /// The line that the job's repository owes its branch by that frame.
    pub owes: Option<ToldLine>,
}
