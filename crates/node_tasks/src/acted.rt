//! What a job's step makes.
use node_drops::drop_worker;
use node_transfers::transfer_worker;
use run_data::EntryKind;

/// What is sent with an entry: what a drop says, or what a transfer says.
#[derive(Drop)]
pub enum Sent {
    ByDrop(drop_worker::Sends),
    ByTransfer(transfer_worker::Sends),
}

/// What a job's step makes: its entry, and what is sent with it. With the last step the job has ended.
#[derive(Drop)]
pub struct Output {
    pub kind: EntryKind,
    pub sent: Sent,
    pub ended: bool,
}
