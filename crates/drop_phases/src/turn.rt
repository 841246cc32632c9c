//! What a step takes and gives.
use crate::said::Said;
use crate::sends::Sends;
use crate::time::Time;
use annex_base::Word;
use p2p_wire::Message;
use run_data::EntryKind;

/// What a step takes.
#[derive(Drop)]
pub enum Taken {
    /// Nothing: the job awaits no frame.
    Nothing,
    Message(Message),
    /// Bytes, an opening, or what is no message.
    Other,
    /// The connection is closed, by the peer or here.
    Closed,
}

/// What a step takes, the time, the number of the entry that is to be made, and the word beside the frame.
#[derive(Drop)]
pub struct Input {
    pub taken: Taken,
    pub time: Time,
    pub number: u64,
    pub word: Option<Word>,
}

/// What is sent to a peer.
#[derive(Drop)]
pub struct Parcel {
    pub peer: u32,
    pub body: ParcelBody,
}

#[derive(Drop)]
pub enum ParcelBody {
    Open,
    Close,
    Message(Said),
    /// A message, and then Close.
    Last(Said),
}

/// What a step does: an entry, and what is sent with it. The last step ends the job.
#[derive(Drop)]
pub struct Output {
    pub kind: EntryKind,
    pub sends: Sends,
    pub ended: bool,
}
