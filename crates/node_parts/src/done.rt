//! What a step made.
use annex_base::Items;
use owed_lines::ToldLine;
use run_data::{EntryKind, FrameView};

/// What a step made: what kind of entry; the frame that it took, and those that it sent; and the line that its repository owes
/// the branch since the job's peer told it by that frame, if it told one (own).
#[derive(Drop)]
pub struct Done {
    pub kind: EntryKind,
    pub taken: Option<FrameView>,
    pub sent: Items<FrameView>,
    pub owes: Option<ToldLine>,
}
