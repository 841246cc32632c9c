//! What a step makes: an entry, and what is sent with it.
ghost use Rattle.std.specs.Prelude.{◌≡◌, ◌++◌, ◌∷◌, [], OnErr, OnOk, vec_capacity, vec_len};
ghost use Rattle.transfer_turns.specs.Parcels.{HasRoom};

use annex_base::NoMemory;
use drop_phases::Said;
use run_data::{EntryKind, FrameView};
use std::alloc::Global;
use std::marker::Model;

/// What is sent to a peer.
#[derive(Drop)]
pub struct Parcel {
    pub peer: u32,
    pub body: ParcelBody,
}

#[derive(Drop)]
pub enum ParcelBody {
    Open,
    Close,
    Message(Said),
    /// Bytes of a content.
    Piece(Vec<u8>),
}

/// What a step makes: its entry, and what is sent with it. With the last step the job has ended, or its transfer is done
/// and its drop is to begin.
#[derive(Drop)]
pub struct Output {
    pub kind: EntryKind,
    pub sends: Sends,
    pub ended: bool,
}

/// What a step sends, in order. Its entry lists a frame of each parcel, and there is room for them: so a node sends what
/// a step gives without memory (own).
#[derive(Drop)]
pub struct Sends {
    parcels: Vec<Parcel>,
    listing: Vec<FrameView>,
}

impl Model for Sends {
    ghost use Rattle.std.specs.Prelude.{vec_capacity, vec_len};
    ghost use Rattle.transfer_turns.specs.Parcels.{HasRoom, SendsView};

    ghost Value = { SendsView };

    ghost view = { λ s. record { items = s.parcels.items } };

    ghost invariant = { λ s. HasRoom s.listing.items (vec_len s.parcels) (vec_capacity s.listing) };
}

impl Sends {
    /// Nothing is sent.
    pub fn new(alloc: Global) -> Sends
        ensures { result.items ≡ [] }
    {
        Sends {
            parcels: Vec::new(alloc),
            listing: Vec::new(alloc),
        }
    }

    /// Sends one thing more.
    pub fn push(&mut self, parcel: Parcel) -> Result<(), NoMemory>
        ensures ok { OnOk result (self.new.items ≡ self.old.items ++ parcel ∷ []) }
        ensures err { OnErr result (self.new ≡ self.old) }
    {
        self.parcels.reserve(1)?;
        let frames = self.parcels.len() + 1;
        self.listing.reserve(frames)?;
        self.parcels.push_reserved(parcel);
        Ok(())
    }

    pub fn parcels(&self) -> &[Parcel]
        ensures { result.now ≡ self.now.items }
    {
        &self.parcels
    }

    /// What is sent, and an empty list with room for a frame of each.
    pub fn into_parts(self) -> (Vec<Parcel>, Vec<FrameView>)
        ensures parcels { result.0.items ≡ self.items }
        ensures room { HasRoom result.1.items (vec_len result.0) (vec_capacity result.1) }
    {
        let Sends { parcels, listing } = self;
        (parcels, listing)
    }
}
