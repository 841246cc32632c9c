//! What a step sends, with room to list it.
ghost use Rattle.std.specs.Prelude.{◌≡◌, ◌++◌, ◌∷◌, [], OnErr, OnOk, vec_capacity, vec_len};
ghost use Rattle.drop_phases.specs.Sends.{HasRoom};

use crate::turn::Parcel;
use annex_base::NoMemory;
use run_data::FrameView;
use std::alloc::Global;
use std::marker::Model;

/// What a step sends, in order. Its entry lists two frames of each parcel at most, and there is room for them: so a node sends
/// what a step gives without memory (own).
#[derive(Drop)]
pub struct Sends {
    parcels: Vec<Parcel>,
    listing: Vec<FrameView>,
}

impl Model for Sends {
    ghost use Rattle.std.specs.Prelude.{vec_capacity, vec_len};
    ghost use Rattle.drop_phases.specs.Sends.{HasRoom, SendsView};

    ghost Value = { SendsView };

    ghost view = { λ s. record { items = s.parcels.items } };

    ghost invariant = { λ s. HasRoom s.listing.items (vec_len s.parcels) (vec_capacity s.listing) };
}

impl Sends {
    /// Nothing is sent.
    pub fn new(alloc: Global) -> Sends
        ensures { result.items ≡ [] }
    {
        Sends {
            parcels: Vec::new(alloc),
            listing: Vec::new(alloc),
        }
    }

    /// Sends one thing more.
    pub fn push(&mut self, parcel: Parcel) -> Result<(), NoMemory>
        ensures ok { OnOk result (self.new.items ≡ self.old.items ++ parcel ∷ []) }
        ensures err { OnErr result (self.new ≡ self.old) }
    {
        self.parcels.reserve(1)?;
        let frames = 2 * (self.parcels.len() + 1);
        self.listing.reserve(frames)?;
        self.parcels.push_reserved(parcel);
        Ok(())
    }

    pub fn parcels(&self) -> &[Parcel]
        ensures { result.now ≡ self.now.items }
    {
        &self.parcels
    }

    /// What is sent, and an empty list with room for two frames of each.
    pub fn into_parts(self) -> (Vec<Parcel>, Vec<FrameView>)
        ensures parcels { result.0.items ≡ self.items }
        ensures room { HasRoom result.1.items (vec_len result.0) (vec_capacity result.1) }
    {
        let Sends { parcels, listing } = self;
        (parcels, listing)
    }
}
