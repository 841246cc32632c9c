//! Laws on what stores tell: each is the contract of a function that does nothing.
ghost use Rattle.std.specs.Prelude.{◌≡◌, ◌<◌, List, ◌∷◌, All};
ghost use Rattle.object_store.specs.declared.keeper.HoldRecord.{HoldRecord};
ghost use Rattle.object_store.specs.Stores.{with_record};

/// A record of a number that is greater than each other's stands first.
pub fn new_records_stand_first()
    ensures { (rs : List HoldRecord) (r : HoldRecord) → All (λ x. x.number < r.number) rs → with_record rs r ≡ r ∷ rs }
{}
