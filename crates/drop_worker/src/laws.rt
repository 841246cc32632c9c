//! A law of the numbers of holds: the contract of a function that does nothing.
ghost use Rattle.std.specs.Prelude.{◌<◌, ℕ, All};
ghost use Rattle.run_data.specs.declared.entry.EntryKind.{EntryKind};
ghost use Rattle.content_lock.specs.Rows as locks;
ghost use Rattle.drop_phases.specs.Sides.{IsNumbered};

/// A hold has the number of the entry that added it: so the numbers of a table's holds stay below that of the next entry (own).
pub fn holds_are_numbered()
    ensures { (kind : EntryKind) (n : ℕ) (was now : locks.Rows) → locks.AreAfter kind was now → IsNumbered n kind → All (λ h. h.number < n) was.holds → (m : ℕ) → n < m → All (λ h. h.number < m) now.holds }
{}
