//! Laws on what a table's calls leave in its store: each is the contract of a function that does nothing.
ghost use Rattle.std.specs.Prelude.{◌≡◌, ◌<◌, List, ℕ, All, false};
ghost use Rattle.std.specs.declared.option.Option.{Option};
ghost use Rattle.std.specs.Option.{ForSome};
ghost use Rattle.run_data.specs.declared.entry.By.{By};
ghost use Rattle.run_data.specs.declared.entry.EntryKind.{EntryKind};
ghost use Rattle.run_data.specs.declared.entry.EntryKind.TheVariants as kinds;
ghost use Rattle.run_data.specs.declared.row.Hold.{Hold};
ghost use Rattle.object_store.specs.declared.keeper.HoldRecord.{HoldRecord};
ghost use Rattle.object_store.specs.Stores.{Contents};
ghost use Rattle.node_model.specs.Rows.{holds_after, same_owner};
ghost use Rattle.content_lock.specs.Owners.{IsOwners};
ghost use Rattle.content_lock.specs.Stored.{AreContentsAfter, AreRecordsOf, without_content};
ghost use Rattle.content_lock.specs.Tokens.{Owns, ShareView};

/// What a removal leaves of a store's contents is what the entry of a removal leaves.
pub fn removals_leave_other_contents()
    ensures { (known : Option Contents) (key : List ℕ) (by : By) → ForSome known (λ was. ForSome (without_content known key) (AreContentsAfter (kinds.Gone by key) was)) }
{}

/// A number that is greater than that of each record is greater than that of each hold whose records these are. So whoever
/// asks the store knows which number a share may have.
pub fn records_tell_numbers()
    ensures { (records : List HoldRecord) (holds : List Hold) (number : ℕ) → AreRecordsOf holds records → All (λ r. r.number < number) records → All (λ h. h.number < number) holds }
{}

/// By the entries of one owner, each other owner's share stays its own: a job's leave those of sessions, and those of other jobs.
pub fn others_keep_their_shares()
    ensures { (owner by : By) (share : Option ShareView) (n : ℕ) (kind : EntryKind) (holds : List Hold) → IsOwners owner n kind → same_owner by owner ≡ false → All (λ h. h.number < n) holds → Owns by share holds
        → Owns by share (holds_after holds kind) }
{}
