//! The laws of pasts. Each is the contract of a function that does nothing.

ghost use Rattle.std.specs.Prelude.{◌≡◌, ◌+◌, false, List, ◌∷◌, length};
ghost use Rattle.run_data.specs.declared.entry.Entry.{Entry};
ghost use Rattle.run_data.specs.declared.job.Outcome.{Outcome};
ghost use Rattle.node_model.specs.SetUp.{SetUp};
ghost use Rattle.run_model.specs.Past.{is_of};
ghost use Rattle.run_model.specs.States.{state_of};
ghost use Rattle.run_model.specs.Syncs.{numbers_of};

/// An entry of another repository, or a wait, changes nothing of a repository's state, whatever the entries are (own).
pub fn others_change_nothing()
    ensures { (s : SetUp) (past : List Entry) (e : Entry) → is_of s.number e ≡ false
        → state_of s (e ∷ past) ≡ state_of s past }
{}

/// Each job of a sync that ended counts in one of its four numbers (own).
pub fn syncs_count_each_end_once()
    ensures { (outcomes : List Outcome) → let n = numbers_of outcomes in n.get + n.put + n.drop + n.refused ≡ length outcomes }
{}
