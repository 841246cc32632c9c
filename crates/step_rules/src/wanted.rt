//! Why an entry isn't permitted.
use annex_base::NoMemory;
use run_data::RowView;

/// Why an entry isn't permitted: the first rule that it breaks, with the row that it found; or memory ran out (own).
///
/// The rules are tested in this order: 1, its order among the entries, its time and its bounds; 2, what its row has to have; 3, it is
/// the step of its repository, or an entry that may come at any point; 4, the frame that it takes was sent.
#[derive(Drop)]
pub enum Wanted {
    Broken { rule: u32, found: RowView },
    NoMemory,
}

impl From<NoMemory> for Wanted {
    ghost use Rattle.std.specs.Prelude.{◌≡◌};
    ghost use Rattle.step_rules.specs.declared.wanted.Wanted.TheVariants as wanted;

    ghost from_gives = { λ _ w. w ≡ wanted.NoMemory };

    fn from(_e: NoMemory) -> Wanted {
        Wanted::NoMemory
    }
}
