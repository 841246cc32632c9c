//! How many cases a table has, and how many differ.

/// How many cases there were, and how many of them were answered otherwise than they say.
#[derive(Drop)]
pub struct Tally {
    cases: u64,
    differing: u64,
}

impl Tally {
    /// The tally of no cases.
    pub fn new() -> Tally {
        Tally {
            cases: 0,
            differing: 0,
        }
    }

    /// One case more.
    pub fn count(&mut self, as_wanted: bool) {
        self.cases = self.cases.saturating_add(1);
        if !as_wanted {
            self.differing = self.differing.saturating_add(1);
        }
    }

    /// How many cases there were.
    pub fn cases(&self) -> u64 {
        self.cases
    }

    /// How many of them were answered otherwise.
    pub fn differing(&self) -> u64 {
        self.differing
    }
}
