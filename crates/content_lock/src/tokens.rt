//! Tokens: rights to what a table has, which must be spent at that table.
ghost use Rattle.std.specs.Prelude.{◌≡◌};

use annex_key::Key;
use run_data::By;
use std::marker::Model;

/// A hold that is open, which must be released or abandoned.
#[derive(Debug)]
pub struct Share {
    pub(crate) number: u64,
    pub(crate) key: Key,
    pub(crate) owner: By,
}

impl Model for Share {
    ghost use Rattle.content_lock.specs.Tokens.{ShareView};

    ghost Value = { ShareView };

    ghost view = { λ s. record { number = s.number; key = s.key; owner = s.owner } };
}

impl Share {
    /// The number of its hold.
    pub fn number(&self) -> u64
        ensures { result ≡ self.now.number }
    {
        self.number
    }

    pub fn key(&self) -> &Key
        ensures { result.now ≡ self.now.key }
    {
        &self.key
    }

    /// For whom the hold is.
    pub fn owner(&self) -> By
        ensures { result ≡ self.now.owner }
    {
        self.owner
    }
}

/// A bar on a key, which must be taken off or used for a removal.
#[derive(Debug)]
pub struct Bar {
    pub(crate) key: Key,
    pub(crate) job: u32,
}

impl Model for Bar {
    ghost use Rattle.content_lock.specs.Tokens.{BarView};

    ghost Value = { BarView };

    ghost view = { λ b. record { key = b.key; job = b.job } };
}

impl Bar {
    pub fn key(&self) -> &Key
        ensures { result.now ≡ self.now.key }
    {
        &self.key
    }

    /// The number of the job that put it.
    pub fn job(&self) -> u32
        ensures { result ≡ self.now.job }
    {
        self.job
    }
}

/// The one right to fill a key, which must be given back. Contracts see it as the key.
#[derive(Debug)]
pub struct Fill {
    pub(crate) key: Key,
}

impl Model for Fill {
    ghost use Rattle.std.specs.Prelude.{List, ℕ};

    ghost Value = { List ℕ };

    ghost view = { λ f. f.key };
}

impl Fill {
    pub fn key(&self) -> &Key
        ensures { result.now ≡ self.now }
    {
        &self.key
    }
}
