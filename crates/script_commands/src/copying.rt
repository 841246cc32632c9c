//! Copies of commands.
ghost use Rattle.std.specs.Prelude.{◌≡◌, IfOk};

use crate::command::{Action, Command, Showing};
use annex_base::NoMemory;
use std::alloc::AllocError;

impl Command {
    /// An equal command.
    pub fn copy(&self) -> Result<Command, NoMemory>
        ensures { IfOk result (λ c. c ≡ self.now) }
    {
        Ok(self.clone()?)
    }
}

/// A copy by a list of all forms: of each its plain fields, and then those that take memory. Forms without fields stand
/// apart.
macro_rules! copied {
    ($type:ident, $value:expr; $($form:ident { $($plain:ident),*; $($owned:ident),* })* [$($bare:ident)*]) => {
        match $value {
            $($type::$form { $($plain,)* $($owned,)* } => {
                $(let $owned = $owned.clone()?;)*
                Ok($type::$form { $($plain: *$plain,)* $($owned,)* })
            })*
            $($type::$bare => Ok($type::$bare),)*
        }
    };
}

// By lists of the forms, since a derived copy of so many isn't known to be equal.
impl Clone for Action {
    ghost use Rattle.std.specs.Prelude.{◌≡◌};

    ghost is_clone = { λ x y. y ≡ x };

    fn clone(&self) -> Result<Action, AllocError> {
        copied!(Action, self;
            Have { repo; key, content } SetPart { repo; key, content }
            Add { repo; path, key, content } File { ; path, key }
            Set { repo, kind; topic, value } Raw { repo; file, line }
            Merge { repo, other; } Compact { repo; } Sync { repo; }
            Begin { repo; job } Run { repo; job } Turns { repo, turns; }
            Close { repo, other; } Crash { repo, clock; } Wait { milliseconds; } Fail { repo, call; }
            [Settle]
        )
    }
}

impl Clone for Showing {
    ghost use Rattle.std.specs.Prelude.{◌≡◌};

    ghost is_clone = { λ x y. y ≡ x };

    fn clone(&self) -> Result<Showing, AllocError> {
        copied!(Showing, self;
            Presence { ; key } Claims { repo; key } Location { repo; key } Row { repo; key }
            Log { repo; file } Logs { repo; } Numbers { repo; path }
            Level { repo, target; } Wants { repo, target; path } Plan { repo; }
            [Totals Journal]
        )
    }
}

impl Clone for Command {
    ghost use Rattle.std.specs.Prelude.{◌≡◌};

    ghost is_clone = { λ x y. y ≡ x };

    fn clone(&self) -> Result<Command, AllocError> {
        copied!(Command, self;
            Repo { id, offset, version, locks; name } Does { ; action }
            Damage { repo; key, content } Par { ; lines } Shows { ; what }
            []
        )
    }
}
