//! A line that is owed.
ghost use Rattle.std.specs.Prelude.{◌≡◌, option_copied, option_to_list, IfOk};
ghost use Rattle.node_model.specs.OwedLines.{owed_for, owed_line};
ghost use Rattle.state_owed.specs.Lines.{IsFirst};

use annex_base::NoMemory;
use annex_key::Key;
use run_data::By;
use std::collections::VecDeque;
use std::marker::Model;

/// A line that is owed: by what, and of which repository's copy of the key, which is there or isn't (own).
#[derive(Drop)]
pub struct Debt {
    pub by: By,
    pub repo: u32,
    pub there: bool,
    pub key: Key,
}

impl Model for Debt {
    ghost use Rattle.node_model.specs.OwedLines.{OwedLine};

    ghost Value = { OwedLine };

    ghost view = { λ d. record { by = d.by; repo = d.repo; there = d.there; key = d.key } };
}

pub(crate) fn owed_line(by: By, repo: u32, there: bool, key: &Key) -> Result<Debt, NoMemory>
    ensures { IfOk result (λ line. line ≡ owed_line by repo there key.now) }
{
    let key = key.copy()?;
    Ok(Debt {
        by,
        repo,
        there,
        key,
    })
}

/// The line that is owed where the repository's own copy came or went by this, if one is.
pub(crate) fn owed_for(repo: u32, by: By, there: bool, key: &Key) -> Result<Option<Debt>, NoMemory>
    ensures { IfOk result (λ line. option_to_list line ≡ owed_for repo by there key.now) }
{
    match by {
        By::Script => Ok(None),
        By::Job(_) | By::Peer { .. } => Ok(Some(owed_line(by, repo, there, key)?)),
    }
}

/// The first of the lines.
pub(crate) fn first(lines: &VecDeque<Debt>) -> Option<&Debt>
    ensures { IsFirst (option_copied result) lines.now.items }
{
    lines.front()
}
