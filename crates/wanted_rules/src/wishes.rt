//! What a repository wants and requires.

ghost use Rattle.std.specs.Prelude.{◌≡◌, [], ◌∷◌, IfOk, option_map};
ghost use Rattle.std.specs.List.{list_any};
ghost use Rattle.glob_match.specs.Numbers.{numcopies_of};
ghost use Rattle.trust_groups.specs.View.{settings_of};
ghost use Rattle.wanted_expr.specs.Truth.{holds};
ghost use Rattle.wanted_expr.specs.Wanted.{cases_of, facts, required, wants};
ghost use Rattle.wanted_rules.specs.Reads.{at_path, formulas_of, judged};

use crate::facts::{plain_facts, set_path};
use crate::group_exprs::GroupExprs;
use annex_base::{NoMemory, RepoId, Text};
use annex_key::Key;
use std::alloc::Global;
use std::marker::Model;
use trust_groups::Settings;
use wanted_expr::{Expr, Facts};

/// What a repository wants and requires by some settings: its expressions and those of its groups, which the settings
/// keep. A text that is empty isn't read, and one outside the grammar reads as `present` (git-annex-preferred-content,
/// git-annex-required, git-annex-groupwanted). Contracts see the settings' indices and the repository.
#[derive(Debug, Drop)]
pub struct Wishes<'a> {
    alloc: Global,
    settings: &'a Settings,
    repo: RepoId,
    preferred: Option<&'a Expr>,
    required: Option<&'a Expr>,
    groups: GroupExprs<'a>,
}

impl<'a> Model for Wishes<'a> {
    ghost use Rattle.trust_groups.specs.View.{settings_of};
    ghost use Rattle.std.specs.Option.{option_copied};
    ghost use Rattle.wanted_rules.specs.Reads.{AreRead, Wishing, formulas_of};

    ghost Value = { Wishing };

    ghost view = { λ w. record { indices = w.settings.now; repo = w.repo } };

    ghost invariant = { λ w. AreRead (settings_of w.settings.now) w.repo (option_copied w.preferred) (option_copied w.required) (formulas_of w.groups) };
}

impl<'a> Wishes<'a> {
    /// Finds the expressions of a repository.
    pub fn read(alloc: Global, settings: &'a Settings, repo: RepoId) -> Result<Wishes<'a>, NoMemory>
        ensures { IfOk result (λ w. w ≡ record { indices = settings.now; repo = repo }) }
    {
        let preferred = settings.preferred_expr(repo);
        let required = settings.required_expr(repo);
        let groups = GroupExprs::read(alloc, settings, repo)?;
        Ok(Wishes {
            alloc,
            settings,
            repo,
            preferred,
            required,
            groups,
        })
    }

    /// Whether the expression is true of the key at one of these paths, or without a path where there is none.
    fn is_true(&self, expr: &Expr, key: &Key, paths: &[Text], gone: bool) -> Result<bool, NoMemory>
        ensures { IfOk result (λ b. b ≡ list_any (λ path. holds expr.now (facts (settings_of self.now.indices) self.now.repo key.now gone path)) (cases_of paths.now)) }
    {
        let facts = plain_facts(self.alloc, self.settings, self.repo, key, gone)?;
        if paths.is_empty() {
            return Ok(holds_without_path(&self.groups, expr, facts));
        }
        holds_at_some(self.settings, &self.groups, expr, facts, paths)
    }

    /// Whether the repository wants the key, which has these paths; its own copy may be assumed gone. Without an
    /// expression it wants everything, and no memory is taken (git-annex-preferred-content).
    pub fn wants(&self, key: &Key, paths: &[Text], gone: bool) -> Result<bool, NoMemory>
        ensures { IfOk result (λ b. b ≡ wants (settings_of self.now.indices) self.now.repo key.now paths.now gone) }
    {
        match self.preferred {
            Some(expr) => self.is_true(expr, key, paths, gone),
            None => Ok(true),
        }
    }

    /// The text of the expression by which the repository requires the key, which has these paths, with its own copy
    /// assumed gone; none where it doesn't. Without an expression it requires nothing, and no memory is taken
    /// (git-annex-required).
    pub fn required(&self, key: &Key, paths: &[Text]) -> Result<Option<&'a [u8]>, NoMemory>
        ensures { IfOk result (λ o. option_map (λ t. t.now) o ≡ required (settings_of self.now.indices) self.now.repo key.now paths.now) }
    {
        let Some(expr) = self.required else {
            return Ok(None);
        };
        if self.is_true(expr, key, paths, true)? {
            return Ok(Some(self.settings.required(self.repo)));
        }
        Ok(None)
    }
}

fn holds_without_path(groups: &GroupExprs<'_>, expr: &Expr, plain: Facts) -> bool
    ensures { result ≡ holds expr.now (judged (formulas_of groups.now) plain) }
{
    let mut facts = plain;
    groups.judge(&mut facts);
    expr.eval(&facts)
}

/// Whether the expression holds at one of the paths.
fn holds_at_some(
    settings: &Settings,
    groups: &GroupExprs<'_>,
    expr: &Expr,
    plain: Facts,
    paths: &[Text],
) -> Result<bool, NoMemory>
    ensures { IfOk result (λ b. b ≡ list_any (λ path. holds expr.now (judged (formulas_of groups.now) (at_path plain (numcopies_of (settings_of settings.now) (path ∷ [])) path))) paths.now) }
{
    let mut facts = plain;
    for path in paths {
        let numcopies = settings.numcopies_at(path.bytes());
        let path = path.clone()?;
        set_path(&mut facts, numcopies, path);
        groups.judge(&mut facts);
        if expr.eval(&facts) {
            return Ok(true);
        }
    }
    Ok(false)
}
