//! The expressions that `standard` and `groupwanted` stand for.

use crate::groups::{each_once, groupwanted_expr, holds, standard_expr};
use annex_base::{NoMemory, RepoId};
use std::alloc::Global;
use trust_groups::Settings;
use wanted_expr::{Expr, Facts};

/// The expressions that `standard` and `groupwanted` stand for in those of a repository: none where it is in no group with
/// a text, or in several (own).
#[derive(Debug, Drop)]
pub(crate) struct GroupExprs<'a> {
    standard: Option<&'a Expr>,
    groupwanted: Option<&'a Expr>,
}

impl<'a> GroupExprs<'a> {
    ghost use Rattle.std.specs.Prelude.{◌≡◌, IfOk};
    ghost use Rattle.trust_groups.specs.View.{settings_of};
    ghost use Rattle.wanted_rules.specs.Reads.{formulas_of, group_formulas, judged};

    /// Finds the expressions of a repository's groups.
    pub(crate) fn read(
        alloc: Global,
        settings: &'a Settings,
        repo: RepoId,
    ) -> Result<GroupExprs<'a>, NoMemory>
        ensures { IfOk result (λ g. formulas_of g ≡ group_formulas (settings_of settings.now) repo) }
    {
        let once = each_once(alloc, settings.groups(repo))?;
        let groups = once.as_slice();
        let standard = standard_expr(alloc, settings, groups)?;
        let groupwanted = groupwanted_expr(alloc, settings, groups)?;
        Ok(GroupExprs {
            standard,
            groupwanted,
        })
    }

    /// Judges the expressions of the groups by the facts, and then these have what was found.
    pub(crate) fn judge(&self, facts: &mut Facts)
        ensures { facts.new ≡ judged (formulas_of self.now) facts.old }
    {
        let standard = holds(self.standard, facts);
        facts.standard = standard;
        let groupwanted = holds(self.groupwanted, facts);
        facts.groupwanted = groupwanted;
    }
}
