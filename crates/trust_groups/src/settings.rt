//! Settings: what a repository knows from the lines that it has, kept while lines are added.

ghost use Rattle.std.specs.Prelude.{◌≡◌, ◌≢◌, ◌↔◌, ◌≤◌, [], ◌∷◌, ℕ, List, IfOk, OnOk, OnErr};
ghost use Rattle.std.specs.List.Sorted.{IsStrictlySortedBy};
ghost use Rattle.std.specs.Option.{option_copied};
ghost use Rattle.annex_base.specs.ByteOrder.{text_cmp};
ghost use Rattle.annex_base.specs.Lists.{Member};
ghost use Rattle.annex_base.specs.declared.kinds.Level.TheVariants as trust;
ghost use Rattle.glob_match.specs.Numbers.{mincopies_of, numcopies_of};
ghost use Rattle.log_lines.specs.Files.{file_name};
ghost use Rattle.union_merge.specs.Branch.{lines_at};
ghost use Rattle.trust_groups.specs.Settings.{Lines, settings};
ghost use Rattle.trust_groups.specs.Alike.{IsNoLog};
ghost use Rattle.trust_groups.specs.Reads.{HaveReadLines, index_at, lines_with, view_of};
ghost use Rattle.trust_groups.specs.View.{IsGroupOfSome, settings_of, text_read};
ghost use Rattle.wanted_expr.specs.Wanted.{formula_read, group_formula, standard_text};

use crate::claims::claims_in;
use crate::exprs::{Exprs, keep_exprs, keep_exprs_of, standard_text};
use crate::groups::grouped_in;
use crate::indices::add_file;
use crate::levels::level_among;
use crate::numbers::{number_of_path, number_of_paths};
use crate::patterns::{Globs, add_kept, keep_globs};
use crate::values::{groups_in, number_in, text_in, value_of, value_of_group};
use annex_base::{Level, Line, NoMemory, RepoId, Text};
use annex_key::Key;
use hash_dirs::location_path;
use log_lines::{LogKind, Newest, Topic};
use std::alloc::Global;
use std::collections::BTreeMap;
use std::marker::Model;
use union_merge::Branch;
use wanted_expr::Expr;

/// What a repository knows from its branch: how far each repository is trusted, how many copies are wanted, groups,
/// descriptions, expressions of wanted content, and which repositories are claimed to have a key (git-annex trust,
/// git-annex-group, git-annex-describe, git-annex-numcopies, git-annex-mincopies, git-annex-preferred-content, git-annex
/// internals: location log). Nothing set is the level semitrusted, one copy, no groups, or an empty text. They are kept as
/// an index of the newest entries of each file: contracts see the indices by path. The globs of patterns of paths, and
/// the expressions, are read once, as their lines are added.
#[derive(Debug, Drop)]
pub struct Settings {
    alloc: Global,
    files: BTreeMap<Vec<u8>, Newest>,
    globs: Globs,
    exprs: Exprs,
}

impl Model for Settings {
    ghost use Rattle.std.specs.Prelude.{List, ℕ};
    ghost use Rattle.log_lines.specs.Index.{Index};
    ghost use Rattle.trust_groups.specs.Alike.{IsNoLog};
    ghost use Rattle.trust_groups.specs.Reads.{view_of};
    ghost use Rattle.trust_groups.specs.Exprs.{AreReadOnce};
    ghost use Rattle.trust_groups.specs.Globs.{AreKept};

    ghost Value = { List (List ℕ × Index) };

    ghost view = { λ s. view_of s.files.entries };

    ghost invariant = { λ s. AreKept s.globs.entries (view_of s.files.entries) × AreReadOnce s.exprs (view_of s.files.entries) };
}

impl Settings {
    /// The settings of no lines.
    pub fn new(alloc: Global) -> Settings
        ensures { HaveReadLines result (λ path. []) }
    {
        let files = BTreeMap::new(alloc);
        let globs = BTreeMap::new(alloc);
        let exprs = Exprs::new(alloc);
        Settings {
            alloc,
            files,
            globs,
            exprs,
        }
    }

    /// Reads a branch.
    pub fn read(alloc: Global, branch: &Branch) -> Result<Settings, NoMemory>
        ensures reads { IfOk result (λ s. HaveReadLines s (lines_at branch.now)) }
        ensures exact { IfOk result (λ s. settings_of s ≡ settings (lines_at branch.now)) }
    {
        let mut files = BTreeMap::new(alloc);
        let mut globs = BTreeMap::new(alloc);
        let mut exprs = Exprs::new(alloc);
        for (path, lines) in branch.files() {
            let path = path.as_slice();
            let lines = lines.lines();
            keep_globs(&mut globs, alloc, path, lines)?;
            keep_exprs(&mut exprs, alloc, path, lines)?;
            add_file(&mut files, alloc, path, lines)?;
        }
        Ok(Settings {
            alloc,
            files,
            globs,
            exprs,
        })
    }

    /// Adds a line of the file of this path. A line of a file that is no log, or that is outside the file's grammar, changes
    /// nothing. The cost grows with the logarithms of the numbers of files and of topics.
    pub fn add(&mut self, path: &[u8], line: &Line) -> Result<(), NoMemory>
        ensures reads { OnOk result ((lines : Lines) → HaveReadLines self.old lines → HaveReadLines self.new (lines_with lines path.now line.now)) }
        ensures settings { OnOk result ((lines : Lines) → HaveReadLines self.old lines → settings_of self.new ≡ settings (lines_with lines path.now line.now)) }
        ensures other { OnOk result ((lines : Lines) → HaveReadLines self.old lines → IsNoLog path.now → settings_of self.new ≡ settings_of self.old) }
        ensures err { OnErr result (self.new ≡ self.old) }
    {
        keep_exprs_of(&mut self.exprs, self.alloc, path, line)?;
        add_kept(&mut self.files, &mut self.globs, self.alloc, path, line)
    }

    /// The index of a file's newest entries.
    fn file(&self, path: &[u8]) -> Option<&Newest>
        ensures { option_copied result ≡ index_at self.now path.now }
    {
        self.files.get(path)
    }

    fn log(&self, kind: LogKind) -> Option<&Newest>
        ensures { option_copied result ≡ index_at self.now (file_name kind) }
    {
        self.file(kind.file_name())
    }

    /// How far a repository is trusted (git-annex trust).
    pub fn level(&self, repo: RepoId) -> Level
        ensures { result ≡ (settings_of self.now).level repo }
    {
        level_among(self.log(LogKind::Trust), repo)
    }

    /// How many copies of a content are to be preserved (git-annex-numcopies).
    pub fn numcopies(&self) -> u32
        ensures value { result ≡ (settings_of self.now).numcopies }
        ensures some { 1 ≤ result }
    {
        number_in(value_of(self.log(LogKind::Numcopies), &Topic::Whole))
    }

    /// How many copies are never to be gone below (git-annex-mincopies).
    pub fn mincopies(&self) -> u32
        ensures value { result ≡ (settings_of self.now).mincopies }
        ensures some { 1 ≤ result }
    {
        number_in(value_of(self.log(LogKind::Mincopies), &Topic::Whole))
    }

    /// How many copies of a content with these paths are to be preserved: the greatest number of its paths (own). The
    /// number of a path is the greatest whose pattern matches it, or else the whole number. It takes no memory.
    pub fn numcopies_of(&self, paths: &[Text]) -> u32
        ensures { result ≡ numcopies_of (settings_of self.now) paths.now }
    {
        let whole = self.numcopies();
        let log = self.log(LogKind::NumcopiesPath);
        number_of_paths(&self.globs, log, whole, paths)
    }

    /// How many copies of a content with these paths are never to be gone below (own).
    pub fn mincopies_of(&self, paths: &[Text]) -> u32
        ensures { result ≡ mincopies_of (settings_of self.now) paths.now }
    {
        let whole = self.mincopies();
        let log = self.log(LogKind::MincopiesPath);
        number_of_paths(&self.globs, log, whole, paths)
    }

    /// How many copies of a content at this path are to be preserved (own).
    pub fn numcopies_at(&self, path: &[u8]) -> u32
        ensures { result ≡ numcopies_of (settings_of self.now) (path.now ∷ []) }
    {
        let whole = self.numcopies();
        let log = self.log(LogKind::NumcopiesPath);
        number_of_path(&self.globs, log, whole, path)
    }

    /// How many copies of a content at this path are never to be gone below (own).
    pub fn mincopies_at(&self, path: &[u8]) -> u32
        ensures { result ≡ mincopies_of (settings_of self.now) (path.now ∷ []) }
    {
        let whole = self.mincopies();
        let log = self.log(LogKind::MincopiesPath);
        number_of_path(&self.globs, log, whole, path)
    }

    /// The groups that a repository is in, in the order of their line (git-annex-group).
    pub fn groups(&self, repo: RepoId) -> &[Text]
        ensures { result.now ≡ (settings_of self.now).groups repo }
    {
        groups_in(value_of(self.log(LogKind::Group), &Topic::Repo(repo)))
    }

    /// A repository's description (git-annex-describe).
    pub fn description(&self, repo: RepoId) -> &[u8]
        ensures { result.now ≡ (settings_of self.now).description repo }
    {
        text_in(value_of(self.log(LogKind::Uuid), &Topic::Repo(repo)))
    }

    /// The expression of the content that a repository prefers (git-annex-preferred-content).
    pub fn preferred(&self, repo: RepoId) -> &[u8]
        ensures { result.now ≡ (settings_of self.now).preferred repo }
    {
        text_in(value_of(self.log(LogKind::Preferred), &Topic::Repo(repo)))
    }

    /// The expression of the content that a repository requires (git-annex-required).
    pub fn required(&self, repo: RepoId) -> &[u8]
        ensures { result.now ≡ (settings_of self.now).required repo }
    {
        text_in(value_of(self.log(LogKind::Required), &Topic::Repo(repo)))
    }

    /// The expression of the content that the repositories of a group prefer (git-annex-groupwanted).
    pub fn group_preferred(&self, group: &[u8]) -> &[u8]
        ensures { result.now ≡ (settings_of self.now).group_preferred group.now }
    {
        text_in(value_of_group(self.log(LogKind::GroupPreferred), group))
    }

    /// What the expression of the content that a repository prefers says, where it isn't empty: one outside the grammar
    /// reads as `present` (git-annex-preferred-content). It takes no memory.
    pub fn preferred_expr(&self, repo: RepoId) -> Option<&Expr>
        ensures { option_copied result ≡ text_read formula_read ((settings_of self.now).preferred repo) }
    {
        self.exprs.of_text(self.preferred(repo))
    }

    /// What the expression of the content that a repository requires says, where it isn't empty (git-annex-required).
    pub fn required_expr(&self, repo: RepoId) -> Option<&Expr>
        ensures { option_copied result ≡ text_read formula_read ((settings_of self.now).required repo) }
    {
        self.exprs.of_text(self.required(repo))
    }

    /// What the expression of the content that the repositories of a group prefer says, where it isn't empty: one with
    /// `groupwanted` reads as `present` too (git-annex-groupwanted).
    pub fn group_expr(&self, group: &[u8]) -> Option<&Expr>
        ensures { option_copied result ≡ text_read group_formula ((settings_of self.now).group_preferred group.now) }
    {
        self.exprs.of_group_text(self.group_preferred(group))
    }

    /// What the expression of a standard group says, where a repository is in it; none for another group (own).
    pub fn standard_expr(&self, group: &[u8]) -> Option<&Expr>
        requires { IsGroupOfSome (settings_of self.now) group.now }
        ensures { option_copied result ≡ text_read formula_read (standard_text group.now) }
    {
        self.exprs.of_text(standard_text(group))
    }

    /// The repositories that are claimed to have a key, each once, in order of identifier: those whose newest status is
    /// `1`, but for dead ones (git-annex internals: location log; git-annex-dead). It costs the entries of the key's own
    /// log.
    pub fn claims(&self, key: &Key) -> Result<Vec<RepoId>, NoMemory>
        ensures value { IfOk result (λ v. v.items ≡ (settings_of self.now).claims key.now) }
        ensures sorted { IfOk result (λ v. IsStrictlySortedBy text_cmp v.items) }
        ensures alive { IfOk result (λ v. (repo : List ℕ) → Member repo v.items → (settings_of self.now).level repo ≢ trust.Dead) }
    {
        let path = location_path(self.alloc, key)?;
        claims_in(
            self.alloc,
            self.log(LogKind::Trust),
            self.file(path.bytes()),
        )
    }

    /// The repositories that are in at least one group, each once, in order of identifier (git-annex-group).
    pub fn grouped(&self) -> Result<Vec<RepoId>, NoMemory>
        ensures value { IfOk result (λ v. v.items ≡ (settings_of self.now).grouped) }
        ensures sorted { IfOk result (λ v. IsStrictlySortedBy text_cmp v.items) }
        ensures each { IfOk result (λ v. (repo : List ℕ) → Member repo v.items ↔ ((settings_of self.now).groups repo ≢ [])) }
    {
        grouped_in(self.alloc, self.log(LogKind::Group))
    }
}
