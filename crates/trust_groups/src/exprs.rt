//! What the texts of expressions say, kept while lines are added.

ghost use Rattle.std.specs.Prelude.{◌≡◌, true, bytes_eq, map, OnOk};
ghost use Rattle.std.specs.Option.{option_copied};
ghost use Rattle.log_lines.specs.Reading.{entry_of};
ghost use Rattle.wanted_expr.specs.Formula.{Atom};
ghost use Rattle.wanted_expr.specs.Wanted.{formula_read, standard_text, without_groupwanted};
ghost use Rattle.wanted_expr.specs.declared.data.Word.TheVariants as words;
ghost use Rattle.trust_groups.specs.Exprs.{AreRight, HasExpr, HaveExprs, HaveExprsSaid, KeepExprs, exprs_shown, has_exprs, texts_in, texts_said};
ghost use Rattle.trust_groups.specs.Reads.{kind_at};
ghost use Rattle.trust_groups.specs.View.{text_read};

use crate::indices::kind_at;
use annex_base::{Line, NoMemory, Text};
use log_lines::{Entry, LogKind, Value, read_line};
use std::alloc::Global;
use std::collections::BTreeMap;
use std::marker::Model;
use wanted_expr::Expr;

/// Of each text of an expression, what it says: each text is read once. Contracts see the texts with their formulas.
#[derive(Debug, Drop)]
pub(crate) struct Exprs {
    by_text: BTreeMap<Vec<u8>, Expr>,
    present: Expr,
}

impl Model for Exprs {
    ghost use Rattle.std.specs.Prelude.{◌≡◌, List, ℕ};
    ghost use Rattle.wanted_expr.specs.Formula.{Atom, Formula};
    ghost use Rattle.wanted_expr.specs.FormulaCode.{formula_code};
    ghost use Rattle.wanted_expr.specs.declared.data.Word.TheVariants as words;
    ghost use Rattle.std.specs.Coded.{coded×, coded_list, coded_ℕ};
    ghost use Rattle.trust_groups.specs.Exprs.{AreRight, exprs_shown};

    ghost Value = { List (List ℕ × Formula) };

    ghost coded = { coded_list (coded× (coded_list coded_ℕ) formula_code) };

    ghost view = { λ e. exprs_shown e.by_text.entries };

    ghost invariant = { λ e. AreRight (exprs_shown e.by_text.entries) × (e.present ≡ Atom words.Present) };
}

impl Exprs {
    ghost use Rattle.std.specs.Prelude.{◌≡◌, [], OnOk};
    ghost use Rattle.std.specs.Option.{option_copied};
    ghost use Rattle.wanted_expr.specs.Wanted.{formula_read, group_formula};
    ghost use Rattle.trust_groups.specs.Exprs.{HasExpr, KeepExprs};
    ghost use Rattle.trust_groups.specs.View.{text_read};

    /// What no texts say.
    pub(crate) fn new(alloc: Global) -> Exprs
        ensures { result ≡ [] }
    {
        let by_text = BTreeMap::new(alloc);
        let present = Expr::present();
        Exprs { by_text, present }
    }

    /// Reads the text, unless it is empty or was read before.
    fn keep(&mut self, alloc: Global, text: &[u8]) -> Result<(), NoMemory>
        ensures keeps { KeepExprs self.old self.new }
        ensures has { OnOk result (HasExpr self.new text.now) }
    {
        keep_text(&mut self.by_text, alloc, text)
    }

    /// What the text says, unless it is empty.
    pub(crate) fn of_text(&self, text: &[u8]) -> Option<&Expr>
        requires { HasExpr self.now text.now }
        ensures { option_copied result ≡ text_read formula_read text.now }
    {
        expr_in(&self.by_text, text)
    }

    /// What the text of a group's expression says, unless it is empty.
    pub(crate) fn of_group_text(&self, text: &[u8]) -> Option<&Expr>
        requires { HasExpr self.now text.now }
        ensures { option_copied result ≡ text_read group_formula text.now }
    {
        match expr_in(&self.by_text, text) {
            Some(expr) => Some(in_group(expr, &self.present)),
            None => None,
        }
    }
}

fn keep_text(
    by_text: &mut BTreeMap<Vec<u8>, Expr>,
    alloc: Global,
    text: &[u8],
) -> Result<(), NoMemory>
    requires { AreRight (exprs_shown by_text.old.entries) }
    ensures right { AreRight (exprs_shown by_text.new.entries) }
    ensures keeps { KeepExprs (exprs_shown by_text.old.entries) (exprs_shown by_text.new.entries) }
    ensures has { OnOk result (HasExpr (exprs_shown by_text.new.entries) text.now) }
{
    if text.is_empty() {
        return Ok(());
    }
    if by_text.contains_key(text) {
        return Ok(());
    }
    let expr = Expr::of_text(alloc, text)?;
    let text = Vec::from_slice(alloc, text)?;
    by_text.insert(text, expr)?;
    Ok(())
}

fn expr_in<'a>(by_text: &'a BTreeMap<Vec<u8>, Expr>, text: &[u8]) -> Option<&'a Expr>
    requires { HasExpr (exprs_shown by_text.now.entries) text.now }
    ensures { option_copied result ≡ text_read formula_read text.now }
{
    if text.is_empty() {
        return None;
    }
    by_text.get(text)
}

/// What an expression says as that of a group.
fn in_group<'a>(expr: &'a Expr, present: &'a Expr) -> &'a Expr
    requires { present.now ≡ Atom words.Present }
    ensures { result.now ≡ without_groupwanted expr.now }
{
    if expr.has_groupwanted() {
        present
    } else {
        expr
    }
}

fn same(name: &[u8], group: &[u8]) -> bool
    ensures { result ≡ bytes_eq name.now group.now }
{
    name == group
}

/// The expression of a standard group; empty for another group (own).
pub(crate) fn standard_text(group: &[u8]) -> &'static [u8]
    ensures { result.now ≡ standard_text group.now }
{
    if same(b"backup", group) {
        return b"anything";
    }
    if same(b"source", group) {
        return b"not copies=1";
    }
    if same(b"archive", group) {
        return b"not copies=archive:1 or approxlackingcopies=1";
    }
    if same(b"client", group) {
        return b"exclude=*archive/* or not copies=archive:1 or approxlackingcopies=1";
    }
    if same(b"unwanted", group) {
        return b"nothing";
    }
    b""
}

/// Reads the expressions of the standard groups among these.
fn keep_standard(exprs: &mut Exprs, alloc: Global, groups: &[Text]) -> Result<(), NoMemory>
    ensures keeps { KeepExprs exprs.old exprs.new }
    ensures have { OnOk result (HaveExprs exprs.new (map standard_text groups.now)) }
{
    for group in groups {
        exprs.keep(alloc, standard_text(group.bytes()))?;
    }
    Ok(())
}

/// Reads the expressions that the value has or stands for.
fn keep_value(exprs: &mut Exprs, alloc: Global, value: &Value) -> Result<(), NoMemory>
    ensures keeps { KeepExprs exprs.old exprs.new }
    ensures have { OnOk result (HaveExprs exprs.new (texts_in value.now)) }
{
    match value {
        Value::Text(text) => exprs.keep(alloc, text.bytes()),
        Value::Groups(groups) => keep_standard(exprs, alloc, groups.as_slice()),
        _ => Ok(()),
    }
}

fn keep_entry(exprs: &mut Exprs, alloc: Global, entry: Option<Entry>) -> Result<(), NoMemory>
    ensures keeps { KeepExprs exprs.old exprs.new }
    ensures have { OnOk result (HaveExprs exprs.new (texts_said entry)) }
{
    match entry {
        Some(entry) => keep_value(exprs, alloc, &entry.value),
        None => Ok(()),
    }
}

/// Reads the expressions of the line, in a log file of this kind.
fn keep_said(exprs: &mut Exprs, alloc: Global, kind: LogKind, line: &Line) -> Result<(), NoMemory>
    ensures keeps { KeepExprs exprs.old exprs.new }
    ensures have { OnOk result (HaveExprs exprs.new (texts_said (entry_of kind line.now))) }
{
    let entry = read_line(alloc, kind, line.bytes())?;
    keep_entry(exprs, alloc, entry)
}

fn keep_all(exprs: &mut Exprs, alloc: Global, kind: LogKind, lines: &[Line]) -> Result<(), NoMemory>
    ensures keeps { KeepExprs exprs.old exprs.new }
    ensures have { OnOk result (HaveExprsSaid exprs.new kind lines.now) }
{
    for line in lines {
        keep_said(exprs, alloc, kind, line)?;
    }
    Ok(())
}

fn has_exprs(kind: LogKind) -> bool
    ensures { result ≡ has_exprs kind }
{
    matches!(
        kind,
        LogKind::Group | LogKind::Preferred | LogKind::Required | LogKind::GroupPreferred
    )
}

/// Reads the expressions of the line, which is one of the file of this path, where that has some.
pub(crate) fn keep_exprs_of(
    exprs: &mut Exprs,
    alloc: Global,
    path: &[u8],
    line: &Line,
) -> Result<(), NoMemory>
    ensures keeps { KeepExprs exprs.old exprs.new }
    ensures have { OnOk result (has_exprs (kind_at path.now) ≡ true → HaveExprs exprs.new (texts_said (entry_of (kind_at path.now) line.now))) }
{
    let kind = kind_at(path);
    if has_exprs(kind) {
        keep_said(exprs, alloc, kind, line)
    } else {
        Ok(())
    }
}

/// Reads the expressions of a file's lines.
pub(crate) fn keep_exprs(
    exprs: &mut Exprs,
    alloc: Global,
    path: &[u8],
    lines: &[Line],
) -> Result<(), NoMemory>
    ensures keeps { KeepExprs exprs.old exprs.new }
    ensures have { OnOk result (has_exprs (kind_at path.now) ≡ true → HaveExprsSaid exprs.new (kind_at path.now) lines.now) }
{
    let kind = kind_at(path);
    if has_exprs(kind) {
        keep_all(exprs, alloc, kind, lines)
    } else {
        Ok(())
    }
}
