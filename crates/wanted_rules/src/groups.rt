//! The groups of a repository, and their expressions.

ghost use Rattle.std.specs.Prelude.{◌≡◌, ◌++◌, IfOk, OnOk, bytes_eq, filter, map, option_to_list};
ghost use Rattle.std.specs.List.{list_any};
ghost use Rattle.std.specs.Option.{option_copied};
ghost use Rattle.annex_base.specs.Lists.{Each};
ghost use Rattle.annex_key.specs.Tree.{each_once};
ghost use Rattle.trust_groups.specs.View.{IsGroupOfSome, settings_of, text_read};
ghost use Rattle.wanted_expr.specs.Wanted.{formula_read, group_formula, is_text, only_text, standard_text};
ghost use Rattle.wanted_rules.specs.Reads.{formula_holds, once_with, only_formula};

use annex_base::{NoMemory, Text};
use std::alloc::Global;
use trust_groups::Settings;
use wanted_expr::{Expr, Facts};

fn is_one_of(word: &[u8], words: &[&[u8]]) -> bool
    ensures { result ≡ list_any (λ w. bytes_eq word.now w.now) words.now }
{
    words.iter().any(|w| word == *w)
}

/// Adds the name unless it stands there.
fn put_once<'a>(once: &mut Vec<&'a [u8]>, name: &'a [u8]) -> Result<(), NoMemory>
    ensures { OnOk result (map (λ g. g.now) once.new.items ≡ once_with (map (λ g. g.now) once.old.items) name.now) }
{
    if !is_one_of(name, once.as_slice()) {
        once.push(name)?;
    }
    Ok(())
}

/// The groups without one that stood before.
pub(crate) fn each_once(alloc: Global, groups: &[Text]) -> Result<Vec<&[u8]>, NoMemory>
    ensures { IfOk result (λ v. map (λ g. g.now) v.items ≡ each_once groups.now) }
{
    let mut once = Vec::new(alloc);
    for group in groups {
        put_once(&mut once, group.bytes())?;
    }
    Ok(once)
}

/// Adds the expression, if there is one.
fn put_expr<'a>(exprs: &mut Vec<&'a Expr>, expr: Option<&'a Expr>) -> Result<(), NoMemory>
    ensures { OnOk result (map (λ e. e.now) exprs.new.items ≡ map (λ e. e.now) exprs.old.items ++ option_to_list (option_copied expr.entry)) }
{
    if let Some(expr) = expr {
        exprs.push(expr)?;
    }
    Ok(())
}

/// The expressions of the standard groups among these.
fn standard_exprs<'a>(
    alloc: Global,
    settings: &'a Settings,
    groups: &[&[u8]],
) -> Result<Vec<&'a Expr>, NoMemory>
    requires { Each (λ g. IsGroupOfSome (settings_of settings.now) g.now) groups.now }
    ensures { IfOk result (λ v. map (λ e. e.now) v.items ≡ map formula_read (filter is_text (map (λ g. standard_text g.now) groups.now))) }
{
    let mut exprs = Vec::new(alloc);
    for group in groups {
        put_expr(&mut exprs, settings.standard_expr(group))?;
    }
    Ok(exprs)
}

/// The expressions of these groups.
fn preferred_exprs<'a>(
    alloc: Global,
    settings: &'a Settings,
    groups: &[&[u8]],
) -> Result<Vec<&'a Expr>, NoMemory>
    ensures { IfOk result (λ v. map (λ e. e.now) v.items ≡ map group_formula (filter is_text (map (λ g. (settings_of settings.now).group_preferred g.now) groups.now))) }
{
    let mut exprs = Vec::new(alloc);
    for group in groups {
        put_expr(&mut exprs, settings.group_expr(group))?;
    }
    Ok(exprs)
}

/// The one expression; none where there are several.
fn only_expr<'a>(exprs: &[&'a Expr]) -> Option<&'a Expr>
    ensures { option_copied result ≡ only_formula (map (λ e. e.now) exprs.now) }
{
    let Some((expr, rest)) = exprs.split_first() else {
        return None;
    };
    if rest.is_empty() { Some(*expr) } else { None }
}

/// What the expression of the one standard group among these says.
pub(crate) fn standard_expr<'a>(
    alloc: Global,
    settings: &'a Settings,
    groups: &[&[u8]],
) -> Result<Option<&'a Expr>, NoMemory>
    requires { Each (λ g. IsGroupOfSome (settings_of settings.now) g.now) groups.now }
    ensures { IfOk result (λ e. option_copied e ≡ text_read formula_read (only_text (filter is_text (map (λ g. standard_text g.now) groups.now)))) }
{
    let exprs = standard_exprs(alloc, settings, groups)?;
    Ok(only_expr(exprs.as_slice()))
}

/// What the expression of the one group with an expression among these says.
pub(crate) fn groupwanted_expr<'a>(
    alloc: Global,
    settings: &'a Settings,
    groups: &[&[u8]],
) -> Result<Option<&'a Expr>, NoMemory>
    ensures { IfOk result (λ e. option_copied e ≡ text_read group_formula (only_text (filter is_text (map (λ g. (settings_of settings.now).group_preferred g.now) groups.now)))) }
{
    let exprs = preferred_exprs(alloc, settings, groups)?;
    Ok(only_expr(exprs.as_slice()))
}

/// Whether there is an expression, and it holds.
pub(crate) fn holds(expr: Option<&Expr>, facts: &Facts) -> bool
    ensures { result ≡ formula_holds (option_copied expr.entry) facts.now }
{
    match expr {
        Some(expr) => expr.eval(facts),
        None => false,
    }
}
