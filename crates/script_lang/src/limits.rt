//! The limits of what is counted.
ghost use Rattle.std.specs.Prelude.{◌≡◌, ◌+◌, nat_lt, length, Some, None, if◌then◌else◌};
ghost use Rattle.script_forms.specs.Changes.{as_change};
ghost use Rattle.script_forms.specs.Context.{new_paths};
ghost use Rattle.script_forms.specs.Limits as limits;

use crate::applying::new_path;
use annex_base::Text;
use script_commands::Command;
use script_forms::{Change, Context, Quantity, change_of};
use script_words::Content;

/// Whether the content passes the limit of all contents.
fn contents_pass(context: &Context, content: &Content) -> bool
    ensures { result ≡ nat_lt 268435456 (context.now.contents + length content.now) }
{
    content.size() > Quantity::Contents.limit() - context.contents
}

/// Whether the path passes the limit of the tree's paths.
fn files_pass(context: &Context, path: &Text) -> bool
    ensures { result ≡ nat_lt 4096 (context.now.files + new_paths context.now.tree path.now) }
{
    context.files + new_path(&context.tree, path) > Quantity::Files.limit()
}

/// Whether one repository more passes their limit.
fn repositories_pass(context: &Context) -> bool
    ensures { result ≡ nat_lt 16 (length context.now.repos + 1) }
{
    context.repos.len() as u64 + 1 > Quantity::Repositories.limit()
}

/// Whether a wait passes the limit of all waits.
fn waits_pass(context: &Context, milliseconds: u64) -> bool
    ensures { result ≡ nat_lt 1000000000000 (context.now.waited + milliseconds) }
{
    milliseconds > Quantity::Time.limit() - context.waited
}

/// The quantity, where its limit is passed.
fn told(passed: bool, quantity: Quantity) -> Option<Quantity>
    ensures { result ≡ (if passed then Some quantity else None) }
{
    if passed { Some(quantity) } else { None }
}

/// The first of the limits that an added content and its path pass.
fn add_passes(context: &Context, content: &Content, path: &Text) -> Option<Quantity>
    ensures { result ≡ limits.contents_pass context.now content.now (limits.files_pass context.now path.now) }
{
    if contents_pass(context, content) {
        return Some(Quantity::Contents);
    }
    told(files_pass(context, path), Quantity::Files)
}

/// The first limit that the change passes.
fn limit_passed(context: &Context, change: &Change<'_>) -> Option<Quantity>
    ensures { result ≡ limits.limit_passed context.now (as_change change.now) }
{
    match *change {
        Change::Declares { .. } => told(repositories_pass(context), Quantity::Repositories),
        Change::Puts { content, .. } => told(contents_pass(context, content), Quantity::Contents),
        Change::Brings { content } => told(contents_pass(context, content), Quantity::Contents),
        Change::Adds { content, path, .. } => add_passes(context, content, path),
        Change::Names { path, .. } => told(files_pass(context, path), Quantity::Files),
        Change::Waits { milliseconds } => told(waits_pass(context, milliseconds), Quantity::Time),
        Change::Nothing => None,
    }
}

/// The first limit that the command passes.
pub fn first_limit(context: &Context, command: &Command) -> Option<Quantity>
    ensures { result ≡ limits.first_limit context.now command.now }
{
    limit_passed(context, &change_of(command))
}
