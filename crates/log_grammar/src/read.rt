//! The reading of a line.

ghost use Rattle.std.specs.Prelude.{◌≡◌, length, IfOk, IfSome, Some};
ghost use Rattle.std.specs.List.{list_all};
ghost use Rattle.std.specs.Str.{is_utf8};
ghost use Rattle.log_grammar.specs.LineText.{IsLine, OneEntry};
ghost use Rattle.log_grammar.specs.declared.entry.Entry.{Entry};
ghost use Rattle.annex_base.specs.Lines.{is_not_newline};
ghost use Rattle.log_grammar.specs.Reading.{is_line_text, form_of, entry_of};

use crate::entry::{Entry, LogKind};
use crate::groups::read_groups;
use crate::location::read_location;
use crate::number::{read_copies, read_path_copies};
use crate::texts::{read_group_text, read_text};
use crate::trust::read_trust;
use annex_base::NoMemory;
use std::alloc::Global;

/// The greatest length of a line, in bytes (own).
const LINE_LIMIT: usize = 8192;

fn is_single(line: &[u8]) -> bool
    ensures { result ≡ list_all is_not_newline line.now }
{
    line.iter().all(|b| *b != b'\n')
}

fn is_text(line: &[u8]) -> bool
    ensures { result ≡ is_utf8 line.now }
{
    match str::from_utf8(line) {
        Ok(_) => true,
        Err(_) => false,
    }
}

fn is_line_text(line: &[u8]) -> bool
    ensures { result ≡ is_line_text line.now }
{
    line.len() <= LINE_LIMIT && is_text(line) && is_single(line)
}

fn read_form(alloc: Global, kind: LogKind, line: &[u8]) -> Result<Option<Entry>, NoMemory>
    ensures { IfOk result (λ o. o ≡ form_of kind line.now) }
{
    match kind {
        LogKind::Location => Ok(read_location(line)),
        LogKind::Trust => Ok(read_trust(line)),
        LogKind::Uuid | LogKind::Preferred | LogKind::Required => read_text(alloc, line),
        LogKind::Group => read_groups(alloc, line),
        LogKind::GroupPreferred => read_group_text(alloc, line),
        LogKind::Numcopies | LogKind::Mincopies => Ok(read_copies(line)),
        LogKind::NumcopiesPath | LogKind::MincopiesPath => read_path_copies(alloc, line),
    }
}

#[tactic(auto, unfolding(crate::specs::Reading::entry_of))]
pub(crate) fn read(alloc: Global, kind: LogKind, line: &[u8]) -> Result<Option<Entry>, NoMemory>
    ensures { IfOk result (λ o. o ≡ entry_of kind line.now) }
{
    if is_line_text(line) {
        read_form(alloc, kind, line)
    } else {
        Ok(None)
    }
}

/// What the line, given without its newline, says in a log file of this kind; none where it is outside the grammar
/// (git-annex internals: location log and the other log files).
pub fn read_line(alloc: Global, kind: LogKind, line: &[u8]) -> Result<Option<Entry>, NoMemory>
    ensures found { IfOk result (λ o. IfSome o (λ e. IsLine kind line.now e)) }
    ensures only { (e : Entry) → IsLine kind line.now e → IfOk result (λ o. o ≡ Some e) }
    ensures exact { IfOk result (λ o. o ≡ entry_of kind line.now) }
{
    read(alloc, kind, line)
}

/// A line of a log file says one thing at most.
pub fn lines_are_exact()
    ensures { OneEntry }
{}
