//! The parts of a text that begins with a file.
ghost use Rattle.std.specs.Prelude.{◌≡◌, ◌==◌, ℕ, List, [], ◌++◌, length, not, MatchOption};
ghost use Rattle.std.specs.List.{prefix_len};
ghost use Rattle.union_merge.specs.LineSet.{IsLine};
ghost use Rattle.branch_bundle.specs.Parts.{IsFree, IsCut, file_of};

use annex_base::parse_decimal;

pub(crate) const FILE: &[u8] = b"file ";

/// The first file of a text, and what follows it.
#[derive(Clone, Copy)]
pub(crate) struct FirstFile<'a> {
    pub path: &'a [u8],
    pub lines: &'a [u8],
    pub rest: &'a [u8],
}

/// What follows the prefix, where the text begins with it.
pub(crate) fn strip<'a>(text: &'a [u8], prefix: &[u8]) -> Option<&'a [u8]>
    ensures { MatchOption result ((rest : List ℕ) → text.now ≡ prefix.now ++ rest → ⊥) (λ rest. text.now ≡ prefix.now ++ rest.now) }
{
    text.strip_prefix(prefix)
}

fn len_before(text: &[u8], byte: u8) -> usize
    ensures { result ≡ prefix_len (λ b. not (b == byte)) text.now }
{
    text.iter().take_while(|b| **b != byte).count()
}

/// What stands before the first such byte, and what stands after it.
pub(crate) fn cut_at(text: &[u8], byte: u8) -> Option<(&[u8], &[u8])>
    ensures { MatchOption result (IsFree byte text.now) (λ p. IsCut byte text.now p.0.now p.1.now) }
{
    let end = len_before(text, byte);
    let (front, back) = text.split_at(end);
    let Some((_, rest)) = back.split_first() else {
        return None;
    };
    Some((front, rest))
}

/// The first file of a text, where the text begins with a whole one. Its lines need not be in order.
pub(crate) fn split_file(text: &[u8]) -> Option<FirstFile<'_>>
    ensures { MatchOption result ((path lines rest : List ℕ) → IsLine path → text.now ≡ file_of path lines ++ rest → ⊥) (λ f. IsLine f.path.now × (text.now ≡ file_of f.path.now f.lines.now ++ f.rest.now)) }
{
    let Some(numbered) = strip(text, FILE) else {
        return None;
    };
    let Some((number, rest)) = cut_at(numbered, b' ') else {
        return None;
    };
    let Some(count) = parse_decimal(number) else {
        return None;
    };
    let Some((path, rest)) = cut_at(rest, b'\n') else {
        return None;
    };
    if path.is_empty() {
        return None;
    }
    if count > rest.len() as u64 {
        return None;
    }
    let (lines, rest) = rest.split_at(count as usize);
    Some(FirstFile { path, lines, rest })
}
