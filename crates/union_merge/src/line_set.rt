//! A set of lines, in byte order.
ghost use Rattle.std.specs.Prelude.{◌≡◌, ◌+◌, ◌<◌, ◌↔◌, List, ℕ, [], ◌++◌, length, insert, IsTrue, IfOk, IfErr, OnOk, OnErr, MatchBool, map, ◌≤◌, vec_len, vec_capacity};
ghost use Rattle.std.specs.Cmp.Rules.{comparing};
ghost use Rattle.std.specs.Cmp.Lexicographic.{pointwise};
ghost use Rattle.std.specs.Prelude.{◌==◌};
ghost use Rattle.std.specs.List.Sorted.{IsStrictlySortedBy};
ghost use Rattle.std.specs.List.{slice_split};
ghost use Rattle.std.proofs.Common.{rules};
ghost use Rattle.annex_base.specs.ByteOrder.{text_cmp};
ghost use Rattle.annex_base.specs.Lists.{Member, Each};
ghost use Rattle.union_merge.specs.LineSet.{IsLine, IsLineSet, has_line, with_line, union, difference, lines_in, set_of, text_of};

use annex_base::{Line, NoMemory};
use std::alloc::{AllocError, Global};
use std::cmp::Ordering;
use std::marker::Model;

// Up to this many new lines are cheaper to put each in its place than to sort with all others.
const FEW: usize = 64;

/// The lines of a file of a branch, as a set (git-annex internals: branch files). Contracts see it as the list of its
/// lines in byte order, each once. A line has a byte or more, and no newline.
#[derive(Clone, Debug, Drop)]
pub struct LineSet {
    lines: Vec<Line>,
}

impl Model for LineSet {
    ghost use Rattle.std.specs.Prelude.{List, ℕ};
    ghost use Rattle.union_merge.specs.LineSet.{IsLineSet};

    ghost Value = { List (List ℕ) };

    ghost view = { λ s. s.lines.items };

    ghost invariant = { λ s. IsLineSet s.lines.items };
}

impl LineSet {
    /// No lines.
    pub fn new(alloc: Global) -> LineSet
        ensures { result ≡ [] }
    {
        LineSet {
            lines: Vec::new(alloc),
        }
    }

    /// The lines of a file's bytes. A line ends at a newline or at the end of the bytes, and empty lines don't count.
    pub fn from_bytes(alloc: Global, bytes: &[u8]) -> Result<LineSet, NoMemory>
        ensures { IfOk result (λ s. s ≡ set_of bytes.now) }
    {
        let lines = lines_of(alloc, bytes)?;
        Ok(LineSet::from_lines(lines))
    }

    /// The set of these lines, which may stand in any order and more than once.
    pub fn from_lines(lines: Vec<Line>) -> LineSet
        requires { Each IsLine lines.items }
        ensures { result ≡ union [] lines.items }
    {
        let mut lines = lines;
        put_in_order(&mut lines);
        LineSet { lines }
    }

    /// Adds a line, and answers whether it is new.
    pub fn insert(&mut self, line: &[u8]) -> Result<bool, NoMemory>
        requires { IsLine line.now }
        ensures ok { OnOk result (self.new ≡ with_line self.old line.now) }
        ensures new_line { IfOk result (λ b. MatchBool b (Member line.now self.old → ⊥) (Member line.now self.old)) }
        ensures err { OnErr result (self.new ≡ self.old) }
    {
        let place = place_of(&self.lines, line);
        let Err(at) = place else {
            return Ok(false);
        };
        let alloc = *self.lines.allocator();
        let copy = Line::new(alloc, line)?;
        self.lines.insert(at, copy)?;
        Ok(true)
    }

    /// Adds the lines of another set. Only those that are new are copied.
    pub fn merge(&mut self, other: &LineSet) -> Result<(), NoMemory>
        ensures ok { OnOk result (self.new ≡ union self.old other.now) }
        ensures err { OnErr result (self.new ≡ self.old) }
    {
        let new = other.difference(self)?;
        self.lines.reserve(new.lines.len())?;
        add_lines(&mut self.lines, new.lines);
        Ok(())
    }

    /// Takes the lines of another set off. It takes no memory.
    pub fn take_off(&mut self, other: &LineSet)
        ensures { self.new ≡ difference self.old other.now }
    {
        keep_others(&mut self.lines, other);
    }

    /// Those of its lines that the other set lacks.
    pub fn difference(&self, other: &LineSet) -> Result<LineSet, NoMemory>
        ensures { IfOk result (λ s. s ≡ difference self.now other.now) }
    {
        let alloc = *self.lines.allocator();
        let lines = lines_without(alloc, &self.lines, other)?;
        Ok(LineSet { lines })
    }

    /// The same lines once more.
    pub fn copy(&self) -> Result<LineSet, NoMemory>
        ensures value { IfOk result (λ s. s ≡ self.now) }
        ensures set { IsLineSet self.now }
    {
        // For the proof: its lines are in order.
        let _ = &self.lines;
        Ok(self.clone()?)
    }

    /// Whether the line is in the set.
    pub fn contains(&self, line: &[u8]) -> bool
        ensures { IsTrue result ↔ Member line.now self.now }
    {
        place_of(&self.lines, line).is_ok()
    }

    /// The lines in byte order.
    pub fn lines(&self) -> &[Line]
        ensures value { result.now ≡ self.now }
        ensures set { IsLineSet self.now }
    {
        &self.lines
    }

    /// The bytes of a file with these lines: each line and a newline.
    pub fn to_bytes(&self) -> Result<Vec<u8>, NoMemory>
        ensures { IfOk result (λ v. v.items ≡ text_of self.now) }
    {
        let alloc = *self.lines.allocator();
        let mut out = Vec::new(alloc);
        put_lines(&mut out, &self.lines)?;
        Ok(out)
    }
}

/// Whether the bytes are a line: a byte or more, and no newline.
pub fn is_line(bytes: &[u8]) -> bool
    ensures { IsTrue result ↔ IsLine bytes.now }
{
    !bytes.is_empty() && !bytes.contains(&b'\n')
}

impl PartialEq for LineSet {
    ghost eq = { pointwise (pointwise ◌==◌) };

    ghost laws = { Prim.search (comparing, rules) };

    fn eq(&self, other: &LineSet) -> bool {
        self.lines == other.lines
    }
}

impl Eq for LineSet {
    ghost laws = { Prim.search (comparing, rules) };
}

fn pieces_of(alloc: Global, bytes: &[u8]) -> Result<Vec<&[u8]>, AllocError>
    ensures { IfOk result (λ v. map (λ w. w.now) v.items ≡ slice_split (λ b. b == 10) bytes.now) }
{
    bytes.split(|b| *b == b'\n').collect(alloc)
}

fn lines_of(alloc: Global, bytes: &[u8]) -> Result<Vec<Line>, NoMemory>
    ensures { IfOk result (λ v. v.items ≡ lines_in bytes.now) }
{
    let pieces = pieces_of(alloc, bytes)?;
    let mut lines = Vec::new(alloc);
    for piece in &pieces {
        if !piece.is_empty() {
            lines.push(Line::new(alloc, piece)?)?;
        }
    }
    Ok(lines)
}

// Where the line stands, or where it would go.
fn place_of(lines: &[Line], line: &[u8]) -> Result<usize, usize>
    requires { IsStrictlySortedBy text_cmp lines.now }
    ensures found { OnOk result (Member line.now lines.now) }
    ensures missing { OnErr result (Member line.now lines.now → ⊥) }
    ensures place { IfErr result (λ at. insert lines.now at line.now ≡ with_line lines.now line.now) }
    ensures within { IfErr result (λ at. at ≤ length lines.now) }
{
    lines.binary_search_by(
        |other: &Line| -> Ordering
            ensures { result ≡ text_cmp other.now line.entry.now }
        { other.bytes().cmp(line) },
    )
}

fn is_among(lines: &LineSet, line: &[u8]) -> bool
    ensures { result ≡ has_line lines.now line.now }
{
    lines.contains(line)
}

// Copies of those of the lines that the set lacks.
fn lines_without(alloc: Global, lines: &[Line], other: &LineSet) -> Result<Vec<Line>, NoMemory>
    ensures { IfOk result (λ v. v.items ≡ difference lines.now other.now) }
{
    let mut new = Vec::new(alloc);
    for line in lines {
        if !is_among(other, line.bytes()) {
            new.push(line.clone()?)?;
        }
    }
    Ok(new)
}

// Keeps those of the lines that the set lacks.
fn keep_others(lines: &mut Vec<Line>, other: &LineSet)
    ensures { lines.new.items ≡ difference lines.old.items other.now }
{
    lines.retain(|line| !is_among(other, line.bytes()));
}

// Adds lines for which there is room: few each in its place, which moves what stands behind it, and many at the end,
// after which all are sorted.
fn add_lines(lines: &mut Vec<Line>, new: Vec<Line>)
    requires order { IsStrictlySortedBy text_cmp lines.old.items }
    requires room { vec_len lines.old + vec_len new ≤ vec_capacity lines.old }
    ensures { lines.new.items ≡ union lines.old.items new.items }
{
    if new.len() <= FEW {
        put_each(lines, new);
    } else {
        append(lines, new);
        put_in_order(lines);
    }
}

fn put_each(lines: &mut Vec<Line>, new: Vec<Line>)
    requires order { IsStrictlySortedBy text_cmp lines.old.items }
    requires room { vec_len lines.old + vec_len new ≤ vec_capacity lines.old }
    ensures { lines.new.items ≡ union lines.old.items new.items }
{
    for line in new {
        put_line(lines, line);
    }
}

fn put_line(lines: &mut Vec<Line>, line: Line)
    requires order { IsStrictlySortedBy text_cmp lines.old.items }
    requires room { vec_len lines.old < vec_capacity lines.old }
    ensures items { lines.new.items ≡ with_line lines.old.items line }
    ensures len { vec_len lines.new ≤ vec_len lines.old + 1 }
    ensures capacity { vec_capacity lines.old ≤ vec_capacity lines.new }
{
    if let Err(at) = place_of(lines, line.bytes()) {
        lines.insert(at, line).unwrap();
    }
}

fn append(lines: &mut Vec<Line>, new: Vec<Line>)
    requires { vec_len lines.old + vec_len new ≤ vec_capacity lines.old }
    ensures { lines.new.items ≡ lines.old.items ++ new.items }
{
    for line in new {
        lines.push(line).unwrap();
    }
}

// Sorts the lines, and leaves each once.
fn put_in_order(lines: &mut Vec<Line>)
    ensures { lines.new.items ≡ union [] lines.old.items }
{
    lines.sort_unstable();
    lines.dedup();
}

/// Adds each line and a newline.
pub fn put_lines(out: &mut Vec<u8>, lines: &[Line]) -> Result<(), NoMemory>
    ensures { OnOk result (out.new.items ≡ out.old.items ++ text_of lines.now) }
{
    for line in lines {
        out.extend_from_slice(line.bytes())?;
        out.push(b'\n')?;
    }
    Ok(())
}
