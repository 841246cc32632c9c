//! The newest entries of a log file, kept while its lines come.

ghost use Rattle.std.specs.Prelude.{◌≡◌, ◌↔◌, ◌++◌, ◌∷◌, [], ℕ, List, IfOk, IsTrue, OnOk, OnErr, map};
ghost use Rattle.std.specs.BTreeMap.{get};
ghost use Rattle.std.specs.List.Sorted.{IsStrictlySortedBy};
ghost use Rattle.std.specs.Map.{lookup};
ghost use Rattle.std.specs.Option.{option_copied, option_map};
ghost use Rattle.log_grammar.specs.declared.entry.LogKind.{LogKind};
ghost use Rattle.log_grammar.specs.declared.entry.Topic.TheVariants as topics;
ghost use Rattle.log_grammar.specs.Reading.{entry_of};
ghost use Rattle.log_lines.specs.Newest.{topic_cmp, same_topic, entry_at, with_entry, with_entry_if};
ghost use Rattle.log_lines.specs.Index.{empty_index, index_of, index_with, statement_of, entries_in};
ghost use Rattle.log_lines.specs.Latest.{is_news, is_old, is_outdated_in};

use crate::entry::{Entry, LogKind, Topic};
use crate::statement::{Statement, is_older};
use annex_base::{Line, NoMemory};
use log_grammar::read_line;
use std::alloc::Global;
use std::collections::BTreeMap;
use std::collections::btree_map::Iter;
use std::marker::Model;

/// The newest entry of each topic that the lines of a log file speak of, in order of topic: an index that is kept while
/// lines are added (git-annex internals: branch files).
#[derive(Debug, Drop)]
pub struct Newest {
    alloc: Global,
    kind: LogKind,
    statements: BTreeMap<Topic, Statement>,
}

impl Model for Newest {
    ghost use Rattle.std.specs.Prelude.{map};
    ghost use Rattle.std.specs.List.Sorted.{IsStrictlySortedBy};
    ghost use Rattle.log_lines.specs.Newest.{topic_cmp};
    ghost use Rattle.log_lines.specs.Index.{Index, entries_in};

    ghost Value = { Index };

    ghost view = { λ n. record { kind = n.kind; entries = entries_in n.statements.entries } };

    ghost invariant = { λ n. IsStrictlySortedBy topic_cmp (map (λ e. e.topic) (entries_in n.statements.entries)) };
}

impl Newest {
    /// The index of no lines.
    pub fn new(alloc: Global, kind: LogKind) -> Newest
        ensures { result ≡ empty_index kind }
    {
        Newest {
            alloc,
            kind,
            statements: BTreeMap::new(alloc),
        }
    }

    /// The index of these lines.
    pub fn read(alloc: Global, kind: LogKind, lines: &[Line]) -> Result<Newest, NoMemory>
        ensures { IfOk result (λ n. n ≡ index_of kind lines.now) }
    {
        let mut index = Newest::new(alloc, kind);
        for line in lines {
            index.add(line)?;
        }
        Ok(index)
    }

    /// Adds a line, given without its newline; one that is outside the grammar says nothing. The cost grows with the
    /// logarithm of the number of topics.
    pub fn add(&mut self, line: &Line) -> Result<(), NoMemory>
        ensures ok { OnOk result (self.new ≡ index_with self.old line.now) }
        ensures newest { OnOk result ((kind : LogKind) (lines : List (List ℕ)) → self.old ≡ index_of kind lines → self.new ≡ index_of kind (lines ++ line.now ∷ [])) }
        ensures err { OnErr result (self.new ≡ self.old) }
    {
        put_line(&mut self.statements, self.alloc, self.kind, line)
    }

    /// What the newest entry of the topic says, and none where no line speaks of the topic.
    pub fn entry(&self, topic: &Topic) -> Option<&Statement>
        ensures { option_copied result ≡ option_map statement_of (entry_at self.now.entries topic.now) }
    {
        self.statements.get(topic)
    }

    /// What the newest entry of the group says, found without memory for its topic; the cost grows with the number of
    /// topics.
    pub fn group(&self, name: &[u8]) -> Option<&Statement>
        ensures { option_copied result ≡ option_map statement_of (entry_at self.now.entries (topics.Group name.now)) }
    {
        group_in(&self.statements, name)
    }

    /// Whether no line that was added says anything.
    pub fn is_empty(&self) -> bool
        ensures { IsTrue result ↔ (self.now.entries ≡ []) }
    {
        self.statements.is_empty()
    }

    /// The topics in order, each with what its newest entry says.
    pub fn entries(&self) -> Iter<'_, Topic, Statement>
        ensures value { entries_in result ≡ self.now.entries }
        ensures order { IsStrictlySortedBy topic_cmp (map (λ e. e.topic) self.now.entries) }
    {
        self.statements.iter()
    }

    /// The newest entries in order of topic.
    pub fn into_entries(self) -> Result<Vec<Entry>, NoMemory>
        ensures { IfOk result (λ v. v.items ≡ self.entries) }
    {
        entries_of(self.alloc, self.statements)
    }

    /// Whether an entry that was added is newer than the line's.
    pub(crate) fn outdates(&self, line: &Line) -> Result<bool, NoMemory>
        ensures { IfOk result (λ b. b ≡ is_outdated_in self.now.entries (entry_of self.now.kind line.now)) }
    {
        is_outdated(self.alloc, self.kind, &self.statements, line)
    }
}

/// The statement is the first of its topic, or the one that is known is older.
fn is_news(statements: &BTreeMap<Topic, Statement>, topic: &Topic, statement: &Statement) -> bool
    ensures { result ≡ is_news statement.now (get topic_cmp statements.now topic.now) }
{
    match statements.get(topic) {
        None => true,
        Some(known) => is_older(known, statement),
    }
}

/// The statement that is known of the topic is newer.
fn is_old(statements: &BTreeMap<Topic, Statement>, topic: &Topic, statement: &Statement) -> bool
    ensures { result ≡ is_old statement.now (get topic_cmp statements.now topic.now) }
{
    match statements.get(topic) {
        None => false,
        Some(known) => is_older(statement, known),
    }
}

/// Keeps what the entry says, unless what is known of its topic is as new.
fn put(statements: &mut BTreeMap<Topic, Statement>, entry: Entry) -> Result<(), NoMemory>
    requires { IsStrictlySortedBy topic_cmp (map (λ e. e.topic) (entries_in statements.old.entries)) }
    ensures ok { OnOk result (entries_in statements.new.entries ≡ with_entry (entries_in statements.old.entries) entry) }
    ensures err { OnErr result (statements.new.entries ≡ statements.old.entries) }
{
    let Entry {
        topic,
        stamp,
        value,
    } = entry;
    let statement = Statement { stamp, value };
    if is_news(statements, &topic, &statement) {
        statements.insert(topic, statement)?;
    }
    Ok(())
}

/// Keeps what the line says, unless what is known of its topic is as new.
fn put_line(
    statements: &mut BTreeMap<Topic, Statement>,
    alloc: Global,
    kind: LogKind,
    line: &Line,
) -> Result<(), NoMemory>
    requires { IsStrictlySortedBy topic_cmp (map (λ e. e.topic) (entries_in statements.old.entries)) }
    ensures ok { OnOk result (entries_in statements.new.entries ≡ with_entry_if (entries_in statements.old.entries) (entry_of kind line.now)) }
    ensures err { OnErr result (statements.new.entries ≡ statements.old.entries) }
{
    if let Some(entry) = read_line(alloc, kind, line.bytes())? {
        put(statements, entry)?;
    }
    Ok(())
}

fn is_group(topic: &Topic, name: &[u8]) -> bool
    ensures { result ≡ same_topic (topics.Group name.now) topic.now }
{
    match topic {
        Topic::Group(other) => name.cmp(other.bytes()).is_eq(),
        Topic::Repo(_) | Topic::Whole | Topic::Pattern(_) => false,
    }
}

fn group_in<'a>(statements: &'a BTreeMap<Topic, Statement>, name: &[u8]) -> Option<&'a Statement>
    ensures { option_copied result ≡ lookup (λ t. same_topic (topics.Group name.now) t) statements.now.entries }
{
    for (topic, statement) in statements {
        if is_group(topic, name) {
            return Some(statement);
        }
    }
    None
}

fn entries_of(alloc: Global, statements: BTreeMap<Topic, Statement>) -> Result<Vec<Entry>, NoMemory>
    ensures { IfOk result (λ v. v.items ≡ entries_in statements.entries) }
{
    let mut entries = Vec::new(alloc);
    for (topic, statement) in statements {
        entries.push(Entry {
            topic,
            stamp: statement.stamp,
            value: statement.value,
        })?;
    }
    Ok(entries)
}

fn is_outdated(
    alloc: Global,
    kind: LogKind,
    statements: &BTreeMap<Topic, Statement>,
    line: &Line,
) -> Result<bool, NoMemory>
    ensures { IfOk result (λ b. b ≡ is_outdated_in (entries_in statements.now.entries) (entry_of kind line.now)) }
{
    match read_line(alloc, kind, line.bytes())? {
        None => Ok(false),
        Some(entry) => {
            let Entry {
                topic,
                stamp,
                value,
            } = entry;
            Ok(is_old(statements, &topic, &Statement { stamp, value }))
        }
    }
}
