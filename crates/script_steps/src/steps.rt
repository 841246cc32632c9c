//! The steps by which a line is read.
ghost use Rattle.std.specs.Prelude.{◌≡◌, ◌≤◌, length, IfOk};
ghost use Rattle.script_forms.specs.Answers.{Gives, Reads};
ghost use Rattle.std.specs.Option.{option_map};
ghost use Rattle.annex_key.specs.Tree.{key_of};
ghost use Rattle.script_forms.specs.Context.{is_placed};
ghost use Rattle.script_forms.specs.Steps as spec;
ghost use Rattle.script_forms.specs.declared.fault.LineFault.TheVariants as faults;
ghost use Rattle.script_words.specs.Words.{first_place};

use crate::verify::may_have;
use annex_base::{Call, Level, NoMemory, RepoId, Text};
use annex_key::Key;
use log_lines::{GroupList, LogKind, Topic};
use run_data::{JobKind, LogFile};
use script_commands::NamedKey;
use script_forms::{Context, LineFault, find_id, find_other, find_repository, has_id, has_name};
use script_words::{
    Content, KeyWord, LineWord, NextWord, Words, is_group, is_name, is_nolock, is_path, is_word,
    read_call, read_clock, read_id, read_key_word, read_level, read_number, read_offset,
    read_version,
};
use std::alloc::Global;

/// The fault of a line that is wrong at this byte.
pub fn wrong(byte: usize) -> LineFault
    ensures { result ≡ faults.Wrong byte }
{
    LineFault::Wrong { byte: byte as u64 }
}

/// The fault of a word.
pub fn wrong_word(word: &LineWord<'_>) -> LineFault
    ensures { result ≡ faults.Wrong word.now.place }
{
    wrong(word.place())
}

/// The fault of a line of a form that may not stand there, at its first word.
pub fn wrong_form(words: &Words<'_>) -> LineFault
    ensures { result ≡ faults.Wrong (first_place words.now.line) }
{
    wrong(words.first_place())
}

/// The fault of a missing word.
pub fn missing(words: &Words<'_>) -> LineFault
    ensures { result ≡ faults.Wrong (length words.now.line) }
{
    wrong(words.line().len())
}

/// The next word.
#[tactic(auto, unfolding(script_forms::specs::Steps::word_at))]
pub fn next_word<'a>(words: &mut Words<'a>) -> Result<LineWord<'a>, LineFault>
    ensures { Reads (λ w. w) result words.new (spec.word_at words.old) }
{
    match words.next() {
        NextWord::NoWord => Err(missing(words)),
        NextWord::BadWord { at } => Err(wrong(at)),
        NextWord::Word(word) => Ok(word),
    }
}

/// No word is left.
#[tactic(auto, unfolding(script_forms::specs::Steps::end_at))]
pub fn end(words: &mut Words<'_>) -> Result<(), LineFault>
    ensures { Gives (λ _. tt) result (spec.end_at words.old) }
{
    match words.next() {
        NextWord::NoWord => Ok(()),
        NextWord::BadWord { at } => Err(wrong(at)),
        NextWord::Word(word) => Err(wrong_word(&word)),
    }
}

/// A repository.
#[tactic(auto, unfolding(script_forms::specs::Steps::repo_at))]
pub fn repo(context: &Context, words: &mut Words<'_>) -> Result<u32, LineFault>
    ensures { Reads (λ r. r) result words.new (spec.repo_at context.now words.old) }
{
    let word = next_word(words)?;
    match find_repository(&context.repos, word.text()) {
        Some(repo) => Ok(repo),
        None => Err(wrong_word(&word)),
    }
}

/// A repository that an entry speaks of.
#[tactic(auto, unfolding(script_forms::specs::Steps::target_at))]
pub fn target(context: &Context, words: &mut Words<'_>) -> Result<Topic, LineFault>
    ensures { Reads (λ t. t) result words.new (spec.target_at context.now words.old) }
{
    let word = next_word(words)?;
    match find_id(&context.repos, word.text()) {
        Some(id) => Ok(Topic::Repo(id)),
        None => Err(wrong_word(&word)),
    }
}

/// Another repository than this one.
#[tactic(auto, unfolding(script_forms::specs::Steps::other_at))]
pub fn other(context: &Context, repo: u32, words: &mut Words<'_>) -> Result<u32, LineFault>
    ensures { Reads (λ r. r) result words.new (spec.other_at context.now repo words.old) }
{
    let word = next_word(words)?;
    match find_other(&context.repos, repo, word.text()) {
        Some(other) => Ok(other),
        None => Err(wrong_word(&word)),
    }
}

/// A name that no repository has.
#[tactic(auto, unfolding(script_forms::specs::Steps::new_name_at))]
pub fn new_name(alloc: Global, context: &Context, words: &mut Words<'_>) -> Result<Text, LineFault>
    ensures { Reads (λ t. t) result words.new (spec.new_name_at context.now words.old) }
{
    let word = next_word(words)?;
    let name = word.text();
    if is_name(name) && !has_name(&context.repos, name) {
        Ok(Text::new(alloc, name)?)
    } else {
        Err(wrong_word(&word))
    }
}

/// An identifier that no repository has.
#[tactic(auto, unfolding(script_forms::specs::Steps::new_id_at))]
pub fn new_id(context: &Context, words: &mut Words<'_>) -> Result<RepoId, LineFault>
    ensures { Reads (λ id. id) result words.new (spec.new_id_at context.now words.old) }
{
    let word = next_word(words)?;
    match read_id(word.text()) {
        Some(id) if !has_id(&context.repos, &id) => Ok(id),
        _ => Err(wrong_word(&word)),
    }
}

/// A number up to this one.
#[tactic(auto, unfolding(script_forms::specs::Steps::number_at))]
pub fn number(greatest: u64, words: &mut Words<'_>) -> Result<u64, LineFault>
    ensures value { Reads (λ n. n) result words.new (spec.number_at greatest words.old) }
    ensures bound { IfOk result (λ n. n ≤ greatest) }
{
    let word = next_word(words)?;
    match read_number(word.text(), greatest) {
        Some(number) => Ok(number),
        None => Err(wrong_word(&word)),
    }
}

/// A level of trust.
#[tactic(auto, unfolding(script_forms::specs::Steps::level_at))]
pub fn level(words: &mut Words<'_>) -> Result<Level, LineFault>
    ensures { Reads (λ l. l) result words.new (spec.level_at words.old) }
{
    let word = next_word(words)?;
    match read_level(word.text()) {
        Some(level) => Ok(level),
        None => Err(wrong_word(&word)),
    }
}

/// A call of a store.
#[tactic(auto, unfolding(script_forms::specs::Steps::call_at))]
pub fn call(words: &mut Words<'_>) -> Result<Call, LineFault>
    ensures { Reads (λ c. c) result words.new (spec.call_at words.old) }
{
    let word = next_word(words)?;
    match read_call(word.text()) {
        Some(call) => Ok(call),
        None => Err(wrong_word(&word)),
    }
}

/// A path.
#[tactic(auto, unfolding(script_forms::specs::Steps::path_at))]
pub fn path(alloc: Global, words: &mut Words<'_>) -> Result<Text, LineFault>
    ensures { Reads (λ t. t) result words.new (spec.path_at words.old) }
{
    let word = next_word(words)?;
    if is_path(word.text()) {
        Ok(Text::new(alloc, word.text())?)
    } else {
        Err(wrong_word(&word))
    }
}

/// A path of the tree.
#[tactic(auto, unfolding(script_forms::specs::Steps::tree_path_at))]
pub fn tree_path(alloc: Global, context: &Context, words: &mut Words<'_>) -> Result<Text, LineFault>
    ensures { Reads (λ t. t) result words.new (spec.tree_path_at context.now words.old) }
{
    let word = next_word(words)?;
    if context.tree.key(word.text()).is_some() {
        Ok(Text::new(alloc, word.text())?)
    } else {
        Err(wrong_word(&word))
    }
}

/// A group.
#[tactic(auto, unfolding(script_forms::specs::Steps::group_at))]
pub fn group(alloc: Global, words: &mut Words<'_>) -> Result<Text, LineFault>
    ensures { Reads (λ t. t) result words.new (spec.group_at words.old) }
{
    let word = next_word(words)?;
    if is_group(word.text()) {
        Ok(Text::new(alloc, word.text())?)
    } else {
        Err(wrong_word(&word))
    }
}

/// The key of a path of the tree.
fn key_of_path(context: &Context, path: Text) -> Result<Option<NamedKey>, NoMemory>
    ensures { IfOk result (λ k. k ≡ option_map (spec.with_path path) (key_of context.now.tree path)) }
{
    match context.tree.key(path.bytes()) {
        Some(key) => Ok(Some(NamedKey {
            key: key.copy()?,
            path: Some(path),
        })),
        None => Ok(None),
    }
}

/// The key of which a word is the text, or `@` and a path that the tree has.
fn named_key(alloc: Global, context: &Context, word: &[u8]) -> Result<Option<NamedKey>, NoMemory>
    ensures { IfOk result (λ k. k ≡ spec.key_named context.now word.now) }
{
    match read_key_word(alloc, word)? {
        None => Ok(None),
        Some(KeyWord::OfKey(key)) => Ok(Some(NamedKey { key, path: None })),
        Some(KeyWord::OfPath(path)) => key_of_path(context, path),
    }
}

/// A key.
#[tactic(auto, unfolding(script_forms::specs::Steps::key_at))]
pub fn key(alloc: Global, context: &Context, words: &mut Words<'_>) -> Result<NamedKey, LineFault>
    ensures { Reads (λ k. k) result words.new (spec.key_at context.now words.old) }
{
    let word = next_word(words)?;
    match named_key(alloc, context, word.text())? {
        Some(key) => Ok(key),
        None => Err(wrong_word(&word)),
    }
}

/// A content.
#[tactic(auto, unfolding(script_forms::specs::Steps::content_at))]
pub fn content(alloc: Global, words: &mut Words<'_>) -> Result<Content, LineFault>
    ensures { Reads (λ c. c) result words.new (spec.content_at words.old) }
{
    let word = next_word(words)?;
    match Content::parse(alloc, word.text())? {
        Some(content) => Ok(content),
        None => Err(wrong_word(&word)),
    }
}

/// A content that matches the key; one past the limit isn't looked at.
#[tactic(auto, unfolding(script_forms::specs::Steps::matching_at))]
pub fn matching(alloc: Global, key: &Key, words: &mut Words<'_>) -> Result<Content, LineFault>
    ensures { Reads (λ c. c) result words.new (spec.matching_at key.now words.old) }
{
    let word = next_word(words)?;
    match Content::parse(alloc, word.text())? {
        Some(content) if may_have(alloc, key, &content)? => Ok(content),
        _ => Err(wrong_word(&word)),
    }
}

/// A log file by its name.
#[tactic(auto, unfolding(script_forms::specs::Steps::file_at))]
pub fn file(words: &mut Words<'_>) -> Result<LogFile, LineFault>
    ensures { Reads (λ f. f) result words.new (spec.file_at words.old) }
{
    let word = next_word(words)?;
    match LogKind::named(word.text()) {
        Some(kind) => Ok(LogFile::Of(kind)),
        None => Err(wrong_word(&word)),
    }
}

/// A key whose content a line put at the repository.
#[tactic(auto, unfolding(script_forms::specs::Steps::placed_key_at))]
pub fn placed_key(
    alloc: Global,
    context: &Context,
    repo: u32,
    words: &mut Words<'_>,
) -> Result<NamedKey, LineFault>
    ensures { Reads (λ k. k) result words.new (spec.placed_key_at context.now repo words.old) }
{
    let word = next_word(words)?;
    match named_key(alloc, context, word.text())? {
        Some(key) if is_placed(context, repo, &key.key)? => Ok(key),
        _ => Err(wrong_word(&word)),
    }
}

/// Whether a line put the content of the key at the repository.
fn is_placed(context: &Context, repo: u32, key: &Key) -> Result<bool, NoMemory>
    ensures { IfOk result (λ b. b ≡ is_placed context.now repo key.now) }
{
    let content = (repo, key.copy()?);
    Ok(context.placed.contains(&content))
}

/// The offset of an option `offset=MS`, without it 0.
#[tactic(auto, unfolding(script_forms::specs::Steps::offset_at))]
pub fn offset(words: &mut Words<'_>) -> u64
    ensures { (result, words.new) ≡ spec.offset_at words.old }
{
    if let NextWord::Word(word) = words.peek() {
        if let Some(offset) = read_offset(word.text()) {
            words.next();
            return offset;
        }
    }
    0
}

/// The version of an option `version=V`, without it 3.
#[tactic(auto, unfolding(script_forms::specs::Steps::version_at))]
pub fn version(words: &mut Words<'_>) -> u8
    ensures { (result, words.new) ≡ spec.version_at words.old }
{
    if let NextWord::Word(word) = words.peek() {
        if let Some(version) = read_version(word.text()) {
            words.next();
            return version;
        }
    }
    3
}

/// Whether a repository gives holds to peers: the option `nolock` says that it doesn't.
#[tactic(auto, unfolding(script_forms::specs::Steps::locks_at))]
pub fn locks(words: &mut Words<'_>) -> bool
    ensures { (result, words.new) ≡ spec.locks_at words.old }
{
    if let NextWord::Word(word) = words.peek() {
        if is_nolock(word.text()) {
            words.next();
            return false;
        }
    }
    true
}

/// The clock of an option `clock=MS`, without it 0.
#[tactic(auto, unfolding(script_forms::specs::Steps::clock_at))]
pub fn clock(words: &mut Words<'_>) -> u64
    ensures { (result, words.new) ≡ spec.clock_at words.old }
{
    if let NextWord::Word(word) = words.peek() {
        if let Some(clock) = read_clock(word.text()) {
            words.next();
            return clock;
        }
    }
    0
}

fn read_turns(word: &[u8]) -> Option<u32>
    ensures { result ≡ spec.turns_of word.now }
{
    match read_number(word, 10_000) {
        Some(turns) if turns >= 1 => Some(turns as u32),
        _ => None,
    }
}

/// A number of turns from 1 to 10,000, without it 1.
#[tactic(auto, unfolding(script_forms::specs::Steps::turns_at))]
pub fn turns(words: &mut Words<'_>) -> u32
    ensures { (result, words.new) ≡ spec.turns_at words.old }
{
    if let NextWord::Word(word) = words.peek() {
        if let Some(turns) = read_turns(word.text()) {
            words.next();
            return turns;
        }
    }
    1
}

/// A path, or none.
#[tactic(auto, unfolding(script_forms::specs::Steps::maybe_path_at))]
pub fn maybe_path(alloc: Global, words: &mut Words<'_>) -> Result<Option<Text>, NoMemory>
    ensures { IfOk result (λ p. (p, words.new) ≡ spec.maybe_path_at words.old) }
{
    if let NextWord::Word(word) = words.peek() {
        if is_path(word.text()) {
            words.next();
            return Ok(Some(Text::new(alloc, word.text())?));
        }
    }
    Ok(None)
}

/// Reads the word where it comes next, and tells whether it did.
fn pass(words: &mut Words<'_>, wanted: &[u8]) -> bool
    ensures { (result, words.new) ≡ spec.comes_next wanted.now words.old }
{
    if let NextWord::Word(word) = words.peek() {
        if is_word(word.text(), wanted) {
            words.next();
            return true;
        }
    }
    false
}

/// `from` and another repository than this one, or nothing.
#[tactic(auto, unfolding(script_forms::specs::Steps::from_at))]
pub fn maybe_from(
    context: &Context,
    repo: u32,
    words: &mut Words<'_>,
) -> Result<Option<u32>, LineFault>
    ensures { Reads (λ p. p) result words.new (spec.from_at context.now repo words.old) }
{
    if pass(words, b"from") {
        let peer = other(context, repo, words)?;
        Ok(Some(peer))
    } else {
        Ok(None)
    }
}

/// `to` and another repository than this one.
#[tactic(auto, unfolding(script_forms::specs::Steps::to_at))]
pub fn to(context: &Context, repo: u32, words: &mut Words<'_>) -> Result<u32, LineFault>
    ensures { Reads (λ p. p) result words.new (spec.to_at context.now repo words.old) }
{
    let word = next_word(words)?;
    if is_word(word.text(), b"to") {
        other(context, repo, words)
    } else {
        Err(wrong_word(&word))
    }
}

/// Which way content moves.
#[tactic(auto, unfolding(script_forms::specs::Steps::way_at))]
pub fn way(words: &mut Words<'_>) -> Result<JobKind, LineFault>
    ensures { Reads (λ k. k) result words.new (spec.way_at words.old) }
{
    let word = next_word(words)?;
    if is_word(word.text(), b"to") {
        return Ok(JobKind::MoveTo);
    }
    if is_word(word.text(), b"from") {
        return Ok(JobKind::MoveFrom);
    }
    Err(wrong_word(&word))
}

/// The key of a location log, behind the word `location`.
fn location(alloc: Global, context: &Context, words: &mut Words<'_>) -> Result<LogFile, LineFault>
    ensures { Reads (λ f. f) result words.new (spec.location_at context.now words.old) }
{
    let named = key(alloc, context, words)?;
    Ok(LogFile::Location(named.key))
}

/// `location` and a key, or a log file by its name.
#[tactic(auto, unfolding(script_forms::specs::Steps::log_file_at))]
pub fn log_file(
    alloc: Global,
    context: &Context,
    words: &mut Words<'_>,
) -> Result<LogFile, LineFault>
    ensures { Reads (λ f. f) result words.new (spec.log_file_at context.now words.old) }
{
    if pass(words, b"location") {
        location(alloc, context, words)
    } else {
        file(words)
    }
}
