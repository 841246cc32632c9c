//! Reading a message from its line.
ghost use Rattle.std.specs.Prelude.{◌≡◌, ℕ, List, IfOk, bytes_eq};
ghost use Rattle.std.specs.List.{position_or_len};
ghost use Rattle.std.specs.Option.{option_map};
ghost use Rattle.std.specs.Str.{is_utf8};
ghost use Rattle.annex_base.specs.Lines.{is_space};
ghost use Rattle.p2p_wire.specs.Messages.{word_in, rest_in, number_in, key_in, text_in, with_number, with_file, then_in, alone, with_one, with_key, message_by, message_of};
ghost use Rattle.p2p_wire.specs.declared.message.Message.{Message};
ghost use Rattle.p2p_wire.specs.declared.message.Message.TheVariants.{Get};

use crate::message::Message;
use annex_base::{NoMemory, RepoId, Text, parse_decimal};
use annex_key::{Key, KeyFault};
use std::alloc::Global;

pub(crate) const LINE_LIMIT: usize = 8192;

// A comparison of two slices with a contract of its own: at a literal it proves sooner than `==`.
fn same(text: &[u8], name: &[u8]) -> bool
    ensures { result ≡ bytes_eq text.now name.now }
{
    text == name
}

fn word_len(text: &[u8]) -> usize
    ensures { result ≡ position_or_len is_space text.now }
{
    text.iter().take_while(|b| **b != b' ').count()
}

// The first word, and what stands after the space, if there is one.
fn split_word(text: &[u8]) -> (&[u8], Option<&[u8]>)
    ensures word { result.0.now ≡ word_in text.now }
    ensures rest { option_map (λ r. r.now) result.1 ≡ rest_in text.now }
{
    let end = word_len(text);
    let (word, rest) = text.split_at(end);
    match rest.split_first() {
        Some((_, rest)) => (word, Some(rest)),
        None => (word, None),
    }
}

#[tactic(auto, using(crate::proofs::ReadLemmas::number_as))]
fn number_of(word: &[u8]) -> Option<u64>
    ensures { result ≡ number_in word.now }
{
    match parse_decimal(word) {
        Some(number) if number < 1 << 63 => Some(number),
        _ => None,
    }
}

fn key_of(alloc: Global, text: &[u8]) -> Result<Option<Key>, NoMemory>
    ensures { IfOk result (λ key. key ≡ key_in text.now) }
{
    match Key::parse(alloc, text) {
        Ok(key) => Ok(Some(key)),
        Err(KeyFault::NoMemory) => Err(NoMemory),
        Err(_) => Ok(None),
    }
}

fn is_text(text: &[u8]) -> bool
    ensures { result ≡ is_utf8 text.now }
{
    match str::from_utf8(text) {
        Ok(_) => true,
        Err(_) => false,
    }
}

fn text_of(alloc: Global, text: &[u8]) -> Result<Option<Text>, NoMemory>
    ensures { IfOk result (λ read. read ≡ text_in text.now) }
{
    if is_text(text) {
        Ok(Some(Text::new(alloc, text)?))
    } else {
        Ok(None)
    }
}

// A message that is its first word.
fn alone(word: &[u8]) -> Option<Message>
    ensures { result ≡ alone word.now }
{
    if same(word, b"SUCCESS") {
        Some(Message::Success)
    } else if same(word, b"FAILURE") {
        Some(Message::Failure)
    } else if same(word, b"VALID") {
        Some(Message::Valid)
    } else if same(word, b"INVALID") {
        Some(Message::Invalid)
    } else if same(word, b"ALREADY-HAVE") {
        Some(Message::AlreadyHave)
    } else if same(word, b"GETTIMESTAMP") {
        Some(Message::GetTimestamp)
    } else {
        None
    }
}

// A message whose first word a number, an identifier or a text follows.
fn with_one(alloc: Global, word: &[u8], rest: &[u8]) -> Result<Option<Message>, NoMemory>
    ensures { IfOk result (λ found. found ≡ with_one word.now rest.now) }
{
    if same(word, b"VERSION") {
        Ok(number_of(rest).map(Message::Version))
    } else if same(word, b"TIMESTAMP") {
        Ok(number_of(rest).map(Message::Timestamp))
    } else if same(word, b"PUT-FROM") {
        Ok(number_of(rest).map(Message::PutFrom))
    } else if same(word, b"DATA") {
        Ok(number_of(rest).map(Message::Data))
    } else if same(word, b"AUTH-SUCCESS") {
        Ok(RepoId::parse(rest).ok().map(Message::AuthSuccess))
    } else if same(word, b"ERROR") {
        Ok(text_of(alloc, rest)?.map(Message::Error))
    } else {
        Ok(None)
    }
}

fn remove_before(alloc: Global, text: &[u8]) -> Result<Option<Message>, NoMemory>
    ensures { IfOk result (λ found. found ≡ with_number Message.RemoveBefore text.now) }
{
    let (word, Some(rest)) = split_word(text) else {
        return Ok(None);
    };
    let Some(before) = number_of(word) else {
        return Ok(None);
    };
    Ok(key_of(alloc, rest)?.map(|key| Message::RemoveBefore { before, key }))
}

// A File, which is any word, and a key.
fn file_and_key(alloc: Global, text: &[u8]) -> Result<Option<(Text, Key)>, NoMemory>
    ensures { (make : List ℕ → List ℕ → Message) → IfOk result (λ found. option_map (λ x. make x.0 x.1) found ≡ with_file make text.now) }
{
    let (word, Some(rest)) = split_word(text) else {
        return Ok(None);
    };
    let Some(key) = key_of(alloc, rest)? else {
        return Ok(None);
    };
    Ok(Some((Text::new(alloc, word)?, key)))
}

fn put(alloc: Global, text: &[u8]) -> Result<Option<Message>, NoMemory>
    ensures { IfOk result (λ found. found ≡ with_file Message.Put text.now) }
{
    Ok(file_and_key(alloc, text)?.map(|(file, key)| Message::Put { file, key }))
}

fn get(alloc: Global, text: &[u8]) -> Result<Option<Message>, NoMemory>
    ensures { IfOk result (λ found. found ≡ then_in number_in (λ n text. with_file (Get n) text) text.now) }
{
    let (word, Some(rest)) = split_word(text) else {
        return Ok(None);
    };
    let Some(start) = number_of(word) else {
        return Ok(None);
    };
    Ok(file_and_key(alloc, rest)?.map(|(file, key)| Message::Get { start, file, key }))
}

// A message that a key ends, or one of the others with more than a word.
fn with_key(alloc: Global, word: &[u8], rest: &[u8]) -> Result<Option<Message>, NoMemory>
    ensures { IfOk result (λ found. found ≡ with_key word.now rest.now) }
{
    if same(word, b"LOCKCONTENT") {
        Ok(key_of(alloc, rest)?.map(Message::LockContent))
    } else if same(word, b"UNLOCKCONTENT") {
        Ok(key_of(alloc, rest)?.map(Message::UnlockContent))
    } else if same(word, b"CHECKPRESENT") {
        Ok(key_of(alloc, rest)?.map(Message::CheckPresent))
    } else if same(word, b"REMOVE") {
        Ok(key_of(alloc, rest)?.map(Message::Remove))
    } else if same(word, b"REMOVE-BEFORE") {
        remove_before(alloc, rest)
    } else if same(word, b"GET") {
        get(alloc, rest)
    } else if same(word, b"PUT") {
        put(alloc, rest)
    } else {
        with_one(alloc, word, rest)
    }
}

impl Message {
    /// The message of a line, which is given without its newline; None where the line is none of the protocol
    /// (git-annex P2P protocol; that a line has at most 8,192 bytes is own).
    pub fn read(alloc: Global, line: &[u8]) -> Result<Option<Message>, NoMemory>
        ensures { IfOk result (λ found. found ≡ message_of line.now) }
    {
        if line.len() > LINE_LIMIT {
            return Ok(None);
        }
        match split_word(line) {
            (word, Some(rest)) => with_key(alloc, word, rest),
            (word, None) => Ok(alone(word)),
        }
    }
}
