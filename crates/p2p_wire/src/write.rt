//! Writing the line of a message.
ghost use Rattle.std.specs.Prelude.{◌≡◌, ◌≤◌, ◌+◌, ◌++◌, ◌∷◌, [], length, IfOk, codes, vec_len, vec_capacity};
ghost use Rattle.std.specs.Fmt.{decimal};
ghost use Rattle.p2p_wire.specs.Messages.{◌⊳◌, text_of};
ghost use Rattle.p2p_wire.specs.Streams.{IsLine, line_of};
ghost use Rattle.p2p_wire.specs.Writing.{name_of};

use crate::message::Message;
use annex_base::NoMemory;
use itoa::Buffer;
use std::alloc::Global;

fn append(out: &mut Vec<u8>, piece: &[u8])
    requires { vec_len out.old + length piece.now ≤ vec_capacity out.old }
    ensures items { out.new.items ≡ out.old.items ++ piece.now }
    ensures len { vec_len out.new ≡ vec_len out.old + length piece.now }
    ensures capacity { vec_capacity out.old ≤ vec_capacity out.new }
{
    let Ok(()) = out.extend_from_slice(piece) else {
        unreachable!();
    };
}

// A word, a space and the rest.
fn append_words(out: &mut Vec<u8>, word: &[u8], rest: &[u8])
    requires { vec_len out.old + length (word.now ⊳ rest.now) ≤ vec_capacity out.old }
    ensures items { out.new.items ≡ out.old.items ++ (word.now ⊳ rest.now) }
    ensures len { vec_len out.new ≡ vec_len out.old + length (word.now ⊳ rest.now) }
    ensures capacity { vec_capacity out.old ≤ vec_capacity out.new }
{
    append(out, word);
    append(out, b" ");
    append(out, rest);
}

fn append_number(out: &mut Vec<u8>, word: &[u8], number: u64)
    requires { vec_len out.old + length (word.now ⊳ decimal number) ≤ vec_capacity out.old }
    ensures items { out.new.items ≡ out.old.items ++ (word.now ⊳ decimal number) }
    ensures len { vec_len out.new ≡ vec_len out.old + length (word.now ⊳ decimal number) }
    ensures capacity { vec_capacity out.old ≤ vec_capacity out.new }
{
    let mut digits = Buffer::new();
    append_words(out, word, digits.format(number).as_bytes());
}

// A word, a number and the rest.
fn append_numbered(out: &mut Vec<u8>, word: &[u8], number: u64, rest: &[u8])
    requires { vec_len out.old + length (word.now ⊳ decimal number ⊳ rest.now) ≤ vec_capacity out.old }
    ensures items { out.new.items ≡ out.old.items ++ (word.now ⊳ decimal number ⊳ rest.now) }
    ensures len { vec_len out.new ≡ vec_len out.old + length (word.now ⊳ decimal number ⊳ rest.now) }
    ensures capacity { vec_capacity out.old ≤ vec_capacity out.new }
{
    append_number(out, word, number);
    append(out, b" ");
    append(out, rest);
}

// A word, a File and a key.
fn append_file(out: &mut Vec<u8>, word: &[u8], file: &[u8], key: &[u8])
    requires { vec_len out.old + length (word.now ⊳ file.now ⊳ key.now) ≤ vec_capacity out.old }
    ensures items { out.new.items ≡ out.old.items ++ (word.now ⊳ file.now ⊳ key.now) }
    ensures len { vec_len out.new ≡ vec_len out.old + length (word.now ⊳ file.now ⊳ key.now) }
    ensures capacity { vec_capacity out.old ≤ vec_capacity out.new }
{
    append_words(out, word, file);
    append(out, b" ");
    append(out, key);
}

fn append_get(out: &mut Vec<u8>, start: u64, file: &[u8], key: &[u8])
    requires { vec_len out.old + length (codes "GET" ⊳ decimal start ⊳ file.now ⊳ key.now) ≤ vec_capacity out.old }
    ensures items { out.new.items ≡ out.old.items ++ (codes "GET" ⊳ decimal start ⊳ file.now ⊳ key.now) }
    ensures len { vec_len out.new ≡ vec_len out.old + length (codes "GET" ⊳ decimal start ⊳ file.now ⊳ key.now) }
    ensures capacity { vec_capacity out.old ≤ vec_capacity out.new }
{
    append_numbered(out, b"GET", start, file);
    append(out, b" ");
    append(out, key);
}

fn decimal_len(number: u64) -> usize
    ensures len { result ≡ length (decimal number) }
    ensures short { result ≤ 40 }
{
    Buffer::new().format(number).len()
}

impl Message {
    // The name that begins its line.
    fn name(&self) -> &[u8]
        ensures { result.now ≡ name_of self.now }
    {
        match self {
            Message::AuthSuccess(_) => b"AUTH-SUCCESS",
            Message::Version(_) => b"VERSION",
            Message::CheckPresent(_) => b"CHECKPRESENT",
            Message::LockContent(_) => b"LOCKCONTENT",
            Message::UnlockContent(_) => b"UNLOCKCONTENT",
            Message::Remove(_) => b"REMOVE",
            Message::RemoveBefore { .. } => b"REMOVE-BEFORE",
            Message::GetTimestamp => b"GETTIMESTAMP",
            Message::Timestamp(_) => b"TIMESTAMP",
            Message::Get { .. } => b"GET",
            Message::Put { .. } => b"PUT",
            Message::PutFrom(_) => b"PUT-FROM",
            Message::AlreadyHave => b"ALREADY-HAVE",
            Message::Data(_) => b"DATA",
            Message::Valid => b"VALID",
            Message::Invalid => b"INVALID",
            Message::Success => b"SUCCESS",
            Message::Failure => b"FAILURE",
            Message::Error(_) => b"ERROR",
        }
    }

    // How many bytes stand behind the name.
    fn rest_len(&self) -> usize
        requires { IsLine self.now }
        ensures { result + length (name_of self.now) ≡ length (text_of self.now) }
    {
        match self {
            Message::AuthSuccess(_) => 37,
            Message::Version(n) | Message::Timestamp(n) | Message::PutFrom(n) | Message::Data(n) =>
                { 1 + decimal_len(*n) }
            Message::CheckPresent(key)
            | Message::LockContent(key)
            | Message::UnlockContent(key)
            | Message::Remove(key) => 1 + key.text().len(),
            Message::RemoveBefore { before, key } => 2 + decimal_len(*before) + key.text().len(),
            Message::Get { start, file, key } => {
                3 + decimal_len(*start) + file.bytes().len() + key.text().len()
            }
            Message::Put { file, key } => 2 + file.bytes().len() + key.text().len(),
            Message::GetTimestamp
            | Message::AlreadyHave
            | Message::Valid
            | Message::Invalid
            | Message::Success
            | Message::Failure => 0,
            Message::Error(text) => 1 + text.bytes().len(),
        }
    }

    fn append_text(&self, out: &mut Vec<u8>)
        requires { vec_len out.old + length (text_of self.now) ≤ vec_capacity out.old }
        ensures items { out.new.items ≡ out.old.items ++ text_of self.now }
        ensures len { vec_len out.new ≡ vec_len out.old + length (text_of self.now) }
        ensures capacity { vec_capacity out.old ≤ vec_capacity out.new }
    {
        let name = self.name();
        match self {
            Message::AuthSuccess(id) => append_words(out, name, &id.print()),
            Message::Version(n) | Message::Timestamp(n) | Message::PutFrom(n) | Message::Data(n) =>
                { append_number(out, name, *n) }
            Message::CheckPresent(key)
            | Message::LockContent(key)
            | Message::UnlockContent(key)
            | Message::Remove(key) => append_words(out, name, key.text()),
            Message::RemoveBefore { before, key } => {
                append_numbered(out, name, *before, key.text())
            }
            Message::Get { start, file, key } => append_get(out, *start, file.bytes(), key.text()),
            Message::Put { file, key } => append_file(out, name, file.bytes(), key.text()),
            Message::GetTimestamp
            | Message::AlreadyHave
            | Message::Valid
            | Message::Invalid
            | Message::Success
            | Message::Failure => append(out, name),
            Message::Error(text) => append_words(out, name, text.bytes()),
        }
    }

    /// How many bytes the message takes on the wire: its line and the newline.
    pub fn line_len(&self) -> usize
        requires { IsLine self.now }
        ensures { result ≡ length (line_of self.now) }
    {
        self.name().len() + self.rest_len() + 1
    }

    /// Adds the message's line and the newline where room was reserved before, so no memory is taken (git-annex P2P
    /// protocol).
    pub fn encode_into(&self, out: &mut Vec<u8>)
        requires line { IsLine self.now }
        requires room { vec_len out.old + length (line_of self.now) ≤ vec_capacity out.old }
        ensures items { out.new.items ≡ out.old.items ++ line_of self.now }
        ensures capacity { vec_capacity out.old ≤ vec_capacity out.new }
    {
        self.append_text(out);
        append(out, b"\n");
    }

    /// The message's line and the newline (git-annex P2P protocol).
    pub fn encode(&self, alloc: Global) -> Result<Vec<u8>, NoMemory>
        requires { IsLine self.now }
        ensures { IfOk result (λ bytes. bytes.items ≡ line_of self.now) }
    {
        let mut bytes = Vec::with_capacity(alloc, self.line_len())?;
        self.encode_into(&mut bytes);
        Ok(bytes)
    }
}
