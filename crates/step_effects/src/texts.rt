//! Whether a text is the line of a message.
ghost use Rattle.std.specs.Prelude.{◌≡◌, ◌++◌, ℕ, List, bytes_eq};
ghost use Rattle.std.specs.Fmt.{decimal};
ghost use Rattle.std.specs.Option.{option_copied};
ghost use Rattle.std.specs.declared.option.Option.{Option};
ghost use Rattle.p2p_wire.specs.Messages.{◌⊳◌, order_of, text_of};
ghost use Rattle.p2p_wire.specs.declared.message.Message.TheVariants.{Error, Get, Put, RemoveBefore, Timestamp, UnlockContent};
ghost use Rattle.step_effects.specs.Texts.{is_rest};

use annex_key::Key;
use itoa::Buffer;
use p2p_wire::Message;

fn same(text: &[u8], other: &[u8]) -> bool
    ensures { result ≡ bytes_eq other.now text.now }
{
    other == text
}

/// What is left of the text after its front, if it begins so.
fn after<'a>(text: &'a [u8], front: &[u8]) -> Option<&'a [u8]>
    ensures { (rest : List ℕ) → bytes_eq (front.now ++ rest) text.now ≡ is_rest rest (option_copied result) }
{
    text.strip_prefix(front)
}

/// What is left of the text after a word and a space.
fn after_word<'a>(text: &'a [u8], word: &[u8]) -> Option<&'a [u8]>
    ensures { (rest : List ℕ) → bytes_eq (word.now ⊳ rest) text.now ≡ is_rest rest (option_copied result) }
{
    match after(text, word) {
        Some(rest) => after(rest, b" "),
        None => None,
    }
}

/// What is left of the text after a number and a space.
fn after_number(text: &[u8], number: u128) -> Option<&[u8]>
    ensures { (rest : List ℕ) → bytes_eq (decimal number ⊳ rest) text.now ≡ is_rest rest (option_copied result) }
{
    let mut digits = Buffer::new();
    after_word(text, digits.format(number).as_bytes())
}

fn is_left(left: Option<&[u8]>, rest: &[u8]) -> bool
    ensures { result ≡ is_rest rest.now (option_copied left.entry) }
{
    match left {
        Some(text) => same(text, rest),
        None => false,
    }
}

fn is_number(text: &[u8], number: u128) -> bool
    ensures { result ≡ bytes_eq (decimal number) text.now }
{
    let mut digits = Buffer::new();
    same(text, digits.format(number).as_bytes())
}

/// Whether the text is a word and a number.
fn is_numbered(text: &[u8], word: &[u8], number: u128) -> bool
    ensures { result ≡ bytes_eq (word.now ⊳ decimal number) text.now }
{
    match after_word(text, word) {
        Some(rest) => is_number(rest, number),
        None => false,
    }
}

/// Whether the text is a word and what follows.
fn is_words(text: &[u8], word: &[u8], rest: &[u8]) -> bool
    ensures { result ≡ bytes_eq (word.now ⊳ rest.now) text.now }
{
    is_left(after_word(text, word), rest)
}

/// Whether the text is a number and what follows.
fn is_number_first(text: &[u8], number: u128, rest: &[u8]) -> bool
    ensures { result ≡ bytes_eq (decimal number ⊳ rest.now) text.now }
{
    is_left(after_number(text, number), rest)
}

/// Whether the text is that of an order with a deadline, in seconds.
fn is_remove_before(text: &[u8], before: u128, key: &Key) -> bool
    ensures { result ≡ bytes_eq (text_of (RemoveBefore before key.now)) text.now }
{
    match after_word(text, b"REMOVE-BEFORE") {
        Some(rest) => is_number_first(rest, before, key.text()),
        None => false,
    }
}

/// Whether the text is a number, a File and a key.
fn is_place(text: &[u8], start: u128, file: &[u8], key: &Key) -> bool
    ensures { result ≡ bytes_eq (decimal start ⊳ file.now ⊳ key.now) text.now }
{
    match after_number(text, start) {
        Some(rest) => is_words(rest, file, key.text()),
        None => false,
    }
}

fn is_get(text: &[u8], start: u128, file: &[u8], key: &Key) -> bool
    ensures { result ≡ bytes_eq (text_of (Get start file.now key.now)) text.now }
{
    match after_word(text, b"GET") {
        Some(rest) => is_place(rest, start, file, key),
        None => false,
    }
}

fn is_put(text: &[u8], file: &[u8], key: &Key) -> bool
    ensures { result ≡ bytes_eq (text_of (Put file.now key.now)) text.now }
{
    match after_word(text, b"PUT") {
        Some(rest) => is_words(rest, file, key.text()),
        None => false,
    }
}

/// Whether the text tells a time, in seconds.
pub(crate) fn is_time(text: &[u8], time: u128) -> bool
    ensures { result ≡ bytes_eq (text_of (Timestamp time)) text.now }
{
    is_numbered(text, b"TIMESTAMP", time)
}

/// Whether the text is that of an order for the key, with this deadline, in seconds, or without one.
pub(crate) fn is_order(text: &[u8], deadline: Option<u128>, key: &Key) -> bool
    ensures { result ≡ bytes_eq (text_of (order_of deadline key.now)) text.now }
{
    match deadline {
        Some(before) => is_remove_before(text, before, key),
        None => is_words(text, b"REMOVE", key.text()),
    }
}

/// Whether the text gives back the lock of the key.
pub(crate) fn is_unlock(text: &[u8], key: &Key) -> bool
    ensures { result ≡ bytes_eq (text_of (UnlockContent key.now)) text.now }
{
    is_words(text, b"UNLOCKCONTENT", key.text())
}

/// Whether the text is that of an error.
pub(crate) fn is_error(text: &[u8], error: &[u8]) -> bool
    ensures { result ≡ bytes_eq (text_of (Error error.now)) text.now }
{
    is_words(text, b"ERROR", error)
}

/// Whether the text is the line of the message.
pub(crate) fn is_text(text: &[u8], message: &Message) -> bool
    ensures { result ≡ bytes_eq (text_of message.now) text.now }
{
    match message {
        Message::AuthSuccess(id) => is_words(text, b"AUTH-SUCCESS", &id.print()),
        Message::Version(n) => is_numbered(text, b"VERSION", u128::from(*n)),
        Message::CheckPresent(key) => is_words(text, b"CHECKPRESENT", key.text()),
        Message::LockContent(key) => is_words(text, b"LOCKCONTENT", key.text()),
        Message::UnlockContent(key) => is_unlock(text, key),
        Message::Remove(key) => is_words(text, b"REMOVE", key.text()),
        Message::RemoveBefore { before, key } => is_remove_before(text, u128::from(*before), key),
        Message::GetTimestamp => same(text, b"GETTIMESTAMP"),
        Message::Timestamp(n) => is_time(text, u128::from(*n)),
        Message::Get { start, file, key } => is_get(text, u128::from(*start), file.bytes(), key),
        Message::Put { file, key } => is_put(text, file.bytes(), key),
        Message::PutFrom(n) => is_numbered(text, b"PUT-FROM", u128::from(*n)),
        Message::AlreadyHave => same(text, b"ALREADY-HAVE"),
        Message::Data(n) => is_numbered(text, b"DATA", u128::from(*n)),
        Message::Valid => same(text, b"VALID"),
        Message::Invalid => same(text, b"INVALID"),
        Message::Success => same(text, b"SUCCESS"),
        Message::Failure => same(text, b"FAILURE"),
        Message::Error(error) => is_error(text, error.bytes()),
    }
}
