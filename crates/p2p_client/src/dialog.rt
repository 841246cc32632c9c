//! A client's dialogue with a server.
ghost use Rattle.std.specs.Prelude.{◌≡◌, ◌==◌, None, IfOk, IsOk, bytes_eq, codes};
ghost use Rattle.annex_key.specs.View.{first_fault};
ghost use Rattle.p2p_wire.specs.Streams.{IsLine};
ghost use Rattle.p2p_client.specs.Dialogue.{HasNumber, awaited_after, awaited_then, message_for, permitted_answer, took_by};

use annex_base::{NoMemory, RepoId, Text};
use annex_key::{Key, key_texts_have_no_fault};
use p2p_wire::{Message, sent_messages_have_lines};
use std::alloc::Global;
use std::marker::Model;

/// What a client asks of a server (git-annex P2P protocol, version 3).
#[derive(Debug, PartialEq, Eq, Drop)]
pub enum Request {
    /// The greatest version that the client speaks.
    Version(u8),
    CheckPresent(Key),
    Lock(Key),
    /// No answer is awaited.
    Unlock(Key),
    GetTimestamp,
    Remove(Key),
    /// The server's seconds before which the content is removed, and the key.
    RemoveBefore(u64, Key),
    /// The content from this byte on.
    Get { at: u64, key: Key },
    Put(Key),
}

/// What a server answers.
#[derive(Clone, Copy, Debug, PartialEq, Eq)]
pub enum Answer {
    Auth(RepoId),
    Version(u8),
    Success,
    Failure,
    /// The server's seconds.
    Timestamp(u64),
    /// So many raw bytes come, and then Valid or Invalid.
    Sending(u64),
    Valid,
    Invalid,
    /// The content is to be sent from this byte on; Success or Failure follows it.
    PutFrom(u64),
    AlreadyHave,
    /// The key is being filled by another (own).
    Busy,
}

/// What a dialogue awaits.
#[derive(Clone, Copy, Debug, PartialEq, Eq)]
pub enum Awaited {
    Nothing,
    /// The server's identifier, with which each connection begins.
    Auth,
    /// A version of at most the asked one.
    Version(u8),
    /// Success or Failure.
    Word,
    Timestamp,
    /// The answer to a GET.
    Sending,
    /// Valid or Invalid, after the raw bytes.
    Verdict,
    /// The answer to a PUT.
    Offer,
}

/// How a message was taken.
#[derive(Clone, Copy, Debug, PartialEq, Eq)]
pub enum Took {
    Answer(Answer),
    /// The protocol doesn't permit the message here.
    Wrong,
}

/// A client's dialogue on one connection, seen as what it awaits.
#[derive(Debug, Drop)]
pub struct Dialog {
    awaited: Awaited,
}

impl Model for Dialog {
    ghost use Rattle.p2p_client.specs.declared.dialog.Awaited.{Awaited};

    ghost Value = { Awaited };

    ghost view = { λ d. d.awaited };
}

fn is_busy(text: &Text) -> bool
    ensures { result ≡ bytes_eq text.now (codes "busy") }
{
    text.bytes() == b"busy".as_slice()
}

fn awaited_after(request: &Request) -> Awaited
    ensures { result ≡ awaited_after request.now }
{
    match request {
        Request::Version(asked) => Awaited::Version(*asked),
        Request::CheckPresent(_)
        | Request::Lock(_)
        | Request::Remove(_)
        | Request::RemoveBefore(..) => Awaited::Word,
        Request::Unlock(_) => Awaited::Nothing,
        Request::GetTimestamp => Awaited::Timestamp,
        Request::Get { .. } => Awaited::Sending,
        Request::Put(_) => Awaited::Offer,
    }
}

// For the proof: that a key's text has no fault.
fn is_sound(key: &Key)
    ensures { first_fault key.now ≡ None }
{
    key_texts_have_no_fault();
    let _text = key.text();
}

// For the proof: the keys of a request are sound, and its message has a line.
fn is_sent(request: &Request)
    ensures { HasNumber request.now → IsLine (message_for request.now) }
{
    sent_messages_have_lines();
    match request {
        Request::CheckPresent(key)
        | Request::Lock(key)
        | Request::Unlock(key)
        | Request::Remove(key)
        | Request::RemoveBefore(_, key)
        | Request::Get { key, .. }
        | Request::Put(key) => is_sound(key),
        Request::Version(version) => {
            let _version = *version;
        }
        Request::GetTimestamp => {}
    }
}

fn message_for(alloc: Global, request: Request) -> Message
    ensures { result ≡ message_for request }
{
    match request {
        Request::Version(asked) => Message::Version(asked as u64),
        Request::CheckPresent(key) => Message::CheckPresent(key),
        Request::Lock(key) => Message::LockContent(key),
        Request::Unlock(key) => Message::UnlockContent(key),
        Request::GetTimestamp => Message::GetTimestamp,
        Request::Remove(key) => Message::Remove(key),
        Request::RemoveBefore(before, key) => Message::RemoveBefore { before, key },
        Request::Get { at, key } => Message::Get {
            start: at,
            file: Text::from_vec(Vec::new(alloc)),
            key,
        },
        Request::Put(key) => Message::Put {
            file: Text::from_vec(Vec::new(alloc)),
            key,
        },
    }
}

// The answer to a PUT.
fn offered(message: &Message) -> Option<(Answer, Awaited)>
    ensures { result ≡ permitted_answer Awaited.Offer message.now }
{
    match message {
        Message::PutFrom(at) => Some((Answer::PutFrom(*at), Awaited::Word)),
        Message::AlreadyHave => Some((Answer::AlreadyHave, Awaited::Nothing)),
        Message::Failure => Some((Answer::Failure, Awaited::Nothing)),
        Message::Error(text) if is_busy(text) => Some((Answer::Busy, Awaited::Nothing)),
        _ => None,
    }
}

// The version that a server chose of those up to the asked one.
fn chosen(asked: u8, version: u64) -> Option<(Answer, Awaited)>
    ensures { result ≡ permitted_answer (Awaited.Version asked) (Message.Version version) }
{
    if version <= asked as u64 {
        Some((Answer::Version(version as u8), Awaited::Nothing))
    } else {
        None
    }
}

// The answer that the message is where this is awaited, and what is awaited then.
fn permitted(awaited: Awaited, message: &Message) -> Option<(Answer, Awaited)>
    ensures { result ≡ permitted_answer awaited message.now }
{
    match (awaited, message) {
        (Awaited::Auth, Message::AuthSuccess(id)) => Some((Answer::Auth(*id), Awaited::Nothing)),
        (Awaited::Version(asked), Message::Version(version)) => chosen(asked, *version),
        (Awaited::Word, Message::Success) => Some((Answer::Success, Awaited::Nothing)),
        (Awaited::Word, Message::Failure) => Some((Answer::Failure, Awaited::Nothing)),
        (Awaited::Timestamp, Message::Timestamp(seconds)) => {
            Some((Answer::Timestamp(*seconds), Awaited::Nothing))
        }
        (Awaited::Sending, Message::Data(count)) => {
            Some((Answer::Sending(*count), Awaited::Verdict))
        }
        (Awaited::Verdict, Message::Valid) => Some((Answer::Valid, Awaited::Nothing)),
        (Awaited::Verdict, Message::Invalid) => Some((Answer::Invalid, Awaited::Nothing)),
        (Awaited::Offer, message) => offered(message),
        _ => None,
    }
}

impl Dialog {
    /// The dialogue of a connection that is opened: the server speaks first.
    pub fn new() -> Dialog
        ensures { result ≡ Awaited.Auth }
    {
        Dialog {
            awaited: Awaited::Auth,
        }
    }

    /// The message of a request. File is sent empty (own), which takes no memory.
    pub fn ask(&mut self, alloc: Global, request: Request) -> Result<Message, NoMemory>
        requires { self.old ≡ Awaited.Nothing }
        ensures message { IfOk result (λ message. message ≡ message_for request) }
        ensures line { HasNumber request → IfOk result IsLine }
        ensures awaited { self.new ≡ awaited_after request }
        ensures memory { IsOk result }
    {
        // For the proof: the message of the request has a line.
        is_sent(&request);
        self.awaited = awaited_after(&request);
        Ok(message_for(alloc, request))
    }

    /// Takes the server's next message. After Wrong the dialogue is as it was.
    pub fn take(&mut self, message: &Message) -> Took
        ensures took { result ≡ took_by (permitted_answer self.old message.now) }
        ensures awaited { self.new ≡ awaited_then self.old (permitted_answer self.old message.now) }
    {
        match permitted(self.awaited, message) {
            Some((answer, next)) => {
                self.awaited = next;
                Took::Answer(answer)
            }
            None => Took::Wrong,
        }
    }

    /// The connection was closed, by either side: the dialogue is as new.
    pub fn closed(&mut self)
        ensures { self.new ≡ Awaited.Auth }
    {
        self.awaited = Awaited::Auth;
    }
}
