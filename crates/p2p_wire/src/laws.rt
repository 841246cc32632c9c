//! The laws of messages and lines. Each is the contract of a function that does nothing.

ghost use Rattle.std.specs.Prelude.{◌≡◌, ℕ, ◌≤◌, ◌++◌, List, length, Some};
ghost use Rattle.p2p_wire.specs.declared.message.Message.{Message};
ghost use Rattle.annex_base.specs.Lists.{Each};
ghost use Rattle.p2p_wire.specs.Answers.{Answers};
ghost use Rattle.p2p_wire.specs.Messages.{IsShort, IsWire, message_of, text_of};
ghost use Rattle.p2p_wire.specs.Streams.{Accounts, Decodes, DecoderEvent, IsItem, IsLine, IsSaidInOneLine, Item, DecoderView, fed_bytes, stream_of};

use annex_key::key_texts_have_no_fault;

/// Each message that is sent is read from its line, which has at most 8,192 bytes (git-annex P2P protocol; the limit
/// is own).
pub fn sent_messages_are_read()
    ensures read { (m : Message) → IsWire m → IsShort m → message_of (text_of m) ≡ Some m }
    ensures short { (m : Message) → IsWire m → IsShort m → length (text_of m) ≤ 8192 }
{}

/// Each message that is sent has a line of the protocol: no newline is in it, and it is read as that message (git-annex
/// P2P protocol).
pub fn sent_messages_have_lines()
    ensures { (m : Message) → IsWire m → IsShort m → IsSaidInOneLine m → IsLine m }
{
    // A law, for the proof that a key in a message is one line.
    key_texts_have_no_fault();
}

/// A line that is read as a message is that message's line (git-annex P2P protocol).
pub fn lines_have_one_message()
    ensures { (line : List ℕ) (m : Message) → message_of line ≡ Some m → text_of m ≡ line }
{}

/// However the bytes of a stream are cut into pieces, and whenever a decoder is asked, it answers the stream's messages
/// and raw bytes in their order and nothing else; and where all bytes were fed and it needs more, it gave all of them
/// (git-annex P2P protocol).
pub fn streams_are_decoded()
    ensures { (items : List Item) (events : List DecoderEvent) (more : List ℕ) → Each IsItem items → fed_bytes events ++ more ≡ stream_of items → Decodes items more events }
{}

/// Whatever a decoder is fed and whenever it is asked, what it gave and then what it did not give is what it was fed;
/// each message is one of the protocol; and a refusal tells the first line that is none, at the place of its first byte.
pub fn answers_account_for_the_bytes()
    ensures { (events : List DecoderEvent) → Accounts events }
{}

/// Each answer of a decoder comes exactly then: more is needed at an unfinished line of at most 8,192 bytes, or where
/// raw bytes are to come and none is at hand; raw bytes are all that are to come and at hand; a line is refused where it
/// is whole, has at most 8,192 bytes and is no message, or where 8,193 bytes have no newline; and then for ever.
pub fn answers_are_exact()
    ensures { (u : DecoderView) → Answers u }
{}
