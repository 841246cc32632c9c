//! A source that is read whole, and a text that is written whole.

ghost use Rattle.std.specs.Prelude.{◌≡◌, ◌≤◌, ◌<◌, ◌^◌, ℕ, ◌+◌, length, IfOk, OnOk, OnErr};
ghost use Rattle.std.specs.Io.KnownBytes.{append_known, prepend_known};
ghost use Rattle.annex_base.specs.Causes.{Rose};
ghost use Rattle.script_answers.specs.Whole.{IsRead, IsAtEnd, TakesFront};

use annex_base::{Failed, NoMemory, Sink, Source};
use std::alloc::Global;

/// The greatest number of bytes of a script.
pub const SCRIPT_LIMIT: usize = 1_048_576;

const ROOM: usize = 4096;

/// Why a source wasn't read.
#[derive(Clone, Copy, Debug, PartialEq, Eq)]
pub enum ReadStop {
    Failed,
    NoMemory,
}

/// The bytes of a source up to its end, or, where there are more than this limit, the first bytes past that number.
pub fn read_whole<S: Source>(
    alloc: Global,
    source: &mut S,
    limit: usize,
) -> Result<Vec<u8>, ReadStop>
    requires { limit < 2 ^ 62 }
    ensures read { IfOk result (λ text. IsRead limit (S.left source.old) (S.left source.new) text.items) }
    ensures cause { result ≡ Err ReadStop.Failed → Rose (S.faults source.old) (S.faults source.new) }
    ensures failed { S.faults source.old < S.faults source.new → result ≡ Err ReadStop.Failed }
    ensures later { S.faults source.old ≤ S.faults source.new }
{
    let mut text = Vec::new(alloc);
    let mut room = [0; ROOM];
    while text.len() <= limit {
        let Ok(count) = source.read(&mut room) else {
            return Err(ReadStop::Failed);
        };
        if count == 0 {
            return Ok(text);
        }
        let (front, _) = room.split_at(count);
        if text.extend_from_slice(front).is_err() {
            return Err(ReadStop::NoMemory);
        }
    }
    Ok(text)
}

/// Writes the whole text.
pub fn write_whole<K: Sink>(sink: &mut K, text: &[u8]) -> Result<(), Failed>
    ensures ok { OnOk result (K.taken sink.new ≡ append_known (K.taken sink.old) text.now) }
    ensures err { OnErr result (TakesFront (K.taken sink.old) (K.taken sink.new) text.now) }
    ensures cause { OnErr result (Rose (K.faults sink.old) (K.faults sink.new)) }
    ensures kept { OnOk result (K.faults sink.new ≡ K.faults sink.old) }
    ensures later { K.faults sink.old ≤ K.faults sink.new }
{
    let mut at = 0;
    while at < text.len() {
        let (_, rest) = text.split_at(at);
        at += sink.write(rest)?;
    }
    Ok(())
}
