//! That what a transfer says are lines of the protocol.
ghost use Rattle.transfer_turns.specs.Lines.{AreTransferLines};

use annex_key::{Key, key_texts_have_no_fault};
use p2p_wire::sent_messages_have_lines;

/// That what a transfer says are lines of the protocol: it is called for proofs alone, and does nothing (own).
pub fn reads(key: &Key)
    ensures { AreTransferLines key.now }
{
    key_texts_have_no_fault();
    sent_messages_have_lines();
    let _text = key.text();
}
