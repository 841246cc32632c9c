//! What is done with a part as bytes are announced, and as they come.
ghost use Rattle.std.specs.Prelude.{◌≡◌, ◌≤◌, ◌<◌, ◌^◌, ◌+◌, ◌-◌, ◌++◌, ℕ, List, length, true, Some, None, IfSome};
ghost use Rattle.std.specs.declared.option.Option.{Option};
ghost use Rattle.object_store.specs.Stores.{Parts};
ghost use Rattle.key_verify.specs.Sums.{bytes_taken};
ghost use Rattle.node_model.specs.Sessions.{takes_more};
ghost use Rattle.content_lock.specs.Rows.{Rows, is_filling};
ghost use Rattle.session_state.specs.Talking.{HasFill, IsFed, IsFedBy, doing_of};

use content_lock::Fill;
use key_verify::Digester;
use session_state::{Doing, Taken, Taking, Wanting};

/// From this many bytes on a part is summed no more.
const LIMIT: u128 = 1 << 62;

/// The digester after more bytes, of a part that then has this size.
fn feed(digester: Option<Digester>, piece: &[u8], size: u128) -> Option<Digester>
    requires counts { IfSome digester (λ d. bytes_taken d + length piece.now ≡ size) }
    ensures counts { IfSome result (λ d. bytes_taken d ≡ size) }
    ensures small { IfSome result (λ d. size < 2 ^ 62) }
    ensures fed { (key bytes : List ℕ) → size < 2 ^ 62 → IsFedBy digester key bytes → IsFedBy result key (bytes ++ piece.now) }
{
    if size >= LIMIT {
        return None;
    }
    match digester {
        Some(mut digester) => {
            digester.update(piece);
            Some(digester)
        }
        None => None,
    }
}

/// What is done with a part of this size to which so many bytes are to come.
fn awaiting(fill: Fill, size: u128, left: u64, digester: Option<Digester>) -> Doing
    requires bound { size + left < 2 ^ 65 }
    requires counts { IfSome digester (λ d. bytes_taken d ≡ size) }
    requires small { IfSome digester (λ d. size < 2 ^ 62) }
    ensures doing { doing_of result ≡ takes_more fill size left }
    ensures given { (rows : Rows) → is_filling rows fill ≡ true → HasFill rows result }
    ensures fed { (p : Parts) → IsFedBy digester fill (p fill) → IsFed p result }
{
    if left > 0 {
        return Doing::Takes(Taking {
            fill,
            size,
            left,
            digester,
        });
    }
    match digester {
        Some(digester) => Doing::Took(Taken {
            fill,
            size,
            sum: Some(digester.finish()),
        }),
        None => Doing::Took(Taken {
            fill,
            size,
            sum: None,
        }),
    }
}

/// DATA: so many bytes are to come.
pub fn announced(wanting: Wanting, count: u64) -> Doing
    ensures doing { doing_of result ≡ takes_more wanting.fill wanting.size count }
    ensures given { (rows : Rows) → is_filling rows wanting.fill ≡ true → HasFill rows result }
    ensures fed { (p : Parts) → IsFedBy wanting.digester wanting.fill (p wanting.fill) → IsFed p result }
{
    let Wanting {
        fill,
        size,
        digester,
    } = wanting;
    awaiting(fill, size as u128, count, digester)
}

/// The piece was put to the part.
pub fn appended(taking: Taking, piece: &[u8]) -> Doing
    requires { length piece.now ≤ taking.left }
    ensures doing { doing_of result ≡ takes_more taking.fill (taking.size + length piece.now) (taking.left - length piece.now) }
    ensures given { (rows : Rows) → is_filling rows taking.fill ≡ true → HasFill rows result }
    ensures fed { (p p' : Parts) → IsFedBy taking.digester taking.fill (p taking.fill) → p' taking.fill ≡ p taking.fill ++ piece.now → length (p' taking.fill) < 2 ^ 62 → IsFed p' result }
{
    let Taking {
        fill,
        size,
        left,
        digester,
    } = taking;
    let size = size + piece.len() as u128;
    let left = left - piece.len() as u64;
    let digester = feed(digester, piece, size);
    awaiting(fill, size, left, digester)
}
