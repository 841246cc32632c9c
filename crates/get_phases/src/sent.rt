//! A request for the bytes of a key.
ghost use Rattle.std.specs.Prelude.{◌≡◌, ◌<◌, ◌^◌};
ghost use Rattle.std.specs.Option.{ForSome};
ghost use Rattle.key_verify.specs.Sums.{bytes_taken};

use annex_base::Call;
use key_verify::Digester;
use transfer_turns::Output;

/// A GET that is sent, with the size of the part and the digester that has taken it. There is none where what was read of
/// the part wasn't of that size.
#[derive(Drop)]
pub struct Sent {
    pub output: Output,
    pub size: u64,
    pub digester: Option<Digester>,
    pub ghost small: { size < 2 ^ 62 },
    pub ghost counts: { ForSome digester (λ d. bytes_taken d ≡ size) },
}

/// A GET that is sent, or the store call that failed.
#[derive(Drop)]
pub enum Asked {
    Sent(Sent),
    Failed(Call),
}
