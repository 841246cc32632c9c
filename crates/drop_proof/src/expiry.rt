//! Until when what was said counts.
ghost use Rattle.std.specs.Prelude.{◌≡◌, ◌+◌, ◌-◌, ◌/◌, ◌≤◌, ◌<◌, ◌^◌, MatchResult};

/// The evidence's first hold has ended by this clock. Both times are in milliseconds, on the clock of the job that drops.
#[derive(Debug, Clone, Copy, PartialEq, Eq, PartialOrd, Ord)]
pub struct Expired {
    pub end: u64,
    pub clock: u64,
}

/// The time up to which a peer may still drop: the whole seconds that are left until `end`, added to the peer's
/// `timestamp`. `end` and `clock` are in milliseconds on the clock of the job that drops; `timestamp` and the result are
/// in seconds on the peer's clock (P2P protocol version 3, REMOVE-BEFORE).
pub fn deadline(end: u64, clock: u64, timestamp: u64) -> Result<u64, Expired>
    requires { timestamp + (end - clock) / 1000 < 2 ^ 62 }
    ensures told { MatchResult result (λ time. (clock < end) × (time ≡ timestamp + (end - clock) / 1000))
        (λ e. (end ≤ clock) × (e ≡ record { end = end; clock = clock })) }
    ensures due { clock < end → result ≡ Ok (timestamp + (end - clock) / 1000) }
    ensures expired { end ≤ clock → result ≡ Err (record { end = end; clock = clock }) }
{
    if clock >= end {
        return Err(Expired { end, clock });
    }
    Ok(timestamp + (end - clock) / 1000)
}
