//! The stamp of an entry that is added.

ghost use Rattle.std.specs.Prelude.{◌≡◌};
ghost use Rattle.log_lines.specs.Newest.{next_stamp};

use annex_base::Stamp;

/// The greatest stamp: 9999999999.999999999 seconds, in nanoseconds.
const GREATEST: u64 = 9_999_999_999_999_999_999;

/// The stamp of an entry that is added where the newest of its topic has this stamp: the clock, or where the newest
/// isn't before it, one nanosecond past the newest, but never past the greatest stamp (own).
pub fn next_stamp(newest: Option<Stamp>, clock: Stamp) -> Stamp
    ensures { result ≡ next_stamp newest clock }
{
    match newest {
        None => clock,
        Some(stamp) => Stamp {
            nanos: clock.nanos.max((stamp.nanos + 1).min(GREATEST)),
        },
    }
}
