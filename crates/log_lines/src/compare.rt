//! Which of two values of one stamp is preferred.

ghost use Rattle.std.specs.Prelude.{◌≡◌, ℕ};
ghost use Rattle.log_lines.specs.Newest.{value_cmp};
ghost use Rattle.log_lines.specs.Latest.{value_rank};

use crate::entry::Value;
use std::cmp::Ordering;

/// The place of a value among those that a log file may have, and those of a location log among one another.
fn rank(value: &Value) -> u8
    ensures { result ≡ value_rank value.now }
{
    match value {
        Value::Present => 0,
        Value::Absent => 1,
        Value::Gone => 2,
        Value::Level(_) => 3,
        Value::Text(_) => 4,
        Value::Groups(_) => 5,
        Value::Number(_) => 6,
    }
}

/// Which of two values of one stamp is preferred: the greater.
pub(crate) fn compare_values(one: &Value, other: &Value) -> Ordering
    ensures { result ≡ value_cmp one.now other.now }
{
    match (one, other) {
        (Value::Level(one), Value::Level(other)) => other.cmp(one),
        (Value::Text(one), Value::Text(other)) => one.cmp(other),
        (Value::Groups(one), Value::Groups(other)) => one.as_slice().cmp(other.as_slice()),
        (Value::Number(one), Value::Number(other)) => one.cmp(other),
        _ => rank(one).cmp(&rank(other)),
    }
}
