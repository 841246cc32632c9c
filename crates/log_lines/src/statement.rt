//! What an entry says of its topic, and which of two such statements is the older.

ghost use Rattle.std.specs.Prelude.{◌≡◌};
ghost use Rattle.std.specs.Ordering.{is_lt};
ghost use Rattle.log_lines.specs.Latest.{statement_cmp};

use crate::compare::compare_values;
use crate::entry::Value;
use annex_base::Stamp;

/// What an entry says of its topic.
#[derive(Clone, Debug, Drop, PartialEq, Eq)]
pub struct Statement {
    pub stamp: Option<Stamp>,
    pub value: Value,
}

pub(crate) fn is_older(one: &Statement, other: &Statement) -> bool
    ensures { result ≡ is_lt (statement_cmp one.now other.now) }
{
    one.stamp
        .cmp(&other.stamp)
        .then_with(|| compare_values(&one.value, &other.value))
        .is_lt()
}
