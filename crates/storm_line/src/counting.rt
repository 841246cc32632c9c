//! A count of what holds.

ghost use Rattle.std.specs.Prelude.{◌≡◌, ◌≤◌, if◌then◌else◌};

/// 1 where it holds, and else 0.
pub(crate) fn one_if(holds: bool) -> u64
    ensures is { result ≡ (if holds then 1 else 0) }
    ensures few { result ≤ 1 }
{
    if holds { 1 } else { 0 }
}
