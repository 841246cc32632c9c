//! The script of a storm, as a definition, and claims of what it says, proved by computation. Nothing runs here yet.
#![tactic(auto)]

ghost use Rattle.std.specs.Prelude.{◌≡◌, true};

/// The claims stand in the proofs.
pub fn stands() -> bool
    ensures { result ≡ true }
{
    true
}
