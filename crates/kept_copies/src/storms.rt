//! The laws of storms: the keys of a storm's script all keep a copy. Each is the contract of a function that does nothing.

ghost use Rattle.std.specs.Prelude.{◌≡◌, ℕ, true};
ghost use Rattle.annex_base.specs.Lists.{Each};
ghost use Rattle.run_model.specs.Run.{IsRun};
ghost use Rattle.driver_model.specs.Driver.{DriverInput};
ghost use Rattle.driver_model.specs.Limits.{limited_run};
ghost use Rattle.driver_model.specs.Scripts.{IsOne};
ghost use Rattle.kept_copies.specs.Scripts.{have_contents, kept_of, trusts_nobody};
ghost use Rattle.kept_copies.specs.Storms.{first_commands, storm_commands, storm_keys};

use crate::scripts::all_contents_put_first_keep_a_copy;

/// The first lines of a storm put a content of each of its sixteen keys in place, and no line writes into a trust log. So at the end
/// of its run, also of one that ends where a line meets a full history, some repository has each of the keys: whatever number the
/// jobs are drawn from, and however many they are (own).
pub fn storms_keep_all_their_keys()
    ensures put { (number : ℕ) → have_contents (first_commands number) storm_keys ≡ true }
    ensures trust { (number jobs : ℕ) → trusts_nobody (storm_commands number jobs) ≡ true }
    ensures kept { (g : DriverInput) (number jobs : ℕ) → Each (IsOne g) (storm_commands number jobs)
        → IsRun (limited_run g (storm_commands number jobs)).run → kept_of (limited_run g (storm_commands number jobs)).run storm_keys ≡ 16 }
{
    // A law: each content that the first lines of a script put in place keeps a copy.
    all_contents_put_first_keep_a_copy();
}
