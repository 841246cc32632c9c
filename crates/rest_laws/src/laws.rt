//! The laws of rest. Each is the contract of a function that does nothing.

ghost use Rattle.std.specs.Prelude.{◌≡◌, ℕ, ◌≤◌, false, List, [], length};
ghost use Rattle.run_data.specs.declared.run.Run.{Run};
ghost use Rattle.run_model.specs.Past.{jobs};
ghost use Rattle.run_model.specs.Safety.{past_at};
ghost use Rattle.script_commands.specs.declared.command.Agendum.{Agendum};
ghost use Rattle.driver_model.specs.Driver.{Driver, DriverInput};
ghost use Rattle.driver_model.specs.Limits.{is_too_long};
ghost use Rattle.driver_model.specs.Rounds.{settles};
ghost use Rattle.driver_model.specs.Sound.{IsSound};
ghost use Rattle.alone_drops.specs.Alone.{IsAtRest};
ghost use Rattle.block_model.specs.Blocks.{IsBlock};
ghost use Rattle.block_model.specs.Rest.{AreAllAtRest};
ghost use Rattle.rest_laws.specs.Settled.{HasNoneOld, IsSettled};

use driver_model::settlings_come_to_rest;
use p2p_wire::sent_messages_are_read;

/// Where a driver is sound and no turn changes it any more, no job runs, and the run so far is at rest: no repository has a step with all frames
/// at hand and with room at each end, so none rests only since an end lacks room. So a drop that begins there began as one that runs alone (own).
pub fn settled_drivers_are_at_rest()
    ensures jobs { (g : DriverInput) (d : Driver) → IsSound g d → IsSettled g d → (r : ℕ) → jobs d.past r ≡ [] }
    ensures rest { (g : DriverInput) (d : Driver) (run : Run) → IsSound g d → IsSettled g d → run.repos ≡ g.repos → IsAtRest run d.past }
    ensures alone { (g : DriverInput) (d : Driver) (run : Run) (first : ℕ) → IsSound g d → IsSettled g d → run.repos ≡ g.repos
        → past_at run first ≡ d.past → ((r : ℕ) → jobs (past_at run first) r ≡ []) × IsAtRest run (past_at run first) }
{
    // Laws: each message that is sent is read from its line, and a turn that adds no entry found no step ready.
    sent_messages_are_read();
    settlings_come_to_rest();
}

/// A driver is settled exactly where no frame on its way is old and all are at rest by its own look; so it is at the end of a block, and behind
/// the settling of at most sixteen repositories that leaves none with more than 100,000 entries (own).
pub fn drivers_settle()
    ensures own { (g : DriverInput) (d : Driver) → HasNoneOld g d → AreAllAtRest g d → IsSettled g d }
    ensures only { (g : DriverInput) (d : Driver) → IsSettled g d → HasNoneOld g d × AreAllAtRest g d }
    ensures block { (g : DriverInput) (xs : List Agendum) (d after : Driver) → IsBlock g xs d after → IsSettled g after }
    ensures settling { (g : DriverInput) (d : Driver) → length g.repos ≤ 16 → is_too_long g (settles g d).past ≡ false → IsSettled g (settles g d) }
{
    // A law: rounds within the limit end with two that add no entry, and a turn that adds none found no step ready.
    settlings_come_to_rest();
}

/// So the run is at rest, and no job runs, at the end of a block and behind such a settling, where the driver is sound there (own).
pub fn blocks_and_settlings_end_at_rest()
    ensures block { (g : DriverInput) (xs : List Agendum) (d after : Driver) (run : Run) → IsBlock g xs d after → IsSound g after
        → run.repos ≡ g.repos → ((r : ℕ) → jobs after.past r ≡ []) × IsAtRest run after.past }
    ensures settling { (g : DriverInput) (d : Driver) (run : Run) → length g.repos ≤ 16 → is_too_long g (settles g d).past ≡ false
        → IsSound g (settles g d) → run.repos ≡ g.repos → ((r : ℕ) → jobs (settles g d).past r ≡ []) × IsAtRest run (settles g d).past }
{
    settled_drivers_are_at_rest();
    drivers_settle();
}
