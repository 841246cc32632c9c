//! The list of the running jobs.
ghost use Rattle.std.specs.Prelude.{◌≡◌, ◌≤◌, ◌<◌, ◌+◌, ◌++◌, ◌∷◌, ◌&&◌, ◌==◌, ℕ, List, [], find, length, map, not, take, drop, vec_capacity, vec_len, IfOk, IsErrOf, OnOk};
ghost use Rattle.std.specs.Option.{option_map};
ghost use Rattle.run_data.specs.declared.entry.EntryKind.TheVariants.{Crash};
ghost use Rattle.node_model.specs.Rows.{holds_after};
ghost use Rattle.node_model.specs.Slots.{free_slot, uses};
ghost use Rattle.content_lock.specs.Rows.{is_filling};
ghost use Rattle.content_lock.specs.Stored.{label_of};
ghost use Rattle.node_tasks.specs.Tasks.{number_of, slot_of};
ghost use Rattle.running_jobs.specs.Beginning.{running_now};
ghost use Rattle.running_jobs.specs.Ending.{CanEnd, OthersKeep};
ghost use Rattle.running_jobs.specs.Running.{fills_at};

use crate::refused::BeginRefused;
use content_lock::LockTable;
use node_tasks::{Task, end};

/// How many jobs run at once.
const SLOTS: usize = 4;

/// Makes room for one more job, and finds its slot: the least in which none runs.
pub(crate) fn find_slot(running: &mut Vec<Task>) -> Result<u32, BeginRefused>
    ensures slot { IfOk result (λ slot. slot ≡ free_slot (map running_now running.old.items)) }
    ensures room { OnOk result (vec_len running.new < vec_capacity running.new) }
    ensures free { OnOk result (length running.old.items < 4) }
    ensures full { IsErrOf result BeginRefused.NoSlot → 4 ≤ length running.old.items }
    ensures short { IsErrOf result BeginRefused.NoMemory → length running.old.items < 4 }
    ensures items { running.new.items ≡ running.old.items }
{
    if running.len() >= SLOTS {
        return Err(BeginRefused::NoSlot);
    }
    if running.reserve(1).is_err() {
        return Err(BeginRefused::NoMemory);
    }
    Ok(free_slot(running))
}

/// The least slot in which no job runs.
fn free_slot(running: &[Task]) -> u32
    ensures { result ≡ free_slot (map running_now running.now) }
{
    if !uses(running, 0) {
        return 0;
    }
    if !uses(running, 1) {
        return 1;
    }
    if !uses(running, 2) {
        return 2;
    }
    3
}

fn uses(running: &[Task], slot: u32) -> bool
    ensures { result ≡ uses (map running_now running.now) slot }
{
    for task in running.iter() {
        if task.slot() == slot {
            return true;
        }
    }
    false
}

/// The number of the job in this slot, if one runs there.
pub(crate) fn in_slot(running: &[Task], slot: u32) -> Option<u32>
    ensures { result ≡ option_map number_of (find (λ t. slot_of t == slot) running.now) }
{
    for task in running.iter() {
        if task.slot() == slot {
            return Some(task.number());
        }
    }
    None
}

/// Puts a job before the others.
pub(crate) fn add(running: &mut Vec<Task>, task: Task)
    requires { vec_len running.old < vec_capacity running.old }
    ensures { running.new.items ≡ task ∷ running.old.items }
{
    match running.insert(0, task) {
        Ok(()) => {}
        Err(_task) => unreachable!(),
    }
}

/// Takes the job at this place out of the list, which keeps its room.
pub(crate) fn take_out(running: &mut Vec<Task>, index: usize) -> Task
    requires { index < vec_len running.old }
    ensures was { running.old.items ≡ take index running.old.items ++ result ∷ drop (index + 1) running.old.items }
    ensures now { running.new.items ≡ take index running.old.items ++ drop (index + 1) running.old.items }
    ensures room { vec_len running.new < vec_capacity running.new }
    ensures len { vec_len running.new + 1 ≡ vec_len running.old }
{
    running.remove(index)
}

/// Puts it back.
pub(crate) fn put_back(running: &mut Vec<Task>, index: usize, task: Task)
    requires there { index ≤ vec_len running.old }
    requires room { vec_len running.old < vec_capacity running.old }
    ensures { running.new.items ≡ take index running.old.items ++ task ∷ drop index running.old.items }
{
    match running.insert(index, task) {
        Ok(()) => {}
        Err(_task) => unreachable!(),
    }
}

/// Ends all jobs: what each has of the table is given up. A hold of its own is kept until its end.
pub(crate) fn end_all(running: &mut Vec<Task>, table: &mut LockTable)
    requires { CanEnd table.old running.old.items }
    ensures none { running.new.items ≡ [] }
    ensures labels { map label_of table.new.holds ≡ map label_of table.old.holds }
    ensures crash { (clock : ℕ) → holds_after table.new.holds (Crash clock) ≡ holds_after table.old.holds (Crash clock) }
    ensures fills { (key : List ℕ) → is_filling table.new key ≡ (not (fills_at running.old.items key) && is_filling table.old key) }
    ensures others { OthersKeep running.old.items table.old table.new }
{
    'ending: while let Some(task) = running.pop() {
        end(task, table);
    }
}
