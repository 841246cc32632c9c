//! The entry of a step, and what is noted of it: what owes a line since, and the job that it ends.
ghost use Rattle.std.specs.Prelude.{◌≡◌, ◌<◌, ◌≤◌, ◌+◌, ◌++◌, is_some, option_to_list, vec_capacity, vec_len, OnOk};
ghost use Rattle.node_past.specs.Owing.{is_debtor};
ghost use Rattle.node_past.specs.Pasts.{IsReady, SamePast};
ghost use Rattle.run_data.specs.Histories.{most_entries};
ghost use Rattle.node_steps.specs.Stepping.{EntersIf, EntersStep, debt_by, entry_if, told_by};
ghost use Rattle.node_steps.specs.Turning.{ended_by};

use annex_base::NoMemory;
use node_parts::{Clock, Done, Moment, Time};
use node_past::{Ended, Past};
use owed_lines::{Debt, ToldLine};
use run_data::{By, EntryKind};

/// When the next entry of this past is made.
pub(crate) fn moment_of(past: &Past) -> Moment
    ensures { result ≡ record { time = past.now.time; clock = past.now.clock; count = past.now.count + 1; number = vec_len past.now.history + 1 } }
{
    Moment {
        time: Time::new(past.time),
        clock: Clock::set(Time::new(past.clock.at), past.clock.to),
        count: past.count + 1,
        number: past.history.len() as u64 + 1,
    }
}

/// Makes room for an entry, for the line that it owes, and for the job that it ends.
pub(crate) fn make_room(past: &mut Past, debts: &mut Vec<Debt>) -> Result<(), NoMemory>
    requires { vec_len past.old.history < most_entries }
    ensures ready { OnOk result (IsReady past.new) }
    ensures outcomes { OnOk result (vec_len past.new.outcomes < vec_capacity past.new.outcomes) }
    ensures debts { OnOk result (vec_len debts.new < vec_capacity debts.new) }
    ensures same { SamePast past.old past.new }
    ensures same_debts { debts.new.items ≡ debts.old.items }
{
    past.reserve()?;
    debts.reserve(1)?;
    past.outcomes.reserve(1)?;
    Ok(())
}

fn is_debtor(by: By) -> bool
    ensures { result ≡ is_debtor by }
{
    match by {
        By::Script => false,
        By::Job(_) | By::Peer { .. } => true,
    }
}

/// The entry at this place, where it owes a line.
fn entry_if(owes: bool, place: usize) -> Option<Debt>
    ensures { result ≡ entry_if owes place }
{
    if owes { Some(Debt::Entry(place)) } else { None }
}

/// What the talk of this job owes, or of a session, after what the job was told.
fn told_by(job: Option<u32>, told: Option<ToldLine>) -> Option<Debt>
    ensures { result ≡ told_by job told }
{
    match job {
        None => None,
        Some(_) => told.map(Debt::Told),
    }
}

/// What owes a line since an entry of this kind at this place, by which a job may have been told something.
fn debt_by(kind: &EntryKind, place: usize, told: Option<ToldLine>) -> Option<Debt>
    ensures { result ≡ debt_by kind.now place told }
{
    match kind {
        EntryKind::Gain {
            by,
            size: _,
            key: _,
        } => entry_if(is_debtor(*by), place),
        EntryKind::Gone { by, key: _ } => entry_if(is_debtor(*by), place),
        EntryKind::Talk { job } => told_by(*job, told),
        _ => None,
    }
}

/// The job that an entry of this kind ends, with the entry's place.
fn ended(kind: &EntryKind, place: usize) -> Option<Ended>
    ensures { option_to_list result ≡ ended_by kind.now place }
{
    match kind {
        EntryKind::End { job, outcome: _ } => Some(Ended {
            number: *job,
            place,
        }),
        _ => None,
    }
}

/// Notes a job that has ended, if one has.
pub(crate) fn note_ended(outcomes: &mut Vec<Ended>, ended: Option<Ended>)
    requires room { vec_len outcomes.old < vec_capacity outcomes.old }
    ensures noted { outcomes.new.items ≡ outcomes.old.items ++ option_to_list ended }
    ensures capacity { vec_capacity outcomes.new ≡ vec_capacity outcomes.old }
    ensures len { vec_len outcomes.new ≤ vec_len outcomes.old + 1 }
{
    if let Some(it) = ended {
        outcomes.push_reserved(it);
    }
}

/// Notes what owes a line, if anything does.
fn note_debt(debts: &mut Vec<Debt>, debt: Option<Debt>)
    requires room { vec_len debts.old < vec_capacity debts.old }
    ensures { debts.new.items ≡ debts.old.items ++ option_to_list debt }
{
    if let Some(it) = debt {
        debts.push_reserved(it);
    }
}

/// Adds the entry of a step. It takes no memory.
fn enter(past: &mut Past, debts: &mut Vec<Debt>, done: Done)
    requires ready { IsReady past.old }
    requires outcomes { vec_len past.old.outcomes < vec_capacity past.old.outcomes }
    requires debts { vec_len debts.old < vec_capacity debts.old }
    ensures past { EntersStep done past.old past.new }
    ensures debts { debts.new.items ≡ debts.old.items ++ option_to_list (debt_by done.kind (vec_len past.old.history) done.owes) }
{
    let Done {
        kind,
        taken,
        sent,
        owes,
    } = done;
    let place = past.history.len();
    let debt = debt_by(&kind, place, owes);
    let ended = ended(&kind, place);
    past.enter(kind, taken, sent);
    note_ended(&mut past.outcomes, ended);
    note_debt(debts, debt);
}

/// Adds the entry of a step, if one was made, and tells whether it was.
pub(crate) fn enter_if(past: &mut Past, debts: &mut Vec<Debt>, done: Option<Done>) -> bool
    requires ready { IsReady past.old }
    requires outcomes { vec_len past.old.outcomes < vec_capacity past.old.outcomes }
    requires debts { vec_len debts.old < vec_capacity debts.old }
    ensures made { result ≡ is_some done }
    ensures enters { EntersIf done past.old past.new debts.old.items debts.new.items }
{
    match done {
        None => false,
        Some(done) => {
            enter(past, debts, done);
            true
        }
    }
}
