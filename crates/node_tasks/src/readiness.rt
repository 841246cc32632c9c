//! Whether a job has a step.
ghost use Rattle.std.specs.Prelude.{◌≡◌, ◌*◌, length, option_copied, IfOk, IfSome};
ghost use Rattle.node_tasks.specs.Owing.{message_heard, message_in, message_taken};
ghost use Rattle.node_tasks.specs.Tasks.{IsTask, slot_of};
ghost use Rattle.node_tasks.specs.Telling.{Answers, IsToldTo, takes_in};
ghost use Rattle.node_drops.specs.Waiting.{WaitsFor};

use crate::task::Task;
use annex_base::NoMemory;
use end_hearing::Arrival;
use node_drops::{Clock, Feed, Place, Taken, Time};
use node_ends::Ends;
use p2p_wire::Message;
use session_state::Incoming;
use std::alloc::Global;

/// What a job is told in its step.
#[derive(Drop)]
pub enum Told {
    Feed(Feed),
    Arrival(Arrival),
}

impl Told {
    /// The peer from whose end a frame is taken, if one is.
    pub fn takes(&self) -> Option<u32>
        ensures { result ≡ takes_in self.now }
    {
        match self {
            Told::Feed(feed) => feed.takes,
            Told::Arrival(arrival) => arrival.takes,
        }
    }

    /// The message that it is told, if it is told one.
    pub(crate) fn message(&self) -> Option<&Message>
        ensures { option_copied result ≡ message_in self.now }
    {
        match self {
            Told::Feed(feed) => message_taken(&feed.taken),
            Told::Arrival(arrival) => message_heard(arrival.incoming.as_ref()),
        }
    }
}

fn message_taken(taken: &Taken) -> Option<&Message>
    ensures { option_copied result ≡ message_taken taken.now }
{
    match taken {
        Taken::Message(message) => Some(message),
        Taken::Nothing | Taken::Other | Taken::Closed => None,
    }
}

fn message_heard(incoming: Option<&Incoming>) -> Option<&Message>
    ensures { option_copied result ≡ message_heard (option_copied incoming.entry) }
{
    match incoming {
        Some(Incoming::Message(message)) => Some(message),
        _ => None,
    }
}

/// What the job is told, where it has a step.
pub fn ready(
    task: &Task,
    alloc: Global,
    place: &Place,
    clock: Clock,
    ends: &mut Ends,
    time: Time,
) -> Result<Option<Told>, NoMemory>
    requires task { IsTask place.now task.now }
    requires count { length ends.old ≡ length place.now.ids * 8 }
    ensures answers { IfOk result (Answers place.now clock ends.old time task.now) }
    ensures told { IfOk result (λ o. IfSome o (IsToldTo ends.old task.now)) }
    ensures waits { IfOk result (λ o. IfSome o (λ x. WaitsFor ends.old (slot_of task.now) (takes_in x))) }
    ensures same { ends.new ≡ ends.old }
{
    match task {
        Task::Drops(job) => {
            match node_drops::ready(job, alloc, place, clock, ends, time)? {
                Some(feed) => Ok(Some(Told::Feed(feed))),
                None => Ok(None),
            }
        }
        Task::Transfers(job) => {
            match node_transfers::ready(&job.worker, alloc, place.number(), place.count(), ends)? {
                Some(arrival) => Ok(Some(Told::Arrival(arrival))),
                None => Ok(None),
            }
        }
    }
}
