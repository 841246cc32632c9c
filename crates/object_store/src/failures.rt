//! How many calls of a store are still to fail, and how many have failed.
ghost use Rattle.std.specs.Prelude.{◌≡◌, ◌≤◌, if◌then◌else◌, nat_lt, OnOk, OnErr};
ghost use Rattle.annex_base.specs.Causes.{next_count};
ghost use Rattle.object_store.specs.Calls.{one_more, one_fewer};
ghost use Rattle.annex_base.specs.Calls.{call_number};
ghost use Rattle.object_store.specs.CallCounts.{calls_left, no_calls};

use annex_base::{Call, NoMemory};

/// The calls of each kind that are still to fail, by the call's number, and the count of faults.
#[derive(Debug, Drop)]
pub struct Failures {
    pub left: [u64; 14],
    pub count: u64,
}

impl Failures {
    /// No call is to fail, and none has failed.
    pub fn new() -> Failures
        ensures left { calls_left result.left ≡ no_calls }
        ensures count { result.count ≡ 0 }
    {
        Failures {
            left: [0; 14],
            count: 0,
        }
    }

    /// Whether this call fails, which it then counts.
    pub fn fails(&mut self, call: Call) -> bool
        ensures fails { result ≡ nat_lt 0 (calls_left self.old.left call) }
        ensures left { calls_left self.new.left ≡ one_fewer call (calls_left self.old.left) }
        ensures count { self.new.count ≡ (if result then next_count self.old.count else self.old.count) }
        ensures later { self.old.count ≤ self.new.count }
    {
        if take_one(&mut self.left, call) {
            self.count = self.count.saturating_add(1);
            return true;
        }
        false
    }

    /// One more of the next calls of this kind is to fail.
    pub fn add(&mut self, call: Call) -> Result<(), NoMemory>
        ensures ok { OnOk result (calls_left self.new.left ≡ one_more call (calls_left self.old.left)) }
        ensures err { OnErr result (calls_left self.new.left ≡ calls_left self.old.left) }
        ensures count { self.new.count ≡ self.old.count }
    {
        let number = number_of(call);
        let left = self.left[number];
        match left.checked_add(1) {
            Some(more) => {
                self.left[number] = more;
                Ok(())
            }
            None => Err(NoMemory),
        }
    }
}

fn number_of(call: Call) -> usize
    ensures { result ≡ call_number call }
{
    call as usize
}

fn take_one(left: &mut [u64; 14], call: Call) -> bool
    ensures fails { result ≡ nat_lt 0 (calls_left left.old call) }
    ensures left { calls_left left.new ≡ one_fewer call (calls_left left.old) }
{
    let number = number_of(call);
    let was = left[number];
    left[number] = was.saturating_sub(1);
    0 < was
}
