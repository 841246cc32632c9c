//! Holds by number, the greatest first.
ghost use Rattle.std.specs.Prelude.{◌≡◌, ◌<◌, ◌^◌, IfOk, OnOk, OnErr};
ghost use Rattle.object_store.specs.HoldList.{records_of};
ghost use Rattle.object_store.specs.Stores.{with_record, without_record, AreDistinct, AreFalling, AreEarly};

use crate::hold::Hold;
use crate::keeper::HoldRecord;
use annex_base::NoMemory;
use std::alloc::Global;
use std::cmp::Reverse;
use std::collections::BTreeMap;

/// Puts the record in place of one of its number.
pub fn put(holds: &mut BTreeMap<Reverse<u64>, Hold>, hold: &HoldRecord) -> Result<(), NoMemory>
    requires { hold.now.end < 2 ^ 62 }
    ensures ok { OnOk result (records_of holds.new.entries ≡ with_record (records_of holds.old.entries) hold.now) }
    ensures err { OnErr result (records_of holds.new.entries ≡ records_of holds.old.entries) }
{
    let key = hold.key.copy()?;
    let kept = Hold { key, end: hold.end };
    holds.insert(Reverse(hold.number), kept)?;
    Ok(())
}

/// Takes the record of this number off.
pub fn take_off(holds: &mut BTreeMap<Reverse<u64>, Hold>, number: u64)
    ensures { records_of holds.new.entries ≡ without_record (records_of holds.old.entries) number }
{
    // For the prover: it says that the numbers are in order.
    let _ = holds.len();
    holds.remove(&Reverse(number));
}

/// All records.
pub fn records(
    alloc: Global,
    holds: &BTreeMap<Reverse<u64>, Hold>,
) -> Result<Vec<HoldRecord>, NoMemory>
    ensures value { IfOk result (λ v. v.items ≡ records_of holds.now.entries) }
    ensures distinct { IfOk result (λ v. AreDistinct v.items) }
    ensures ends { IfOk result (λ v. AreEarly v.items) }
    ensures falling { OnOk result (AreFalling (records_of holds.now.entries)) }
{
    let mut out = Vec::new(alloc);
    for (number, hold) in holds.iter() {
        let key = hold.key.copy()?;
        out.push(HoldRecord {
            number: number.0,
            key,
            end: hold.end,
        })?;
    }
    Ok(out)
}
