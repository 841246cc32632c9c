//! The lock table of a repository.
ghost use Rattle.std.specs.Prelude.{◌≡◌, ◌≤◌, ◌==◌, ◌+◌, ◌<◌, ◌^◌, ◌||◌, ◌&&◌, not, true, false, None, Some, ℕ, List, [], All, filter, map, is_err, if◌then◌else◌, IfOk, IfErr, OnOk, OnErr, IsErrOf, bytes_eq};
ghost use Rattle.std.specs.declared.option.Option.{Option};
ghost use Rattle.std.specs.Option.{ForSome, option_map};
ghost use Rattle.annex_base.specs.Causes.{Rose};
ghost use Rattle.annex_base.specs.declared.kinds.Call.TheVariants as calls;
ghost use Rattle.annex_base.specs.declared.kinds.Call.TheVariants.{Unhold};
ghost use Rattle.drop_proof.specs.declared.rule.Need.{Need};
ghost use Rattle.run_data.specs.declared.entry.By.{By};
ghost use Rattle.run_data.specs.declared.entry.EntryKind.TheVariants as kinds;
ghost use Rattle.run_data.specs.declared.row.Hold.{Hold};
ghost use Rattle.node_model.specs.Clocks.{hold_time};
ghost use Rattle.node_model.specs.Rows.{blocks, holds_after, is_blocked, same_owner};
ghost use Rattle.object_store.specs.Calls.{FailsAsTold};
ghost use Rattle.object_store.specs.Stores.{without_record};
ghost use Rattle.content_lock.specs.Rows.{AreAfter, bar_at, is_filling};
ghost use Rattle.content_lock.specs.Stored.{Agrees, AgreesInEnds, AreRecordsOf, HasContent, kept_hold, label_of, ownerless, record_of, with_new, without_content};
ghost use Rattle.content_lock.specs.Looks.{IsFree, IsOfHold, LooksSo, NotBarred, NotShared, RemovesSo, NotRemoved, IsShareFault, IsRemoveFault};
ghost use Rattle.content_lock.specs.Tokens.{BarView, HasBar, HasShare, Owns, ShareView, keep_numbered, without_open};
ghost use Rattle.content_lock.specs.Turns.{FailInTurn, bar_failed, hold_turns, recover_failed, removal_turns, share_turns};

use crate::hold::HOLD_TIME;
use crate::holds::Holds;
use crate::refusals::{
    BarRefused, FillRefused, Look, RecoverRefused, RemoveRefused, Removed, ShareRefused,
};
use crate::tokens::{Bar, Fill, Share};
use annex_base::{Call, Failed, NoMemory};
use annex_key::Key;
use indexmap::{IndexMap, IndexSet};
use object_store::{HoldRecord, Keeper, KeeperFault};
use run_data::{By, Hold};
use std::alloc::Global;
use std::marker::Model;

/// The holds and the bars of a repository, and the keys that are being filled. Whether a content is there is its store's to
/// say.
#[derive(Drop)]
pub struct LockTable {
    holds: Holds,
    bars: IndexMap<Key, u32>,
    fills: IndexSet<Key>,
}

impl Model for LockTable {
    ghost use Rattle.object_store.specs.Stores.{without_record};
    ghost use Rattle.content_lock.specs.Rows.{Rows};

    ghost Value = { Rows };

    ghost view = { λ t. record { holds = t.holds; bars = t.bars.entries; fills = t.fills.keys } };
}

impl LockTable {
    /// A table without holds, bars and fills.
    pub fn new(alloc: Global) -> Result<LockTable, NoMemory>
        ensures { IfOk result (λ t. t ≡ record { holds = []; bars = []; fills = [] }) }
    {
        Ok(LockTable {
            holds: Holds::new(alloc),
            bars: IndexMap::new(alloc),
            fills: IndexSet::new(alloc),
        })
    }

    /// What a crash leaves: each hold is kept for ten minutes of the clock, which was set anew to this, in milliseconds;
    /// bars and fills are gone. The tokens must have been spent.
    pub fn restart(&mut self, now: u64)
        requires early { now + 600000 < 2 ^ 62 }
        ensures after { self.new ≡ record { holds = holds_after self.old.holds (kinds.Crash now); bars = []; fills = [] } }
        ensures stored { map label_of self.new.holds ≡ map label_of self.old.holds }
        ensures nobody { (by : By) → Owns by None self.new.holds }
    {
        self.holds.restart(now);
        self.bars.clear();
        self.fills.clear();
    }

    /// The table that a crash leaves: the store's hold records as kept holds, which are nobody's, for ten minutes of the clock
    /// that was set anew to this, in milliseconds; no bar and no fill.
    pub fn recover<K: Keeper>(
        alloc: Global,
        keeper: &mut K,
        now: u64,
    ) -> Result<LockTable, RecoverRefused>
        requires early { now + 600000 < 2 ^ 62 }
        ensures bare { IfOk result (λ t. (t.bars ≡ []) × (t.fills ≡ [])) }
        ensures holds { IfOk result (λ t. ForSome (K.records keeper.old) (λ rs. t.holds ≡ map (kept_hold now) rs)) }

        // Of a table whose holds the records are: what a crash leaves of it, but that the holds are nobody's.
        ensures crash { IfOk result (λ t. ForSome (K.records keeper.old) (λ rs. (was : List Hold) → AreRecordsOf was rs → t.holds ≡ map ownerless (holds_after was (kinds.Crash now)))) }
        ensures nobody { IfOk result (λ t. (by : By) → Owns by None t.holds) }
        ensures agrees { IfOk result (λ t. Agrees (K.records keeper.new) t.holds) }
        ensures contents { K.contents keeper.new ≡ K.contents keeper.old }
        ensures parts { K.parts keeper.new ≡ K.parts keeper.old }
        ensures records { K.records keeper.new ≡ K.records keeper.old }
        ensures files { K.files keeper.new ≡ K.files keeper.old }
        ensures later { K.faults keeper.old ≤ K.faults keeper.new }
        ensures cause { IsErrOf result RecoverRefused.StoreFault → Rose (K.faults keeper.old) (K.faults keeper.new) }
        ensures failing { FailsAsTold calls.Holds (K.failing keeper.old) (K.failing keeper.new) (recover_failed result) }
    {
        let records = match keeper.holds() {
            Ok(records) => records,
            Err(KeeperFault::Failed) => return Err(RecoverRefused::StoreFault),
            Err(KeeperFault::NoMemory) => return Err(RecoverRefused::NoMemory),
        };
        Ok(LockTable {
            holds: Holds::recover(alloc, records, now)?,
            bars: IndexMap::new(alloc),
            fills: IndexSet::new(alloc),
        })
    }

    /// From now on the key is being filled, until the fill is given back.
    pub fn fill(&mut self, key: &Key) -> Result<Fill, FillRefused>
        ensures token { IfOk result (λ f. f ≡ key.now) }
        ensures given { OnOk result (is_filling self.new key.now ≡ true) }
        ensures ok { OnOk result ((k : List ℕ) → is_filling self.new k ≡ (bytes_eq key.now k || is_filling self.old k)) }
        ensures free { OnOk result (is_filling self.old key.now ≡ false) }
        ensures busy { IsErrOf result FillRefused.Busy → is_filling self.old key.now ≡ true }
        ensures short { IsErrOf result FillRefused.NoMemory → is_filling self.old key.now ≡ false }
        ensures err { OnErr result (self.new ≡ self.old) }
        ensures holds { self.new.holds ≡ self.old.holds }
        ensures bars { self.new.bars ≡ self.old.bars }
    {
        if self.fills.contains(key) {
            return Err(FillRefused::Busy);
        }
        let given = key.copy()?;
        match self.fills.insert(key.copy()?) {
            Ok(_) => Ok(Fill { key: given }),
            Err(_) => Err(FillRefused::NoMemory),
        }
    }

    /// Whether the key is being filled.
    pub fn is_filling(&self, key: &Key) -> bool
        ensures { result ≡ is_filling self.now key.now }
    {
        self.fills.contains(key)
    }

    /// Gives the fill back.
    pub fn unfill(&mut self, fill: Fill)
        requires given { is_filling self.old fill ≡ true }
        ensures off { (k : List ℕ) → is_filling self.new k ≡ (not (bytes_eq fill k) && is_filling self.old k) }
        ensures holds { self.new.holds ≡ self.old.holds }
        ensures bars { self.new.bars ≡ self.old.bars }
    {
        let Fill { key } = fill;
        self.fills.swap_remove(&key);
    }

    /// The job whose bar stands on the key.
    pub fn barring(&self, key: &Key) -> Option<u32>
        ensures { result ≡ bar_at self.now key.now }
    {
        self.bars.get(key).copied()
    }

    /// Looks at the row of a key.
    pub fn check<K: Keeper>(&self, keeper: &mut K, key: &Key) -> Result<Look, Failed>
        ensures found { IfOk result (λ look. LooksSo look (HasContent (K.contents keeper.old) key.now) (bar_at self.now key.now)) }
        ensures contents { K.contents keeper.new ≡ K.contents keeper.old }
        ensures parts { K.parts keeper.new ≡ K.parts keeper.old }
        ensures records { K.records keeper.new ≡ K.records keeper.old }
        ensures files { K.files keeper.new ≡ K.files keeper.old }
        ensures later { K.faults keeper.old ≤ K.faults keeper.new }
        ensures cause { OnErr result (Rose (K.faults keeper.old) (K.faults keeper.new)) }
        ensures failing { FailsAsTold calls.Has (K.failing keeper.old) (K.failing keeper.new) (is_err result) }
    {
        if !keeper.has(key)? {
            return Ok(Look::Absent);
        }
        Ok(match self.barring(key) {
            None => Look::Present,
            Some(job) => Look::Barred { job },
        })
    }

    /// Takes a hold on a content that is there and has no bar. Its record is in the store before the share is handed out. The
    /// number is greater than that of each hold; the end is ten minutes from now, in milliseconds.
    pub fn share<K: Keeper>(
        &mut self,
        keeper: &mut K,
        key: &Key,
        number: u64,
        now: u64,
        owner: By,
    ) -> Result<Share, ShareRefused>
        requires agrees { Agrees (K.records keeper.old) self.old.holds }
        requires early { now + 600000 < 2 ^ 62 }
        requires fresh { All (λ h. h.number < number) self.old.holds }
        ensures token { IfOk result (λ s. s ≡ record { number = number; key = key.now; owner = owner }) }
        ensures given { OnOk result (HasShare self.new.holds (record { number = number; key = key.now; owner = owner })) }
        ensures after { OnOk result (AreAfter (kinds.Share number (now + hold_time) owner key.now) self.old self.new) }
        ensures recorded { OnOk result (K.records keeper.new ≡ with_new (record { number = number; key = key.now; end = now + hold_time }) (K.records keeper.old)) }
        ensures free { OnOk result (LooksSo Look.Present (HasContent (K.contents keeper.old) key.now) (bar_at self.old key.now)) }
        ensures why { IfErr result (λ e. NotShared e (HasContent (K.contents keeper.old) key.now) (bar_at self.old key.now)) }
        ensures err { OnErr result (self.new ≡ self.old) }
        ensures err_records { OnErr result (K.records keeper.new ≡ K.records keeper.old) }
        ensures owns { OnOk result (Owns owner None self.old.holds → Owns owner (Some (record { number = number; key = key.now; owner = owner })) self.new.holds) }
        ensures others { OnOk result ((by : By) (share : Option ShareView) → same_owner owner by ≡ false → Owns by share self.old.holds → Owns by share self.new.holds) }
        ensures agrees { Agrees (K.records keeper.new) self.new.holds }
        ensures ends { AgreesInEnds (K.records keeper.old) self.old.holds → AgreesInEnds (K.records keeper.new) self.new.holds }
        ensures contents { K.contents keeper.new ≡ K.contents keeper.old }
        ensures parts { K.parts keeper.new ≡ K.parts keeper.old }
        ensures files { K.files keeper.new ≡ K.files keeper.old }
        ensures later { K.faults keeper.old ≤ K.faults keeper.new }
        ensures cause { IfErr result (λ e. IsShareFault e → Rose (K.faults keeper.old) (K.faults keeper.new)) }
        ensures failing { FailInTurn (share_turns result) (K.failing keeper.old) (K.failing keeper.new) }
    {
        match self.check(keeper, key) {
            Err(Failed) => return Err(ShareRefused::StoreFault { call: Call::Has }),
            Ok(Look::Absent) => return Err(ShareRefused::Absent),
            Ok(Look::Barred { job }) => return Err(ShareRefused::Barred { job }),
            Ok(Look::Present) => {}
        }
        let stored = HoldRecord {
            number,
            key: key.copy()?,
            end: now + HOLD_TIME,
        };
        self.hold(keeper, stored, owner)
    }

    /// Adds an open hold, and its record to the store.
    fn hold<K: Keeper>(
        &mut self,
        keeper: &mut K,
        stored: HoldRecord,
        owner: By,
    ) -> Result<Share, ShareRefused>
        requires agrees { Agrees (K.records keeper.old) self.old.holds }
        requires early { stored.end < 2 ^ 62 }
        requires fresh { All (λ h. h.number < stored.number) self.old.holds }
        ensures token { IfOk result (λ s. s ≡ record { number = stored.number; key = stored.key; owner = owner }) }
        ensures after { OnOk result (AreAfter (kinds.Share stored.number stored.end owner stored.key) self.old self.new) }
        ensures recorded { OnOk result (K.records keeper.new ≡ with_new stored (K.records keeper.old)) }
        ensures why { IfErr result IsOfHold }
        ensures err { OnErr result (self.new ≡ self.old) }
        ensures err_records { OnErr result (K.records keeper.new ≡ K.records keeper.old) }
        ensures contents { K.contents keeper.new ≡ K.contents keeper.old }
        ensures parts { K.parts keeper.new ≡ K.parts keeper.old }
        ensures files { K.files keeper.new ≡ K.files keeper.old }
        ensures later { K.faults keeper.old ≤ K.faults keeper.new }
        ensures cause { IfErr result (λ e. IsShareFault e → Rose (K.faults keeper.old) (K.faults keeper.new)) }
        ensures failing { FailInTurn (hold_turns result) (K.failing keeper.old) (K.failing keeper.new) }
    {
        let hold = Hold {
            number: stored.number,
            key: stored.key.copy()?,
            end: stored.end,
            kept: false,
            owner,
        };
        self.holds.add(hold)?;
        match keeper.put_hold(&stored) {
            Ok(()) => Ok(Share {
                number: stored.number,
                key: stored.key,
                owner,
            }),
            Err(fault) => {
                self.holds.take_off(stored.number);
                Err(ShareRefused::from(fault))
            }
        }
    }

    /// Takes the hold off. The share comes back where the store fails, and nothing changed then.
    pub fn release<K: Keeper>(&mut self, keeper: &mut K, share: Share) -> Result<(), Share>
        requires agrees { Agrees (K.records keeper.old) self.old.holds }
        requires given { HasShare self.old.holds share }
        ensures after { OnOk result (AreAfter (kinds.Release share.number share.key) self.old self.new) }

        // Of an owner who has no other open hold: these are the holds that the end of the owner's job leaves.
        ensures ended { OnOk result (Owns share.owner (Some share) self.old.holds → self.new.holds ≡ without_open share.owner self.old.holds) }
        ensures recorded { OnOk result (K.records keeper.new ≡ option_map (λ rs. without_record rs share.number) (K.records keeper.old)) }
        ensures err { IfErr result (λ s. (s ≡ share) × (self.new ≡ self.old)) }
        ensures err_records { OnErr result (K.records keeper.new ≡ K.records keeper.old) }
        ensures owns { OnOk result (Owns share.owner (Some share) self.old.holds → Owns share.owner None self.new.holds) }
        ensures others { OnOk result ((by : By) (other : Option ShareView) → same_owner share.owner by ≡ false → Owns by other self.old.holds → Owns by other self.new.holds) }
        ensures agrees { Agrees (K.records keeper.new) self.new.holds }
        ensures ends { AgreesInEnds (K.records keeper.old) self.old.holds → AgreesInEnds (K.records keeper.new) self.new.holds }
        ensures contents { K.contents keeper.new ≡ K.contents keeper.old }
        ensures parts { K.parts keeper.new ≡ K.parts keeper.old }
        ensures files { K.files keeper.new ≡ K.files keeper.old }
        ensures later { K.faults keeper.old ≤ K.faults keeper.new }
        ensures cause { OnErr result (Rose (K.faults keeper.old) (K.faults keeper.new)) }
        ensures failing { FailsAsTold calls.Unhold (K.failing keeper.old) (K.failing keeper.new) (is_err result) }
    {
        match keeper.remove_hold(share.number) {
            Ok(()) => {
                let Share {
                    number,
                    key: _,
                    owner: _,
                } = share;
                self.holds.take_off(number);
                Ok(())
            }
            Err(Failed) => Err(share),
        }
    }

    /// Keeps the hold until its end.
    pub fn abandon(&mut self, share: Share)
        requires given { HasShare self.old.holds share }
        ensures kept { self.new ≡ record self.old { holds = map (keep_numbered share.number) self.old.holds } }
        ensures after { Owns share.owner (Some share) self.old.holds → AreAfter (kinds.Fault Unhold share.owner) self.old self.new }
        ensures owns { Owns share.owner (Some share) self.old.holds → Owns share.owner None self.new.holds }
        ensures others { (by : By) (other : Option ShareView) → same_owner share.owner by ≡ false → Owns by other self.old.holds → Owns by other self.new.holds }
        ensures stored { map record_of self.new.holds ≡ map record_of self.old.holds }
        ensures labels { map label_of self.new.holds ≡ map label_of self.old.holds }
    {
        let Share {
            number,
            key: _,
            owner: _,
        } = share;
        self.holds.keep(number);
    }

    /// Puts a bar on a content that is there, has none, and is blocked by no hold.
    pub fn bar<K: Keeper>(
        &mut self,
        keeper: &mut K,
        key: &Key,
        job: u32,
        now: u64,
    ) -> Result<Bar, BarRefused>
        ensures token { IfOk result (λ b. b ≡ record { key = key.now; job = job }) }
        ensures given { OnOk result (HasBar self.new (record { key = key.now; job = job })) }
        ensures after { OnOk result ((need : Need) → AreAfter (kinds.Bar job need key.now) self.old self.new) }
        ensures free { OnOk result (IsFree (HasContent (K.contents keeper.old) key.now) (bar_at self.old key.now) (filter (blocks key.now now) self.old.holds)) }
        ensures why { IfErr result (λ e. NotBarred e (HasContent (K.contents keeper.old) key.now) (bar_at self.old key.now) (filter (blocks key.now now) self.old.holds)) }
        ensures err { OnErr result (self.new ≡ self.old) }
        ensures others { OnOk result ((other : BarView) → HasBar self.old other → HasBar self.new other) }
        ensures holds { self.new.holds ≡ self.old.holds }
        ensures contents { K.contents keeper.new ≡ K.contents keeper.old }
        ensures parts { K.parts keeper.new ≡ K.parts keeper.old }
        ensures records { K.records keeper.new ≡ K.records keeper.old }
        ensures files { K.files keeper.new ≡ K.files keeper.old }
        ensures later { K.faults keeper.old ≤ K.faults keeper.new }
        ensures cause { IsErrOf result BarRefused.StoreFault → Rose (K.faults keeper.old) (K.faults keeper.new) }
        ensures failing { FailsAsTold calls.Has (K.failing keeper.old) (K.failing keeper.new) (bar_failed result) }
    {
        match self.check(keeper, key) {
            Err(Failed) => return Err(BarRefused::StoreFault),
            Ok(Look::Absent) => return Err(BarRefused::Absent),
            Ok(Look::Barred { job }) => return Err(BarRefused::Barred { job }),
            Ok(Look::Present) => {}
        }
        if let Some(blocker) = self.holds.blocker(key, now) {
            return Err(BarRefused::Held {
                hold: blocker.hold,
                until: blocker.until,
            });
        }
        Ok(self.put_bar(key, job)?)
    }

    fn put_bar(&mut self, key: &Key, job: u32) -> Result<Bar, NoMemory>
        ensures token { IfOk result (λ b. b ≡ record { key = key.now; job = job }) }
        ensures after { OnOk result ((need : Need) → AreAfter (kinds.Bar job need key.now) self.old self.new) }
        ensures holds { self.new.holds ≡ self.old.holds }
        ensures err { OnErr result (self.new ≡ self.old) }
    {
        let given = key.copy()?;
        self.bars.insert(key.copy()?, job)?;
        Ok(Bar { key: given, job })
    }

    /// Takes the bar off.
    pub fn unbar(&mut self, bar: Bar)
        requires given { HasBar self.old bar }
        ensures off { (k : List ℕ) → bar_at self.new k ≡ (if bytes_eq bar.key k then None else bar_at self.old k) }
        ensures holds { self.new.holds ≡ self.old.holds }
        ensures fills { self.new.fills ≡ self.old.fills }
        ensures others { (other : BarView) → (other.job == bar.job) ≡ false → HasBar self.old other → HasBar self.new other }
    {
        let Bar { key, job: _ } = bar;
        self.bars.swap_remove(&key);
    }

    /// Removes the content, and takes the bar off. The bar comes back where the store fails, and nothing changed then.
    pub fn remove<K: Keeper>(&mut self, keeper: &mut K, bar: Bar) -> Result<(), Bar>
        requires given { HasBar self.old bar }
        ensures after { OnOk result ((by : By) → AreAfter (kinds.Gone by bar.key) self.old self.new) }
        ensures gone { OnOk result (K.contents keeper.new ≡ without_content (K.contents keeper.old) bar.key) }
        ensures others { OnOk result ((other : BarView) → (other.job == bar.job) ≡ false → HasBar self.old other → HasBar self.new other) }
        ensures holds { self.new.holds ≡ self.old.holds }
        ensures err { IfErr result (λ b. (b ≡ bar) × (self.new ≡ self.old)) }
        ensures err_contents { OnErr result (K.contents keeper.new ≡ K.contents keeper.old) }
        ensures parts { K.parts keeper.new ≡ K.parts keeper.old }
        ensures records { K.records keeper.new ≡ K.records keeper.old }
        ensures files { K.files keeper.new ≡ K.files keeper.old }
        ensures later { K.faults keeper.old ≤ K.faults keeper.new }
        ensures cause { OnErr result (Rose (K.faults keeper.old) (K.faults keeper.new)) }
        ensures failing { FailsAsTold calls.Remove (K.failing keeper.old) (K.failing keeper.new) (is_err result) }
    {
        match keeper.remove(&bar.key) {
            Ok(()) => {
                self.unbar(bar);
                Ok(())
            }
            Err(Failed) => Err(bar),
        }
    }

    /// Removes the content where it is there, has no bar, and no hold blocks.
    pub fn remove_now<K: Keeper>(
        &self,
        keeper: &mut K,
        key: &Key,
        now: u64,
    ) -> Result<Removed, RemoveRefused>
        ensures found { IfOk result (λ r. RemovesSo r (HasContent (K.contents keeper.old) key.now) (bar_at self.now key.now) (is_blocked self.now.holds key.now now)) }
        ensures gone { IfOk result (λ r. r ≡ Removed.Gone → K.contents keeper.new ≡ without_content (K.contents keeper.old) key.now) }
        ensures absent { IfOk result (λ r. r ≡ Removed.Absent → K.contents keeper.new ≡ K.contents keeper.old) }
        ensures why { IfErr result (λ e. NotRemoved e (HasContent (K.contents keeper.old) key.now) (bar_at self.now key.now) (is_blocked self.now.holds key.now now) (filter (blocks key.now now) self.now.holds)) }
        ensures err_contents { OnErr result (K.contents keeper.new ≡ K.contents keeper.old) }
        ensures parts { K.parts keeper.new ≡ K.parts keeper.old }
        ensures records { K.records keeper.new ≡ K.records keeper.old }
        ensures files { K.files keeper.new ≡ K.files keeper.old }
        ensures later { K.faults keeper.old ≤ K.faults keeper.new }
        ensures cause { IfErr result (λ e. IsRemoveFault e → Rose (K.faults keeper.old) (K.faults keeper.new)) }
        ensures failing { FailInTurn (removal_turns result) (K.failing keeper.old) (K.failing keeper.new) }
    {
        match self.check(keeper, key) {
            Err(Failed) => return Err(RemoveRefused::StoreFault { call: Call::Has }),
            Ok(Look::Absent) => return Ok(Removed::Absent),
            Ok(Look::Barred { job }) => return Err(RemoveRefused::Barred { job }),
            Ok(Look::Present) => {}
        }
        if let Some(held) = self.holds.blocker(key, now) {
            return Err(RemoveRefused::Held {
                hold: held.hold,
                until: held.until,
            });
        }
        match keeper.remove(key) {
            Ok(()) => Ok(Removed::Gone),
            Err(Failed) => Err(RemoveRefused::StoreFault { call: Call::Remove }),
        }
    }
}
