//! The ends of the connections with another repository are closed, each by one entry.
ghost use Rattle.std.specs.Prelude.{◌≡◌, ◌≢◌, ◌⊎◌, ◌+◌, ◌≤◌, ◌<◌, [], true, All, Err, if◌then◌else◌, get_or, length, map, nat_lt, is_some, vec_capacity, vec_len, IfErr, IfOk, IsErrOf, OnErr, OnOk};
ghost use Rattle.annex_base.specs.Lists.{Each};
ghost use Rattle.node_ends.specs.Ends.{end_at, link_at, name_of};
ghost use Rattle.node_ends.specs.Joined.{StayPaired};
ghost use Rattle.node_past.specs.Pasts.{Enters, IsReady, SamePast};
ghost use Rattle.run_data.specs.Histories.{most_entries};
ghost use Rattle.node_steps.specs.Closing.{ClosesEach, ends_to, lacks_places, open_count};
ghost use Rattle.node_steps.specs.Kept.{Stands};
ghost use Rattle.node_steps.specs.Nodes.{beside, told_of};
ghost use Rattle.node_steps.specs.Shutting.{IsListing, ShutsEach, ShutsIf, ShutsReady};

use crate::entering::moment_of;
use annex_base::NoMemory;
use node_ends::{EndId, ends_are_there};
use node_ledger::Ledger;
use node_parts::{Done, Parts, tables_fill_as_states};
use node_past::{NodeRefused, Past};
use object_store::Keeper;
use run_data::FrameView;
use std::alloc::Global;

/// Adds the entry of a close. It takes no memory.
fn enter(past: &mut Past, done: Done)
    requires { IsReady past.old }
    ensures entry { Enters done.kind done.taken done.sent [] past.old past.new }
    ensures room { vec_capacity past.new.history ≡ vec_capacity past.old.history }
{
    let Done {
        kind,
        taken,
        sent,
        owes: _,
    } = done;
    past.enter(kind, taken, sent);
}

/// Closes an end, if it is open, by one entry, whose Close takes its place on an empty list. It takes no memory.
fn close(past: &mut Past, parts: &mut Parts, id: EndId, listing: Vec<FrameView>)
    requires there { is_some (link_at parts.old.links (name_of id)) ≡ true }
    requires listing { IsListing listing }
    requires numbers { All (λ h. h.number < vec_len past.old.history + 1) parts.old.table.holds }
    requires ready { (end_at parts.old.links (name_of id)).opened ≡ true → IsReady past.old }
    ensures shuts { ShutsIf (name_of id) parts.old parts.new past.old past.new }
    ensures room { vec_capacity past.new.history ≡ vec_capacity past.old.history }
{
    let moment = moment_of(past);
    let done = parts.close_end(id, moment, listing);
    // For the proof: what the parts have is sound.
    let _ = parts.table();
    match done {
        None => {}
        Some(done) => enter(past, done),
    }
}

/// The next of these lists.
fn next_list(lists: &mut Vec<Vec<FrameView>>) -> Vec<FrameView>
    requires some { 0 < vec_len lists.old }
    requires lists { Each IsListing lists.old.items }
    ensures listing { IsListing result }
    ensures lists { Each IsListing lists.new.items }
    ensures len { vec_len lists.new + 1 ≡ vec_len lists.old }
{
    let Some(listing) = lists.pop() else {
        unreachable!();
    };
    listing
}

/// The end at this place among these.
fn id_at(ids: &[EndId], at: usize) -> EndId
    requires there { at < length ids.now }
    ensures { result ≡ get_or ids.now at result }
{
    ids[at]
}

/// Closes those of these ends that are open, one after the other. It takes no memory.
fn close_each(past: &mut Past, parts: &mut Parts, ids: &[EndId], mut lists: Vec<Vec<FrameView>>)
    requires there { Each (λ id. is_some (link_at parts.old.links (name_of id)) ≡ true) ids.now }
    requires lists { Each IsListing lists.items }
    requires enough { vec_len lists ≡ length ids.now }
    requires numbers { All (λ h. h.number < vec_len past.old.history + 1) parts.old.table.holds }
    requires few { vec_len past.old.history + open_count parts.old.links (map name_of ids.now) ≤ most_entries }
    requires room { vec_len past.old.history + length ids.now ≤ vec_capacity past.old.history }
    ensures { ShutsEach (map name_of ids.now) parts.old parts.new past.old past.new }
{
    for at in 0..ids.len() {
        let listing = next_list(&mut lists);
        let id = id_at(ids, at);
        close(past, parts, id, listing);
    }
}

/// How many of one.
fn one_if(opened: bool) -> usize
    ensures { result ≡ (if opened then 1 else 0) }
{
    if opened { 1 } else { 0 }
}

/// How many of these ends are open.
fn count_open(parts: &Parts, ids: &[EndId]) -> usize
    requires there { Each (λ id. is_some (link_at parts.now.links (name_of id)) ≡ true) ids.now }
    ensures { result ≡ open_count parts.now.links (map name_of ids.now) }
{
    let mut count = 0;
    for at in 0..ids.len() {
        let id = id_at(ids, at);
        let one = one_if(parts.is_open(id));
        count += one;
    }
    count
}

/// So many empty lists, each with room for a frame.
fn listings(alloc: Global, count: usize) -> Result<Vec<Vec<FrameView>>, NoMemory>
    ensures lists { IfOk result (λ lists. Each IsListing lists.items) }
    ensures count { IfOk result (λ lists. vec_len lists ≡ count) }
{
    let mut lists = Vec::with_capacity(alloc, count)?;
    for _ in 0..count {
        let listing = Vec::with_capacity(alloc, 1)?;
        lists.push_reserved(listing);
    }
    Ok(lists)
}

/// The end at this peer in this slot.
fn end_to(peer: u32, slot: u32, client: bool) -> EndId
    ensures { result ≡ record { peer = peer; slot = slot; client = client } }
{
    EndId { peer, slot, client }
}

/// The ends of the connections with this repository, in order of side, the client's first, and of slot.
fn ends_to(peer: u32) -> [EndId; 8]
    ensures { map name_of result ≡ ends_to peer }
{
    [
        end_to(peer, 0, true),
        end_to(peer, 1, true),
        end_to(peer, 2, true),
        end_to(peer, 3, true),
        end_to(peer, 0, false),
        end_to(peer, 1, false),
        end_to(peer, 2, false),
        end_to(peer, 3, false),
    ]
}

/// Closes the ends at a repository that are open, once their places and their lists have their memory.
fn close_all(past: &mut Past, parts: &mut Parts, peer: u32) -> Result<(), NodeRefused>
    requires known { peer < length parts.old.jobs.place.ids }
    requires numbers { All (λ h. h.number < vec_len past.old.history + 1) parts.old.table.holds }
    ensures ok { OnOk result (ShutsReady (ends_to peer) parts.old parts.new past.old past.new) }
    ensures full { IsErrOf result NodeRefused.Full → nat_lt most_entries (vec_len past.old.history + open_count parts.old.links (ends_to peer)) ≡ true }
    ensures lacks { nat_lt most_entries (vec_len past.old.history + open_count parts.old.links (ends_to peer)) ≡ true → result ≡ Err NodeRefused.Full }
    ensures refused { IfErr result (λ e. (e ≡ NodeRefused.Full) ⊎ (e ≡ NodeRefused.NoMemory)) }
    ensures err { OnErr result ((parts.new ≡ parts.old) × SamePast past.old past.new) }
{
    // For the proof: a law, and that what the parts have is sound.
    ends_are_there();
    let _ = parts.table();
    let ids = ends_to(peer);
    let open = count_open(parts, &ids);
    if past.lacks(open) {
        return Err(NodeRefused::Full);
    }
    let Ok(lists) = listings(past.alloc, ids.len()) else {
        return Err(NodeRefused::NoMemory);
    };
    if past.reserve_places(ids.len()).is_err() {
        return Err(NodeRefused::NoMemory);
    }
    close_each(past, parts, &ids, lists);
    Ok(())
}

/// Closes the ends of the connections with another repository that are open, one entry for each, in order of side, the client's
/// first, and of slot. Full comes exactly where the history has too few places left for all of them, and then none is closed; all
/// memory is taken before the first is closed.
pub fn close_ends<K: Keeper>(
    ledger: &mut Ledger<K>,
    parts: &mut Parts,
    peer: u32,
) -> Result<(), NodeRefused>
    requires stands { Stands ledger.old parts.old (K.contents ledger.old.keeper) (K.parts ledger.old.keeper) (K.records ledger.old.keeper) }
    requires known { peer < length ledger.old.setup.repos }
    requires other { peer ≢ ledger.old.setup.number }
    ensures stands { Stands ledger.new parts.new (K.contents ledger.new.keeper) (K.parts ledger.new.keeper) (K.records ledger.new.keeper) }
    ensures ok { OnOk result (ClosesEach (told_of (K.contents ledger.old.keeper) (K.parts ledger.old.keeper)) (ends_to peer) (beside parts.old ledger.old) (beside parts.new ledger.new)) }
    ensures full { IsErrOf result NodeRefused.Full → lacks_places (beside parts.old ledger.old) peer ≡ true }
    ensures lacks { lacks_places (beside parts.old ledger.old) peer ≡ true → result ≡ Err NodeRefused.Full }
    ensures refused { IfErr result (λ e. (e ≡ NodeRefused.Full) ⊎ (e ≡ NodeRefused.NoMemory)) }
    ensures paired { StayPaired parts.old.links parts.new.links }
    ensures err { OnErr result (beside parts.new ledger.new ≡ beside parts.old ledger.old) }
{
    // A law, for the proof: the table fills what the state does.
    tables_fill_as_states();
    close_all(&mut ledger.past, parts, peer)
}
