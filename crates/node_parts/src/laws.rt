//! The laws of a repository's parts. Each is the contract of a function that does nothing.
ghost use Rattle.std.specs.Prelude.{◌≡◌, ℕ, List, true, length};
ghost use Rattle.run_data.specs.declared.entry.Entry.{Entry};
ghost use Rattle.object_store.specs.Stores.{Parts as StoredParts};
ghost use Rattle.trust_groups.specs.Settings.{settings};
ghost use Rattle.content_lock.specs.Rows.{is_filling};
ghost use Rattle.std.specs.declared.option.Option.{Option};
ghost use Rattle.run_data.specs.declared.entry.EntryKind.{EntryKind};
ghost use Rattle.run_data.specs.declared.row.Hold.{Hold};
ghost use Rattle.node_model.specs.After.{state_after, states};
ghost use Rattle.node_model.specs.Rows.{bar_after, holds_after};
ghost use Rattle.node_model.specs.SessionStep.{is_filled};
ghost use Rattle.node_model.specs.SetUp.{SetUp};
ghost use Rattle.node_model.specs.State.{State};
ghost use Rattle.node_parts.specs.Parts.{AreAllFed, AreParts, PartsView};
ghost use Rattle.node_parts.specs.Direct.{IsDirect, MovesNothing};
ghost use Rattle.node_parts.specs.Sound.{AreSound};

use node_ends::ends_go_on;
use node_sessions::{sessions_and_jobs_fill, sessions_stay};
use p2p_server::others_leave_it;
use running_jobs::{jobs_stay, jobs_stay_where_lines_fail};

/// The parts are those of the state after an entry that moves none of them.
pub fn parts_stay()
    ensures { (s : SetUp) (st : State) (e : Entry) (p : PartsView) → AreSound p → MovesNothing e → AreParts s st p → AreParts s (state_after s st e) p }
{
    // Laws, for the proof that the ends, the jobs and the sessions are those of the state after the entry.
    ends_go_on();
    jobs_stay();
    jobs_stay_where_lines_fail();
    sessions_stay();
}

/// Such an entry leaves holds and bars.
pub fn direct_entries_leave_rows()
    ensures holds { (was : List Hold) (kind : EntryKind) → IsDirect kind → holds_after was kind ≡ was }
    ensures bars { (key : List ℕ) (was : Option ℕ) (kind : EntryKind) → IsDirect kind → bar_after key was kind ≡ was }
{}

/// The keys that the table fills are those that the state does.
pub fn tables_fill_as_states()
    ensures { (s : SetUp) (st : State) (p : PartsView) (key : List ℕ) → AreSound p → AreParts s st p → is_filling p.table key ≡ is_filled s st key }
{
    // A law, for the proof that a state fills what its sessions and jobs fill.
    sessions_and_jobs_fill();
}

/// While the store's parts of the keys that the table fills stay, what sessions and gets have taken of theirs is the store's.
pub fn parts_stay_fed()
    ensures { (p : PartsView) (was now : StoredParts) → AreSound p → ((key : List ℕ) → is_filling p.table key ≡ true → now key ≡ was key) → AreAllFed was p → AreAllFed now p }
{
    // A law, for the proof that what a session has taken is the store's while the part of its key stays.
    others_leave_it();
}

/// Before any entry, and after each, a state has the settings of its lines, and has counted its entries.
pub fn states_have_their_settings()
    ensures logs { (s : SetUp) (h : List Entry) → (states s h).logs ≡ settings (states s h).lines }
    ensures made { (s : SetUp) (h : List Entry) → (states s h).made ≡ length h }
{}
