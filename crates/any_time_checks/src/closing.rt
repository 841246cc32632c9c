//! The Close frames of a close and of a crash.
ghost use Rattle.std.specs.Prelude.{◌≡◌, ◌<◌, ◌&&◌, ◌++◌, ◌∷◌, ◌^◌, [], Bool, List, flat_map, length, option_copied};
ghost use Rattle.run_data.specs.declared.entry.FrameView.{FrameView};
ghost use Rattle.node_model.specs.AnyTime.{closes_all, ends_with};
ghost use Rattle.node_model.specs.Ends.{frames};
ghost use Rattle.node_model.specs.SetUp.{SetUp};
ghost use Rattle.node_model.specs.State.{State};
ghost use Rattle.run_data.specs.declared.entry.EntryKind.TheVariants.{Close};
ghost use Rattle.run_data.specs.declared.entry.FrameText.TheVariants.{Closing};
ghost use Rattle.std.specs.List.{range_with_len};
ghost use Rattle.node_model.specs.Evidence.{but};
ghost use Rattle.step_judging.specs.Rules.{is_nil, may_come};
ghost use Rattle.step_judging.specs.Same.{same_frames};
ghost use Rattle.step_effects.specs.Sendings.{name_of, rest_told};
ghost use Rattle.step_state.specs.States.{IsStateOf};
ghost use Rattle.any_time_checks.specs.Coming.{close_in, closes_with, is_there};

use annex_base::Line;
use run_data::{FrameView, RepoView};
use state_checks::has_no_lines;
use state_ends::{Connection, Ends};
use step_effects::{EndAt, closes as is_close, past_close, says_nothing};
use step_state::RepoState;

/// Whether an end may be closed with these lines and these frames sent.
pub(crate) fn closes(
    repos: &[RepoView],
    state: &RepoState,
    peer: u32,
    slot: u32,
    client: bool,
    lines: &[Line],
    sent: &[FrameView],
) -> bool
    ensures { (s : SetUp) (st : State) → s.repos ≡ repos.now → IsStateOf state.now s st → result ≡ may_come s st lines.now sent.now (Close peer slot client) }
{
    let was = state.ends().end(Connection { peer, slot }, client);
    let at = EndAt {
        peer,
        slot,
        client,
        was,
    };
    is_closed(is_there(repos, state.number(), peer, slot), at, lines, sent)
}

/// Whether an end that is there or not is closed so.
fn is_closed(there: bool, at: EndAt, lines: &[Line], sent: &[FrameView]) -> bool
    ensures { result ≡ (there && at.was.opened && is_nil lines.now && same_frames (frames (name_of at) at.was (Closing ∷ [])) sent.now) }
{
    there && at.was.opened && has_no_lines(lines) && is_close(at, sent)
}

/// Whether the repository of this number has an end of a connection with this peer in this slot.
fn is_there(repos: &[RepoView], number: u32, peer: u32, slot: u32) -> bool
    ensures { (client : Bool) → result ≡ is_there number (length repos.now) (record { peer = peer; slot = slot; client = client }) }
{
    (peer as usize) < repos.len() && peer != number && slot < 4
}

/// Whether these are the Close frames of all ends that are open.
pub(crate) fn closes_all(repos: &[RepoView], state: &RepoState, sent: &[FrameView]) -> bool
    requires { length repos.now < 2 ^ 32 }
    ensures { (s : SetUp) (st : State) → s.repos ≡ repos.now → IsStateOf state.now s st → result ≡ same_frames sent.now (closes_all s st) }
{
    closes_each(state.ends(), state.number(), repos.len() as u32, sent)
}

/// Whether these are the Close frames of all ends that are open, of a repository of this number among so many.
fn closes_each(ends: &Ends, number: u32, count: u32, sent: &[FrameView]) -> bool
    ensures { result ≡ same_frames (flat_map (closes_with ends.now) (but number (range_with_len 0 count))) sent.now }
{
    let mut rest = sent;
    for peer in 0..count {
        let Some(after) = past_other(ends, number, peer, rest) else {
            return false;
        };
        rest = after;
    }
    says_nothing(rest)
}

/// What is left of the frames behind those of the ends with this peer, if it is another repository.
fn past_other<'a>(
    ends: &Ends,
    number: u32,
    peer: u32,
    sent: &'a [FrameView],
) -> Option<&'a [FrameView]>
    ensures { (more : List FrameView) → same_frames (flat_map (closes_with ends.now) (but number (peer ∷ [])) ++ more) sent.now ≡ rest_told more (option_copied result) }
{
    if peer == number {
        Some(sent)
    } else {
        past_peer(ends, peer, sent)
    }
}

fn past_peer<'a>(ends: &Ends, peer: u32, sent: &'a [FrameView]) -> Option<&'a [FrameView]>
    ensures { (more : List FrameView) → same_frames (closes_with ends.now peer ++ more) sent.now ≡ rest_told more (option_copied result) }
{
    let rest = past_side(ends, peer, true, sent)?;
    past_side(ends, peer, false, rest)
}

/// What is left behind those of the ends with this peer on one side.
fn past_side<'a>(
    ends: &Ends,
    peer: u32,
    client: bool,
    sent: &'a [FrameView],
) -> Option<&'a [FrameView]>
    ensures { (more : List FrameView) → same_frames (flat_map (close_in ends.now) (ends_with peer client) ++ more) sent.now ≡ rest_told more (option_copied result) }
{
    let rest = past_end(ends, peer, 0, client, sent)?;
    let rest = past_end(ends, peer, 1, client, rest)?;
    let rest = past_end(ends, peer, 2, client, rest)?;
    past_end(ends, peer, 3, client, rest)
}

/// What is left behind that of this end, if it is open.
fn past_end<'a>(
    ends: &Ends,
    peer: u32,
    slot: u32,
    client: bool,
    sent: &'a [FrameView],
) -> Option<&'a [FrameView]>
    ensures { (more : List FrameView) → same_frames (close_in ends.now (record { peer = peer; slot = slot; client = client }) ++ more) sent.now ≡ rest_told more (option_copied result) }
{
    let was = ends.end(Connection { peer, slot }, client);
    let at = EndAt {
        peer,
        slot,
        client,
        was,
    };
    if was.opened {
        past_close(at, sent)
    } else {
        Some(sent)
    }
}
