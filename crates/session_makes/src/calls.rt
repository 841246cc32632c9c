//! The store calls of a session's reply, and the one that failed.
ghost use Rattle.std.specs.Prelude.{◌≡◌, ◌<◌, ◌^◌, ℕ, Bool, List};
ghost use Rattle.std.specs.List.{list_any};
ghost use Rattle.annex_base.specs.Calls.{same_call};
ghost use Rattle.annex_base.specs.declared.kinds.Call.{Call};
ghost use Rattle.run_data.specs.declared.entry.FrameText.{FrameText};
ghost use Rattle.node_model.specs.Calls.{to_commit, to_lock, to_offer, to_remove};
ghost use Rattle.node_model.specs.Look.{failing_call};
ghost use Rattle.node_model.specs.SessionStep.{Reply, tries};
ghost use Rattle.step_judging.specs.Telling.{failed_call};
ghost use Rattle.session_makes.specs.Scenes.{here_in, is_fault_or, is_reply, is_said};

use crate::replies::by;
use crate::scene::Scene;
use annex_base::Call;
use run_data::EntryKind;
use step_effects::{failed_call, is_fault, same_call};

fn makes(calls: &[Call], call: Call) -> bool
    ensures { result ≡ list_any (same_call call) calls.now }
{
    calls.iter().any(|made| same_call(call, *made))
}

/// The one of these calls that failed, by what the entry is.
fn failing(kind: &EntryKind, calls: &[Call]) -> Option<Call>
    ensures { result ≡ failing_call (failed_call kind.now) calls.now }
{
    match failed_call(kind) {
        Some(call) => { if makes(calls, call) { Some(call) } else { None } }
        None => None,
    }
}

fn is_fault_or(scene: &Scene<'_>, failing: Option<Call>, said: bool, good: bool) -> bool
    ensures { result ≡ is_fault_or scene.now failing said good }
{
    match failing {
        Some(call) => is_fault(&scene.told.kind, call, by(scene)) && said,
        None => good,
    }
}

/// Whether the entry is the fault of one of these calls, where one failed, and sends what is said then; or else whether it is
/// the reply.
pub(crate) fn tries(scene: &Scene<'_>, calls: &[Call], said: bool, good: bool) -> bool
    ensures { (filled : List ℕ → Bool) (cs : List Call) (says : List FrameText) (r : Reply) → calls.now ≡ cs → said ≡ is_said scene.now says → good ≡ is_reply scene.now r
        → result ≡ is_reply scene.now (tries (here_in scene.now filled) cs says r) }
{
    is_fault_or(scene, failing(&scene.told.kind, calls), said, good)
}

pub(crate) fn lock_calls(locks: bool, here: bool, bar: Option<u32>) -> &'static [Call]
    ensures { result.now ≡ to_lock locks here bar }
{
    match (locks, here, bar) {
        (false, _, _) => &[],
        (true, true, None) => &[Call::Has, Call::Hold],
        (true, _, _) => &[Call::Has],
    }
}

pub(crate) fn remove_calls(here: bool, bar: Option<u32>, blocked: bool) -> &'static [Call]
    ensures { result.now ≡ to_remove here bar blocked }
{
    match (here, bar, blocked) {
        (true, None, false) => &[Call::Has, Call::Remove],
        _ => &[Call::Has],
    }
}

/// Of a part of this size, in bytes.
pub(crate) fn offer_calls(part: u64, here: bool, filled: bool) -> &'static [Call]
    ensures { result.now ≡ to_offer part here filled }
{
    if here || filled {
        &[Call::Has]
    } else if 0 < part {
        &[Call::Has, Call::PartSize, Call::ReadPart]
    } else {
        &[Call::Has, Call::PartSize]
    }
}

pub(crate) fn commit_calls(right: bool) -> &'static [Call]
    ensures { result.now ≡ to_commit right }
{
    if right {
        &[Call::Commit]
    } else {
        &[Call::DropPart]
    }
}
