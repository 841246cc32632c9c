//! A peer that gives a get nothing, and a store that fails.
ghost use Rattle.std.specs.Prelude.{◌≡◌, ◌++◌, ◌∷◌, [], true, IfOk, OnErr, OnOk, is_some};
ghost use Rattle.get_phases.specs.Gets.{fill_in};
ghost use Rattle.get_phases.specs.Losing.{FailsWith, Loses, next_with};

use crate::getting::{Ending, Getting, Phase};
use annex_base::NoMemory;
use run_data::{SourceCause, SourceFailure};
use std::alloc::Global;
use transfer_turns::{Output, ParcelBody, closing, quietly, talk};

/// The connection is closed, by the peer or here: the next peer is asked.
pub fn close(getting: &mut Getting, alloc: Global, peer: u32) -> Result<Output, NoMemory>
    requires fills { is_some (fill_in getting.old.phase) ≡ true }
    ensures ok { IfOk result (Loses [] peer SourceCause.Closed getting.old.version getting.old getting.new) }
    ensures err { OnErr result (getting.new ≡ getting.old) }
{
    fail_with(getting, alloc, peer, SourceCause::Closed)?;
    Ok(quietly(alloc, talk(getting.number)))
}

/// What isn't expected closes the connection.
pub fn shut(getting: &mut Getting, alloc: Global, peer: u32) -> Result<Output, NoMemory>
    requires fills { is_some (fill_in getting.old.phase) ≡ true }
    ensures ok { IfOk result (Loses (record { peer = peer; body = ParcelBody.Close } ∷ []) peer SourceCause.Closed getting.old.version getting.old getting.new) }
    ensures err { OnErr result (getting.new ≡ getting.old) }
{
    let output = closing(alloc, getting.number, peer)?;
    fail_with(getting, alloc, peer, SourceCause::Closed)?;
    Ok(output)
}

/// This peer gave it nothing: it goes on to the next.
pub fn fail_with(
    getting: &mut Getting,
    alloc: Global,
    peer: u32,
    cause: SourceCause,
) -> Result<(), NoMemory>
    requires fills { is_some (fill_in getting.old.phase) ≡ true }
    ensures ok { OnOk result (FailsWith peer cause getting.old.version getting.old getting.new) }
    ensures err { OnErr result (getting.new ≡ getting.old) }
{
    let causes = with_cause(alloc, &getting.causes, SourceFailure { repo: peer, cause })?;
    go_on(getting, causes);
    Ok(())
}

/// The causes and one more, in a list of their own: so want of memory leaves a get as it was.
pub fn with_cause(
    alloc: Global,
    causes: &[SourceFailure],
    more: SourceFailure,
) -> Result<Vec<SourceFailure>, NoMemory>
    ensures { IfOk result (λ v. v.items ≡ causes.now ++ more ∷ []) }
{
    let mut all = Vec::from_slice(alloc, causes)?;
    all.push(more)?;
    Ok(all)
}

/// It goes on to the next peer, and these are the causes so far.
pub fn go_on(getting: &mut Getting, causes: Vec<SourceFailure>)
    requires fills { is_some (fill_in getting.old.phase) ≡ true }
    ensures number { getting.new.number ≡ getting.old.number }
    ensures slot { getting.new.slot ≡ getting.old.slot }
    ensures job { getting.new.job ≡ getting.old.job }
    ensures version { getting.new.version ≡ getting.old.version }
    ensures causes { getting.new.causes.items ≡ causes.items }
    ensures phase { getting.new.phase ≡ next_with (fill_in getting.old.phase) }
{
    let fill = getting.take_fill();
    getting.causes = causes;
    getting.go_to(Phase::Next { fill });
}

/// A call of the store failed: the job ends next.
pub fn give_up(getting: &mut Getting)
    requires fills { is_some (fill_in getting.old.phase) ≡ true }
    ensures { getting.new ≡ record getting.old { phase = Phase.Ends (Ending.StoreFault (fill_in getting.old.phase)) } }
{
    let fill = Some(getting.take_fill());
    getting.go_to(Phase::Ends(Ending::StoreFault { fill }));
}
