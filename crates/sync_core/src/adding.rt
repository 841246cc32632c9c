//! The actions for one content.

ghost use Rattle.std.specs.Prelude.{◌≡◌, ◌<◌, ◌^◌, ◌==◌, ◌++◌, [], ◌∷◌, filter, length, map, not, OnOk};
ghost use Rattle.trust_groups.specs.View.{settings_of};
ghost use Rattle.wanted_rules.specs.declared.action.Action.TheVariants.{Get, Put, DropHere, DropFrom};
ghost use Rattle.wanted_rules.specs.Plan.{only_if, peers, plan_of};
ghost use Rattle.sync_core.specs.Placement.{lacks_at, peers_among, spares_at};

use crate::placement::Placement;
use annex_base::NoMemory;
use wanted_rules::Action;

/// Adds what is to be done for the content: the own repository gets it, peers are given it, and then it is dropped here
/// and from peers.
pub(crate) fn add_plan(
    actions: &mut Vec<Action>,
    placement: &Placement<'_>,
    here: u32,
) -> Result<(), NoMemory>
    requires here { here < length placement.now.repos }
    requires few { length placement.now.repos < 2 ^ 32 }
    ensures { OnOk result (actions.new.items ≡ actions.old.items ++ plan_of (settings_of placement.now.indices) placement.now.repos here placement.now.key placement.now.paths) }
{
    add_get(actions, placement, here)?;
    add_puts(actions, placement, here)?;
    add_drop_here(actions, placement, here)?;
    add_drops_from(actions, placement, here)?;
    Ok(())
}

fn add_get(actions: &mut Vec<Action>, placement: &Placement<'_>, here: u32) -> Result<(), NoMemory>
    requires { here < length placement.now.repos }
    ensures { OnOk result (actions.new.items ≡ actions.old.items ++ only_if (lacks_at placement.now here) (Get placement.now.key)) }
{
    if placement.is_lacking(here)? {
        actions.push(Action::Get(placement.key()?))?;
    }
    Ok(())
}

fn add_puts(actions: &mut Vec<Action>, placement: &Placement<'_>, here: u32) -> Result<(), NoMemory>
    requires { length placement.now.repos < 2 ^ 32 }
    ensures { OnOk result (actions.new.items ≡ actions.old.items ++ map (λ peer. Put placement.now.key peer) (filter (lacks_at placement.now) (peers placement.now.repos here))) }
{
    for peer in 0..placement.count() {
        add_put(actions, placement, here, peer)?;
    }
    Ok(())
}

fn add_put(
    actions: &mut Vec<Action>,
    placement: &Placement<'_>,
    here: u32,
    peer: u32,
) -> Result<(), NoMemory>
    requires { peer < length placement.now.repos }
    ensures { OnOk result (actions.new.items ≡ actions.old.items ++ map (λ peer. Put placement.now.key peer) (filter (lacks_at placement.now) (peers_among here (peer ∷ [])))) }
{
    if peer == here {
        return Ok(());
    }
    if placement.is_lacking(peer)? {
        actions.push(Action::Put(placement.key()?, peer))?;
    }
    Ok(())
}

fn add_drop_here(
    actions: &mut Vec<Action>,
    placement: &Placement<'_>,
    here: u32,
) -> Result<(), NoMemory>
    requires { here < length placement.now.repos }
    ensures { OnOk result (actions.new.items ≡ actions.old.items ++ only_if (spares_at placement.now here) (DropHere placement.now.key)) }
{
    if placement.is_spare(here)? {
        actions.push(Action::DropHere(placement.key()?))?;
    }
    Ok(())
}

fn add_drops_from(
    actions: &mut Vec<Action>,
    placement: &Placement<'_>,
    here: u32,
) -> Result<(), NoMemory>
    requires { length placement.now.repos < 2 ^ 32 }
    ensures { OnOk result (actions.new.items ≡ actions.old.items ++ map (λ peer. DropFrom placement.now.key peer) (filter (spares_at placement.now) (peers placement.now.repos here))) }
{
    for peer in 0..placement.count() {
        add_drop_from(actions, placement, here, peer)?;
    }
    Ok(())
}

fn add_drop_from(
    actions: &mut Vec<Action>,
    placement: &Placement<'_>,
    here: u32,
    peer: u32,
) -> Result<(), NoMemory>
    requires { peer < length placement.now.repos }
    ensures { OnOk result (actions.new.items ≡ actions.old.items ++ map (λ peer. DropFrom placement.now.key peer) (filter (spares_at placement.now) (peers_among here (peer ∷ [])))) }
{
    if peer == here {
        return Ok(());
    }
    if placement.is_spare(peer)? {
        actions.push(Action::DropFrom(placement.key()?, peer))?;
    }
    Ok(())
}
