//! The repositories that a script declares, and stores for them.
ghost use Rattle.std.specs.Prelude.{◌≡◌, ◌++◌, All, Some, None, [], length, IfOk, OnOk};
ghost use Rattle.object_store.specs.declared.memory.MemoryKeeper.{MemoryKeeper};
ghost use Rattle.fleet_entries.specs.Stored.{HasNothing, store_view};
ghost use Rattle.driver_model.specs.Driver.{at_first};
ghost use Rattle.driver_script.specs.Lines.{declared_by, repos_of};
ghost use Rattle.fleet_entries.specs.Stores.{IsStoreOf};

use annex_base::{Items, NoMemory};
use object_store::{Keeper, MemoryKeeper};
use run_data::RepoView;
use script_lang::{Change, Command, change_of};
use std::alloc::Global;

/// Adds the repository that a line declares, if it does.
fn declare(repos: &mut Items<RepoView>, command: &Command) -> Result<(), NoMemory>
    ensures { OnOk result (repos.new ≡ repos.old ++ declared_by command.now) }
{
    match change_of(command) {
        Change::Declares {
            name,
            id,
            offset,
            version,
            locks,
        } => {
            let name = name.clone()?;
            repos.push(RepoView {
                name,
                id: *id,
                offset,
                version,
                locks,
            })?;
            Ok(())
        }
        Change::Puts { .. } => Ok(()),
        Change::Brings { .. } => Ok(()),
        Change::Adds { .. } => Ok(()),
        Change::Names { .. } => Ok(()),
        Change::Waits { .. } => Ok(()),
        Change::Nothing => Ok(()),
    }
}

/// The repositories that the lines declare, in order of number (own).
pub fn repositories(alloc: Global, commands: &[Command]) -> Result<Items<RepoView>, NoMemory>
    ensures { IfOk result (λ repos. repos ≡ repos_of commands.now) }
{
    let mut repos = Items::new(alloc);
    for command in commands {
        declare(&mut repos, command)?;
    }
    Ok(repos)
}

/// So many stores in memory, which have nothing, and of which no call is to fail (own).
pub fn memory_keepers(alloc: Global, count: usize) -> Result<Vec<MemoryKeeper>, NoMemory>
    ensures count { IfOk result (λ keepers. length keepers.items ≡ count) }
    ensures empty { IfOk result (λ keepers. All (λ k. HasNothing (⟦<MemoryKeeper as Keeper>⟧.contents k) (⟦<MemoryKeeper as Keeper>⟧.parts k) (⟦<MemoryKeeper as Keeper>⟧.records k) (⟦<MemoryKeeper as Keeper>⟧.files k)) keepers.items) }
    ensures tells { IfOk result (λ keepers. All (λ k. IsStoreOf at_first 0 (store_view (⟦<MemoryKeeper as Keeper>⟧.contents k) (⟦<MemoryKeeper as Keeper>⟧.parts k) (⟦<MemoryKeeper as Keeper>⟧.failing k) (⟦<MemoryKeeper as Keeper>⟧.faults k))) keepers.items) }
{
    let mut keepers = Vec::new(alloc);
    for _made in 0..count {
        keepers.push(MemoryKeeper::new(alloc)?)?;
    }
    Ok(keepers)
}
