//! The line of a sync.

ghost use Rattle.std.specs.Prelude.{◌≡◌, ◌++◌, OnOk};
ghost use Rattle.std.specs.Fmt.{decimal};
ghost use Rattle.shown_text.specs.Lines.{action_sync, sync_line, sync_text};

use annex_base::put_number;
use run_data::{RepoView, Run};
use run_text::put_name;
use script_commands::{Action, Command};
use std::alloc::AllocError;
use sync_outcomes::{SyncNumbers, sync_numbers};

/// Adds the numbers of a sync, where the line is one; the line made the entries from one place of the run up to another.
pub fn put_sync(
    out: &mut Vec<u8>,
    run: &Run,
    from: usize,
    upto: usize,
    command: &Command,
) -> Result<(), AllocError>
    ensures { OnOk result (out.new.items ≡ out.old.items ++ sync_text run.now from upto command.now) }
{
    match command {
        Command::Does { action } => put_sync_of(out, run, from, upto, action)?,
        Command::Repo { .. }
        | Command::Damage { .. }
        | Command::Par { .. }
        | Command::Shows { .. } => {}
    }
    Ok(())
}

fn put_sync_of(
    out: &mut Vec<u8>,
    run: &Run,
    from: usize,
    upto: usize,
    action: &Action,
) -> Result<(), AllocError>
    ensures { OnOk result (out.new.items ≡ out.old.items ++ action_sync run.now from upto action.now) }
{
    match action {
        Action::Sync { repo } => {
            let numbers = sync_numbers(run, *repo, from, upto);
            put_sync_line(out, run.repos.as_slice(), *repo, &numbers)?
        }
        Action::Have { .. }
        | Action::SetPart { .. }
        | Action::Add { .. }
        | Action::File { .. }
        | Action::Set { .. }
        | Action::Raw { .. }
        | Action::Merge { .. }
        | Action::Compact { .. }
        | Action::Begin { .. }
        | Action::Run { .. }
        | Action::Turns { .. }
        | Action::Settle
        | Action::Close { .. }
        | Action::Crash { .. }
        | Action::Wait { .. }
        | Action::Fail { .. } => {}
    }
    Ok(())
}

fn put_sync_line(
    out: &mut Vec<u8>,
    repos: &[RepoView],
    repo: u32,
    numbers: &SyncNumbers,
) -> Result<(), AllocError>
    ensures { OnOk result (out.new.items ≡ out.old.items ++ sync_line repos.now repo numbers.now) }
{
    out.extend_from_slice(b"sync ")?;
    put_name(out, repos, repo)?;
    put_count(out, b" get=", numbers.gets())?;
    put_count(out, b" put=", numbers.puts())?;
    put_count(out, b" drop=", numbers.drops())?;
    put_count(out, b" refused=", numbers.refusals())?;
    out.push(b'\n')?;
    Ok(())
}

fn put_count(out: &mut Vec<u8>, name: &[u8], count: u64) -> Result<(), AllocError>
    ensures { OnOk result (out.new.items ≡ out.old.items ++ name.now ++ decimal count) }
{
    out.extend_from_slice(name)?;
    put_number(out, count)
}
