//! The forms of line for which no part is missing.
ghost use Rattle.std.specs.Prelude.{◌≡◌};
ghost use Rattle.driver_script.specs.Lines as spec;

use run_data::{JobKind, LogFile};
use script_lang::{Action, Command, Showing};

/// Whether a line may add to the file.
fn is_added(file: &LogFile) -> bool
    ensures { result ≡ spec.is_added file.now }
{
    match file {
        LogFile::Location(_) | LogFile::Of(_) => true,
        LogFile::Other(_) => false,
    }
}

/// Whether a line may show the file by its name.
fn is_shown(file: &LogFile) -> bool
    ensures { result ≡ spec.is_shown file.now }
{
    match file {
        LogFile::Of(_) => true,
        LogFile::Location(_) | LogFile::Other(_) => false,
    }
}

/// Whether a job of this kind with this peer is a drop, a get, or a copy or a move with its peer.
fn is_built_job(kind: JobKind, peer: Option<u32>) -> bool
    ensures { result ≡ spec.is_built_job kind peer }
{
    match kind {
        JobKind::Drop | JobKind::Get => true,
        JobKind::Copy | JobKind::MoveTo | JobKind::MoveFrom => peer.is_some(),
    }
}

/// Whether no part is missing for the action.
fn does(action: &Action) -> bool
    ensures { result ≡ spec.is_built_action action.now }
{
    match action {
        Action::Raw { file, .. } => is_added(file),
        Action::Begin { job, .. } | Action::Run { job, .. } => is_built_job(job.kind, job.peer),
        Action::Have { .. }
        | Action::SetPart { .. }
        | Action::Add { .. }
        | Action::File { .. }
        | Action::Set { .. }
        | Action::Merge { .. }
        | Action::Compact { .. }
        | Action::Sync { .. }
        | Action::Turns { .. }
        | Action::Settle
        | Action::Close { .. }
        | Action::Crash { .. }
        | Action::Wait { .. }
        | Action::Fail { .. } => true,
    }
}

/// Whether no part is missing to show it.
fn shows(what: &Showing) -> bool
    ensures { result ≡ spec.is_built_showing what.now }
{
    match what {
        Showing::Log { file, .. } => is_shown(file),
        Showing::Presence { .. }
        | Showing::Claims { .. }
        | Showing::Location { .. }
        | Showing::Logs { .. }
        | Showing::Numbers { .. }
        | Showing::Level { .. }
        | Showing::Wants { .. }
        | Showing::Row { .. }
        | Showing::Plan { .. }
        | Showing::Totals
        | Showing::Journal => true,
    }
}

/// Whether no part is missing to do what the line says (own).
pub fn runs(command: &Command) -> bool
    ensures { result ≡ spec.is_built command.now }
{
    match command {
        Command::Repo { .. } => true,
        Command::Does { action } => does(action),
        Command::Damage { .. } | Command::Par { .. } => false,
        Command::Shows { what } => shows(what),
    }
}

/// The place of the first line for which a part is missing, if there is one.
pub fn first_missing(commands: &[Command]) -> Option<usize>
    ensures { result ≡ spec.first_unbuilt commands.now }
{
    commands.iter().position(|command| !runs(command))
}
