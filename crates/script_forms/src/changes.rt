//! What a line changes for the lines behind it.
ghost use Rattle.std.specs.Prelude.{◌≡◌};
ghost use Rattle.script_forms.specs.Changes as spec;
ghost use Rattle.script_forms.specs.Changes.{as_change};

use annex_base::{RepoId, Text};
use annex_key::Key;
use script_commands::{Action, Command};
use script_words::Content;

/// What a line changes for the lines behind it (own). It borrows the line's parts; a repository is named by its number,
/// in order of the `repo` lines from 0.
#[derive(Drop)]
pub enum Change<'a> {
    /// There is a repository more. Its offset is in milliseconds.
    Declares {
        name: &'a Text,
        id: &'a RepoId,
        offset: u64,
        version: u8,
        locks: bool,
    },
    /// A content of the key is put at the repository.
    Puts {
        repo: u32,
        key: &'a Key,
        content: &'a Content,
    },
    /// There is a content more, which is put nowhere yet.
    Brings {
        content: &'a Content,
    },
    /// The path has the key, whose content is put at the repository.
    Adds {
        repo: u32,
        path: &'a Text,
        key: &'a Key,
        content: &'a Content,
    },
    /// The path has the key.
    Names {
        path: &'a Text,
        key: &'a Key,
    },
    /// So many milliseconds go by.
    Waits {
        milliseconds: u64,
    },
    /// Nothing.
    Nothing,
}

/// What the action changes for the lines behind it.
fn change_by(action: &Action) -> Change<'_>
    ensures { as_change result ≡ spec.change_by action.now }
{
    match action {
        Action::Have { repo, key, content } => Change::Puts {
            repo: *repo,
            key,
            content,
        },
        Action::SetPart { content, .. } => Change::Brings { content },
        Action::Add {
            repo,
            path,
            key,
            content,
        } => Change::Adds {
            repo: *repo,
            path,
            key,
            content,
        },
        Action::File { path, key } => Change::Names { path, key },
        Action::Wait { milliseconds } => Change::Waits {
            milliseconds: *milliseconds,
        },
        Action::Set { .. }
        | Action::Raw { .. }
        | Action::Merge { .. }
        | Action::Compact { .. }
        | Action::Sync { .. }
        | Action::Begin { .. }
        | Action::Run { .. }
        | Action::Turns { .. }
        | Action::Settle
        | Action::Close { .. }
        | Action::Crash { .. }
        | Action::Fail { .. } => Change::Nothing,
    }
}

/// What the line changes for the lines behind it.
pub fn change_of(command: &Command) -> Change<'_>
    ensures { as_change result ≡ spec.change_of command.now }
{
    match command {
        Command::Repo {
            name,
            id,
            offset,
            version,
            locks,
        } => Change::Declares {
            name,
            id,
            offset: *offset,
            version: *version,
            locks: *locks,
        },
        Command::Does { action } => change_by(action),
        Command::Damage { content, .. } => Change::Brings { content },
        Command::Par { .. } | Command::Shows { .. } => Change::Nothing,
    }
}
