//! Lines that begin with an identifier, up to what they say of it.

ghost use Rattle.std.specs.Prelude.{◌≡◌, length};
ghost use Rattle.std.specs.Option.{option_map};
ghost use Rattle.annex_base.specs.RepoText.{repo_of};
ghost use Rattle.log_grammar.specs.Reading.{repo_front, repo_line};

use crate::stamps::split_stamp_end;
use annex_base::{RepoId, Stamp};

/// How many bytes the text of an identifier has.
const REPO_LENGTH: usize = 36;

/// The identifier that the text spells.
pub(crate) fn repo_of(text: &[u8]) -> Option<RepoId>
    ensures { result ≡ repo_of text.now }
{
    RepoId::parse(text).ok()
}

#[tactic(auto, unfolding(crate::specs::Reading::repo_front))]
fn split_repo(bytes: &[u8]) -> Option<(RepoId, &[u8])>
    ensures { option_map (λ x. (x.0, x.1.now)) result ≡ repo_front bytes.now }
{
    if bytes.len() < REPO_LENGTH {
        return None;
    }
    let (text, rest) = bytes.split_at(REPO_LENGTH);
    let id = repo_of(text)?;
    Some((id, rest))
}

/// The identifier, what stands between it and the stamp, and the stamp.
#[tactic(auto, unfolding(crate::specs::Reading::repo_line))]
pub(crate) fn split_repo_line(line: &[u8]) -> Option<(RepoId, &[u8], Option<Stamp>)>
    ensures { option_map (λ x. (x.0, x.1.now, x.2)) result ≡ repo_line line.now }
{
    let Some((front, stamp)) = split_stamp_end(line) else {
        return None;
    };
    let Some((id, body)) = split_repo(front) else {
        return None;
    };
    Some((id, body, stamp))
}
