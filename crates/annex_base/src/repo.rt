//! Identifiers of repositories.
ghost use Rattle.std.specs.Prelude.{◌≡◌, List, ℕ, IfOk, Ok};
ghost use Rattle.std.specs.Result.{result_ok};
ghost use Rattle.annex_base.specs.RepoText.{IsId, repo_text, repo_of};

use std::marker::Model;
use uuid::Uuid;

/// The text is no identifier.
#[derive(Clone, Copy, Debug, PartialEq, Eq)]
pub struct NotUuid;

/// A repository's identifier, which contracts see as the list of its sixteen bytes (RFC 9562).
/// Identifiers are ordered as their bytes are.
#[derive(Clone, Copy, Debug, PartialEq, Eq, PartialOrd, Ord, Hash)]
pub struct RepoId {
    bytes: [u8; 16],
}

impl Model for RepoId {
    ghost use Rattle.std.specs.Prelude.{List, ℕ};
    ghost use Rattle.annex_base.specs.RepoText.{IsId};

    ghost Value = { List ℕ };

    ghost view = { λ r. r.bytes };

    ghost invariant = { λ r. IsId r.bytes };

    ghost inverse = { λ id. record { bytes = id } };
}

impl RepoId {
    /// The identifier of this text. `Ok` exactly on the lower-case hyphenated text of 36 characters.
    pub fn parse(text: &[u8]) -> Result<RepoId, NotUuid>
        ensures found { IfOk result (λ r. IsId r × (text.now ≡ repo_text r)) }
        ensures only { (id : List ℕ) → IsId id → text.now ≡ repo_text id → result ≡ Ok id }
        ensures exact { result_ok result ≡ repo_of text.now }
    {
        let Ok(word) = str::from_utf8(text) else {
            return Err(NotUuid);
        };
        let Ok(id) = Uuid::parse_str(word) else {
            return Err(NotUuid);
        };
        let bytes = id.into_bytes();
        if text_of(bytes).as_slice() == text {
            Ok(RepoId { bytes })
        } else {
            Err(NotUuid)
        }
    }

    /// The lower-case hyphenated text.
    pub fn print(&self) -> [u8; 36]
        ensures text { result ≡ repo_text self.now }
        ensures id { IsId self.now }
    {
        text_of(self.bytes)
    }
}

fn text_of(bytes: [u8; 16]) -> [u8; 36]
    ensures { result ≡ repo_text bytes }
{
    let mut buffer = Uuid::encode_buffer();
    let text = Uuid::from_bytes(bytes)
        .hyphenated()
        .encode_lower(&mut buffer);
    let mut out = [0; 36];
    out.copy_from_slice(text.as_bytes());
    out
}
