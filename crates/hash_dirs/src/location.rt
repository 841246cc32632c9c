//! Where the location log of a key stands in a branch.
ghost use Rattle.std.specs.Prelude.{◌≡◌, ◌∷◌, ◌++◌, IfOk};
ghost use Rattle.hash_dirs.specs.LogPath.{location_log, location_path};

use crate::dirs_of;
use annex_base::{NoMemory, Text};
use annex_key::Key;
use std::alloc::Global;

/// The path of a key's location log in a branch: the hash directories are those of the key without its chunk's fields, the
/// file's name has them (git-annex internals: location tracking, hashing, chunking).
pub fn location_path(alloc: Global, key: &Key) -> Result<Text, NoMemory>
    ensures { IfOk result (λ t. t ≡ location_path key.now) }
{
    let unchunked = key.unchunked(alloc)?;
    let file = key.to_file(alloc)?;
    log_path(alloc, unchunked.text(), &file)
}

fn log_path(alloc: Global, unchunked: &[u8], file: &[u8]) -> Result<Text, NoMemory>
    ensures { IfOk result (λ t. t ≡ location_log unchunked.now file.now) }
{
    let dirs = dirs_of(unchunked);
    let mut path = Vec::from_slice(alloc, &dirs.first)?;
    path.push(b'/')?;
    path.extend_from_slice(&dirs.second)?;
    path.push(b'/')?;
    path.extend_from_slice(file)?;
    path.extend_from_slice(b".log")?;
    Ok(Text::from_vec(path))
}
