//! Files by path.
ghost use Rattle.std.specs.Prelude.{◌≡◌, Some, IfOk, OnOk, OnErr};
ghost use Rattle.std.specs.Option.{option_map};
ghost use Rattle.object_store.specs.ByKey.{bytes_at};
ghost use Rattle.object_store.specs.Stores.{with_at};

use annex_base::{NoMemory, Text};
use std::alloc::Global;
use std::collections::BTreeMap;

/// Writes the file of the path.
pub fn put(
    files: &mut BTreeMap<Text, Text>,
    alloc: Global,
    path: &[u8],
    bytes: &[u8],
) -> Result<(), NoMemory>
    ensures ok { OnOk result (bytes_at files.new.entries ≡ with_at (bytes_at files.old.entries) path.now (Some bytes.now)) }
    ensures err { OnErr result (bytes_at files.new.entries ≡ bytes_at files.old.entries) }
{
    let name = Text::new(alloc, path)?;
    let file = Text::new(alloc, bytes)?;
    files.insert(name, file)?;
    Ok(())
}

/// A copy of the file of the path.
pub fn file(
    files: &BTreeMap<Text, Text>,
    alloc: Global,
    path: &[u8],
) -> Result<Option<Vec<u8>>, NoMemory>
    ensures { IfOk result (λ file. option_map (λ v. v.items) file ≡ bytes_at files.now.entries path.now) }
{
    let name = Text::new(alloc, path)?;
    match files.get(&name) {
        Some(file) => {
            let copy = Vec::from_slice(alloc, file.bytes())?;
            Ok(Some(copy))
        }
        None => Ok(None),
    }
}
