//! Fields of an entry's line.

ghost use Rattle.std.specs.Prelude.{◌≡◌, ◌++◌, OnOk};
ghost use Rattle.journal_text.specs.Journal.{by_text, file_text, found_text, key_field, need_field, side_text};

use annex_base::{Found, put_number};
use annex_key::Key;
use drop_proof::Need;
use run_data::{By, LogFile, RepoView};
use run_text::put_name;
use std::alloc::AllocError;

/// Adds for whom something was done.
pub(crate) fn put_by(out: &mut Vec<u8>, repos: &[RepoView], by: By) -> Result<(), AllocError>
    ensures { OnOk result (out.new.items ≡ out.old.items ++ by_text repos.now by) }
{
    match by {
        By::Script => out.extend_from_slice(b"script")?,
        By::Job(job) => {
            out.extend_from_slice(b"job:")?;
            put_number(out, job as u64)?;
        }
        By::Peer { peer, slot } => {
            out.extend_from_slice(b"peer:")?;
            put_name(out, repos, peer)?;
            out.push(b'.')?;
            put_number(out, slot as u64)?;
        }
    }
    Ok(())
}

/// Adds the key, which is the last field of its line.
pub(crate) fn put_key(out: &mut Vec<u8>, key: &Key) -> Result<(), AllocError>
    ensures { OnOk result (out.new.items ≡ out.old.items ++ key_field key.now) }
{
    out.extend_from_slice(b" key=")?;
    out.extend_from_slice(key.text())?;
    Ok(())
}

/// Adds what a drop needs.
pub(crate) fn put_need(out: &mut Vec<u8>, need: Need) -> Result<(), AllocError>
    ensures { OnOk result (out.new.items ≡ out.old.items ++ need_field need) }
{
    out.extend_from_slice(b" need=")?;
    put_number(out, need.n as u64)?;
    out.push(b',')?;
    put_number(out, need.m as u64)?;
    Ok(())
}

/// Adds the location log of a key, or the name of another file.
pub(crate) fn put_file(out: &mut Vec<u8>, file: &LogFile) -> Result<(), AllocError>
    ensures { OnOk result (out.new.items ≡ out.old.items ++ file_text file.now) }
{
    match file {
        LogFile::Location(key) => {
            out.extend_from_slice(b"location ")?;
            out.extend_from_slice(key.text())?;
        }
        LogFile::Of(kind) => out.extend_from_slice(kind.file_name())?,
        LogFile::Other(name) => out.extend_from_slice(name.bytes())?,
    }
    Ok(())
}

/// The word for what a look found.
pub(crate) fn found_word(found: Found) -> &'static [u8]
    ensures { result.now ≡ found_text found }
{
    match found {
        Found::Present => b"present",
        Found::Absent => b"absent",
        Found::Barred => b"barred",
        Found::Held => b"held",
        Found::Late => b"late",
        Found::Nolock => b"nolock",
    }
}

/// The word for an end of a connection.
pub(crate) fn side_word(client: bool) -> &'static [u8]
    ensures { result.now ≡ side_text client }
{
    if client { b"client" } else { b"server" }
}
