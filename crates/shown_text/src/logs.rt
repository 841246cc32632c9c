//! What lines show of the files of a branch.
ghost use Rattle.std.specs.Prelude.{◌≡◌, ◌++◌, OnOk};
ghost use Rattle.std.specs.List.{flat_map};
ghost use Rattle.union_merge.specs.Branch.{lines_at};
ghost use Rattle.union_merge.specs.LineSet.{text_of};
ghost use Rattle.hash_dirs.specs.LogPath.{location_path};
ghost use Rattle.trust_groups.specs.Settings.{claims};
ghost use Rattle.run_data.specs.Files.{file_path};
ghost use Rattle.shown_text.specs.Shown.{lines_text, log_text, location_text, claims_text};

use crate::named::named;
use annex_base::{Line, NoMemory, put_number};
use hash_dirs::location_path;
use run_data::{LogFile, Run};
use run_text::{OwnWords, put_joined, put_key, put_name};
use script_commands::NamedKey;
use script_words::put_word;
use std::alloc::AllocError;
use trust_groups::{Levels, claims_of};
use union_merge::{Branch, LineSet};

/// The lines of a file of the branch; one that isn't there has none.
fn lines_of<'a>(branch: &'a Branch, path: &[u8]) -> &'a [Line]
    ensures { result.now ≡ lines_at branch.now path.now }
{
    match branch.file(path) {
        Some(lines) => lines.lines(),
        None => &[],
    }
}

/// Adds how many lines there are, and the lines.
fn put_lines(out: &mut Vec<u8>, lines: &[Line]) -> Result<(), AllocError>
    ensures { OnOk result (out.new.items ≡ out.old.items ++ lines_text lines.now) }
{
    put_number(out, lines.len() as u64)?;
    out.push(b'\n')?;
    put_text(out, lines)?;
    Ok(())
}

fn put_text(out: &mut Vec<u8>, lines: &[Line]) -> Result<(), AllocError>
    ensures { OnOk result (out.new.items ≡ out.old.items ++ text_of lines.now) }
{
    for line in lines {
        out.extend_from_slice(line.bytes())?;
        out.push(b'\n')?;
    }
    Ok(())
}

/// Adds a file of a repository's branch.
fn put_log(
    out: &mut Vec<u8>,
    run: &Run,
    repo: u32,
    path: &[u8],
    lines: &[Line],
) -> Result<(), AllocError>
    ensures { OnOk result (out.new.items ≡ out.old.items ++ log_text run.now repo path.now lines.now) }
{
    out.extend_from_slice(b"log ")?;
    put_name(out, run.repos.as_slice(), repo)?;
    out.push(b' ')?;
    put_word(out, path)?;
    out.push(b' ')?;
    put_lines(out, lines)?;
    Ok(())
}

/// Adds the location log of a key.
pub fn put_location(
    out: &mut Vec<u8>,
    run: &Run,
    repo: u32,
    branch: &Branch,
    key: &NamedKey,
) -> Result<(), NoMemory>
    ensures { OnOk result (out.new.items ≡ out.old.items ++ location_text run.now repo key.now (lines_at branch.now (location_path key.now.key))) }
{
    let path = location_path(*out.allocator(), &key.key)?;
    out.extend_from_slice(b"location ")?;
    put_name(out, run.repos.as_slice(), repo)?;
    out.push(b' ')?;
    put_key(out, &key.key, &key.path)?;
    out.push(b' ')?;
    put_lines(out, lines_of(branch, path.bytes()))?;
    Ok(())
}

/// Adds a file, by its name.
pub fn put_file(
    out: &mut Vec<u8>,
    run: &Run,
    repo: u32,
    branch: &Branch,
    file: &LogFile,
) -> Result<(), NoMemory>
    ensures { OnOk result (out.new.items ≡ out.old.items ++ log_text run.now repo (file_path file.now) (lines_at branch.now (file_path file.now))) }
{
    let path = file.path(*out.allocator())?;
    put_log(out, run, repo, path.bytes(), lines_of(branch, path.bytes()))?;
    Ok(())
}

/// Adds each file of the branch, in byte order of path.
pub fn put_files(out: &mut Vec<u8>, run: &Run, repo: u32, branch: &Branch) -> Result<(), AllocError>
    ensures { OnOk result (out.new.items ≡ out.old.items ++ flat_map (λ f. log_text run.now repo f.0 f.1) branch.now) }
{
    for (path, lines) in branch.files() {
        put_log(out, run, repo, path, lines.lines())?;
    }
    Ok(())
}

/// Adds who is claimed to have the key.
pub fn put_claims(
    out: &mut Vec<u8>,
    run: &Run,
    repo: u32,
    branch: &Branch,
    key: &NamedKey,
) -> Result<(), NoMemory>
    ensures { OnOk result (out.new.items ≡ out.old.items ++ claims_text run.now repo key.now (claims (lines_at branch.now) key.now.key)) }
{
    let alloc = *out.allocator();
    let levels = Levels::read(alloc, branch)?;
    let ids = claims_of(alloc, branch, &levels, &key.key)?;
    let words = named(alloc, run.repos.as_slice(), &ids)?;
    out.extend_from_slice(b"claims ")?;
    put_name(out, run.repos.as_slice(), repo)?;
    out.push(b' ')?;
    put_key(out, &key.key, &key.path)?;
    out.push(b' ')?;
    put_joined(out, b' ', &OwnWords, &words)?;
    out.push(b'\n')?;
    Ok(())
}
