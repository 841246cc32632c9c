//! What a repository wants and requires.

ghost use Rattle.std.specs.Prelude.{◌≡◌, ◌++◌, ◌<◌, true, false, codes, length, OnOk, IfOk};
ghost use Rattle.trust_groups.specs.View.{settings_of};
ghost use Rattle.run_data.specs.Repos.{id_of};
ghost use Rattle.run_text.specs.Names.{name_of};
ghost use Rattle.script_words.specs.Words.{printed_word};
ghost use Rattle.wanted_expr.specs.Wanted.{is_required, wants};
ghost use Rattle.shown_text.specs.Wanted.{wants_text, yes_or_no};

use crate::settings::id_of;
use annex_base::{NoMemory, RepoId, Text};
use annex_key::Key;
use run_data::Run;
use run_text::put_name;
use script_words::put_word;
use std::alloc::{AllocError, Global};
use trust_groups::Settings;
use wanted_rules::Wishes;

/// What a repository wants of a key: to get it, to keep it, and that it must keep it.
#[derive(Clone, Copy)]
struct Judged {
    get: bool,
    keep: bool,
    required: bool,
}

fn wanted(
    alloc: Global,
    settings: &Settings,
    repo: RepoId,
    key: &Key,
    paths: &[Text],
) -> Result<Judged, NoMemory>
    ensures get { IfOk result (λ w. w.get ≡ wants (settings_of settings.now) repo key.now paths.now false) }
    ensures keep { IfOk result (λ w. w.keep ≡ wants (settings_of settings.now) repo key.now paths.now true) }
    ensures required { IfOk result (λ w. w.required ≡ is_required (settings_of settings.now) repo key.now paths.now) }
{
    let wishes = Wishes::read(alloc, settings, repo)?;
    let get = wishes.wants(key, paths, false)?;
    let keep = wishes.wants(key, paths, true)?;
    let required = wishes.required(key, paths)?;
    Ok(Judged {
        get,
        keep,
        required: required.is_some(),
    })
}

fn put_yes_or_no(out: &mut Vec<u8>, name: &[u8], is: bool) -> Result<(), AllocError>
    ensures { OnOk result (out.new.items ≡ out.old.items ++ name.now ++ yes_or_no is) }
{
    out.extend_from_slice(name)?;
    if is {
        out.extend_from_slice(b"yes")
    } else {
        out.extend_from_slice(b"no")
    }
}

/// Adds the names of two repositories and a path.
fn put_whose(
    out: &mut Vec<u8>,
    run: &Run,
    repo: u32,
    target: u32,
    path: &Text,
) -> Result<(), AllocError>
    ensures { OnOk result (out.new.items ≡ out.old.items ++ name_of run.now.repos repo ++ codes " " ++ name_of run.now.repos target ++ codes " " ++ printed_word path.now) }
{
    let repos = run.repos.as_slice();
    put_name(out, repos, repo)?;
    out.push(b' ')?;
    put_name(out, repos, target)?;
    out.push(b' ')?;
    put_word(out, path.bytes())
}

/// Adds whether a repository wants and requires the content of a path, by these settings. The path's key is given with all its
/// paths.
pub fn put_wants(
    out: &mut Vec<u8>,
    run: &Run,
    repo: u32,
    target: u32,
    path: &Text,
    settings: &Settings,
    key: &Key,
    paths: &[Text],
) -> Result<(), NoMemory>
    requires { target < length run.now.repos }
    ensures { OnOk result (out.new.items ≡ out.old.items ++ wants_text run.now repo target path.now (settings_of settings.now) key.now paths.now) }
{
    let id = id_of(run.repos.as_slice(), target);
    let wanted = wanted(*out.allocator(), settings, id, key, paths)?;
    out.extend_from_slice(b"wants ")?;
    put_whose(out, run, repo, target, path)?;
    put_yes_or_no(out, b" get=", wanted.get)?;
    put_yes_or_no(out, b" keep=", wanted.keep)?;
    put_yes_or_no(out, b" required=", wanted.required)?;
    out.push(b'\n')?;
    Ok(())
}
