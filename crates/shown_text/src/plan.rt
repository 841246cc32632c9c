//! The plan of a repository.

ghost use Rattle.std.specs.Prelude.{◌≡◌, ◌++◌, codes, OnOk};
ghost use Rattle.std.specs.List.{flat_map};
ghost use Rattle.run_text.specs.Names.{name_of};
ghost use Rattle.script_words.specs.Words.{printed_word};
ghost use Rattle.shown_text.specs.Plans.{action_line, plan_text};

use annex_base::put_number;
use annex_key::Key;
use run_data::{RepoView, Run};
use run_text::put_name;
use script_words::put_word;
use std::alloc::AllocError;
use wanted_rules::Action;

/// Adds the plan of a repository of the run: how many actions it has, and a line for each. Peers are numbers of the run's
/// repositories.
pub fn put_plan(
    out: &mut Vec<u8>,
    run: &Run,
    repo: u32,
    actions: &[Action],
) -> Result<(), AllocError>
    ensures { OnOk result (out.new.items ≡ out.old.items ++ plan_text run.now repo actions.now) }
{
    let repos = run.repos.as_slice();
    out.extend_from_slice(b"plan ")?;
    put_name(out, repos, repo)?;
    out.push(b' ')?;
    put_number(out, actions.len() as u64)?;
    out.push(b'\n')?;
    put_actions(out, repos, actions)?;
    Ok(())
}

fn put_actions(out: &mut Vec<u8>, repos: &[RepoView], actions: &[Action]) -> Result<(), AllocError>
    ensures { OnOk result (out.new.items ≡ out.old.items ++ flat_map (action_line repos.now) actions.now) }
{
    for action in actions {
        put_action(out, repos, action)?;
    }
    Ok(())
}

fn put_action(out: &mut Vec<u8>, repos: &[RepoView], action: &Action) -> Result<(), AllocError>
    ensures { OnOk result (out.new.items ≡ out.old.items ++ action_line repos.now action.now) }
{
    match action {
        Action::Get(key) => put_own(out, b"get ", key)?,
        Action::Put(key, peer) => put_of_peer(out, repos, b"put ", key, *peer)?,
        Action::DropHere(key) => put_own(out, b"drophere ", key)?,
        Action::DropFrom(key, peer) => put_of_peer(out, repos, b"dropfrom ", key, *peer)?,
    }
    Ok(())
}

/// Adds the line of an action of the repository alone.
fn put_own(out: &mut Vec<u8>, word: &[u8], key: &Key) -> Result<(), AllocError>
    ensures { OnOk result (out.new.items ≡ out.old.items ++ (word.now ++ printed_word key.now ++ codes "\n")) }
{
    out.extend_from_slice(word)?;
    put_word(out, key.text())?;
    out.push(b'\n')?;
    Ok(())
}

/// Adds the line of an action with a peer.
fn put_of_peer(
    out: &mut Vec<u8>,
    repos: &[RepoView],
    word: &[u8],
    key: &Key,
    peer: u32,
) -> Result<(), AllocError>
    ensures { OnOk result (out.new.items ≡ out.old.items ++ (word.now ++ printed_word key.now ++ codes " " ++ name_of repos.now peer ++ codes "\n")) }
{
    out.extend_from_slice(word)?;
    put_word(out, key.text())?;
    out.push(b' ')?;
    put_name(out, repos, peer)?;
    out.push(b'\n')?;
    Ok(())
}
