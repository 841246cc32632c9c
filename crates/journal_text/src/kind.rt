//! What an entry did: its word and its fields.

ghost use Rattle.std.specs.Prelude.{◌≡◌, ◌++◌, OnOk, codes, length, reverse, option_copied};
ghost use Rattle.std.specs.Fmt.{decimal};
ghost use Rattle.script_words.specs.Fields.{call_word};
ghost use Rattle.run_text.specs.Names.{name_of};
ghost use Rattle.run_text.specs.Words.{number_or_dash};
ghost use Rattle.run_text.specs.Outcomes.{outcome_text};
ghost use Rattle.journal_text.specs.Journal.{begin_text, by_text, file_text, found_text, job_before, key_field, kind_text, need_field, side_text};

use crate::begun::begun_job;
use crate::fields::{found_word, put_by, put_file, put_key, put_need, side_word};
use annex_base::{Call, Found, put_number};
use annex_key::Key;
use drop_proof::Need;
use run_data::{By, Entry, EntryKind, Job, LogFile, Outcome, RepoView};
use run_text::{put_job, put_name, put_number_or_dash, put_outcome};
use script_words::call_text;
use std::alloc::AllocError;

/// Adds what an entry did; the entries before it stand in order.
pub(crate) fn put_kind(
    out: &mut Vec<u8>,
    repos: &[RepoView],
    before: &[Entry],
    entry: &Entry,
) -> Result<(), AllocError>
    ensures { OnOk result (out.new.items ≡ out.old.items ++ kind_text repos.now (reverse before.now) entry.now.repo (length entry.now.lines) entry.now.kind) }
{
    match &entry.kind {
        EntryKind::Begin { job, what } => put_begin(out, repos, entry.repo, *job, what)?,
        EntryKind::Gain { by, size, key } => put_gain(out, repos, *by, *size, key)?,
        EntryKind::Share { hold, end, by, key } => put_share(out, repos, *hold, *end, *by, key)?,
        EntryKind::Release { hold, key } => put_release(out, *hold, key)?,
        EntryKind::Check { found, key } => put_check(out, *found, key)?,
        EntryKind::Bar { job, need, key } => put_bar(out, *job, *need, key)?,
        EntryKind::Order {
            job,
            target,
            deadline,
            need,
            key,
        } => put_order(out, repos, *job, *target, *deadline, *need, key)?,
        EntryKind::Gone { by, key } => put_gone(out, repos, *by, key)?,
        EntryKind::Log { file } => put_log(out, entry.lines.as_slice().len(), file)?,
        EntryKind::Compact { file } => put_compact(out, file)?,
        EntryKind::Talk { job } => put_talk(out, *job)?,
        EntryKind::Close { peer, slot, client } => put_close(out, repos, *peer, *slot, *client)?,
        EntryKind::Crash { clock } => put_crash(out, *clock)?,
        EntryKind::Wait(milliseconds) => put_wait(out, *milliseconds)?,
        EntryKind::Fault { call, by } => put_fault(out, repos, *call, *by)?,
        EntryKind::End { job, outcome } => {
            put_end(
                out,
                repos,
                job_before(before, entry.repo, *job),
                *job,
                outcome,
            )?
        }
    }
    Ok(())
}

fn put_begin(
    out: &mut Vec<u8>,
    repos: &[RepoView],
    repo: Option<u32>,
    job: u32,
    what: &Job,
) -> Result<(), AllocError>
    ensures { OnOk result (out.new.items ≡ out.old.items ++ (codes "begin " ++ decimal job ++ codes " " ++ begin_text repos.now repo what.now)) }
{
    out.extend_from_slice(b"begin ")?;
    put_number(out, job as u64)?;
    out.push(b' ')?;
    if let Some(repo) = repo {
        put_job(out, repos, repo, what)?;
    }
    Ok(())
}

fn put_gain(
    out: &mut Vec<u8>,
    repos: &[RepoView],
    by: By,
    size: u64,
    key: &Key,
) -> Result<(), AllocError>
    ensures { OnOk result (out.new.items ≡ out.old.items ++ (codes "gain by=" ++ by_text repos.now by ++ codes " size=" ++ decimal size ++ key_field key.now)) }
{
    out.extend_from_slice(b"gain by=")?;
    put_by(out, repos, by)?;
    out.extend_from_slice(b" size=")?;
    put_number(out, size)?;
    put_key(out, key)?;
    Ok(())
}

fn put_share(
    out: &mut Vec<u8>,
    repos: &[RepoView],
    hold: u64,
    end: u64,
    by: By,
    key: &Key,
) -> Result<(), AllocError>
    ensures { OnOk result (out.new.items ≡ out.old.items ++ (codes "share hold=" ++ decimal hold ++ codes " end=" ++ decimal end ++ codes " for=" ++ by_text repos.now by ++ key_field key.now)) }
{
    out.extend_from_slice(b"share hold=")?;
    put_number(out, hold)?;
    out.extend_from_slice(b" end=")?;
    put_number(out, end)?;
    out.extend_from_slice(b" for=")?;
    put_by(out, repos, by)?;
    put_key(out, key)?;
    Ok(())
}

fn put_release(out: &mut Vec<u8>, hold: u64, key: &Key) -> Result<(), AllocError>
    ensures { OnOk result (out.new.items ≡ out.old.items ++ (codes "release hold=" ++ decimal hold ++ key_field key.now)) }
{
    out.extend_from_slice(b"release hold=")?;
    put_number(out, hold)?;
    put_key(out, key)?;
    Ok(())
}

fn put_check(out: &mut Vec<u8>, found: Found, key: &Key) -> Result<(), AllocError>
    ensures { OnOk result (out.new.items ≡ out.old.items ++ (codes "check found=" ++ found_text found ++ key_field key.now)) }
{
    out.extend_from_slice(b"check found=")?;
    out.extend_from_slice(found_word(found))?;
    put_key(out, key)?;
    Ok(())
}

fn put_bar(out: &mut Vec<u8>, job: u32, need: Need, key: &Key) -> Result<(), AllocError>
    ensures { OnOk result (out.new.items ≡ out.old.items ++ (codes "bar " ++ decimal job ++ need_field need ++ key_field key.now)) }
{
    out.extend_from_slice(b"bar ")?;
    put_number(out, job as u64)?;
    put_need(out, need)?;
    put_key(out, key)?;
    Ok(())
}

fn put_order(
    out: &mut Vec<u8>,
    repos: &[RepoView],
    job: u32,
    target: u32,
    deadline: Option<u64>,
    need: Need,
    key: &Key,
) -> Result<(), AllocError>
    ensures { OnOk result (out.new.items ≡ out.old.items ++ (codes "order " ++ decimal job ++ codes " target=" ++ name_of repos.now target ++ codes " deadline=" ++ number_or_dash deadline ++ need_field need ++ key_field key.now)) }
{
    out.extend_from_slice(b"order ")?;
    put_number(out, job as u64)?;
    out.extend_from_slice(b" target=")?;
    put_name(out, repos, target)?;
    out.extend_from_slice(b" deadline=")?;
    put_number_or_dash(out, deadline)?;
    put_need(out, need)?;
    put_key(out, key)?;
    Ok(())
}

fn put_gone(out: &mut Vec<u8>, repos: &[RepoView], by: By, key: &Key) -> Result<(), AllocError>
    ensures { OnOk result (out.new.items ≡ out.old.items ++ (codes "gone by=" ++ by_text repos.now by ++ key_field key.now)) }
{
    out.extend_from_slice(b"gone by=")?;
    put_by(out, repos, by)?;
    put_key(out, key)?;
    Ok(())
}

fn put_log(out: &mut Vec<u8>, lines: usize, file: &LogFile) -> Result<(), AllocError>
    ensures { OnOk result (out.new.items ≡ out.old.items ++ (codes "log " ++ decimal lines ++ codes " " ++ file_text file.now)) }
{
    out.extend_from_slice(b"log ")?;
    put_number(out, lines as u64)?;
    out.push(b' ')?;
    put_file(out, file)?;
    Ok(())
}

fn put_compact(out: &mut Vec<u8>, file: &LogFile) -> Result<(), AllocError>
    ensures { OnOk result (out.new.items ≡ out.old.items ++ (codes "compact " ++ file_text file.now)) }
{
    out.extend_from_slice(b"compact ")?;
    put_file(out, file)?;
    Ok(())
}

fn put_talk(out: &mut Vec<u8>, job: Option<u32>) -> Result<(), AllocError>
    ensures { OnOk result (out.new.items ≡ out.old.items ++ (codes "talk " ++ number_or_dash job)) }
{
    out.extend_from_slice(b"talk ")?;
    put_number_or_dash(out, job.map(u64::from))?;
    Ok(())
}

fn put_close(
    out: &mut Vec<u8>,
    repos: &[RepoView],
    peer: u32,
    slot: u32,
    client: bool,
) -> Result<(), AllocError>
    ensures { OnOk result (out.new.items ≡ out.old.items ++ (codes "close peer=" ++ name_of repos.now peer ++ codes " slot=" ++ decimal slot ++ codes " side=" ++ side_text client)) }
{
    out.extend_from_slice(b"close peer=")?;
    put_name(out, repos, peer)?;
    out.extend_from_slice(b" slot=")?;
    put_number(out, slot as u64)?;
    out.extend_from_slice(b" side=")?;
    out.extend_from_slice(side_word(client))?;
    Ok(())
}

fn put_crash(out: &mut Vec<u8>, clock: u64) -> Result<(), AllocError>
    ensures { OnOk result (out.new.items ≡ out.old.items ++ (codes "crash clock=" ++ decimal clock)) }
{
    out.extend_from_slice(b"crash clock=")?;
    put_number(out, clock)?;
    Ok(())
}

fn put_wait(out: &mut Vec<u8>, milliseconds: u64) -> Result<(), AllocError>
    ensures { OnOk result (out.new.items ≡ out.old.items ++ (codes "wait " ++ decimal milliseconds)) }
{
    out.extend_from_slice(b"wait ")?;
    put_number(out, milliseconds)?;
    Ok(())
}

fn put_fault(out: &mut Vec<u8>, repos: &[RepoView], call: Call, by: By) -> Result<(), AllocError>
    ensures { OnOk result (out.new.items ≡ out.old.items ++ (codes "fault " ++ call_word call ++ codes " " ++ by_text repos.now by)) }
{
    out.extend_from_slice(b"fault ")?;
    out.extend_from_slice(call_text(call))?;
    out.push(b' ')?;
    put_by(out, repos, by)?;
    Ok(())
}

fn put_end(
    out: &mut Vec<u8>,
    repos: &[RepoView],
    what: Option<&Job>,
    job: u32,
    outcome: &Outcome,
) -> Result<(), AllocError>
    ensures { OnOk result (out.new.items ≡ out.old.items ++ (codes "end " ++ decimal job ++ outcome_text repos.now (option_copied what.entry) outcome.now)) }
{
    out.extend_from_slice(b"end ")?;
    put_number(out, job as u64)?;
    put_outcome(out, repos, what, outcome)?;
    Ok(())
}

/// The job that the entry's repository had begun with this number.
fn job_before(before: &[Entry], repo: Option<u32>, number: u32) -> Option<&Job>
    ensures { option_copied result ≡ job_before (reverse before.now) repo number }
{
    begun_job(before, repo?, number)
}
