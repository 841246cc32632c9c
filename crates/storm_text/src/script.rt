//! The script of a storm.

ghost use Rattle.std.specs.Prelude.{◌≡◌, ◌++◌, ◌<◌, OnOk, IfOk};
ghost use Rattle.std.specs.List.{flat_map, range_with_len};
ghost use Rattle.storm_script.specs.Storm.{haves, merge_line, repo_line, storm_text, times};
ghost use Rattle.storm_text.specs.Times.{drawn_time, script_text, state_after};

use crate::draws::Draws;
use crate::lines::{Time, put_have_line, put_merge_line, put_repo_line, put_settle_line, put_time};
use annex_base::NoMemory;
use std::alloc::{AllocError, Global};

/// How many contents a storm begins with.
const CONTENTS: u64 = 48;

/// The script of a storm of so many jobs, which are drawn from the number, as text (own).
pub fn storm_lines(alloc: Global, number: u64, jobs: u32) -> Result<Vec<u8>, NoMemory>
    ensures { IfOk result (λ text. text.items ≡ storm_text number jobs) }
{
    let mut draws = Draws { state: number };
    let mut out = Vec::new(alloc);
    put_script(&mut out, &mut draws, CONTENTS, jobs)?;
    Ok(out)
}

/// Adds a script with so many contents and jobs.
fn put_script(
    out: &mut Vec<u8>,
    draws: &mut Draws,
    contents: u64,
    jobs: u32,
) -> Result<(), AllocError>
    ensures { OnOk result (out.new.items ≡ out.old.items ++ script_text contents draws.old.state jobs) }
{
    put_repos(out)?;
    put_haves(out, draws, contents)?;
    out.extend_from_slice(b"numcopies s0 2\n")?;
    put_merges(out)?;
    put_times(out, draws, jobs)?;
    put_settle_line(out)?;
    Ok(())
}

fn put_repos(out: &mut Vec<u8>) -> Result<(), AllocError>
    ensures { OnOk result (out.new.items ≡ out.old.items ++ flat_map repo_line (range_with_len 0 8)) }
{
    for repo in 0..8 {
        put_repo_line(out, repo)?;
    }
    Ok(())
}

/// Adds so many contents: three of each key, each at a repository that is drawn.
fn put_haves(out: &mut Vec<u8>, draws: &mut Draws, contents: u64) -> Result<(), AllocError>
    ensures text { OnOk result (out.new.items ≡ out.old.items ++ (haves contents 0 draws.old.state).text) }
    ensures state { OnOk result (draws.new.state ≡ (haves contents 0 draws.old.state).state) }
{
    for count in 0..contents {
        let repo = draws.draw(8);
        put_have_line(out, repo, count / 3)?;
    }
    Ok(())
}

fn put_merges(out: &mut Vec<u8>) -> Result<(), AllocError>
    ensures { OnOk result (out.new.items ≡ out.old.items ++ flat_map merge_line (range_with_len 1 7)) }
{
    for repo in 1..8 {
        put_merge_line(out, repo)?;
    }
    Ok(())
}

/// Adds so many times.
fn put_times(out: &mut Vec<u8>, draws: &mut Draws, jobs: u32) -> Result<(), AllocError>
    ensures { OnOk result (out.new.items ≡ out.old.items ++ times jobs 1 draws.old.state) }
{
    for done in 0..jobs {
        let time = draw_time(draws);
        put_time(out, done as u64 + 1, time)?;
    }
    Ok(())
}

/// Draws what one time is made of.
fn draw_time(draws: &mut Draws) -> Time
    ensures drawn { result ≡ drawn_time draws.old.state }
    ensures state { draws.new.state ≡ state_after draws.old.state }
    ensures below { result.draw < 8 }
{
    let repo = draws.draw(8);
    let key = draws.draw(16);
    let other = (repo + 1 + draws.draw(7)) % 8;
    let draw = draws.draw(8);
    let turns = draws.draw(16) + 1;
    Time {
        repo,
        key,
        other,
        draw,
        turns,
    }
}
