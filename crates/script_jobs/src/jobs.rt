//! Jobs, and the lines that may stand in a block.
ghost use Rattle.std.specs.Prelude.{◌≡◌};
ghost use Rattle.script_forms.specs.Answers.{Gives, Reads};
ghost use Rattle.script_forms.specs.Forms.{row, job_row, block_row, outside_block, a_job, job_verb_at};
ghost use Rattle.script_forms.specs.declared.verb.Verb.TheVariants as verbs;
ghost use Rattle.script_forms.specs.declared.verb.BlockVerb.TheVariants as block_verbs;
ghost use Rattle.script_forms.specs.declared.verb.JobVerb.TheVariants as job_verbs;

use run_data::{Job, JobKind};
use script_commands::{Action, Agendum, BlockLine, Command, NamedKey};
use script_forms::{BlockVerb, Context, JobVerb, LineFault};
use script_steps::{
    call, clock, end, key, maybe_from, next_word, other, repo, to, way, wrong_word,
};
use script_words::Words;
use std::alloc::Global;

/// A job and the number of the repository that runs it.
type Assigned = (u32, Job);

fn job(kind: JobKind, named: NamedKey, peer: Option<u32>) -> Job
    ensures { result ≡ a_job kind named peer }
{
    Job {
        kind,
        key: named.key,
        path: named.path,
        peer,
    }
}

/// `drop REPO KEY [from PEER]`
fn drop_job(alloc: Global, context: &Context, words: &mut Words<'_>) -> Result<Assigned, LineFault>
    ensures { Gives (λ j. j) result ((job_row job_verbs.Drop).1 context.now words.old) }
{
    let repo = repo(context, words)?;
    let named = key(alloc, context, words)?;
    let peer = maybe_from(context, repo, words)?;
    end(words)?;
    Ok((repo, job(JobKind::Drop, named, peer)))
}

/// `get REPO KEY [from PEER]`
fn get_job(alloc: Global, context: &Context, words: &mut Words<'_>) -> Result<Assigned, LineFault>
    ensures { Gives (λ j. j) result ((job_row job_verbs.Get).1 context.now words.old) }
{
    let repo = repo(context, words)?;
    let named = key(alloc, context, words)?;
    let peer = maybe_from(context, repo, words)?;
    end(words)?;
    Ok((repo, job(JobKind::Get, named, peer)))
}

/// `copy REPO KEY to PEER`
fn copy_job(alloc: Global, context: &Context, words: &mut Words<'_>) -> Result<Assigned, LineFault>
    ensures { Gives (λ j. j) result ((job_row job_verbs.Copy).1 context.now words.old) }
{
    let repo = repo(context, words)?;
    let named = key(alloc, context, words)?;
    let peer = to(context, repo, words)?;
    end(words)?;
    Ok((repo, job(JobKind::Copy, named, Some(peer))))
}

/// `move REPO KEY to PEER` or `move REPO KEY from PEER`
fn move_job(alloc: Global, context: &Context, words: &mut Words<'_>) -> Result<Assigned, LineFault>
    ensures { Gives (λ j. j) result ((job_row job_verbs.Move).1 context.now words.old) }
{
    let repo = repo(context, words)?;
    let named = key(alloc, context, words)?;
    let kind = way(words)?;
    let peer = other(context, repo, words)?;
    end(words)?;
    Ok((repo, job(kind, named, Some(peer))))
}

fn read_job(
    verb: JobVerb,
    alloc: Global,
    context: &Context,
    words: &mut Words<'_>,
) -> Result<Assigned, LineFault>
    ensures { Gives (λ j. j) result ((job_row verb).1 context.now words.old) }
{
    match verb {
        JobVerb::Drop => drop_job(alloc, context, words),
        JobVerb::Get => get_job(alloc, context, words),
        JobVerb::Copy => copy_job(alloc, context, words),
        JobVerb::Move => move_job(alloc, context, words),
    }
}

/// The verb of a job.
fn job_verb(words: &mut Words<'_>) -> Result<JobVerb, LineFault>
    ensures { Reads (λ v. v) result words.new (job_verb_at words.old) }
{
    let word = next_word(words)?;
    match JobVerb::named(word.text()) {
        Some(verb) => Ok(verb),
        None => Err(wrong_word(&word)),
    }
}

/// `begin JOB`
pub fn begin(alloc: Global, context: &Context, words: &mut Words<'_>) -> Result<Command, LineFault>
    ensures { Gives (λ c. c) result ((row verbs.Begin).1 context.now words.old) }
{
    let verb = job_verb(words)?;
    let (repo, job) = read_job(verb, alloc, context, words)?;
    let action = Action::Begin { repo, job };
    Ok(Command::Does { action })
}

/// `crash REPO [clock=MS]`
fn crash(context: &Context, words: &mut Words<'_>) -> Result<Agendum, LineFault>
    ensures { Gives (λ l. l) result ((block_row block_verbs.Crash).1 context.now words.old) }
{
    let repo = repo(context, words)?;
    let clock = clock(words);
    end(words)?;
    let line = BlockLine::Crashes { clock };
    Ok(Agendum { repo, line })
}

/// `close REPO OTHER`
fn close(context: &Context, words: &mut Words<'_>) -> Result<Agendum, LineFault>
    ensures { Gives (λ l. l) result ((block_row block_verbs.Close).1 context.now words.old) }
{
    let repo = repo(context, words)?;
    let other = other(context, repo, words)?;
    end(words)?;
    let line = BlockLine::Closes { other };
    Ok(Agendum { repo, line })
}

/// `fail REPO CALL`
fn fail(context: &Context, words: &mut Words<'_>) -> Result<Agendum, LineFault>
    ensures { Gives (λ l. l) result ((block_row block_verbs.Fail).1 context.now words.old) }
{
    let repo = repo(context, words)?;
    let call = call(words)?;
    end(words)?;
    let line = BlockLine::Fails { call };
    Ok(Agendum { repo, line })
}

fn run(
    verb: JobVerb,
    alloc: Global,
    context: &Context,
    words: &mut Words<'_>,
) -> Result<Agendum, LineFault>
    ensures { Gives (λ l. l) result ((block_row (block_verbs.Job verb)).1 context.now words.old) }
{
    let (repo, job) = read_job(verb, alloc, context, words)?;
    let line = BlockLine::Runs { job };
    Ok(Agendum { repo, line })
}

/// A line that may stand in a block.
pub fn read_block_line(
    verb: BlockVerb,
    alloc: Global,
    context: &Context,
    words: &mut Words<'_>,
) -> Result<Agendum, LineFault>
    ensures { Gives (λ l. l) result ((block_row verb).1 context.now words.old) }
{
    match verb {
        BlockVerb::Job(verb) => run(verb, alloc, context, words),
        BlockVerb::Crash => crash(context, words),
        BlockVerb::Close => close(context, words),
        BlockVerb::Fail => fail(context, words),
    }
}

/// The same line outside a block.
fn outside_block(repo: u32, line: BlockLine) -> Command
    ensures { result ≡ outside_block repo line }
{
    let action = match line {
        BlockLine::Runs { job } => Action::Run { repo, job },
        BlockLine::Crashes { clock } => Action::Crash { repo, clock },
        BlockLine::Closes { other } => Action::Close { repo, other },
        BlockLine::Fails { call } => Action::Fail { repo, call },
    };
    Command::Does { action }
}

/// A line that may stand in a block, and stands in none.
pub fn read_alone(
    verb: BlockVerb,
    alloc: Global,
    context: &Context,
    words: &mut Words<'_>,
) -> Result<Command, LineFault>
    ensures { Gives (λ c. c) result ((row (verbs.InBlock verb)).1 context.now words.old) }
{
    let Agendum { repo, line } = read_block_line(verb, alloc, context, words)?;
    Ok(outside_block(repo, line))
}
