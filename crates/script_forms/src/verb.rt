//! The words that tell the form of a line.
ghost use Rattle.std.specs.Prelude.{◌≡◌};
ghost use Rattle.script_forms.specs.Forms.{row, block_row, job_row, show_row, verb_named, job_named, show_named, line_named};

use script_words::is_word;

/// What a line begins with.
#[derive(Clone, Copy, Debug, PartialEq, Eq)]
pub enum LineVerb {
    /// `par`
    Par,
    /// `end`
    End,
    Says(Verb),
}

/// The form of a line that neither begins nor ends a block.
#[derive(Clone, Copy, Debug, PartialEq, Eq)]
pub enum Verb {
    Repo,
    Numcopies,
    Mincopies,
    NumcopiesFor,
    MincopiesFor,
    Trust,
    Describe,
    Wanted,
    Required,
    Group,
    GroupWanted,
    Log,
    Have,
    Part,
    Damage,
    Add,
    File,
    InBlock(BlockVerb),
    Begin,
    Turn,
    Settle,
    Merge,
    Compact,
    Sync,
    Wait,
    Show,
}

/// The form of a line that may stand in a block.
#[derive(Clone, Copy, Debug, PartialEq, Eq)]
pub enum BlockVerb {
    Job(JobVerb),
    Crash,
    Close,
    Fail,
}

/// The form of a job.
#[derive(Clone, Copy, Debug, PartialEq, Eq)]
pub enum JobVerb {
    Drop,
    Get,
    Copy,
    Move,
}

/// What a line shows.
#[derive(Clone, Copy, Debug, PartialEq, Eq)]
pub enum Show {
    Presence,
    Claims,
    Location,
    Log,
    Logs,
    Numbers,
    Level,
    Wants,
    Row,
    Plan,
    Totals,
    Journal,
}

const VERBS: [Verb; 32] = [
    Verb::Repo,
    Verb::Numcopies,
    Verb::Mincopies,
    Verb::NumcopiesFor,
    Verb::MincopiesFor,
    Verb::Trust,
    Verb::Describe,
    Verb::Wanted,
    Verb::Required,
    Verb::Group,
    Verb::GroupWanted,
    Verb::Log,
    Verb::Have,
    Verb::Part,
    Verb::Damage,
    Verb::Add,
    Verb::File,
    Verb::InBlock(BlockVerb::Job(JobVerb::Drop)),
    Verb::InBlock(BlockVerb::Job(JobVerb::Get)),
    Verb::InBlock(BlockVerb::Job(JobVerb::Copy)),
    Verb::InBlock(BlockVerb::Job(JobVerb::Move)),
    Verb::InBlock(BlockVerb::Crash),
    Verb::InBlock(BlockVerb::Close),
    Verb::InBlock(BlockVerb::Fail),
    Verb::Begin,
    Verb::Turn,
    Verb::Settle,
    Verb::Merge,
    Verb::Compact,
    Verb::Sync,
    Verb::Wait,
    Verb::Show,
];

const JOBS: [JobVerb; 4] = [JobVerb::Drop, JobVerb::Get, JobVerb::Copy, JobVerb::Move];

const SHOWS: [Show; 12] = [
    Show::Presence,
    Show::Claims,
    Show::Location,
    Show::Log,
    Show::Logs,
    Show::Numbers,
    Show::Level,
    Show::Wants,
    Show::Row,
    Show::Plan,
    Show::Totals,
    Show::Journal,
];

impl JobVerb {
    fn word(self) -> &'static [u8]
        ensures { result.now ≡ (job_row self).0 }
    {
        match self {
            JobVerb::Drop => b"drop",
            JobVerb::Get => b"get",
            JobVerb::Copy => b"copy",
            JobVerb::Move => b"move",
        }
    }

    /// The job that the word names.
    pub fn named(word: &[u8]) -> Option<JobVerb>
        ensures { result ≡ job_named word.now }
    {
        JOBS.iter().copied().find(|verb| verb.word() == word)
    }
}

impl BlockVerb {
    fn word(self) -> &'static [u8]
        ensures { result.now ≡ (block_row self).0 }
    {
        match self {
            BlockVerb::Job(verb) => verb.word(),
            BlockVerb::Crash => b"crash",
            BlockVerb::Close => b"close",
            BlockVerb::Fail => b"fail",
        }
    }
}

impl Show {
    fn word(self) -> &'static [u8]
        ensures { result.now ≡ (show_row self).0 }
    {
        match self {
            Show::Presence => b"presence",
            Show::Claims => b"claims",
            Show::Location => b"location",
            Show::Log => b"log",
            Show::Logs => b"logs",
            Show::Numbers => b"numbers",
            Show::Level => b"level",
            Show::Wants => b"wants",
            Show::Row => b"row",
            Show::Plan => b"plan",
            Show::Totals => b"totals",
            Show::Journal => b"journal",
        }
    }

    /// What the word says is shown.
    pub fn named(word: &[u8]) -> Option<Show>
        ensures { result ≡ show_named word.now }
    {
        SHOWS.iter().copied().find(|show| show.word() == word)
    }
}

impl Verb {
    fn word(self) -> &'static [u8]
        ensures { result.now ≡ (row self).0 }
    {
        match self {
            Verb::Repo => b"repo",
            Verb::Numcopies => b"numcopies",
            Verb::Mincopies => b"mincopies",
            Verb::NumcopiesFor => b"numcopiesfor",
            Verb::MincopiesFor => b"mincopiesfor",
            Verb::Trust => b"trust",
            Verb::Describe => b"describe",
            Verb::Wanted => b"wanted",
            Verb::Required => b"required",
            Verb::Group => b"group",
            Verb::GroupWanted => b"groupwanted",
            Verb::Log => b"log",
            Verb::Have => b"have",
            Verb::Part => b"part",
            Verb::Damage => b"damage",
            Verb::Add => b"add",
            Verb::File => b"file",
            Verb::InBlock(verb) => verb.word(),
            Verb::Begin => b"begin",
            Verb::Turn => b"turn",
            Verb::Settle => b"settle",
            Verb::Merge => b"merge",
            Verb::Compact => b"compact",
            Verb::Sync => b"sync",
            Verb::Wait => b"wait",
            Verb::Show => b"show",
        }
    }

    fn named(word: &[u8]) -> Option<Verb>
        ensures { result ≡ verb_named word.now }
    {
        VERBS.iter().copied().find(|verb| verb.word() == word)
    }
}

impl LineVerb {
    /// What a line begins with whose first word this is.
    pub fn named(word: &[u8]) -> Option<LineVerb>
        ensures { result ≡ line_named word.now }
    {
        if is_word(word, b"par") {
            return Some(LineVerb::Par);
        }
        if is_word(word, b"end") {
            return Some(LineVerb::End);
        }
        Some(LineVerb::Says(Verb::named(word)?))
    }
}
