//! The exit statuses of the program.

/// How a call of the program ended, in the order of its exit statuses from 0 (own).
#[derive(Clone, Copy, Debug, PartialEq, Eq)]
pub enum Status {
    /// All was done, and the text is written.
    Done,
    /// The words are no form of the program.
    Usage,
    /// A line isn't one of a script.
    Script,
    /// The source failed.
    ReadFault,
    /// The sink failed.
    WriteFault,
    /// Memory ran out.
    NoMemory,
    /// A counted quantity passes its limit.
    Limit,
    /// An entry of a journal isn't permitted.
    NotARun,
    /// A text isn't a journal.
    Input,
}

impl Status {
    ghost use Rattle.std.specs.Prelude.{◌≡◌};
    ghost use Rattle.script_answers.specs.Exit.{exit_code};

    /// The exit status.
    pub fn code(self) -> u8
        ensures { result ≡ exit_code self }
    {
        match self {
            Status::Done => 0,
            Status::Usage => 1,
            Status::Script => 2,
            Status::ReadFault => 3,
            Status::WriteFault => 4,
            Status::NoMemory => 5,
            Status::Limit => 6,
            Status::NotARun => 7,
            Status::Input => 8,
        }
    }
}
