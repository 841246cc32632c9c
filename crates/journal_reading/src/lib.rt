//! Journals read back: which texts are journals, the run that each of them is, and the laws of it.
#![tactic(auto)]

ghost use Rattle.journal_reading.specs.WellFormed.{JournalsAreRead, TextsReadAsTheirRuns, JournalsDiffer, BadLinesAreFirst};

/// The journal of a well-formed run reads as that run, but for the marks of its commands, of which it says nothing
/// (own).
pub fn journals_are_read()
    ensures { JournalsAreRead }
{}

/// A text reads as a run exactly where it is the journal of that run, which is well formed and has no marks (own).
pub fn texts_read_as_their_runs()
    ensures { TextsReadAsTheirRuns }
{}

/// Well-formed runs that differ in more than their marks have different journals (own).
pub fn journals_differ()
    ensures { JournalsDiffer }
{}

/// The bad line of a text that is no journal is the first: the lines before it begin some journal of a well-formed
/// run, and with it they begin none (own).
pub fn bad_lines_are_first()
    ensures { BadLinesAreFirst }
{}
