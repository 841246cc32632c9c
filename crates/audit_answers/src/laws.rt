//! The law of what is due for a journal, as the contract of a function that does nothing.
ghost use Rattle.std.specs.Prelude.{◌≡◌, ℕ, List};
ghost use Rattle.script_answers.specs.declared.status.Status.{Status};
ghost use Rattle.audit_answers.specs.Due.{IsAuditDue};

use journal_reading::texts_read_as_their_runs;
use step_rules::runs_end_where_a_rule_is_broken;

/// For the text of a source no more than one status and one text to write are due (own).
pub fn no_two_answers_are_due_for_a_journal()
    ensures { (bytes text more : List ℕ) (status other : Status) → IsAuditDue bytes status text → IsAuditDue bytes other more
        → (status ≡ other) × (text ≡ more) }
{
    // Laws, for the proof: a text is the journal of at most one run; and where an entry of it breaks a rule it is none.
    texts_read_as_their_runs();
    runs_end_where_a_rule_is_broken();
}
