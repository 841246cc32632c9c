//! The words of the command line.

ghost use Rattle.std.specs.Prelude.{◌↔◌, IsTrue, map};
ghost use Rattle.std.specs.String.{string_bytes};
ghost use Rattle.script_answers.specs.Top.{IsAuditCommand, IsRunCommand};

/// Whether the words are `audit` alone.
pub fn is_audit(words: &[String]) -> bool
    ensures { IsTrue result ↔ IsAuditCommand (map string_bytes words.now) }
{
    match words {
        [word] => word.as_str() == "audit",
        _ => false,
    }
}

/// Whether the words are `run` alone.
pub fn is_run(words: &[String]) -> bool
    ensures { IsTrue result ↔ IsRunCommand (map string_bytes words.now) }
{
    match words {
        [word] => word.as_str() == "run",
        _ => false,
    }
}
