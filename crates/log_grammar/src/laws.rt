//! A law of the names of log files: the contract of a function that does nothing.

ghost use Rattle.std.specs.Prelude.{◌≡◌, ◌≢◌, ◌↔◌, ℕ, List, Some};
ghost use Rattle.log_grammar.specs.declared.entry.LogKind.{LogKind};
ghost use Rattle.log_grammar.specs.declared.entry.LogKind.TheVariants as kinds;
ghost use Rattle.log_grammar.specs.Files.{file_name, kind_named};

/// A file's name tells its kind: of each kind but that of location logs there is one file (git-annex internals).
pub fn file_names_are_exact()
    ensures { (name : List ℕ) (kind : LogKind) → (kind_named name ≡ Some kind) ↔ ((kind ≢ kinds.Location) × (file_name kind ≡ name)) }
{}
