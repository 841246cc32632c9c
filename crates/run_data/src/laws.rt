//! Laws on the log files of a branch: each is the contract of a function that does nothing.
ghost use Rattle.std.specs.Prelude.{◌≡◌, ◌≢◌, ◌⊎◌, ℕ, List, Some, None};
ghost use Rattle.log_grammar.specs.declared.entry.LogKind.{LogKind};
ghost use Rattle.union_merge.specs.LineSet.{IsLine};
ghost use Rattle.run_data.specs.declared.entry.LogFile.{LogFile};
ghost use Rattle.run_data.specs.Files.{HasPath, file_of, file_path, kind_of};

use annex_key::files_name_their_keys;

/// A file is read off its path, and stands there.
pub fn files_have_their_paths()
    ensures path { (path : List ℕ) → file_path (file_of path) ≡ path }
    ensures file { (file : LogFile) → HasPath file → kind_of file ≢ None → file_of (file_path file) ≡ file }
    ensures line { (file : LogFile) → HasPath file → IsLine (file_path file) }
    ensures has { (path : List ℕ) → IsLine path → HasPath (file_of path) }
{
    // A law, for the proof that the name of a location log's file says its key.
    files_name_their_keys();
}

/// Of the files at one path no two are logs of different kinds (git-annex internals: branch files).
pub fn paths_tell_their_kind()
    ensures { (file other : LogFile) (kind : LogKind) → file_path file ≡ file_path other → kind_of other ≡ Some kind
        → (kind_of file ≡ Some kind) ⊎ (kind_of file ≡ None) }
{}
