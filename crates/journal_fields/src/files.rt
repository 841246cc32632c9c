//! Log files of a branch.
ghost use Rattle.std.specs.Prelude.{◌≡◌, [], IfOk, codes};
ghost use Rattle.journal_reading.specs.Forms.{row, row_in};
ghost use Rattle.journal_reading.specs.Fields.{key, kind_form, file_form};
ghost use Rattle.run_data.specs.declared.entry.LogFile.TheVariants as files;

use crate::keys::read_key;
use crate::marks::behind;
use annex_base::NoMemory;
use log_grammar::LogKind;
use run_data::LogFile;
use std::alloc::Global;

/// `location KEY`
fn read_location(alloc: Global, word: &[u8]) -> Result<Option<LogFile>, NoMemory>
    ensures { IfOk result (λ o. o ≡ row_in word.now (row (codes "location ") key files.Location)) }
{
    let Some(text) = behind(word, b"location ") else {
        return Ok(None);
    };
    let Some(key) = read_key(alloc, text)? else {
        return Ok(None);
    };
    Ok(Some(LogFile::Location(key)))
}

/// The name of a log file that isn't a location log (git-annex internals).
#[tactic(auto, unfolding(script_words::specs::Marks::behind_mark))]
fn read_named(word: &[u8]) -> Option<LogFile>
    ensures { result ≡ row_in word.now (row [] kind_form files.Of) }
{
    LogKind::named(word).map(LogFile::Of)
}

/// A log file of a branch: the location log of a key, or another one by its name.
pub fn read_file(alloc: Global, word: &[u8]) -> Result<Option<LogFile>, NoMemory>
    ensures { IfOk result (λ o. o ≡ file_form.read word.now) }
{
    if let Some(file) = read_location(alloc, word)? {
        return Ok(Some(file));
    }
    if let Some(file) = read_named(word) {
        return Ok(Some(file));
    }
    Ok(None)
}
