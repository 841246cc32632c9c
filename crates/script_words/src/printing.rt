//! How a word is printed.
ghost use Rattle.std.specs.Prelude.{◌≡◌, ◌++◌, OnOk, OnErr};
ghost use Rattle.script_words.specs.Words.{has_space, printed_word};

use std::alloc::AllocError;

fn has_space(word: &[u8]) -> bool
    ensures { result ≡ has_space word.now }
{
    word.iter().any(|b| *b == b' ')
}

/// Adds the word, in double quotes exactly where it has a space; without memory it adds nothing.
pub fn put_word(out: &mut Vec<u8>, word: &[u8]) -> Result<(), AllocError>
    ensures ok { OnOk result (out.new.items ≡ out.old.items ++ printed_word word.now) }
    ensures err { OnErr result (out.new.items ≡ out.old.items) }
{
    if !has_space(word) {
        return out.extend_from_slice(word);
    }
    out.reserve(word.len() + 2)?;
    out.push(b'"')?;
    out.extend_from_slice(word)?;
    out.push(b'"')?;
    Ok(())
}
