//! The file names of keys (own): four bytes of a text are written otherwise.
ghost use Rattle.std.specs.Prelude.{◌≡◌, ◌++◌, OnOk, IfOk, IfErr};
ghost use Rattle.std.specs.Option.{option_map};
ghost use Rattle.annex_key.specs.KeyFile.{escape_of, file_text, letter_byte, byte_at, FailsEscape};

use crate::fault::KeyFault;
use std::alloc::{AllocError, Global};

fn put_escaped(out: &mut Vec<u8>, byte: u8) -> Result<(), AllocError>
    ensures { OnOk result (out.new.items ≡ out.old.items ++ escape_of byte) }
{
    match byte {
        b'&' => out.extend_from_slice(b"&a")?,
        b'%' => out.extend_from_slice(b"&s")?,
        b':' => out.extend_from_slice(b"&c")?,
        b'/' => out.push(b'%')?,
        _ => out.push(byte)?,
    }
    Ok(())
}

/// The file name of a text.
pub(crate) fn escape(alloc: Global, text: &[u8]) -> Result<Vec<u8>, AllocError>
    ensures { IfOk result (λ v. v.items ≡ file_text text.now) }
{
    let mut file = Vec::new(alloc);
    for byte in text {
        put_escaped(&mut file, *byte)?;
    }
    Ok(file)
}

fn byte_of_letter(letter: u8) -> Option<u8>
    ensures { result ≡ letter_byte letter }
{
    match letter {
        b'a' => Some(b'&'),
        b's' => Some(b'%'),
        b'c' => Some(b':'),
        _ => None,
    }
}

// The byte that a file name stands for in front, and what is left.
fn next_byte(file: &[u8]) -> Option<(u8, &[u8])>
    ensures { option_map (λ x. (x.0, x.1.now)) result ≡ byte_at file.now }
{
    let (first, rest) = file.split_first()?;
    match *first {
        b'&' => {
            let (letter, rest) = rest.split_first()?;
            Some((byte_of_letter(*letter)?, rest))
        }
        b'%' => Some((b'/', rest)),
        b':' | b'/' => None,
        byte => Some((byte, rest)),
    }
}

/// The text that a file name stands for.
pub(crate) fn unescape(alloc: Global, file: &[u8]) -> Result<Vec<u8>, KeyFault>
    ensures ok { IfOk result (λ v. file.now ≡ file_text v.items) }
    ensures err { IfErr result (λ e. FailsEscape e file.now) }
{
    let mut text = Vec::new(alloc);
    let mut rest = file;
    while !rest.is_empty() {
        let Some((byte, after)) = next_byte(rest) else {
            return Err(KeyFault::BadEscape {
                at: file.len() - rest.len(),
            });
        };
        text.push(byte)?;
        rest = after;
    }
    Ok(text)
}
