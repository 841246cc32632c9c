//! How answers are written.

use crate::fault::TableFault;
use std::alloc::Global;

/// Adds `yes` or `no`.
pub fn put_truth(out: &mut String, is_so: bool) -> Result<(), TableFault> {
    out.push_str(if is_so { "yes" } else { "no" })?;
    Ok(())
}

/// Adds the bytes where they are a text; else `hex` and their hexadecimal digits.
pub fn put_bytes(out: &mut String, alloc: Global, bytes: &[u8]) -> Result<(), TableFault> {
    match str::from_utf8(bytes) {
        Ok(text) => out.push_str(text)?,
        Err(_) => {
            out.push_str("hex ")?;
            out.push_str(&hex::encode(alloc, bytes)?)?;
        }
    }
    Ok(())
}
