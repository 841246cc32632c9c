//! The row of a key at a repository.

ghost use Rattle.std.specs.Prelude.{◌≡◌, ◌++◌, OnOk};
ghost use Rattle.shown_text.specs.Row.{found_text, hold_text, kept_text, row_text};

use annex_base::{NoMemory, put_number};
use run_data::{HoldView, RowView, Run};
use run_text::{ItemWords, put_joined, put_key, put_name, put_number_or_dash};
use script_commands::NamedKey;
use std::alloc::AllocError;

/// Adds the row of a key at a repository.
pub fn put_row(
    out: &mut Vec<u8>,
    run: &Run,
    repo: u32,
    key: &NamedKey,
    row: &RowView,
) -> Result<(), NoMemory>
    ensures { OnOk result (out.new.items ≡ out.old.items ++ row_text run.now repo key.now row.now) }
{
    out.extend_from_slice(b"row ")?;
    put_name(out, run.repos.as_slice(), repo)?;
    out.push(b' ')?;
    put_key(out, &key.key, &key.path)?;
    out.push(b' ')?;
    put_found(out, row)?;
    out.push(b'\n')?;
    Ok(())
}

/// Adds what stands behind the key in its row: the content, its bar and the holds that block.
pub fn put_found(out: &mut Vec<u8>, row: &RowView) -> Result<(), AllocError>
    ensures { OnOk result (out.new.items ≡ out.old.items ++ found_text row.now) }
{
    if row.present {
        out.extend_from_slice(b"present bar=")?;
        put_number_or_dash(out, row.bar.map(u64::from))?;
        out.extend_from_slice(b" holds=")?;
        put_joined(out, b',', &HoldWords, row.holds.as_slice())?;
    } else {
        out.extend_from_slice(b"absent")?;
    }
    Ok(())
}

/// Holds, each with its end and whether it is kept.
#[derive(Clone, Copy)]
struct HoldWords;

impl ItemWords<HoldView> for HoldWords {
    ghost use Rattle.shown_text.specs.Row.{hold_text};

    ghost word_of = { λ _ hold. hold_text hold };

    fn put(&self, out: &mut Vec<u8>, item: &HoldView) -> Result<(), AllocError> {
        put_hold(out, *item)
    }
}

fn put_hold(out: &mut Vec<u8>, hold: HoldView) -> Result<(), AllocError>
    ensures { OnOk result (out.new.items ≡ out.old.items ++ hold_text hold) }
{
    put_number(out, hold.end)?;
    out.extend_from_slice(kept_word(hold.kept))?;
    Ok(())
}

fn kept_word(kept: bool) -> &'static [u8]
    ensures { result.now ≡ kept_text kept }
{
    if kept { b":kept" } else { b":open" }
}
