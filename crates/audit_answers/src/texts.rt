//! The texts of an audit.
ghost use Rattle.std.specs.Prelude.{◌≡◌, ◌++◌, ◌<◌, ◌^◌, length, IfOk, OnOk};
ghost use Rattle.std.specs.Fmt.{decimal};
ghost use Rattle.std.specs.List.{flat_map};
ghost use Rattle.audit_answers.specs.Texts.{all_removals, audit_text, key_line, outside_text, refusal_text};

use annex_base::{NoMemory, put_number};
use run_audit::KeyAudit;
use run_data::RowView;
use run_text::put_key;
use shown_text::put_found;
use std::alloc::Global;

fn put_field(out: &mut Vec<u8>, name: &str, number: u64) -> Result<(), NoMemory>
    ensures { OnOk result (out.new.items ≡ out.old.items ++ name.now ++ decimal number) }
{
    out.extend_from_slice(name.as_bytes())?;
    put_number(out, number)?;
    Ok(())
}

fn put_key_line(out: &mut Vec<u8>, key: &KeyAudit) -> Result<(), NoMemory>
    ensures { OnOk result (out.new.items ≡ out.old.items ++ key_line key.now) }
{
    out.extend_from_slice(b"key ")?;
    put_key(out, &key.key, &None)?;
    put_field(out, " removals=", u64::from(key.removals))?;
    put_field(out, " least=", u64::from(key.least))?;
    put_field(out, " mincopies=", u64::from(key.mincopies))?;
    out.push(b'\n')?;
    Ok(())
}

fn put_keys(out: &mut Vec<u8>, keys: &[KeyAudit]) -> Result<(), NoMemory>
    ensures { OnOk result (out.new.items ≡ out.old.items ++ flat_map key_line keys.now) }
{
    for key in keys {
        put_key_line(out, key)?;
    }
    Ok(())
}

/// How many removals there are of these keys.
fn all_removals(keys: &[KeyAudit]) -> u64
    requires { length keys.now < 2 ^ 32 }
    ensures { result ≡ all_removals keys.now }
{
    let mut count = 0;
    for key in keys {
        count += u64::from(key.removals);
    }
    count
}

/// The lines of keys, and then how many entries and removals there are.
pub(crate) fn audit_text(
    alloc: Global,
    keys: &[KeyAudit],
    entries: u64,
) -> Result<Vec<u8>, NoMemory>
    requires { length keys.now < 2 ^ 32 }
    ensures { IfOk result (λ text. text.items ≡ audit_text keys.now entries) }
{
    let mut text = Vec::new(alloc);
    put_keys(&mut text, keys)?;
    put_field(&mut text, "audit entries=", entries)?;
    put_field(&mut text, " removals=", all_removals(keys))?;
    text.push(b'\n')?;
    Ok(text)
}

/// The line that names an entry, with the rule that it breaks and the row that it found.
pub(crate) fn refusal_text(
    alloc: Global,
    entry: u64,
    rule: u32,
    found: &RowView,
) -> Result<Vec<u8>, NoMemory>
    ensures { IfOk result (λ text. text.items ≡ refusal_text entry rule found.now) }
{
    let mut text = Vec::new(alloc);
    put_field(&mut text, "not a run entry=", entry)?;
    put_field(&mut text, " rule=", u64::from(rule))?;
    text.extend_from_slice(b" found=")?;
    put_found(&mut text, found)?;
    text.push(b'\n')?;
    Ok(text)
}

/// The line that names the first line outside the format.
pub(crate) fn outside_text(alloc: Global, line: u64) -> Result<Vec<u8>, NoMemory>
    ensures { IfOk result (λ text. text.items ≡ outside_text line) }
{
    let mut text = Vec::new(alloc);
    put_field(&mut text, "input line ", line)?;
    text.push(b'\n')?;
    Ok(text)
}
