//! The texts of replies.

ghost use Rattle.std.specs.Prelude.{◌≡◌, ◌++◌, codes, Option, IfOk, OnOk, string_bytes};
ghost use Rattle.std.specs.Option.{option_copied};
ghost use Rattle.bl_script.specs.Printing.{escaped, value_line, pair_line, table_line, blob_line, refusal_line};

use crate::command::Refusal;
use crate::error::ScriptErr;
use crate::reply::{BlobLine, TableLine};
use percent_encoding::{AsciiSet, CONTROLS, ascii_set, percent_encode};
use std::alloc::Global;

// What is escaped, besides the bytes that are not ASCII.
const ESCAPED: AsciiSet = ascii_set!(CONTROLS.add(b' ').add(b'%'));

// The escaped bytes follow.
fn put_escaped(out: &mut String, bytes: &[u8]) -> Result<(), ScriptErr>
    ensures { OnOk result (string_bytes out.new ≡ string_bytes out.old ++ escaped bytes.now) }
{
    percent_encode(bytes, ESCAPED).append_to(out)?;
    Ok(())
}

/// The reply to `get`: `value =VALUE`, or `none`.
///
/// Errors: `OutOfMemory` alone.
pub fn print_value(alloc: Global, value: Option<&[u8]>) -> Result<String, ScriptErr>
    ensures { IfOk result (λ text. string_bytes text ≡ value_line (option_copied value.entry)) }
{
    match value {
        None => Ok(String::from_str(alloc, "none\n")?),
        Some(value) => {
            let mut out = String::with_capacity(alloc, value.len() + 8)?;
            out.push_str("value =")?;
            put_escaped(&mut out, value)?;
            out.push_str("\n")?;
            Ok(out)
        }
    }
}

/// One of the replies to `scan` follows: `pair KEY =VALUE`.
///
/// Errors: `OutOfMemory` alone; what then follows in `out` is not said.
pub fn append_pair(out: &mut String, key: &[u8], value: &[u8]) -> Result<(), ScriptErr>
    ensures { OnOk result (string_bytes out.new ≡ string_bytes out.old ++ pair_line key.now value.now) }
{
    out.push_str("pair ")?;
    put_escaped(out, key)?;
    out.push_str(" =")?;
    put_escaped(out, value)?;
    out.push_str("\n")?;
    Ok(())
}

/// One of the replies to `files` follows: `table LEVEL NUMBER SIZE OLDEST`.
///
/// Errors: `OutOfMemory` alone; what then follows in `out` is not said.
pub fn append_table(out: &mut String, table: &TableLine) -> Result<(), ScriptErr>
    ensures { OnOk result (string_bytes out.new ≡ string_bytes out.old ++ table_line table.now) }
{
    let TableLine {
        level,
        number,
        size,
        oldest,
    } = *table;
    writeln!(out, "table {level} {number} {size} {oldest}")?;
    Ok(())
}

/// One of the replies to `files` follows: `blob NUMBER total C B garbage C B linked L`.
///
/// Errors: `OutOfMemory` alone; what then follows in `out` is not said.
pub fn append_blob(out: &mut String, blob: &BlobLine) -> Result<(), ScriptErr>
    ensures { OnOk result (string_bytes out.new ≡ string_bytes out.old ++ blob_line blob.now) }
{
    let BlobLine {
        number,
        count,
        bytes,
        garbage_count,
        garbage_bytes,
        linked,
    } = *blob;
    writeln!(
        out,
        "blob {number} total {count} {bytes} garbage {garbage_count} {garbage_bytes} linked {linked}"
    )?;
    Ok(())
}

/// The reply to a line that is refused.
pub fn print_refusal(why: Refusal) -> &'static [u8]
    ensures { result.now ≡ refusal_line why }
{
    match why {
        Refusal::Long => b"refused long\n",
        Refusal::Syntax => b"refused syntax\n",
        Refusal::Key => b"refused key\n",
        Refusal::Value => b"refused value\n",
    }
}
