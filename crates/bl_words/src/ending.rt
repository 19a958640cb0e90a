//! The lines that end a run.

ghost use Rattle.std.specs.Prelude.{◌≡◌, IfOk, string_bytes};
ghost use Rattle.bl_words.specs.Ending.{corrupt_line, differ_line, full_line};

use crate::options::option_name;
use std::alloc::{AllocError, Global};

/// The line of a damaged file: `error corrupt NAME PLACE`.
pub fn print_corrupt(alloc: Global, name: &[u8], place: u64) -> Result<Vec<u8>, AllocError>
    ensures { IfOk result (λ line. line.items ≡ corrupt_line name.now place) }
{
    let mut line = Vec::from_slice(alloc, b"error corrupt ")?;
    line.extend_from_slice(name)?;
    let place = format!(in alloc; " {place}\n")?;
    line.extend_from_slice(place.as_bytes())?;
    Ok(line)
}

/// The line of a limit: `error full NUMBER`.
pub fn print_full(alloc: Global, number: u64) -> Result<String, AllocError>
    ensures { IfOk result (λ line. string_bytes line ≡ full_line number) }
{
    format!(in alloc; "error full {number}\n")
}

/// The line of a word that asks for another value than the folder's: `error differ OPTION STORED ASKED`.
pub fn print_differ(
    alloc: Global,
    option: u8,
    stored: u64,
    asked: u64,
) -> Result<String, AllocError>
    ensures { IfOk result (λ line. string_bytes line ≡ differ_line option stored asked) }
{
    let mut line = String::from_str(alloc, "error differ ")?;
    line.push_str(option_name(option))?;
    let values = format!(in alloc; " {stored} {asked}\n")?;
    line.push_str(values.as_str())?;
    Ok(line)
}
