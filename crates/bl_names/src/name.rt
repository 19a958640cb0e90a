// Names of files.

ghost use Rattle.std.specs.Prelude.{◌≡◌, IfOk, IfSome};
ghost use Rattle.std.specs.String.{string_bytes};
ghost use Rattle.bl_names.specs.declared.name.FileName.{FileName};
ghost use Rattle.bl_names.specs.Names.{HasNumber, IsNameOf, NamesOne, TextNamesOne, name_of};

use crate::number::{manifest_number, number_before};
use std::alloc::{AllocError, Global};

/// A file of the store, by its kind and number. Numbers run from 1 to 10^15 - 1.
#[derive(Clone, Copy, Debug, PartialEq, Eq)]
pub enum FileName {
    /// `CURRENT`, which names the manifest in use.
    Current,
    /// A manifest: the log of version edits.
    Manifest(u64),
    /// A write-ahead log.
    Log(u64),
    /// A table of sorted entries.
    Table(u64),
    /// A blob file.
    Blob(u64),
    /// What becomes `CURRENT` by a rename.
    Temp(u64),
}

/// Why nothing was printed.
#[derive(Clone, Copy, Debug, PartialEq, Eq)]
pub enum NameErr {
    /// Memory ran out.
    OutOfMemory,
}

impl From<AllocError> for NameErr {
    fn from(_: AllocError) -> NameErr {
        NameErr::OutOfMemory
    }
}

/// The file of this name; None exactly for a foreign name, which is none of the store's.
///
/// A number is spelled in six digits with zeros, or in more digits without a leading zero.
pub fn parse_name(name: &str) -> Option<FileName>
    ensures found { IfSome result (IsNameOf name.now) }
    ensures all { (file : FileName) → IsNameOf name.now file → result ≡ Some file }
{
    let text = name.as_bytes();
    if text == b"CURRENT".as_slice() {
        Some(FileName::Current)
    } else if let Some(number) = manifest_number(text) {
        Some(FileName::Manifest(number))
    } else if let Some(number) = number_before(text, b".log") {
        Some(FileName::Log(number))
    } else if let Some(number) = number_before(text, b".sst") {
        Some(FileName::Table(number))
    } else if let Some(number) = number_before(text, b".blob") {
        Some(FileName::Blob(number))
    } else if let Some(number) = number_before(text, b".dbtmp") {
        Some(FileName::Temp(number))
    } else {
        None
    }
}

/// The name of this file, whose number is from 1 to 10^15 - 1.
///
/// Errors: `OutOfMemory` alone.
pub fn print_name(alloc: Global, name: &FileName) -> Result<String, NameErr>
    requires { HasNumber name.now }
    ensures { IfOk result (λ text. string_bytes text ≡ name_of name.now) }
{
    let text = match *name {
        FileName::Current => String::from_str(alloc, "CURRENT")?,
        FileName::Manifest(number) => format!(in alloc; "MANIFEST-{number:06}")?,
        FileName::Log(number) => format!(in alloc; "{number:06}.log")?,
        FileName::Table(number) => format!(in alloc; "{number:06}.sst")?,
        FileName::Blob(number) => format!(in alloc; "{number:06}.blob")?,
        FileName::Temp(number) => format!(in alloc; "{number:06}.dbtmp")?,
    };
    Ok(text)
}

/// A name is that of one file at most: so `parse_name` undoes `print_name`.
pub fn names_one()
    ensures { NamesOne }
{}

/// A text of CURRENT names one manifest at most.
pub fn text_names_one()
    ensures { TextNamesOne }
{}
