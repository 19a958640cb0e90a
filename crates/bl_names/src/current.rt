// The text of CURRENT.

ghost use Rattle.std.specs.Prelude.{◌≡◌, ℕ, IfOk, IfSome};
ghost use Rattle.bl_names.specs.Names.{IsNumber, IsCurrentText, current_text};

use crate::name::NameErr;
use crate::number::manifest_number;
use bl_code::Octets;
use std::alloc::Global;

/// The number of the manifest that a text of CURRENT names: `MANIFEST-`, a number as in a file's
/// name, and one newline byte. None exactly for any other text.
pub fn parse_current(bytes: &[u8]) -> Option<u64>
    ensures found { IfSome result (IsCurrentText bytes.now) }
    ensures all { (n : ℕ) → IsCurrentText bytes.now n → result ≡ Some n }
{
    let name = bytes.strip_suffix(b"\n")?;
    manifest_number(name)
}

/// The text of CURRENT that names the manifest of this number, from 1 to 10^15 - 1.
///
/// Errors: `OutOfMemory` alone.
pub fn print_current(alloc: Global, number: u64) -> Result<Octets, NameErr>
    requires { IsNumber number }
    ensures { IfOk result (λ text. text ≡ current_text number) }
{
    let text = format!(in alloc; "MANIFEST-{number:06}\n")?;
    Ok(Octets::from_vec(text.into_bytes()))
}
