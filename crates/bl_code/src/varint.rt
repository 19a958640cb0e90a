//! The varint at the front of some bytes.

ghost use Rattle.std.specs.Prelude.{◌≤◌};
ghost use Rattle.bl_code.specs.Reading.{LeadsVarint};

// The number of the varint at the front, of at most `most` bytes, and how many bytes it has.
pub(crate) fn leading_varint(bytes: &[u8], most: usize) -> Option<(u128, usize)>
    requires { most ≤ 10 }
    ensures { LeadsVarint most bytes.now result }
{
    let mut value = 0u128;
    let mut scale = 1u128;
    for i in 0..most {
        let byte = *bytes.get(i)?;
        value += u128::from(byte % 128) * scale;
        if byte < 128 {
            return Some((value, i + 1));
        }
        scale *= 128;
    }
    None
}
