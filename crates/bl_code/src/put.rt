//! Numbers and slices, appended to a buffer: the fixed and varint codings of LevelDB and RocksDB.

ghost use Rattle.std.specs.Prelude.{◌≡◌, ◌<◌, ◌^◌, ◌++◌, length, OnOk, OnErr};
ghost use Rattle.bl_code.specs.Numbers.{fixed16, fixed32, fixed64, varint32, varint64, slice};

use crate::error::CodeErr;
use byteorder::{ByteOrder, LittleEndian};

// The longest spelling of a varint of 64 bits.
const VARINT_ROOM: usize = 10;

/// Appends the 2 bytes of `value`, the lowest first.
///
/// Errors: `OutOfMemory` alone, after which `to` is as it was.
#[tactic(auto, unfolding(crate::specs::Numbers::fixed16))]
pub fn put_fixed16(to: &mut Vec<u8>, value: u16) -> Result<(), CodeErr>
    ensures ok { OnOk result (to.new.items ≡ to.old.items ++ fixed16 value) }
    ensures err { OnErr result (to.new.items ≡ to.old.items) }
{
    let mut bytes = [0; 2];
    LittleEndian::write_u16(&mut bytes, value);
    to.extend_from_slice(&bytes)?;
    Ok(())
}

/// Appends the 4 bytes of `value`, the lowest first.
///
/// Errors: `OutOfMemory` alone, after which `to` is as it was.
#[tactic(auto, unfolding(crate::specs::Numbers::fixed32))]
pub fn put_fixed32(to: &mut Vec<u8>, value: u32) -> Result<(), CodeErr>
    ensures ok { OnOk result (to.new.items ≡ to.old.items ++ fixed32 value) }
    ensures err { OnErr result (to.new.items ≡ to.old.items) }
{
    let mut bytes = [0; 4];
    LittleEndian::write_u32(&mut bytes, value);
    to.extend_from_slice(&bytes)?;
    Ok(())
}

/// Appends the 8 bytes of `value`, the lowest first.
///
/// Errors: `OutOfMemory` alone, after which `to` is as it was.
#[tactic(auto, unfolding(crate::specs::Numbers::fixed64))]
pub fn put_fixed64(to: &mut Vec<u8>, value: u64) -> Result<(), CodeErr>
    ensures ok { OnOk result (to.new.items ≡ to.old.items ++ fixed64 value) }
    ensures err { OnErr result (to.new.items ≡ to.old.items) }
{
    let mut bytes = [0; 8];
    LittleEndian::write_u64(&mut bytes, value);
    to.extend_from_slice(&bytes)?;
    Ok(())
}

/// Appends the shortest varint of `value`, 1 to 5 bytes.
///
/// Errors: `OutOfMemory` alone, after which `to` is as it was.
pub fn put_varint32(to: &mut Vec<u8>, value: u32) -> Result<(), CodeErr>
    ensures ok { OnOk result (to.new.items ≡ to.old.items ++ varint32 value) }
    ensures err { OnErr result (to.new.items ≡ to.old.items) }
{
    put_varint64(to, u64::from(value))
}

/// Appends the shortest varint of `value`, 1 to 10 bytes.
///
/// Errors: `OutOfMemory` alone, after which `to` is as it was.
pub fn put_varint64(to: &mut Vec<u8>, value: u64) -> Result<(), CodeErr>
    ensures ok { OnOk result (to.new.items ≡ to.old.items ++ varint64 value) }
    ensures err { OnErr result (to.new.items ≡ to.old.items) }
{
    let mut bytes = [0; VARINT_ROOM];
    let mut used = 0;
    let mut rest = value;
    while rest >= 128 {
        bytes[used] = 128 + (rest % 128) as u8;
        rest /= 128;
        used += 1;
    }
    bytes[used] = rest as u8;
    to.extend_from_slice(&bytes[..used + 1])?;
    Ok(())
}

/// Appends the number of bytes, which is below 2^32, as a varint, and then the bytes.
///
/// Errors: `OutOfMemory` alone, after which `to` is as it was.
pub fn put_slice(to: &mut Vec<u8>, bytes: &[u8]) -> Result<(), CodeErr>
    requires { length bytes.now < 2 ^ 32 }
    ensures ok { OnOk result (to.new.items ≡ to.old.items ++ slice bytes.now) }
    ensures err { OnErr result (to.new.items ≡ to.old.items) }
{
    let before = to.len();
    put_varint32(to, bytes.len() as u32)?;
    match to.extend_from_slice(bytes) {
        Ok(()) => Ok(()),
        Err(error) => {
            to.truncate(before);
            Err(error.into())
        }
    }
}
