//! CRC32C (the Castagnoli polynomial of iSCSI, RFC 3720), eight bytes a step, and the mask that LevelDB
//! and RocksDB put on a stored checksum.

ghost use Rattle.std.specs.Prelude.{◌≡◌, length, bit_xor};
ghost use Rattle.bl_code.specs.Crc.{crc_byte, crc_after, crc32c as checksum, mask_of, unmask_of};

use crate::table::passed;
use std::marker::Model;

const MASK_DELTA: u32 = 0xA282_EAD8;

// The state after one more byte.
fn after_byte(state: u32, byte: u8) -> u32
    ensures { result ≡ crc_byte state byte }
{
    let [low, ..] = state.to_le_bytes();
    passed(low ^ byte, 0) ^ (state >> 8)
}

// The state after eight more bytes: each goes through the table of its own distance from the end.
fn after_eight(state: u32, bytes: &[u8]) -> u32
    requires { length bytes.now ≡ 8 }
    ensures { result ≡ crc_after state bytes.now }
{
    let [s0, s1, s2, s3] = state.to_le_bytes();
    passed(s0 ^ bytes[0], 7)
        ^ passed(s1 ^ bytes[1], 6)
        ^ passed(s2 ^ bytes[2], 5)
        ^ passed(s3 ^ bytes[3], 4)
        ^ passed(bytes[4], 3)
        ^ passed(bytes[5], 2)
        ^ passed(bytes[6], 1)
        ^ passed(bytes[7], 0)
}

// The state after more bytes.
fn after_bytes(state: u32, bytes: &[u8]) -> u32
    ensures { result ≡ crc_after state bytes.now }
{
    let mut now = state;
    let mut rest = bytes;
    while rest.len() >= 8 {
        let (eight, behind) = rest.split_at(8);
        now = after_eight(now, eight);
        rest = behind;
    }
    for byte in rest {
        now = after_byte(now, *byte);
    }
    now
}

/// A checksum that grows by pieces. Contracts see its state.
#[derive(Debug, Drop)]
pub struct Crc {
    state: u32,
}

impl Model for Crc {
    ghost use Rattle.std.specs.Prelude.{ℕ};

    ghost Value = { ℕ };

    ghost view = { λ c. c.state };
}

impl Crc {
    /// The checksum of no bytes.
    pub fn start() -> Crc
        ensures { result ≡ 0xFFFFFFFF }
    {
        Crc { state: u32::MAX }
    }

    /// The bytes join those so far.
    pub fn extend(&mut self, bytes: &[u8])
        ensures { self.new ≡ crc_after self.old bytes.now }
    {
        self.state = after_bytes(self.state, bytes);
    }

    /// The checksum of all bytes so far.
    pub fn value(&self) -> u32
        ensures { result ≡ bit_xor self.now 0xFFFFFFFF }
    {
        self.state ^ u32::MAX
    }
}

/// The checksum of these bytes.
pub fn crc32c(bytes: &[u8]) -> u32
    ensures { result ≡ checksum bytes.now }
{
    after_bytes(u32::MAX, bytes) ^ u32::MAX
}

/// A checksum as it is stored, so that a checksum of bytes that hold checksums stays strong.
pub fn mask(crc: u32) -> u32
    ensures { result ≡ mask_of crc }
{
    crc.rotate_right(15).wrapping_add(MASK_DELTA)
}

/// The checksum that was stored so.
pub fn unmask(masked: u32) -> u32
    ensures { result ≡ unmask_of masked }
{
    masked.wrapping_sub(MASK_DELTA).rotate_left(15)
}
