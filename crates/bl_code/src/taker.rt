//! Numbers and slices, taken from the front of some bytes.

ghost use Rattle.std.specs.Prelude.{◌≡◌, ◌+◌, ◌≤◌, length, drop};
ghost use Rattle.std.specs.Option.{option_copied};
ghost use Rattle.bl_code.specs.Reading.{Takes, from_start, take_byte, take_bytes, take_fixed16, take_fixed32, take_fixed64, take_slice, take_varint32, take_varint64};

use crate::varint::leading_varint;
use byteorder::{ByteOrder, LittleEndian};
use std::marker::Model;

/// A reader of bytes from left to right. Contracts see the place where it stands and the bytes that
/// are left. A call that answers None has not moved it.
#[derive(Debug, Drop)]
pub struct Taker<'a> {
    place: u64,
    left: &'a [u8],
}

impl<'a> Model for Taker<'a> {
    ghost use Rattle.std.specs.Prelude.{◌+◌, ◌<◌, ◌^◌, length};
    ghost use Rattle.bl_code.specs.Reading.{Input};

    ghost Value = { Input };

    ghost view = { λ t. record { place = t.place; left = t.left.now } };

    ghost invariant = { λ t. t.place + length t.left.now < 2 ^ 64 };
}

impl<'a> Taker<'a> {
    /// Stands at place 0, before the first of these bytes.
    pub fn over(bytes: &'a [u8]) -> Taker<'a>
        ensures { result ≡ from_start bytes.entry.now }
    {
        Taker {
            place: 0,
            left: bytes,
        }
    }

    /// How many bytes were taken.
    pub fn place(&self) -> u64
        ensures { result ≡ self.now.place }
    {
        self.place
    }

    /// How many bytes are left.
    pub fn left(&self) -> u64
        ensures { result ≡ length self.now.left }
    {
        self.left.len() as u64
    }

    /// The next `n` bytes; None where fewer are left.
    pub fn take_bytes(&mut self, n: u64) -> Option<&'a [u8]>
        ensures { Takes (option_copied result) self.old self.new (take_bytes n self.old) }
    {
        if n > self.left.len() as u64 {
            return None;
        }
        let (front, back) = self.left.split_at(n as usize);
        self.place += n;
        self.left = back;
        Some(front)
    }

    /// The next byte; None where none is left.
    pub fn take_byte(&mut self) -> Option<u8>
        ensures { Takes result self.old self.new (take_byte self.old) }
    {
        let (first, back) = self.left.split_first()?;
        self.place += 1;
        self.left = back;
        Some(*first)
    }

    /// The number in the next 2 bytes, the lowest first; None where fewer are left.
    pub fn take_fixed16(&mut self) -> Option<u16>
        ensures { Takes result self.old self.new (take_fixed16 self.old) }
    {
        let bytes = self.take_bytes(2)?;
        Some(LittleEndian::read_u16(bytes))
    }

    /// The number in the next 4 bytes, the lowest first; None where fewer are left.
    pub fn take_fixed32(&mut self) -> Option<u32>
        ensures { Takes result self.old self.new (take_fixed32 self.old) }
    {
        let bytes = self.take_bytes(4)?;
        Some(LittleEndian::read_u32(bytes))
    }

    /// The number in the next 8 bytes, the lowest first; None where fewer are left.
    pub fn take_fixed64(&mut self) -> Option<u64>
        ensures { Takes result self.old self.new (take_fixed64 self.old) }
    {
        let bytes = self.take_bytes(8)?;
        Some(LittleEndian::read_u64(bytes))
    }

    /// The number of a varint of at most 5 bytes; None where none stands there or the number is 2^32
    /// or more.
    pub fn take_varint32(&mut self) -> Option<u32>
        ensures { Takes result self.old self.new (take_varint32 self.old) }
    {
        let (value, size) = leading_varint(self.left, 5)?;
        let value = u32::try_from(value).ok()?;
        self.pass(size);
        Some(value)
    }

    /// The number of a varint of at most 10 bytes; None where none stands there or the number is 2^64
    /// or more.
    pub fn take_varint64(&mut self) -> Option<u64>
        ensures { Takes result self.old self.new (take_varint64 self.old) }
    {
        let (value, size) = leading_varint(self.left, 10)?;
        let value = u64::try_from(value).ok()?;
        self.pass(size);
        Some(value)
    }

    /// A length, a varint of 32 bits, and that many bytes, which are given; None where no length
    /// stands there or fewer bytes are left.
    pub fn take_slice(&mut self) -> Option<&'a [u8]>
        ensures { Takes (option_copied result) self.old self.new (take_slice self.old) }
    {
        let mut ahead = Taker {
            place: self.place,
            left: self.left,
        };
        let size = ahead.take_varint32()?;
        let bytes = ahead.take_bytes(u64::from(size))?;
        *self = ahead;
        Some(bytes)
    }

    // Moves over the next `size` bytes.
    fn pass(&mut self, size: usize)
        requires { size ≤ length self.old.left }
        ensures place { self.new.place ≡ self.old.place + size }
        ensures left { self.new.left ≡ drop size self.old.left }
    {
        self.place += size as u64;
        self.left = &self.left[size..];
    }
}
