//! The order of internal keys.

ghost use Rattle.std.specs.Prelude.{◌≡◌, ◌≤◌, length};
ghost use Rattle.bl_code.specs.Order.{key_order as order_of_keys};

use byteorder::{ByteOrder, LittleEndian};
use std::cmp::Ordering;

// The bytes of an internal key behind the user key: a fixed64 of sequence and kind.
const NUMBER_BYTES: usize = 8;

/// The order of two internal keys, as RocksDB's internal comparator has it: user keys ascend by bytes,
/// and for one user key the numbers behind it descend, so the newest stands first. Each key has at least
/// the 8 bytes of its number.
pub fn key_order(a: &[u8], b: &[u8]) -> Ordering
    requires first { 8 ≤ length a.now }
    requires second { 8 ≤ length b.now }
    ensures { result ≡ order_of_keys a.now b.now }
{
    let (user_a, number_a) = a.split_at(a.len() - NUMBER_BYTES);
    let (user_b, number_b) = b.split_at(b.len() - NUMBER_BYTES);
    let numbers = LittleEndian::read_u64(number_b).cmp(&LittleEndian::read_u64(number_a));
    user_a.cmp(user_b).then(numbers)
}
