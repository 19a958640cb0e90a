//! The bytes that a word stands for.

ghost use Rattle.std.specs.Prelude.{◌≡◌, ℕ, ◌<◌, ◌≤◌, ◌∷◌, ◌++◌, length, take, drop, IfOk, MatchOption};
ghost use Rattle.percent_encoding.specs.Percent.{percent_decode as decoded, KeepsFirst};

use crate::error::ScriptErr;
use bl_code::Octets;
use memchr::memchr;
use std::alloc::Global;

// The byte of the escape that the bytes begin with, if they begin with one: `%` and two hexadecimal digits.
fn escaped_byte(bytes: &[u8]) -> Option<u8>
    ensures { MatchOption result (KeepsFirst bytes.now) (λ byte. (3 ≤ length bytes.now) × (decoded bytes.now ≡ byte ∷ decoded (drop 3 bytes.now))) }
{
    let [b'%', high, low, ..] = bytes else {
        return None;
    };
    let high = char::from(*high).to_digit(16)?;
    let low = char::from(*low).to_digit(16)?;
    Some(high as u8 * 16 + low as u8)
}

// The byte that the bytes begin with, and how many of them stand for it.
fn first_byte(bytes: &[u8]) -> (u8, usize)
    requires { 0 < length bytes.now }
    ensures size { (0 < result.1) × (result.1 ≤ length bytes.now) }
    ensures first { decoded bytes.now ≡ result.0 ∷ decoded (drop result.1 bytes.now) }
{
    match escaped_byte(bytes) {
        Some(byte) => (byte, 3),
        None => (bytes[0], 1),
    }
}

// The first `%`, up to which the word stands for itself.
fn first_percent(word: &[u8]) -> Option<usize>
    ensures { MatchOption result (decoded word.now ≡ word.now) (λ at. (at < length word.now) × (decoded word.now ≡ take at word.now ++ decoded (drop at word.now))) }
{
    memchr(b'%', word)
}

// The bytes that a word stands for. What lies between its escapes is copied at once.
pub(crate) fn decode(alloc: Global, word: &[u8]) -> Result<Octets, ScriptErr>
    ensures { IfOk result (λ octets. octets ≡ decoded word.now) }
{
    let mut bytes = Vec::with_capacity(alloc, word.len())?;
    let mut rest = word;
    'escapes: while let Some(at) = first_percent(rest) {
        let (before, escape) = rest.split_at(at);
        bytes.extend_from_slice(before)?;
        let (byte, size) = first_byte(escape);
        bytes.push(byte)?;
        rest = &escape[size..];
    }
    bytes.extend_from_slice(rest)?;
    Ok(Octets::from_vec(bytes))
}
