//! Files from texts and from entries, and what a refusal says.

use bl_code::Octets;
use bl_entry::{InternalKey, Kind, RunErr, encode_key};
use bl_table::TableBuilder;
use std::alloc::Global;
use std::str;
use std::test::Fail;

/// A table of the key `a`, whose value is in the blob file 5.
pub(crate) const TABLE: &str = "
    00 09 05 61 11 01 00 00 00 00 00 00 01 05 3F 03 00 00 00 00 00 01 00 00 00 00 5B 41 DC 58
    00 00 00 00 01 00 00 00 00 C0 F2 A1 B0
    00 09 02 61 11 01 00 00 00 00 00 00 00 19 00 00 00 00 01 00 00 00 00 CE DB EA 86
    1E 08 2B 16 00 00 00 00 00 00 00 00 00 00 00 00 00 00 00 00 00 00 00 00 00 00 00 00 00 00 00 00
    00 00 00 00 00 00 00 00 57 FB 80 8B 24 75 47 DB";

/// The blob file: the value `xyz` of the key `a`.
pub(crate) const BLOB: &str = "
    37 8F 24 00 01 00 00 00 00 00 00 00 00 00 00 00 00 00 00 00 00 00 00 00 00 00 00 00 00 00
    01 00 00 00 00 00 00 00 03 00 00 00 00 00 00 00 00 00 00 00 00 00 00 00 70 45 A9 3F A4 44 5C 66 61 78 79 7A
    37 8F 24 00 01 00 00 00 00 00 00 00 00 00 00 00 00 00 00 00 00 00 00 00 00 00 00 00 FB 71 4A E8";

fn digit_of(letter: u8) -> Option<u8> {
    match letter {
        b'0'..=b'9' => Some(letter - b'0'),
        b'A'..=b'F' => Some(letter - b'A' + 10),
        _ => None,
    }
}

/// The bytes that hexadecimal digits spell; all else in the text is passed over.
pub(crate) fn bytes_of(alloc: Global, text: &str) -> Result<Vec<u8>, Fail> {
    let mut bytes = Vec::new(alloc);
    let mut high: Option<u8> = None;
    for letter in text.as_bytes() {
        if let Some(low) = digit_of(*letter) {
            high = match high {
                Some(high) => {
                    bytes.push(high << 4 | low)?;
                    None
                }
                None => Some(low),
            };
        }
    }
    Ok(bytes)
}

/// What is written in a table: user key, sequence, kind and value.
pub(crate) type Written = (&'static str, u64, Kind, &'static str);

/// A key, which has a byte and few of them.
pub(crate) fn key_of(alloc: Global, user: &str, seq: u64, kind: Kind) -> Result<InternalKey, Fail> {
    if user.is_empty() || user.len() > 100 || seq >> 56 != 0 {
        return Err(Fail::from("no key"));
    }
    let user = Octets::from_slice(alloc, user.as_bytes())?;
    Ok(InternalKey { user, seq, kind })
}

/// The table of these entries, whose values are short.
pub(crate) fn table_of(alloc: Global, entries: &[Written]) -> Result<Vec<u8>, Fail> {
    let mut builder = TableBuilder::start(alloc);
    let mut bytes = Vec::new(alloc);
    for &(user, seq, kind, value) in entries {
        let key = encode_key(alloc, &key_of(alloc, user, seq, kind)?)?;
        if key.as_slice().len() > 200 || value.len() > 200 {
            return Err(Fail::from("too long"));
        }
        let piece = builder.add(key.as_slice(), value.as_bytes())?;
        bytes.extend_from_slice(piece.as_slice())?;
    }
    bytes.extend_from_slice(builder.finish()?.as_slice())?;
    Ok(bytes)
}

/// What a refusal says.
pub(crate) fn text_of(alloc: Global, error: &RunErr) -> Result<String, Fail> {
    match error {
        RunErr::Disk => Ok(String::from_str(alloc, "disk")?),
        RunErr::Corrupt(name, place) => {
            let name = str::from_utf8(name.as_slice())?;
            Ok(format!(in alloc; "corrupt {name} {place}")?)
        }
        RunErr::OutOfMemory => Ok(String::from_str(alloc, "memory")?),
    }
}
