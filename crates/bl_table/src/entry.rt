//! The entries of a block, one after another.

ghost use Rattle.std.specs.Prelude.{◌≡◌, IfOk, IfSome, OnSome};
ghost use Rattle.bl_table.specs.Steps.{TakesHead, Steps, Moves};

use crate::fault::TableErr;
use bl_code::{Octets, Taker};

/// An entry of a block: where it begins in its table, the bytes of its internal key, and its value.
#[derive(Drop)]
pub struct BlockEntry {
    pub place: u64,
    pub key: Octets,
    pub value: Octets,
}

/// How many bytes an entry's key shares with the one before it, how many follow of it, and of the value.
#[derive(Clone, Copy, Drop)]
pub(crate) struct Lengths {
    pub shared: u32,
    pub unshared: u32,
    pub value: u32,
}

/// An entry that was read: where it begins in its block, how many bytes its key shares, and its value.
#[derive(Clone, Copy, Drop)]
pub(crate) struct Stepped<'a> {
    pub place: u64,
    pub shared: u32,
    pub value: &'a [u8],
}

/// Takes the lengths in front of an entry.
pub(crate) fn take_lengths(taker: &mut Taker) -> Option<Lengths>
    ensures head { TakesHead result taker.old taker.new }
    ensures moves { OnSome result (Moves 3 taker.old taker.new) }
{
    let shared = taker.take_varint32()?;
    let unshared = taker.take_varint32()?;
    let value = taker.take_varint32()?;
    Some(Lengths {
        shared,
        unshared,
        value,
    })
}

/// Reads the entry at which a taker stands, behind one of this key. Its own key is written into `key`.
pub(crate) fn next_entry<'a>(
    taker: &mut Taker<'a>,
    before: &[u8],
    key: &mut Vec<u8>,
) -> Result<Option<Stepped<'a>>, TableErr>
    ensures entry { IfOk result (λ s. Steps s before.now taker.old taker.new key.new.items) }
    ensures place { IfOk result (λ s. IfSome s (λ e. e.place ≡ taker.old.place)) }
    ensures moves { IfOk result (λ s. OnSome s (Moves 3 taker.old taker.new)) }
{
    let place = taker.place();
    let Some(lengths) = take_lengths(taker) else {
        return Ok(None);
    };
    let Some(suffix) = taker.take_bytes(u64::from(lengths.unshared)) else {
        return Ok(None);
    };
    let Some(value) = taker.take_bytes(u64::from(lengths.value)) else {
        return Ok(None);
    };
    let shared = lengths.shared as usize;
    if shared > before.len() {
        return Ok(None);
    }
    key.clear();
    key.extend_from_slice(&before[..shared])?;
    key.extend_from_slice(suffix)?;
    Ok(Some(Stepped {
        place,
        shared: lengths.shared,
        value,
    }))
}
