//! The entries of a block, as they are written.

ghost use Rattle.std.specs.Prelude.{◌≡◌, ℕ, ◌+◌, ◌^◌, ◌<◌, ◌≤◌, ◌++◌, List, [], ◌∷◌, length, flat_map, OnOk, OnErr};
ghost use Rattle.bl_code.specs.Numbers.{fixed32};
ghost use Rattle.bl_table.specs.Spelling.{common, entry, closed, with_trailer};
ghost use Rattle.bl_table.specs.Building.{Grows};

use crate::block::sum_of;
use crate::fault::TableErr;
use bl_code::{put_fixed32, put_varint32};

/// How many bytes two keys have in common at the front.
pub(crate) fn common_prefix(a: &[u8], b: &[u8]) -> usize
    ensures same { result ≡ common a.now b.now }
    ensures within { result ≤ length b.now }
{
    let mut n = 0;
    'bytes: while n < a.len() && n < b.len() && a[n] == b[n] {
        n += 1;
    }
    n
}

// The parts of an entry follow.
fn put_entry(out: &mut Vec<u8>, shared: usize, key: &[u8], value: &[u8]) -> Result<(), TableErr>
    requires shared { shared ≤ length key.now }
    requires key { length key.now < 2 ^ 32 }
    requires value { length value.now < 2 ^ 32 }
    ensures ok { OnOk result (out.new.items ≡ out.old.items ++ entry shared key.now value.now) }
    ensures grows { Grows out.old.items out.new.items }
{
    put_varint32(out, shared as u32)?;
    put_varint32(out, (key.len() - shared) as u32)?;
    put_varint32(out, value.len() as u32)?;
    out.extend_from_slice(&key[shared..])?;
    out.extend_from_slice(value)?;
    Ok(())
}

/// An entry follows, or nothing.
pub(crate) fn append_entry(
    out: &mut Vec<u8>,
    shared: usize,
    key: &[u8],
    value: &[u8],
) -> Result<(), TableErr>
    requires shared { shared ≤ length key.now }
    requires key { length key.now < 2 ^ 32 }
    requires value { length value.now < 2 ^ 32 }
    ensures ok { OnOk result (out.new.items ≡ out.old.items ++ entry shared key.now value.now) }
    ensures err { OnErr result (out.new.items ≡ out.old.items) }
{
    let kept = out.len();
    match put_entry(out, shared, key, value) {
        Ok(()) => Ok(()),
        Err(error) => {
            out.truncate(kept);
            Err(error)
        }
    }
}

/// The restarts and their count follow the entries of a block.
pub(crate) fn put_restarts(out: &mut Vec<u8>, restarts: &[u32]) -> Result<(), TableErr>
    requires { length restarts.now < 2 ^ 32 }
    ensures { OnOk result (out.new.items ≡ closed out.old.items restarts.now) }
{
    'restarts: for restart in restarts {
        put_fixed32(out, *restart)?;
    }
    put_fixed32(out, restarts.len() as u32)?;
    Ok(())
}

/// The trailer of a block follows, which stands from a place on.
pub(crate) fn put_trailer(out: &mut Vec<u8>, from: usize) -> Result<(), TableErr>
    requires { from ≤ length out.old.items }
    ensures { (front : List ℕ) (block : List ℕ) → length front ≡ from → out.old.items ≡ front ++ block → OnOk result (out.new.items ≡ front ++ with_trailer block) }
{
    let sum = sum_of(&out[from..], 0);
    out.push(0)?;
    put_fixed32(out, sum)?;
    Ok(())
}
