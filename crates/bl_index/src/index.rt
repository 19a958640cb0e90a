//! Where a value lies in the blob files, as BlobDB stores it in place of a large value.

ghost use Rattle.std.specs.Prelude.{◌≡◌, ◌↔◌, ◌<◌, ◌^◌, Ok, IfOk, IsOkUnless};
ghost use Rattle.bl_code.specs.BlobIndex.{IsBlobIndex, blob_index};
ghost use Rattle.bl_index.specs.Index.{read_index, index_at, number_at, Reads};

use crate::error::{BadIndex, IndexErr, IndexRule};
use bl_code::{Octets, Taker, put_varint64};
use std::alloc::Global;

// The type of a blob index without expiration.
const BLOB: u8 = 1;

const NO_COMPRESSION: u8 = 0;

/// The number of a blob file, the offset in bytes of a value in it, and the value's length in bytes.
#[derive(Clone, Copy, Debug, Drop, PartialEq, Eq)]
pub struct BlobIndex {
    pub file: u64,
    pub offset: u64,
    pub size: u64,
}

/// The shortest spelling: 01, the varints of file, offset and size, and 00 for no compression.
/// `OutOfMemory` where memory runs out.
pub fn encode_index(alloc: Global, index: &BlobIndex) -> Result<Octets, IndexErr>
    ensures bytes { IfOk result (λ bytes. bytes ≡ blob_index index.now.file index.now.offset index.now.size) }
    ensures only { IsOkUnless result IndexErr.OutOfMemory }
{
    let mut bytes = Vec::new(alloc);
    bytes.push(BLOB)?;
    put_varint64(&mut bytes, index.file)?;
    put_varint64(&mut bytes, index.offset)?;
    put_varint64(&mut bytes, index.size)?;
    bytes.push(NO_COMPRESSION)?;
    Ok(Octets::from_vec(bytes))
}

/// The index that the bytes spell to their end, in any spelling of its numbers; or the first fault:
/// `Empty` at 0 where there is no byte; `Kind` at 0; `Number` at a number that is cut, or 2^64 or more;
/// `Compression` where its byte stands or is missing; `Trailing` at the first byte behind it. It takes no
/// memory.
pub fn decode_index(bytes: &[u8]) -> Result<BlobIndex, BadIndex>
    ensures accepts { (index : BlobIndex) → (result ≡ Ok index)
        ↔ IsBlobIndex bytes.now index.file index.offset index.size }
    ensures reads { result ≡ read_index bytes.now }
{
    read_to_end(Taker::over(bytes))
}

#[tactic(auto, unfolding(crate::specs::Index::index_at))]
fn read_to_end(from: Taker) -> Result<BlobIndex, BadIndex>
    ensures { result ≡ index_at from.entry }
{
    let mut taker = from;
    let start = taker.place();
    match taker.take_byte() {
        None => return fault(IndexRule::Empty, start),
        Some(BLOB) => {}
        Some(_) => return fault(IndexRule::Kind, start),
    }
    let file = take_number(&mut taker)?;
    let offset = take_number(&mut taker)?;
    let size = take_number(&mut taker)?;
    let place = taker.place();
    if taker.take_byte() != Some(NO_COMPRESSION) {
        return fault(IndexRule::Compression, place);
    }
    if taker.left() > 0 {
        return fault(IndexRule::Trailing, taker.place());
    }
    Ok(BlobIndex { file, offset, size })
}

// The next number, or the fault at its place.
fn take_number(taker: &mut Taker) -> Result<u64, BadIndex>
    ensures { Reads result taker.old taker.new (number_at taker.old) }
{
    let place = taker.place();
    match taker.take_varint64() {
        Some(number) => Ok(number),
        None => Err(BadIndex {
            rule: IndexRule::Number,
            place,
        }),
    }
}

fn fault(rule: IndexRule, place: u64) -> Result<BlobIndex, BadIndex>
    ensures { result ≡ Err (record { rule = rule; place = place }) }
{
    Err(BadIndex { rule, place })
}

/// What is spelled is read again.
pub fn index_is_read_again()
    ensures { (index : BlobIndex) → index.file < 2 ^ 64 → index.offset < 2 ^ 64 → index.size < 2 ^ 64
        → read_index (blob_index index.file index.offset index.size) ≡ Ok index }
{}
