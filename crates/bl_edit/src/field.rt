//! The fields of an edit, read where they lie.

ghost use Rattle.std.specs.Prelude.{◌≡◌, IfSome};
ghost use Rattle.bl_code.specs.Reading.{take_varint64};
ghost use Rattle.bl_edit.specs.Options.{IsBetween};
ghost use Rattle.bl_edit.specs.Bounds.{is_key as key_test, is_level as level_test, is_number as number_test, is_seq, table_fits};
ghost use Rattle.bl_edit.specs.Reading.{addition_at, behind_customs, between, comparator_at, counts_at, custom_of, deleted_at, field_at, file_in as file_test, garbage_at, is_required as required_test, oldest_at, only_if, options_at, passed_at, table_at, values_at, values_in};
ghost use Rattle.bl_edit.specs.Found.{Finds, FindsBehind, behind_of, field_of, same, table_of};

use crate::edit::{BlobAddition, BlobGarbage, DeletedTable};
use crate::options::Options;
use crate::tag;
use bl_code::{MAX_KEY, Taker};
use byteorder::{ByteOrder, LittleEndian};

const MAX_SIZE: u64 = 1 << 40;

const MAX_NUMBER: u64 = 999_999_999_999_999;

const MAX_SEQUENCE: u64 = (1 << 56) - 1;

const MAX_LEVEL: u32 = 6;

// The bytes of an internal key behind the user key.
const NUMBER_BYTES: usize = 8;

const MAX_KEY_BYTES: usize = MAX_KEY + NUMBER_BYTES;

/// A new table as its field has it.
#[derive(Clone, Copy, Drop)]
pub(crate) struct TableField<'a> {
    pub level: u32,
    pub number: u64,
    pub size: u64,
    pub smallest: &'a [u8],
    pub largest: &'a [u8],
    pub least_seq: u64,
    pub most_seq: u64,
    pub oldest_blob: u64,
}

#[derive(Clone, Copy, Drop)]
pub(crate) enum Field<'a> {
    Comparator,
    LogNumber(u64),
    NextFile(u64),
    LastSequence(u64),
    Fixed(Options),
    Deleted(DeletedTable),
    Added(TableField<'a>),
    Blob(BlobAddition),
    Garbage(BlobGarbage),
    // An unknown field that may be passed over.
    Passed,
}

/// The content of a field of this tag; None where it is none.
#[tactic(auto, unfolding(crate::specs::Reading::field_at))]
pub(crate) fn take_field<'a>(tag: u32, taker: &mut Taker<'a>) -> Option<Field<'a>>
    ensures { Finds field_of result taker.new (field_at tag taker.old) }
{
    match tag {
        tag::COMPARATOR => {
            take_comparator(taker)?;
            Some(Field::Comparator)
        }
        tag::LOG_NUMBER => Some(Field::LogNumber(taker.take_varint64()?)),
        tag::NEXT_FILE => Some(Field::NextFile(taker.take_varint64()?)),
        tag::LAST_SEQUENCE => Some(Field::LastSequence(take_sequence(taker)?)),
        tag::DELETED => Some(Field::Deleted(take_deleted(taker)?)),
        tag::ADDED => Some(Field::Added(take_table(taker)?)),
        tag::BLOB => Some(Field::Blob(take_blob(taker)?)),
        tag::GARBAGE => Some(Field::Garbage(take_garbage(taker)?)),
        tag::OPTIONS => Some(Field::Fixed(take_options(taker)?)),
        _ => {
            take_unknown(tag, taker)?;
            Some(Field::Passed)
        }
    }
}

fn take_unknown(tag: u32, taker: &mut Taker) -> Option<()>
    ensures { FindsBehind result taker.new (behind_of (passed_at tag taker.old)) }
{
    if tag / tag::PASSED_BIT % 2 == 0 {
        return None;
    }
    taker.take_slice()?;
    Some(())
}

fn take_comparator(taker: &mut Taker) -> Option<()>
    ensures { FindsBehind result taker.new (behind_of (comparator_at taker.old)) }
{
    if taker.take_slice()? == tag::COMPARATOR_NAME {
        Some(())
    } else {
        None
    }
}

fn take_sequence(taker: &mut Taker) -> Option<u64>
    ensures { Finds same result taker.new (only_if is_seq (take_varint64 taker.old)) }
{
    let sequence = taker.take_varint64()?;
    if sequence <= MAX_SEQUENCE {
        Some(sequence)
    } else {
        None
    }
}

// ---- options

fn take_options(taker: &mut Taker) -> Option<Options>
    ensures { Finds same result taker.new (options_at taker.old) }
{
    let content = taker.take_slice()?;
    options_in(content)
}

fn options_in(content: &[u8]) -> Option<Options>
    ensures { result ≡ values_in content.now }
{
    let mut taker = Taker::over(content);
    let options = take_values(&mut taker)?;
    if taker.left() > 0 {
        return None;
    }
    Some(options)
}

#[tactic(auto, unfolding(crate::specs::Reading::values_at))]
fn take_values(taker: &mut Taker) -> Option<Options>
    ensures { Finds same result taker.new (values_at taker.old) }
{
    Some(Options {
        min_blob_size: take_between(taker, 0, 1 << 32)?,
        blob_file_size: take_between(taker, 1, MAX_SIZE)?,
        write_buffer: take_between(taker, 1, MAX_SIZE)?,
        table_size: take_between(taker, 1, MAX_SIZE)?,
        level0_trigger: take_between(taker, 1, 1000)?,
        level_base: take_between(taker, 1, MAX_SIZE)?,
        level_factor: take_between(taker, 2, 20)?,
        age_cutoff: take_between(taker, 0, 100)?,
        force_threshold: take_between(taker, 1, 100)?,
    })
}

fn take_between(taker: &mut Taker, low: u64, high: u64) -> Option<u64>
    ensures number { Finds same result taker.new (between low high taker.old) }
    ensures range { IfSome result (λ n. IsBetween low high n) }
{
    let number = taker.take_varint64()?;
    if low <= number && number <= high {
        Some(number)
    } else {
        None
    }
}

// ---- tables

#[tactic(auto, unfolding(crate::specs::Reading::deleted_at))]
fn take_deleted(taker: &mut Taker) -> Option<DeletedTable>
    ensures { Finds same result taker.new (deleted_at taker.old) }
{
    let level = taker.take_varint32()?;
    let number = taker.take_varint64()?;
    if is_level(level) && is_number(number) {
        Some(DeletedTable { level, number })
    } else {
        None
    }
}

#[tactic(auto, unfolding(crate::specs::Reading::table_at))]
fn take_table<'a>(taker: &mut Taker<'a>) -> Option<TableField<'a>>
    ensures { Finds table_of result taker.new (table_at taker.old) }
{
    let level = taker.take_varint32()?;
    let number = taker.take_varint64()?;
    let size = taker.take_varint64()?;
    let smallest = taker.take_slice()?;
    let largest = taker.take_slice()?;
    let least_seq = taker.take_varint64()?;
    let most_seq = taker.take_varint64()?;
    let oldest_blob = take_oldest(taker)?;
    let table = TableField {
        level,
        number,
        size,
        smallest,
        largest,
        least_seq,
        most_seq,
        oldest_blob,
    };
    if table.fits() { Some(table) } else { None }
}

impl TableField<'_> {
    fn fits(&self) -> bool
        ensures { result ≡ table_fits (table_of self.now) }
    {
        is_level(self.level)
            && is_number(self.number)
            && is_key(self.smallest)
            && is_key(self.largest)
            && self.least_seq <= MAX_SEQUENCE
            && self.most_seq <= MAX_SEQUENCE
            && (self.oldest_blob == 0 || is_number(self.oldest_blob))
    }
}

fn is_level(level: u32) -> bool
    ensures { result ≡ level_test level }
{
    level <= MAX_LEVEL
}

fn is_number(number: u64) -> bool
    ensures { result ≡ number_test number }
{
    1 <= number && number <= MAX_NUMBER
}

fn is_key(key: &[u8]) -> bool
    ensures { result ≡ key_test key.now }
{
    if key.len() <= NUMBER_BYTES || key.len() > MAX_KEY_BYTES {
        return false;
    }
    let number = LittleEndian::read_u64(&key[key.len() - NUMBER_BYTES..]);
    matches!(number % 256, 0 | 1 | 0x11)
}

// The custom fields of a table, up to their end: the number of its oldest blob file, or 0.
fn take_oldest(taker: &mut Taker) -> Option<u64>
    ensures { Finds same result taker.new (oldest_at taker.old) }
{
    let mut oldest = 0;
    loop {
        let tag = taker.take_varint32()?;
        if tag == tag::TABLE_END {
            return Some(oldest);
        }
        let content = taker.take_slice()?;
        oldest = custom(oldest, tag, content)?;
    }
}

// What a custom field makes of the oldest blob file that is known before it.
fn custom(oldest: u64, tag: u32, content: &[u8]) -> Option<u64>
    ensures { result ≡ custom_of oldest tag content.now }
{
    if tag == tag::OLDEST_BLOB {
        file_in(content)
    } else if is_required(tag) {
        None
    } else {
        Some(oldest)
    }
}

fn is_required(tag: u32) -> bool
    ensures { result ≡ required_test tag }
{
    tag / tag::REQUIRED_BIT % 2 == 1
}

fn file_in(content: &[u8]) -> Option<u64>
    ensures { result ≡ file_test content.now }
{
    let mut taker = Taker::over(content);
    let number = taker.take_varint64()?;
    if is_number(number) && taker.left() == 0 {
        Some(number)
    } else {
        None
    }
}

// ---- blob files

#[tactic(auto, unfolding(crate::specs::Reading::addition_at))]
fn take_blob(taker: &mut Taker) -> Option<BlobAddition>
    ensures { Finds same result taker.new (addition_at taker.old) }
{
    let (number, count, bytes) = take_counts(taker)?;
    // Method and value of a checksum that this store does not take.
    taker.take_slice()?;
    taker.take_slice()?;
    pass_customs(taker)?;
    if is_number(number) {
        Some(BlobAddition {
            number,
            count,
            bytes,
        })
    } else {
        None
    }
}

#[tactic(auto, unfolding(crate::specs::Reading::garbage_at))]
fn take_garbage(taker: &mut Taker) -> Option<BlobGarbage>
    ensures { Finds same result taker.new (garbage_at taker.old) }
{
    let (number, count, bytes) = take_counts(taker)?;
    pass_customs(taker)?;
    if is_number(number) {
        Some(BlobGarbage {
            number,
            count,
            bytes,
        })
    } else {
        None
    }
}

fn take_counts(taker: &mut Taker) -> Option<(u64, u64, u64)>
    ensures { Finds same result taker.new (counts_at taker.old) }
{
    let number = taker.take_varint64()?;
    let count = taker.take_varint64()?;
    let bytes = taker.take_varint64()?;
    Some((number, count, bytes))
}

// Moves over the custom fields of a blob file, up to their end.
fn pass_customs(taker: &mut Taker) -> Option<()>
    ensures { FindsBehind result taker.new (behind_customs taker.old) }
{
    loop {
        let tag = taker.take_varint32()?;
        if tag == tag::BLOB_END {
            return Some(());
        }
        taker.take_slice()?;
        if is_required(tag) {
            return None;
        }
    }
}
