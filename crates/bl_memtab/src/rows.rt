//! The entries in rows of bounded length, one row behind the other: an entry that is inserted moves those of
//! its row alone, and a row that is full becomes two. Entries that come in key order, or in the opposite one,
//! leave full rows.

ghost use Rattle.std.specs.Prelude.{◌≡◌, ◌<◌, ◌≤◌, [], find, not, length, OnOk, OnErr};
ghost use Rattle.std.specs.List.{prefix_len};
ghost use Rattle.std.specs.Option.{option_copied};
ghost use Rattle.bl_entry.specs.Entries.{IsAscending};
ghost use Rattle.bl_entry.specs.Keys.{key_number};
ghost use Rattle.bl_entry.specs.Latest.{latest as latest_in};
ghost use Rattle.bl_memtab.specs.Rows.{AreRows, before, entries_in, ends, home, if_of_user, is_before, row_at};
ghost use Rattle.bl_memtab.specs.Tables.{IsFree, with_entry, after as after_in};

use bl_entry::{Entry, EntryErr, InternalKey, keys_are_read};
use std::alloc::Global;
use std::marker::Model;

// The length at which a row becomes two.
const FULL: usize = 256;

// A full row is cut at the place of its next entry where this is so near to an end, and else in the middle.
const NEAR: usize = 16;

// The greatest number that a kind may have.
const LAST_KIND: u128 = 255;

/// Entries, with strictly ascending keys. Contracts see the list of them.
#[derive(Drop)]
pub(crate) struct Rows {
    alloc: Global,
    rows: Vec<Vec<Entry>>,
}

impl Model for Rows {
    ghost use Rattle.std.specs.Prelude.{List};
    ghost use Rattle.bl_entry.specs.declared.key.Entry.{Entry};

    ghost Value = { List Entry };

    ghost use Rattle.bl_memtab.specs.Rows.{AreRows, entries_in};

    ghost view = { λ r. entries_in r.rows.items };

    ghost invariant = { λ r. AreRows r.rows.items };
}

impl Rows {
    /// No entry.
    pub(crate) fn start(alloc: Global) -> Rows
        ensures { result ≡ [] }
    {
        Rows {
            alloc,
            rows: Vec::new(alloc),
        }
    }

    /// The entry takes its place.
    ///
    /// Errors: `OutOfMemory` alone; the list is as it was.
    pub(crate) fn insert(&mut self, entry: Entry) -> Result<(), EntryErr>
        requires { IsFree entry.key self.old }
        ensures ok { OnOk result (self.new ≡ with_entry entry self.old) }
        ensures err { OnErr result (self.new ≡ self.old) }
    {
        insert(self.alloc, &mut self.rows, entry)
    }

    /// The first entry of a user key up to a sequence.
    pub(crate) fn latest(&self, key: &[u8], seq: u64) -> Option<&Entry>
        ensures { option_copied result ≡ latest_in key.now seq self.now }
    {
        latest_of(&self.rows, key, seq)
    }

    /// The first entry at a key or behind it or, where `strict`, only behind it.
    pub(crate) fn after(&self, from: &InternalKey, strict: bool) -> Option<&Entry>
        ensures { option_copied result ≡ after_in from.now strict self.now }
    {
        after_of(&self.rows, from, strict)
    }

    /// The keys ascend.
    pub(crate) fn show_order(&self)
        ensures { IsAscending self.now }
    {
        let _rows = &self.rows;
    }
}

// Sequence and kind in one number: the later of two writes has the greater one.
fn number_of(key: &InternalKey) -> u128
    ensures { result ≡ key_number key.now }
{
    u128::from(key.seq) * 256 + key.kind as u128
}

// Whether the entry stands before the place of a user key and a number or, where `strict`, at it.
fn stands_before(entry: &Entry, user: &[u8], number: u128, strict: bool) -> bool
    ensures { result ≡ is_before user.now number strict entry.now }
{
    let order = entry
        .key
        .user
        .as_slice()
        .cmp(user)
        .then(number.cmp(&number_of(&entry.key)));
    if strict { order.is_le() } else { order.is_lt() }
}

// Whether the last entry of the row does.
fn ends_before(row: &Vec<Entry>, user: &[u8], number: u128, strict: bool) -> bool
    ensures { result ≡ ends (is_before user.now number strict) row.now.items }
{
    match row.last() {
        Some(entry) => stands_before(entry, user, number, strict),
        None => true,
    }
}

// How many entries of the row do.
fn place_in(row: &[Entry], user: &[u8], number: u128, strict: bool) -> usize
    requires { IsAscending row.now }
    ensures { result ≡ prefix_len (is_before user.now number strict) row.now }
{
    row.partition_point(|entry| stands_before(entry, user, number, strict))
}

// How many rows end before the place.
fn row_of(rows: &[Vec<Entry>], user: &[u8], number: u128, strict: bool) -> usize
    requires { AreRows rows.now }
    ensures { result ≡ prefix_len (λ row. ends (is_before user.now number strict) row.items) rows.now }
{
    rows.partition_point(|row| ends_before(row, user, number, strict))
}

// The first entry that does not stand before the place.
fn first_from<'r>(
    rows: &'r [Vec<Entry>],
    user: &[u8],
    number: u128,
    strict: bool,
) -> Option<&'r Entry>
    requires { AreRows rows.now }
    ensures { option_copied result ≡ find (λ e. not (is_before user.now number strict e)) (entries_in rows.now) }
{
    let row = rows.get(row_of(rows, user, number, strict))?;
    row.get(place_in(row, user, number, strict))
}

fn latest_of<'r>(rows: &'r [Vec<Entry>], key: &[u8], seq: u64) -> Option<&'r Entry>
    requires { AreRows rows.now }
    ensures { option_copied result ≡ latest_in key.now seq (entries_in rows.now) }
{
    let number = u128::from(seq) * 256 + LAST_KIND;
    of_user(first_from(rows, key, number, false)?, key)
}

// The entry, where it is of the user key.
fn of_user<'e>(entry: &'e Entry, key: &[u8]) -> Option<&'e Entry>
    ensures { option_copied result ≡ if_of_user key.now entry.now }
{
    if entry.key.user.as_slice().cmp(key).is_eq() {
        Some(entry)
    } else {
        None
    }
}

fn after_of<'r>(rows: &'r [Vec<Entry>], from: &InternalKey, strict: bool) -> Option<&'r Entry>
    requires { AreRows rows.now }
    ensures { option_copied result ≡ after_in from.now strict (entries_in rows.now) }
{
    first_from(rows, from.user.as_slice(), number_of(from), strict)
}

// The place of an entry with this key in its row.
fn place_of(row: &[Entry], key: &InternalKey) -> usize
    requires { IsAscending row.now }
    ensures { result ≡ prefix_len (before key.now) row.now }
{
    place_in(row, key.user.as_slice(), number_of(key), false)
}

// The row of an entry with this key: the first that does not end before it or, where each does, the last.
fn home_of(rows: &[Vec<Entry>], key: &InternalKey) -> usize
    requires some { 1 ≤ length rows.now }
    requires rows { AreRows rows.now }
    ensures { result ≡ home key.now rows.now }
{
    row_of(rows, key.user.as_slice(), number_of(key), false).min(rows.len() - 1)
}

fn insert(alloc: Global, rows: &mut Vec<Vec<Entry>>, entry: Entry) -> Result<(), EntryErr>
    requires rows { AreRows rows.old.items }
    requires free { IsFree entry.key (entries_in rows.old.items) }
    ensures ok { OnOk result (entries_in rows.new.items ≡ with_entry entry (entries_in rows.old.items)) }
    ensures err { OnErr result (entries_in rows.new.items ≡ entries_in rows.old.items) }
    ensures rows { AreRows rows.new.items }
{
    if rows.is_empty() {
        return put_first(alloc, rows, entry);
    }
    let at = home_of(rows, &entry.key);
    if rows[at].len() < FULL {
        return put_in(rows, at, entry);
    }
    let cut = cut_of(&rows[at], &entry.key);
    part(alloc, rows, at, cut)?;
    let at = home_of(rows, &entry.key);
    put_in(rows, at, entry)
}

// The entry becomes the only one.
fn put_first(alloc: Global, rows: &mut Vec<Vec<Entry>>, entry: Entry) -> Result<(), EntryErr>
    requires { rows.old.items ≡ [] }
    ensures ok { OnOk result (entries_in rows.new.items ≡ with_entry entry []) }
    ensures err { OnErr result (entries_in rows.new.items ≡ []) }
    ensures rows { AreRows rows.new.items }
{
    let mut row = Vec::new(alloc);
    row.push(entry)?;
    rows.push(row)?;
    Ok(())
}

// The entry takes its place in its row.
fn put_in(rows: &mut Vec<Vec<Entry>>, at: usize, entry: Entry) -> Result<(), EntryErr>
    requires rows { AreRows rows.old.items }
    requires free { IsFree entry.key (entries_in rows.old.items) }
    requires some { 1 ≤ length rows.old.items }
    requires home { at ≡ home entry.key rows.old.items }
    ensures ok { OnOk result (entries_in rows.new.items ≡ with_entry entry (entries_in rows.old.items)) }
    ensures err { OnErr result (entries_in rows.new.items ≡ entries_in rows.old.items) }
    ensures rows { AreRows rows.new.items }
{
    keys_are_read();
    let row = &mut rows[at];
    let place = place_of(row, &entry.key);
    row.insert(place, entry)?;
    Ok(())
}

// Where a full row is cut for an entry more: entries that come in order all come near to one end, and leave
// full rows there.
fn cut_of(row: &[Entry], key: &InternalKey) -> usize
    requires ascending { IsAscending row.now }
    requires long { NEAR < length row.now }
    ensures some { 1 ≤ result }
    ensures less { result < length row.now }
{
    let place = place_of(row, key);
    if place < NEAR {
        place.max(1)
    } else if place > row.len() - NEAR {
        place.min(row.len() - 1)
    } else {
        row.len() / 2
    }
}

// The row becomes two, of which the first has so many of its entries.
fn part(alloc: Global, rows: &mut Vec<Vec<Entry>>, at: usize, cut: usize) -> Result<(), EntryErr>
    requires rows { AreRows rows.old.items }
    requires within { at < length rows.old.items }
    requires some { 1 ≤ cut }
    requires less { cut < length (row_at rows.old.items at) }
    ensures same { entries_in rows.new.items ≡ entries_in rows.old.items }
    ensures rows { AreRows rows.new.items }
    ensures some { 1 ≤ length rows.new.items }
{
    rows.insert(at + 1, Vec::new(alloc))?;
    match rows[at].split_off(cut) {
        Ok(back) => {
            rows[at + 1] = back;
            Ok(())
        }
        Err(error) => {
            rows.remove(at + 1);
            Err(error.into())
        }
    }
}
