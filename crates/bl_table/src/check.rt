//! The first fault of a block.

ghost use Rattle.std.specs.Prelude.{◌≡◌, ◌+◌, ◌*◌, ◌^◌, ◌<◌, ◌≤◌, ◌∷◌, List, length, drop, IfOk};
ghost use Rattle.std.specs.Ordering.{is_lt};
ghost use Rattle.bl_code.specs.Order.{key_order as order_of_keys};
ghost use Rattle.bl_table.specs.Faults.{rank as rank_of, ◌and◌};
ghost use Rattle.bl_table.specs.Blocks.{Cell, block_in, contents, number_at as number_in, numbers_in, restarts_left, stands_behind as is_behind};
ghost use Rattle.bl_table.specs.Steps.{fault_of, before_at};
ghost use Rattle.bl_table.specs.Scans.{Scans};

use crate::entry::next_entry;
use crate::fault::{TableErr, TableRule};
use bl_code::{Taker, key_order};
use std::alloc::Global;
use std::cmp::Ordering;
use std::mem;

/// A rule, and the place in the table where it is broken.
#[derive(Clone, Copy, Drop)]
pub(crate) struct Fault {
    pub rule: TableRule,
    pub place: u64,
}

// Where a rule stands in the order in which they are listed.
fn rank(rule: TableRule) -> u8
    ensures { result ≡ rank_of rule }
{
    match rule {
        TableRule::Length => 0,
        TableRule::Magic => 1,
        TableRule::Handle => 2,
        TableRule::Kind => 3,
        TableRule::Crc => 4,
        TableRule::Restart => 5,
        TableRule::Entry => 6,
        TableRule::Order => 7,
    }
}

/// The first of two faults, where there are any: by their places, and at one place by their rules.
pub(crate) fn first_of(a: Option<Fault>, b: Option<Fault>) -> Option<Fault>
    ensures { fault_of result ≡ (fault_of a and fault_of b) }
{
    let (Some(first), Some(second)) = (a, b) else {
        return a.or(b);
    };
    if second.place < first.place
        || second.place == first.place && rank(second.rule) < rank(first.rule)
    {
        b
    } else {
        a
    }
}

// The little-endian number of four bytes at a place.
pub(crate) fn number_at(bytes: &[u8], place: usize) -> u32
    requires { place + 4 ≤ length bytes.now }
    ensures { result ≡ number_in bytes.now place }
{
    u32::from_le_bytes([
        bytes[place],
        bytes[place + 1],
        bytes[place + 2],
        bytes[place + 3],
    ])
}

/// Whether a key stands before another.
pub(crate) fn is_before(a: &[u8], b: &[u8]) -> bool
    requires first { 8 ≤ length a.now }
    requires second { 8 ≤ length b.now }
    ensures { result ≡ is_lt (order_of_keys a.now b.now) }
{
    key_order(a, b) == Ordering::Less
}

// Whether a key stands behind the one before it, if its entry is not the first.
fn stands_behind(place: u64, before: &[u8], key: &[u8]) -> bool
    requires before { 0 < place → 9 ≤ length before.now }
    requires key { 9 ≤ length key.now }
    ensures { result ≡ is_behind (before_at place before.now) key.now }
{
    place == 0 || is_before(before, key)
}

// How many restarts are passed behind an entry, when so many were before it.
fn passed_behind(
    bytes: &[u8],
    limit: usize,
    count: usize,
    passed: usize,
    place: u64,
    shared: u32,
) -> usize
    requires within { limit + 4 * count ≤ length bytes.now }
    requires passed { passed ≤ count }
    ensures more { (passed ≤ result) × (result ≤ count) }
    ensures left { (c : Cell) (cells : List Cell) → c.place ≡ place → c.shared ≡ shared →
        restarts_left (c ∷ cells) (drop passed (numbers_in count (drop limit bytes.now))) ≡ restarts_left cells (drop result (numbers_in count (drop limit bytes.now))) }
{
    if place > 0
        && shared == 0
        && passed < count
        && u64::from(number_at(bytes, limit + 4 * passed)) == place
    {
        passed + 1
    } else {
        passed
    }
}

// What the entries of a block come to: a fault, or the number of restarts that were passed.
#[derive(Clone, Copy, Drop)]
pub(crate) enum Scanned {
    Fault(Fault),
    Passed(usize),
}

// Goes over the entries of a block at an offset whose restarts begin at a limit.
fn scan(
    alloc: Global,
    bytes: &[u8],
    offset: u64,
    limit: usize,
    count: usize,
) -> Result<Scanned, TableErr>
    requires some { 0 < count }
    requires within { limit + 4 * count ≤ length bytes.now }
    requires place { offset + length bytes.now < 2 ^ 64 }
    ensures { IfOk result (λ s. Scans s offset bytes.now limit count) }
{
    let mut taker = Taker::over(&bytes[..limit]);
    let mut before = Vec::new(alloc);
    let mut key = Vec::new(alloc);
    let mut passed = 1;
    'entries: while taker.left() > 0 {
        let place = taker.place();
        let at = offset + place;
        let Some(entry) = next_entry(&mut taker, &before, &mut key)? else {
            return Ok(Scanned::Fault(Fault {
                rule: TableRule::Entry,
                place: at,
            }));
        };
        if key.len() < 9 {
            return Ok(Scanned::Fault(Fault {
                rule: TableRule::Entry,
                place: at,
            }));
        }
        if !stands_behind(place, &before, &key) {
            return Ok(Scanned::Fault(Fault {
                rule: TableRule::Order,
                place: at,
            }));
        }
        passed = passed_behind(bytes, limit, count, passed, place, entry.shared);
        mem::swap(&mut before, &mut key);
    }
    Ok(Scanned::Passed(passed))
}

// The first fault of a block at an offset, by its entries and then by the restarts that begin at a limit.
fn contents_fault(
    alloc: Global,
    bytes: &[u8],
    offset: u64,
    limit: usize,
    count: usize,
) -> Result<Option<Fault>, TableErr>
    requires some { 0 < count }
    requires within { limit + 4 * count ≤ length bytes.now }
    requires place { offset + length bytes.now < 2 ^ 64 }
    ensures { IfOk result (λ f. fault_of f ≡ (contents offset bytes.now limit count).fault) }
{
    let passed = match scan(alloc, bytes, offset, limit, count)? {
        Scanned::Fault(fault) => return Ok(Some(fault)),
        Scanned::Passed(passed) => passed,
    };
    let at = if number_at(bytes, limit) != 0 {
        limit
    } else if passed < count {
        limit + 4 * passed
    } else {
        return Ok(None);
    };
    Ok(Some(Fault {
        rule: TableRule::Restart,
        place: offset + at as u64,
    }))
}

/// The first fault of a block at an offset, without its trailer.
pub(crate) fn block_fault(
    alloc: Global,
    bytes: &[u8],
    offset: u64,
) -> Result<Option<Fault>, TableErr>
    requires { offset + length bytes.now < 2 ^ 64 }
    ensures { IfOk result (λ f. fault_of f ≡ (block_in offset bytes.now).fault) }
{
    if bytes.len() < 4 {
        return Ok(Some(Fault {
            rule: TableRule::Restart,
            place: offset,
        }));
    }
    let at = bytes.len() - 4;
    let count = number_at(bytes, at) as usize;
    if count == 0 || 4 * count > at {
        return Ok(Some(Fault {
            rule: TableRule::Restart,
            place: offset + at as u64,
        }));
    }
    contents_fault(alloc, bytes, offset, at - 4 * count, count)
}
