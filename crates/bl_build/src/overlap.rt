//! Tables of one level must not overlap, from level 1 on.

ghost use Rattle.std.specs.Prelude.{◌≡◌, ◌-◌, ◌<◌, ◌↔◌, List, map, length, slice_index_or, IsTrue, false, None, IfOk};
ghost use Rattle.std.specs.Bool.{OnTrue};
ghost use Rattle.std.specs.List.{list_any};
ghost use Rattle.bl_code.specs.Order.{user_part};
ghost use Rattle.bl_edit.specs.declared.edit.NewTable.{NewTable};
ghost use Rattle.bl_build.specs.Fronts.{IsFront, by_end as end_order, covers as covers_test, reaches as reaches_test};
ghost use Rattle.bl_build.specs.Versions.{clash as clash_test, first_overlap as overlap_in};

use crate::error::BuildErr;
use bl_edit::NewTable;
use std::alloc::Global;
use std::cmp::Ordering;

// The bytes of an internal key behind the user key.
const NUMBER_BYTES: usize = 8;

/// The first added table that overlaps one of its level, from level 1 on, that is left or stands before it.
///
/// Tables are never compared pair by pair: whether the added ones are apart is seen from their order, and where they
/// are not, halving finds how many of the first ones are.
pub(crate) fn first_overlap(
    alloc: Global,
    left: &[NewTable],
    added: &[NewTable],
) -> Result<Option<u64>, BuildErr>
    ensures { IfOk result (λ found. found ≡ overlap_in left.now added.now) }
{
    if are_apart(alloc, left, added)? {
        return Ok(None);
    }
    let mut apart = 0;
    let mut over = added.len();
    while over - apart > 1 {
        let middle = apart + (over - apart) / 2;
        if are_apart(alloc, left, &added[..middle])? {
            apart = middle;
        } else {
            over = middle;
        }
    }
    Ok(Some(added[apart].number))
}

// Whether no added table clashes with another one or with one that is left.
//
// The added ones are sorted by level and greatest key, the last one first. Each is looked up among those before it,
// and each table that is left among them all. Only the front of them is kept: a table is left out where one before it
// covers it, since what clashes with it clashes with that one too.
fn are_apart(alloc: Global, left: &[NewTable], added: &[NewTable]) -> Result<bool, BuildErr>
    ensures { IfOk result (λ apart. IsTrue apart ↔ (overlap_in left.now added.now ≡ None)) }
{
    if are_of_level_0(added) {
        return Ok(true);
    }
    let mut tables = Vec::with_capacity(alloc, added.len())?;
    for table in added {
        tables.push(table)?;
    }
    tables.sort_unstable_by(|a, b| by_end(b, a));
    let mut front = Vec::with_capacity(alloc, added.len())?;
    for next in &tables {
        if clashes(next, &front) {
            return Ok(false);
        }
        if !is_covered(next, &front) {
            front.push(*next)?;
        }
    }
    Ok(!any_clashes(left, &front))
}

fn are_of_level_0(added: &[NewTable]) -> bool
    ensures { OnTrue result ((left : List NewTable) → overlap_in left added.now ≡ None) }
{
    for table in added {
        if table.level != 0 {
            return false;
        }
    }
    true
}

// Whether the last table of a front is of the same level and begins no later.
fn is_covered(table: &NewTable, front: &[&NewTable]) -> bool
    ensures empty { length front.now ≡ 0 → result ≡ false }
    ensures last { 0 < length front.now → result ≡ covers_test (slice_index_or (map (λ t. t.now) front.now) (length front.now - 1) table.now) table.now }
{
    let count = front.len();
    count != 0 && covers(front[count - 1], table)
}

fn any_clashes(tables: &[NewTable], front: &[&NewTable]) -> bool
    requires { IsFront (map (λ t. t.now) front.now) }
    ensures { result ≡ list_any (λ t. list_any (clash_test t) (map (λ u. u.now) front.now)) tables.now }
{
    for table in tables {
        if clashes(table, front) {
            return true;
        }
    }
    false
}

// Whether a table clashes with one of a front. Those that end too soon stand last, and of the others of its level the
// last one begins first.
fn clashes(table: &NewTable, front: &[&NewTable]) -> bool
    requires { IsFront (map (λ t. t.now) front.now) }
    ensures { result ≡ list_any (clash_test table.now) (map (λ u. u.now) front.now) }
{
    let count = front.partition_point(|other| reaches(other, table));
    count != 0 && clash(table, front[count - 1])
}

fn clash(a: &NewTable, b: &NewTable) -> bool
    ensures { result ≡ clash_test a.now b.now }
{
    a.level != 0
        && b.level == a.level
        && first_user(a).cmp(last_user(b)).is_le()
        && first_user(b).cmp(last_user(a)).is_le()
}

fn covers(a: &NewTable, b: &NewTable) -> bool
    ensures { result ≡ covers_test a.now b.now }
{
    a.level == b.level && first_user(a).cmp(first_user(b)).is_le()
}

fn reaches(a: &NewTable, b: &NewTable) -> bool
    ensures { result ≡ reaches_test a.now b.now }
{
    b.level < a.level || a.level == b.level && first_user(b).cmp(last_user(a)).is_le()
}

fn by_end(a: &NewTable, b: &NewTable) -> Ordering
    ensures { result ≡ end_order a.now b.now }
{
    a.level.cmp(&b.level).then(last_user(a).cmp(last_user(b)))
}

fn first_user(table: &NewTable) -> &[u8]
    ensures { result.now ≡ user_part table.entry.now.smallest }
{
    user(table.smallest.as_slice())
}

fn last_user(table: &NewTable) -> &[u8]
    ensures { result.now ≡ user_part table.entry.now.largest }
{
    user(table.largest.as_slice())
}

fn user(key: &[u8]) -> &[u8]
    ensures { result.now ≡ user_part key.entry.now }
{
    &key[..key.len().saturating_sub(NUMBER_BYTES)]
}
