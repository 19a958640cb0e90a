//! Tables of a version.

ghost use Rattle.std.specs.Prelude.{◌≡◌, IfOk};
ghost use Rattle.std.specs.List.Sorted.{IsNonDecreasingBy};
ghost use Rattle.bl_build.specs.Listing.{at_level, rank, table_rank};

use crate::error::BuildErr;
use bl_code::Octets;
use bl_edit::{DeletedTable, NewTable};
use std::alloc::Global;

/// The same tables with keys of their own.
pub(crate) fn copies(alloc: Global, tables: &[NewTable]) -> Result<Vec<NewTable>, BuildErr>
    ensures { IfOk result (λ made. made.items ≡ tables.now) }
{
    let mut made = Vec::with_capacity(alloc, tables.len())?;
    for table in tables {
        made.push(copied(alloc, table)?)?;
    }
    Ok(made)
}

/// The same table with keys of its own.
pub(crate) fn copied(alloc: Global, table: &NewTable) -> Result<NewTable, BuildErr>
    ensures { IfOk result (λ made. made ≡ table.now) }
{
    Ok(NewTable {
        level: table.level,
        number: table.number,
        size: table.size,
        smallest: Octets::from_slice(alloc, table.smallest.as_slice())?,
        largest: Octets::from_slice(alloc, table.largest.as_slice())?,
        least_seq: table.least_seq,
        most_seq: table.most_seq,
        oldest_blob: table.oldest_blob,
    })
}

/// The tables of a level, of tables that are ordered by level.
pub(crate) fn level_of(tables: &[NewTable], level: u32) -> &[NewTable]
    requires { IsNonDecreasingBy (λ t. t.level) tables.now }
    ensures { result.now ≡ at_level level tables.entry.now }
{
    let start = tables.partition_point(|table| table.level < level);
    let (_, behind) = tables.split_at(start);
    let size = behind.partition_point(|table| table.level <= level);
    let (of_level, _) = behind.split_at(size);
    of_level
}

/// The place of a table in the order by level and then by number.
pub(crate) fn rank_of(table: &NewTable) -> u128
    ensures { result ≡ table_rank table.now }
{
    rank_at(table.level, table.number)
}

/// The place of a table that is deleted.
pub(crate) fn deleted_rank(table: &DeletedTable) -> u128
    ensures { result ≡ rank table.now.level table.now.number }
{
    rank_at(table.level, table.number)
}

fn rank_at(level: u32, number: u64) -> u128
    ensures { result ≡ rank level number }
{
    u128::from(level) * (1 << 64) + u128::from(number)
}
