//! What can be wrong with the bytes of a table.

use bl_code::CodeErr;
use std::alloc::{AllocError, AllocFailed};

/// The rule that the bytes of a table break.
#[derive(Clone, Copy, Debug, Drop, PartialEq, Eq)]
pub enum TableRule {
    /// Too few or too many bytes for a footer or a block.
    Length,
    /// The footer doesn't end with the magic number.
    Magic,
    /// No handle, or one of a block that passes the footer.
    Handle,
    /// The type of a block is not 0.
    Kind,
    /// The checksum of a block differs.
    Crc,
    /// The restarts of a block, or their count: none or more than fit, the first not 0, or another that is
    /// not where a further entry begins that shares nothing.
    Restart,
    /// An entry that doesn't fit, has a key of fewer than 9 bytes, stands where none may, or is missing.
    Entry,
    /// A key that doesn't stand behind the one before it, or an index key that is not between two blocks.
    Order,
}

/// Why bytes are no table, block or footer.
#[derive(Clone, Copy, Debug, Drop, PartialEq, Eq)]
pub enum BadTable {
    /// The first fault: its rule and its place, the offset in the table.
    At(TableRule, u64),
    /// Memory ran out before the first fault was found, or before what was read was kept.
    OutOfMemory,
}

/// Why a call failed. It changed nothing.
#[derive(Clone, Copy, Debug, Drop, PartialEq, Eq)]
pub enum TableErr {
    /// Memory ran out.
    OutOfMemory,
}

impl From<CodeErr> for TableErr {
    fn from(_: CodeErr) -> TableErr {
        TableErr::OutOfMemory
    }
}

impl From<AllocError> for TableErr {
    fn from(_: AllocError) -> TableErr {
        TableErr::OutOfMemory
    }
}

impl<T: Drop> From<AllocFailed<T>> for TableErr {
    fn from(_: AllocFailed<T>) -> TableErr {
        TableErr::OutOfMemory
    }
}

impl From<TableErr> for BadTable {
    ghost use Rattle.std.specs.Prelude.{◌≡◌};
    ghost use Rattle.bl_table.specs.declared.fault.BadTable.TheVariants.{OutOfMemory};

    ghost from_gives = { λ e bad. bad ≡ OutOfMemory };

    fn from(_: TableErr) -> BadTable {
        BadTable::OutOfMemory
    }
}

impl From<AllocError> for BadTable {
    ghost use Rattle.std.specs.Prelude.{◌≡◌};
    ghost use Rattle.bl_table.specs.declared.fault.BadTable.TheVariants.{OutOfMemory};

    ghost from_gives = { λ e bad. bad ≡ OutOfMemory };

    fn from(_: AllocError) -> BadTable {
        BadTable::OutOfMemory
    }
}
