//! The tables that may have a user key.

ghost use Rattle.std.specs.Prelude.{◌≡◌, ◌≤◌, ℕ, [], ◌∷◌, ◌++◌, length, IfOk, IfErr, OnOk, IsErrOf, IsTrue, Err, map};
ghost use Rattle.std.specs.List.{AllByRecursion, AllZip};
ghost use Rattle.bl_site.specs.Causes.{Rose};
ghost use Rattle.bl_site.specs.Disk.{Name, folder_of};
ghost use Rattle.bl_site.specs.Quiet.{OnlyReads};
ghost use Rattle.bl_code.specs.Order.{user_part};
ghost use Rattle.bl_entry.specs.declared.run.RunErr.TheVariants.{Corrupt};
ghost use Rattle.bl_edit.specs.Bounds.{table_fits};
ghost use Rattle.bl_cache.specs.Runs.{Keeps, entries_in};
ghost use Rattle.bl_read.specs.Reading.{IsBadTable, IsReadAs, may_have as may_have_in, tables_for};

use bl_cache::TableRun;
use bl_edit::NewTable;
use bl_entry::RunErr;
use bl_site::Site;
use std::alloc::Global;

// The bytes of an internal key behind the user key.
const NUMBER_BYTES: usize = 8;

// The user key of an internal key.
fn user_of(key: &[u8]) -> &[u8]
    requires { 8 ≤ length key.now }
    ensures { result.now ≡ user_part key.now }
{
    let (user, _) = key.split_at(key.len() - NUMBER_BYTES);
    user
}

// Whether the user key is in the range of the table.
fn may_have(table: &NewTable, key: &[u8]) -> bool
    requires { IsTrue (table_fits table.now) }
    ensures { result ≡ may_have_in key.now table.now }
{
    let first = user_of(table.smallest.as_slice());
    let last = user_of(table.largest.as_slice());
    first.cmp(key).is_le() && key.cmp(last).is_le()
}

// One run more, behind the others.
fn put_behind(runs: &mut Vec<TableRun>, run: TableRun) -> Result<(), RunErr>
    ensures ok { OnOk result (runs.new.items ≡ runs.old.items ++ run ∷ []) }
    ensures memory { IfErr result (λ e. e ≡ RunErr.OutOfMemory) }
{
    match runs.push(run) {
        Ok(()) => Ok(()),
        Err(_) => Err(RunErr::OutOfMemory),
    }
}

/// The runs of the tables in whose range the user key is; the others are not read.
///
/// Errors: `Corrupt`, only with the name of a table of these that is none; `Disk`, only where the disk failed in this call;
/// `OutOfMemory`.
pub(crate) fn open_tables<S: Site>(
    alloc: Global,
    site: &mut S,
    tables: &[NewTable],
    key: &[u8],
) -> Result<Vec<TableRun>, RunErr>
    requires { AllByRecursion (λ t. IsTrue (table_fits t)) tables.now }
    ensures read { S.shows → IfOk result (λ runs. AllZip (IsReadAs (folder_of (S.disk site.old))) (tables_for key.now tables.now) (map (λ r. entries_in r (folder_of (S.disk site.old))) runs.items)) }
    ensures keeps { S.shows → IfOk result (λ runs. AllByRecursion (λ r. Keeps r (folder_of (S.disk site.old))) runs.items) }
    ensures corrupt { S.shows → (name : Name) (place : ℕ) → result ≡ Err (Corrupt name place) → IsBadTable (folder_of (S.disk site.old)) tables.now name }
    ensures disk { IsErrOf result RunErr.Disk → Rose (S.disk_faults site.old) (S.disk_faults site.new) }
    // The site is read, and nothing else.
    ensures quiet { OnlyReads S.Site site.old site.new }
{
    let mut runs = Vec::new(alloc);
    for table in tables {
        if may_have(table, key) {
            let run = TableRun::open(alloc, site, table.number, table.size)?;
            put_behind(&mut runs, run)?;
        }
    }
    Ok(runs)
}

/// The runs of all tables.
///
/// Errors: `Corrupt`, only with the name of a table that is none; `Disk`, only where the disk failed in this call;
/// `OutOfMemory`.
pub(crate) fn open_all<S: Site>(
    alloc: Global,
    site: &mut S,
    tables: &[NewTable],
) -> Result<Vec<TableRun>, RunErr>
    requires { AllByRecursion (λ t. IsTrue (table_fits t)) tables.now }
    ensures read { S.shows → IfOk result (λ runs. AllZip (IsReadAs (folder_of (S.disk site.old))) tables.now (map (λ r. entries_in r (folder_of (S.disk site.old))) runs.items)) }
    ensures keeps { S.shows → IfOk result (λ runs. AllByRecursion (λ r. Keeps r (folder_of (S.disk site.old))) runs.items) }
    ensures corrupt { S.shows → (name : Name) (place : ℕ) → result ≡ Err (Corrupt name place) → IsBadTable (folder_of (S.disk site.old)) tables.now name }
    ensures disk { IsErrOf result RunErr.Disk → Rose (S.disk_faults site.old) (S.disk_faults site.new) }
    // The site is read, and nothing else.
    ensures quiet { OnlyReads S.Site site.old site.new }
{
    let mut runs = Vec::new(alloc);
    for table in tables {
        let run = TableRun::open(alloc, site, table.number, table.size)?;
        put_behind(&mut runs, run)?;
    }
    Ok(runs)
}
