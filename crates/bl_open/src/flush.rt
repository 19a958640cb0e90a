//! The flush of what an opening found in the logs.

ghost use Rattle.std.specs.Prelude.{◌≡◌, ℕ, ◌^◌, ◌<◌, ◌≤◌, [], ◌∷◌, length, Err, IfOk, IfErr, OnOk, IsErrOf};
ghost use Rattle.bl_site.specs.Calls.{LeavesOnly};
ghost use Rattle.bl_site.specs.Causes.{Rose};
ghost use Rattle.bl_site.specs.Quiet.{TellsNothing};
ghost use Rattle.bl_names.specs.declared.name.FileName.TheVariants.{Table};
ghost use Rattle.bl_names.specs.Names.{name_of};
ghost use Rattle.bl_entry.specs.Revisions.{Map};
ghost use Rattle.bl_edit.specs.Bounds.{FitsWords, IsEdit};
ghost use Rattle.bl_build.specs.Restoring.{Restored};
ghost use Rattle.bl_out.specs.Quiet.{TouchesOnly};
ghost use Rattle.bl_flush.specs.Flushing.{Flushes};
ghost use Rattle.bl_flush.specs.Jobs.{ArePutsAndDeletions, next_of};
ghost use Rattle.bl_folder.specs.Flushes.{IsBelow};
ghost use Rattle.bl_open.specs.Barrier.{BeforeBarrier, IsOnEitherSide};
ghost use Rattle.bl_open.specs.Causes.{FailsByFolder, IsWriting};
ghost use Rattle.bl_open.specs.Flushing.{DrawsFor, KeepsOthers, drawn};
ghost use Rattle.bl_open.specs.SteadyCalls.{IsAtRest};
ghost use Rattle.bl_open.specs.SteadyCuts.{IsLeftFor, LeavesStanding};

use crate::error::OpenErr;
use crate::files::make_file;
use crate::flushing::drawn_files_let_disks_rest;
use crate::install::show_range;
use crate::laws::barriers_let_disks_rest;
use bl_edit::{Edit, Options};
use bl_entry::newest_stands_first;
use bl_flush::{flush_all, flushes_make_what_is_kept};
use bl_memtab::{MemTable, ascends};
use bl_names::{FILE_LIMIT, FileName, print_name};
use bl_out::Numbers;
use bl_site::Site;
use std::alloc::Global;

// Makes the table of the next number, which is that of a file, with no byte yet.
fn make_table<S: Site>(alloc: Global, site: &mut S, numbers: &Numbers) -> Result<(), OpenErr>
    requires { numbers.now < 10 ^ 15 }
    ensures before { S.shows → LeavesOnly S.clock S.left_since site.old site.new (BeforeBarrier (name_of (Table numbers.now)) (S.may_be site.old) (S.told site.old)) }
    ensures touches { TouchesOnly S.Site (name_of (Table numbers.now) ∷ []) site.old site.new }
    ensures certain { S.shows → OnOk result (S.certain site.new) }
    ensures tells_nothing { TellsNothing S.Site site.old site.new }
    ensures fails { FailsByFolder S.Site result site.old site.new }
{
    let name = print_name(alloc, &FileName::Table(numbers.next()))?;
    make_file(site, name.as_str())
}

// Flushes the memory into files whose numbers are drawn.
fn flush_memory<S: Site>(
    alloc: Global,
    site: &mut S,
    numbers: &mut Numbers,
    memory: &MemTable,
    options: &Options,
) -> Result<Edit, OpenErr>
    requires { ArePutsAndDeletions memory.now }
    ensures flushes { S.shows → IfOk result (Flushes options.now numbers.old numbers.new [] memory.now (S.disk site.new)) }
    ensures bounds { IfOk result (λ edit. IsEdit edit × FitsWords edit) }
    ensures draws { IfOk result (DrawsFor options.now memory.now numbers.old numbers.new) }
    ensures upwards { numbers.old ≤ numbers.new }
    ensures most { numbers.new ≤ 10 ^ 15 }
    ensures full { (n : ℕ) → result ≡ Err (OpenErr.Full n) → (n ≡ 10 ^ 15) × (10 ^ 15 < next_of options.now [] numbers.old memory.now) }
    ensures certain { S.shows → S.certain site.old → OnOk result (S.certain site.new) }
    ensures touches { TouchesOnly S.Site (drawn numbers.old numbers.new) site.old site.new }
    ensures tells_nothing { TellsNothing S.Site site.old site.new }
    ensures causes { IfErr result IsWriting }
    ensures disk { IsErrOf result OpenErr.Disk → Rose (S.disk_faults site.old) (S.disk_faults site.new) }
{
    flushes_make_what_is_kept();
    show_range(options);
    let flushed = flush_all(alloc, site, numbers, memory, options, &[]);
    let _next = numbers.next();
    let edit = flushed?;
    Ok(edit)
}

/// Flushes a memory of proper puts and deletions: what is kept of it goes into a table and its blob files, which are synced. The table is
/// made first, and with it the barrier of the opening is over, so that no name call is in doubt while the files are written. An empty
/// memory asks nothing of the folder, and so does one where no number is left. Only tables and blob files with numbers from the next one on change: while the version has lower ones, a disk at
/// rest stays so, whatever is answered.
///
/// Errors: `Disk`; `Full(10^15)`, only where the files take more numbers than are left; `OutOfMemory`.
pub(crate) fn flush_found<S: Site>(
    alloc: Global,
    site: &mut S,
    numbers: &mut Numbers,
    memory: &MemTable,
    options: &Options,
) -> Result<Edit, OpenErr>
    requires { ArePutsAndDeletions memory.now }
    ensures flushes { S.shows → IfOk result (Flushes options.now numbers.old numbers.new [] memory.now (S.disk site.new)) }
    ensures bounds { IfOk result (λ edit. IsEdit edit × FitsWords edit) }
    ensures draws { IfOk result (DrawsFor options.now memory.now numbers.old numbers.new) }
    ensures upwards { numbers.old ≤ numbers.new }
    ensures full { (n : ℕ) → result ≡ Err (OpenErr.Full n) → (n ≡ 10 ^ 15) × (10 ^ 15 < next_of options.now [] numbers.old memory.now) }
    ensures others { S.shows → KeepsOthers numbers.old (S.disk site.old) (S.disk site.new) }
    ensures idle { memory.now ≡ [] → site.new ≡ site.old }
    ensures unmade { numbers.old ≡ 10 ^ 15 → (site.new ≡ site.old) × OnOk result (memory.now ≡ []) }
    ensures passed { S.shows → 1 ≤ length memory.now → OnOk result (S.certain site.new) }
    ensures sides { S.shows → (manifest : ℕ) (live : Restored) (m : Map) → IsAtRest manifest live m (S.disk site.old) → IsBelow numbers.old live.version
        → LeavesOnly S.clock S.left_since site.old site.new (IsOnEitherSide (name_of (Table numbers.old)) (S.may_be site.old) (IsLeftFor m) (S.told site.old)) }
    ensures cuts { S.shows → S.certain site.old → (manifest : ℕ) (live : Restored) (m : Map) → IsAtRest manifest live m (S.disk site.old) → IsBelow numbers.old live.version
        → LeavesOnly S.clock S.left_since site.old site.new (LeavesStanding (IsLeftFor m) (S.told site.old)) }
    ensures tells_nothing { TellsNothing S.Site site.old site.new }
    ensures causes { IfErr result IsWriting }
    ensures disk { IsErrOf result OpenErr.Disk → Rose (S.disk_faults site.old) (S.disk_faults site.new) }
{
    ascends(memory);
    barriers_let_disks_rest();
    drawn_files_let_disks_rest();
    newest_stands_first();
    if memory.count() == 0 {
        return Ok(Edit::new(alloc));
    }
    if numbers.next() == FILE_LIMIT {
        return Err(OpenErr::Full(FILE_LIMIT));
    }
    make_table(alloc, site, numbers)?;
    flush_memory(alloc, site, numbers, memory, options)
}
