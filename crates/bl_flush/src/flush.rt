//! A flush: the kept entries of a memory go into an output, and its files are sealed.

ghost use Rattle.std.specs.Prelude.{◌≡◌, ◌⊎◌, ℕ, ◌-◌, ◌^◌, ◌≤◌, false, Err, IfOk, IfErr, OnOk, OnErr, IsErrOf};
ghost use Rattle.std.specs.List.{range_with_len};
ghost use Rattle.bl_site.specs.Causes.{Rose};
ghost use Rattle.bl_site.specs.Quiet.{TellsNothing};
ghost use Rattle.bl_edit.specs.Bounds.{FitsWords, IsEdit};
ghost use Rattle.bl_edit.specs.Options.{AreInRange};
ghost use Rattle.bl_out.specs.Causes.{IsAddCause, IsSealCause};
ghost use Rattle.bl_out.specs.Held.{HoldsOut};
ghost use Rattle.bl_out.specs.Made.{IsMade};
ghost use Rattle.bl_out.specs.Outputs.{IsEditOf, Out, finished};
ghost use Rattle.bl_out.specs.Quiet.{TouchesOnly};
ghost use Rattle.bl_out.specs.States.{AreThere, IsOut, names_of};
ghost use Rattle.bl_out.specs.declared.error.JobErr.TheVariants.{Disk, OutOfMemory};
ghost use Rattle.bl_memtab.specs.Laws.{least_key};
ghost use Rattle.bl_flush.specs.Flushing.{Flushes, IsAt, RefusesFlush};
ghost use Rattle.bl_flush.specs.Jobs.{ArePutsAndDeletions, added_of, flushed, next_of, with_sealed};

use crate::laws::flushes_make_what_is_kept;
use crate::stripes::follows_alike;
use bl_code::Octets;
use bl_edit::{Edit, Options};
use bl_entry::{Entry, InternalKey, Kind, newest_stands_first};
use bl_memtab::{MemTable, after_is_next, ascends};
use bl_out::{
    JobErr, Numbers, Output, Sealed, finished_outputs_are_read, outputs_are_sealed_file_by_file,
    outputs_write_what_they_are_given,
};
use bl_site::Site;
use std::alloc::Global;

// A key that no other stands before.
fn least_key(alloc: Global) -> Result<InternalKey, JobErr>
    ensures key { IfOk result (λ key. key ≡ least_key) }
    ensures memory { IfErr result (λ e. e ≡ OutOfMemory) }
{
    let user = Octets::from_slice(alloc, &[0])?;
    Ok(InternalKey {
        user,
        seq: (1 << 56) - 1,
        kind: Kind::BlobRef,
    })
}

// Options are in their ranges.
fn show_range(options: &Options)
    ensures { AreInRange options.now }
{
    let _threshold = options.min_blob_size;
}

// The next number is one that there is, or the first that there is not.
fn show_next(numbers: &Numbers)
    ensures some { 1 ≤ numbers.now }
    ensures bound { numbers.now ≤ 10 ^ 15 }
{
    let _next = numbers.next();
}

// The kept entries of a memory are added to a new output, in key order.
fn add_kept<S: Site>(
    alloc: Global,
    site: &mut S,
    numbers: &mut Numbers,
    memory: &MemTable,
    options: &Options,
    snapshots: &[u64],
) -> Result<Output, JobErr>
    requires { ArePutsAndDeletions memory.now }
    ensures at { IfOk result (λ output. IsAt S.Site (added_of options.now snapshots.now numbers.old memory.now) numbers.old numbers.new output site.old site.new) }
    ensures numbers { OnOk result (numbers.new ≡ next_of options.now snapshots.now numbers.old memory.now) }
    ensures refused { IfErr result (λ e. RefusesFlush S.Site e (next_of options.now snapshots.now numbers.old memory.now) numbers.old numbers.new site.old site.new) }
    ensures touches { TouchesOnly S.Site (names_of (range_with_len numbers.old (numbers.new - numbers.old))) site.old site.new }
    ensures tells_nothing { TellsNothing S.Site site.old site.new }
    ensures causes { IfErr result IsAddCause }
    ensures disk { IsErrOf result Disk → Rose (S.disk_faults site.old) (S.disk_faults site.new) }
{
    after_is_next();
    ascends(memory);
    newest_stands_first();
    outputs_write_what_they_are_given();
    show_range(options);
    let mut output = Output::begin(alloc, options, true);
    let least = least_key(alloc)?;
    let mut front: Option<&Entry> = None;
    let mut next = memory.after(&least, false);
    'entries: for _ in 0..memory.count() {
        let Some(entry) = next else { break };
        if !follows_alike(snapshots, front, entry) {
            output.add(alloc, site, numbers, entry)?;
        }
        front = next;
        next = memory.after(&entry.key, true);
    }
    Ok(output)
}

// The edit adds a file more.
fn push(edit: &mut Edit, sealed: Sealed) -> Result<(), JobErr>
    ensures pushed { OnOk result (edit.new ≡ with_sealed sealed edit.old) }
    ensures fits { FitsWords edit.old → OnOk result (FitsWords edit.new) }
    ensures memory { IfErr result (λ e. e ≡ OutOfMemory) }
{
    match sealed {
        Sealed::Table(table) => edit.added.push(table)?,
        Sealed::Blob(blob) => edit.blobs.push(blob)?,
    }
    Ok(())
}

// All files of an output are sealed; the edit adds them.
fn seal_all<S: Site>(alloc: Global, site: &mut S, mut output: Output) -> Result<Edit, JobErr>
    requires usable { output.failed ≡ false }
    requires made { (o : Out) × ((from : ℕ) × ((next : ℕ) × IsOut o output × IsMade from next o)) }
    requires there { S.shows → AreThere (S.disk site.old) output }
    ensures edit { (o : Out) (from next : ℕ) → IsOut o output → IsMade from next o → IfOk result (IsEditOf (finished o)) }
    ensures holds { S.shows → (o : Out) (from next : ℕ) → IsOut o output → IsMade from next o → HoldsOut (S.disk site.old) o → OnOk result (HoldsOut (S.disk site.new) (finished o)) }
    ensures fits { IfOk result FitsWords }
    ensures certain { S.shows → S.certain site.old → OnOk result (S.certain site.new) }
    ensures asked { Rose (S.changes site.old) (S.changes site.new) ⊎ ((site.new ≡ site.old) × IfErr result (λ e. e ≡ OutOfMemory)) }
    ensures touches { TouchesOnly S.Site (names_of output.drawn) site.old site.new }
    ensures tells_nothing { TellsNothing S.Site site.old site.new }
    ensures causes { IfErr result IsSealCause }
    ensures disk { IsErrOf result Disk → Rose (S.disk_faults site.old) (S.disk_faults site.new) }
{
    outputs_are_sealed_file_by_file();
    let mut edit = Edit::new(alloc);
    'files: while let Some(sealed) = output.seal(alloc, site)? {
        push(&mut edit, sealed)?;
    }
    Ok(edit)
}

/// Writes what is kept of a memory for the snapshots: at most one table, in which large values are blob indexes, and the
/// blob files with these values. The files are synced. The memory's entries are proper puts and deletions.
///
/// Errors: `Disk`; `Full(10^15)`, where more files are to be made than numbers are left, unless another failure comes before
/// it; `OutOfMemory`. Files with the numbers that were drawn may then be there or not, and hold anything; no other file has
/// changed. Where memory ran out before the folder was asked nothing has changed.
pub fn flush_all<S: Site>(
    alloc: Global,
    site: &mut S,
    numbers: &mut Numbers,
    memory: &MemTable,
    options: &Options,
    snapshots: &[u64],
) -> Result<Edit, JobErr>
    requires { ArePutsAndDeletions memory.now }
    // The files are a flush of the memory.
    ensures flushes { S.shows → IfOk result (Flushes options.now numbers.old numbers.new snapshots.now memory.now (S.disk site.new)) }
    // Which files are made, exactly: each has one number, and no other is drawn.
    ensures edit { IfOk result (IsEditOf (flushed options.now snapshots.now numbers.old memory.now)) }
    ensures numbers { OnOk result (numbers.new ≡ next_of options.now snapshots.now numbers.old memory.now) }
    ensures holds { S.shows → OnOk result (HoldsOut (S.disk site.new) (flushed options.now snapshots.now numbers.old memory.now)) }
    ensures bounds { IfOk result (λ edit. IsEdit edit × FitsWords edit) }
    ensures certain { S.shows → S.certain site.old → OnOk result (S.certain site.new) }
    ensures refused { IfErr result (λ e. RefusesFlush S.Site e (next_of options.now snapshots.now numbers.old memory.now) numbers.old numbers.new site.old site.new) }
    // At Ok the folder was asked, or no file is made and the site is as it was.
    ensures asked { OnOk result (Rose (S.changes site.old) (S.changes site.new) ⊎ ((site.new ≡ site.old) × (numbers.new ≡ numbers.old))) }
    // Only files whose numbers it drew change.
    ensures touches { TouchesOnly S.Site (names_of (range_with_len numbers.old (numbers.new - numbers.old))) site.old site.new }
    ensures tells_nothing { TellsNothing S.Site site.old site.new }
    ensures causes { IfErr result IsAddCause }
    ensures disk { IsErrOf result Disk → Rose (S.disk_faults site.old) (S.disk_faults site.new) }
{
    finished_outputs_are_read();
    flushes_make_what_is_kept();
    ascends(memory);
    show_range(options);
    show_next(numbers);
    let output = add_kept(alloc, site, numbers, memory, options, snapshots)?;
    show_next(numbers);
    seal_all(alloc, site, output)
}
