//! The next entry of a run is taken into the hand.

ghost use Rattle.std.specs.Prelude.{◌≡◌, ◌≢◌, ℕ, ◌<◌, [], drop, IsErrOf, OnOk, OnErr};
ghost use Rattle.std.specs.List.{AllByRecursion};
ghost use Rattle.std.specs.BinaryHeap.{heap_items};
ghost use Rattle.bl_site.specs.Disk.{Name, folder_of};
ghost use Rattle.bl_site.specs.Causes.{Rose};
ghost use Rattle.bl_site.specs.Quiet.{OnlyReads};
ghost use Rattle.bl_entry.specs.declared.run.RunErr.TheVariants.{Corrupt};
ghost use Rattle.bl_entry.specs.Entries.{first_at};
ghost use Rattle.bl_entry.specs.Runs.{KeepsRun};
ghost use Rattle.bl_merge.specs.Heads.{AreHeads, Loads, behind, in_hand};

use crate::head::Head;
use bl_entry::{InternalKey, Run, RunErr};
use bl_site::Site;
use std::collections::BinaryHeap;

/// The run of this number, which has no entry in hand, gives its next one, if there is one.
///
/// Errors: those of the run; nothing has changed then but the site's count of faults.
pub(crate) fn load<R: Run, S: Site>(
    run: &mut R,
    heads: &mut BinaryHeap<Head>,
    at: usize,
    site: &mut S,
) -> Result<(), RunErr>
    requires heads { AreHeads R.admits (heap_items heads.old) }
    requires none { in_hand at (heap_items heads.old) ≡ [] }
    ensures heads { AreHeads R.admits (heap_items heads.new) }
    ensures numbers { (n : ℕ) → at < n → AllByRecursion (λ h. h.run < n) (heap_items heads.old) → AllByRecursion (λ h. h.run < n) (heap_items heads.new) }
    ensures others { (j : ℕ) → j ≢ at → in_hand j (heap_items heads.new) ≡ in_hand j (heap_items heads.old) }
    ensures loaded { S.shows → R.keeps run.old (folder_of (S.disk site.old))
        → OnOk result (Loads (in_hand at (heap_items heads.new)) (behind R.entries R.place (folder_of (S.disk site.old)) run.old) (behind R.entries R.place (folder_of (S.disk site.old)) run.new)) }
    ensures refused { OnErr result (heap_items heads.new ≡ heap_items heads.old) }
    ensures stood { S.shows → R.keeps run.old (folder_of (S.disk site.old))
        → OnErr result (behind R.entries R.place (folder_of (S.disk site.old)) run.new ≡ behind R.entries R.place (folder_of (S.disk site.old)) run.old) }
    ensures corrupt { S.shows → R.keeps run.old (folder_of (S.disk site.old)) → (name : Name) (place : ℕ) → result ≡ Err (Corrupt name place)
        → R.reads run.old name × R.is_outside run.old (folder_of (S.disk site.old)) name }
    ensures keeps { S.shows → R.keeps run.old (folder_of (S.disk site.old)) → R.keeps run.new (folder_of (S.disk site.old)) }
    ensures same { KeepsRun R.entries R.reads R.is_outside run.old run.new }
    ensures disk { IsErrOf result RunErr.Disk → Rose (S.disk_faults site.old) (S.disk_faults site.new) }
    // The site is read, and nothing else.
    ensures quiet { OnlyReads S.Site site.old site.new }
{
    match heads.reserve(1) {
        Ok(()) => {}
        Err(_) => return Err(RunErr::OutOfMemory),
    }
    let Some(entry) = run.next(site)? else {
        return Ok(());
    };
    match heads.push(Head { entry, run: at }) {
        Ok(()) => Ok(()),
        Err(_) => unreachable!(),
    }
}

/// The run of this number, which has no entry in hand, is sought, and gives its first entry from `from` on, if
/// there is one.
///
/// Errors: those of the run.
pub(crate) fn seek_one<R: Run, S: Site>(
    run: &mut R,
    heads: &mut BinaryHeap<Head>,
    at: usize,
    site: &mut S,
    from: &InternalKey,
) -> Result<(), RunErr>
    requires heads { AreHeads R.admits (heap_items heads.old) }
    requires none { in_hand at (heap_items heads.old) ≡ [] }
    ensures heads { AreHeads R.admits (heap_items heads.new) }
    ensures numbers { (n : ℕ) → at < n → AllByRecursion (λ h. h.run < n) (heap_items heads.old) → AllByRecursion (λ h. h.run < n) (heap_items heads.new) }
    ensures others { (j : ℕ) → j ≢ at → in_hand j (heap_items heads.new) ≡ in_hand j (heap_items heads.old) }
    ensures sought { S.shows → R.keeps run.old (folder_of (S.disk site.old))
        → OnOk result (Loads (in_hand at (heap_items heads.new)) (drop (first_at from.now (R.entries run.old (folder_of (S.disk site.old)))) (R.entries run.old (folder_of (S.disk site.old)))) (behind R.entries R.place (folder_of (S.disk site.old)) run.new)) }
    ensures corrupt { S.shows → R.keeps run.old (folder_of (S.disk site.old)) → (name : Name) (place : ℕ) → result ≡ Err (Corrupt name place)
        → R.reads run.old name × R.is_outside run.old (folder_of (S.disk site.old)) name }
    ensures keeps { S.shows → R.keeps run.old (folder_of (S.disk site.old)) → R.keeps run.new (folder_of (S.disk site.old)) }
    ensures same { KeepsRun R.entries R.reads R.is_outside run.old run.new }
    ensures disk { IsErrOf result RunErr.Disk → Rose (S.disk_faults site.old) (S.disk_faults site.new) }
    // The site is read, and nothing else.
    ensures quiet { OnlyReads S.Site site.old site.new }
{
    run.seek(site, from)?;
    load(run, heads, at, site)
}
