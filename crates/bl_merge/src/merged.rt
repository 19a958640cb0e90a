//! Sorted runs merged.

ghost use Rattle.std.specs.Prelude.{◌≡◌, ℕ, [], Some, drop, map, slice_get, None, IfErr, IfNone, IfOk, IfSome, IsErrOf, OnOk, OnErr};
ghost use Rattle.std.specs.List.{AllByRecursion, AllZip};
ghost use Rattle.std.specs.BinaryHeap.{heap_items};
ghost use Rattle.bl_site.specs.Disk.{Folder, Name, folder_of};
ghost use Rattle.bl_site.specs.Causes.{Rose};
ghost use Rattle.bl_site.specs.Quiet.{OnlyReads};
ghost use Rattle.bl_entry.specs.Latest.{latest};
ghost use Rattle.bl_entry.specs.declared.run.RunErr.TheVariants.{Corrupt};
ghost use Rattle.bl_entry.specs.Runs.{KeepsRun};
ghost use Rattle.bl_merge.specs.Heads.{AllNumbered, AnyOf, HasPlace, IsDue, IsMerging, IsReady, IsSought, KeepAll, rest, union};
ghost use Rattle.bl_merge.specs.Lists.{IsUser, from_on, of_user as if_of_user, seen_from};

use crate::head::Head;
use crate::load::{load, seek_one};
use bl_code::{MAX_KEY, Octets};
use bl_entry::{Entry, InternalKey, Kind, Run, RunErr};
use bl_site::Site;
use std::alloc::Global;
use std::collections::BinaryHeap;
use std::marker::Model;

// The greatest sequence.
const MAX_SEQ: u64 = (1 << 56) - 1;

/// Several runs as one list: the entries of all of them in key order, those of equal keys in the order of the runs.
/// It holds one entry of each run, and gives the least of them first.
#[derive(Drop)]
pub struct Merged<R: Run> {
    alloc: Global,
    runs: Vec<R>,
    heads: BinaryHeap<Head>,
    due: Option<usize>,
}

impl<R: Run> Model for Merged<R> {
    ghost use Rattle.std.specs.BinaryHeap.{heap_items};
    ghost use Rattle.bl_merge.specs.Heads.{Merging, IsMerging};

    ghost Value = { Merging R };

    ghost view = { λ m. record { runs = m.runs.items; heads = heap_items m.heads; due = m.due } };

    ghost invariant = { λ m. IsMerging R.admits m.runs.items (heap_items m.heads) m.due };
}

// Each run is sought, and gives its first entry.
fn seek_all<R: Run, S: Site>(
    runs: &mut Vec<R>,
    heads: &mut BinaryHeap<Head>,
    site: &mut S,
    from: &InternalKey,
) -> Result<(), RunErr>
    requires heads { IsMerging R.admits runs.old.items (heap_items heads.old) None }
    requires none { heap_items heads.old ≡ [] }
    ensures heads { IsMerging R.admits runs.new.items (heap_items heads.new) None }
    ensures sought { S.shows → AllByRecursion (λ r. R.keeps r (folder_of (S.disk site.old))) runs.old.items
        → OnOk result (AllNumbered (IsSought R.entries R.place (folder_of (S.disk site.old)) from.now (heap_items heads.new)) 0 runs.new.items) }
    ensures corrupt { S.shows → AllByRecursion (λ r. R.keeps r (folder_of (S.disk site.old))) runs.old.items → (name : Name) (place : ℕ) → result ≡ Err (Corrupt name place)
        → AnyOf (λ r. R.reads r name × R.is_outside r (folder_of (S.disk site.old)) name) runs.old.items }
    ensures keeps { S.shows → AllByRecursion (λ r. R.keeps r (folder_of (S.disk site.old))) runs.old.items → AllByRecursion (λ r. R.keeps r (folder_of (S.disk site.old))) runs.new.items }
    ensures same { AllZip (KeepsRun R.entries R.reads R.is_outside) runs.old.items runs.new.items }
    ensures disk { IsErrOf result RunErr.Disk → Rose (S.disk_faults site.old) (S.disk_faults site.new) }
    // The site is read, and nothing else.
    ensures quiet { OnlyReads S.Site site.old site.new }
{
    'runs: for at in 0..runs.len() {
        let run = &mut runs[at];
        seek_one(run, heads, at, site, from)?;
    }
    Ok(())
}

// The run that is due gives its next entry; then none is.
fn refill<R: Run, S: Site>(
    runs: &mut Vec<R>,
    heads: &mut BinaryHeap<Head>,
    due: &mut Option<usize>,
    site: &mut S,
) -> Result<(), RunErr>
    requires heads { IsMerging R.admits runs.old.items (heap_items heads.old) due.old }
    ensures heads { IsMerging R.admits runs.new.items (heap_items heads.new) due.new }
    ensures loaded { S.shows → HasPlace R.entries R.place R.keeps (record { runs = runs.old.items; heads = heap_items heads.old; due = due.old }) (folder_of (S.disk site.old))
        → HasPlace R.entries R.place R.keeps (record { runs = runs.new.items; heads = heap_items heads.new; due = due.new }) (folder_of (S.disk site.old))
        × (rest R.entries R.place (record { runs = runs.new.items; heads = heap_items heads.new; due = due.new }) (folder_of (S.disk site.old)) ≡ rest R.entries R.place (record { runs = runs.old.items; heads = heap_items heads.old; due = due.old }) (folder_of (S.disk site.old))) }
    ensures none { OnOk result (due.new ≡ None) }
    ensures corrupt { S.shows → AllByRecursion (λ r. R.keeps r (folder_of (S.disk site.old))) runs.old.items → (name : Name) (place : ℕ) → result ≡ Err (Corrupt name place)
        → AnyOf (λ r. R.reads r name × R.is_outside r (folder_of (S.disk site.old)) name) runs.old.items }
    ensures keeps { S.shows → AllByRecursion (λ r. R.keeps r (folder_of (S.disk site.old))) runs.old.items → AllByRecursion (λ r. R.keeps r (folder_of (S.disk site.old))) runs.new.items }
    ensures same { AllZip (KeepsRun R.entries R.reads R.is_outside) runs.old.items runs.new.items }
    ensures disk { IsErrOf result RunErr.Disk → Rose (S.disk_faults site.old) (S.disk_faults site.new) }
    // The site is read, and nothing else.
    ensures quiet { OnlyReads S.Site site.old site.new }
{
    let Some(at) = *due else {
        return Ok(());
    };
    let run = &mut runs[at];
    load(run, heads, at, site)?;
    *due = None;
    Ok(())
}

// The entry leaves the hand, and its run is due.
fn handed(head: Head, due: &mut Option<usize>) -> Entry
    ensures entry { result ≡ head.entry }
    ensures due { due.new ≡ Some head.run }
{
    *due = Some(head.run);
    head.entry
}

// The key at which the entries of a user key up to a sequence begin; None where no key has this user key.
fn key_for(alloc: Global, key: &[u8], seq: u64) -> Result<Option<InternalKey>, RunErr>
    ensures found { IfOk result (λ found. IfSome found (λ from. from ≡ seen_from key.now seq)) }
    ensures none { IfOk result (λ found. IfNone found (IsUser key.now → ⊥)) }
    ensures memory { IfErr result (λ e. e ≡ RunErr.OutOfMemory) }
{
    if key.is_empty() || key.len() > MAX_KEY {
        return Ok(None);
    }
    let Ok(user) = Octets::from_slice(alloc, key) else {
        return Err(RunErr::OutOfMemory);
    };
    Ok(Some(InternalKey {
        user,
        seq: seq.min(MAX_SEQ),
        kind: Kind::BlobRef,
    }))
}

// The entry, where it is of the user key.
fn of_user(found: Option<Entry>, key: &[u8]) -> Option<Entry>
    ensures { result ≡ if_of_user key.now found }
{
    match found {
        Some(entry) if entry.key.user.as_slice().cmp(key).is_eq() => Some(entry),
        _ => None,
    }
}

impl<R: Run> Merged<R> {
    /// These runs; the first one is first among equal keys. It has no place yet, and takes no memory.
    pub fn over(alloc: Global, runs: Vec<R>) -> Merged<R>
        ensures { result ≡ record { runs = runs.items; heads = []; due = None } }
    {
        Merged {
            alloc,
            runs,
            heads: BinaryHeap::new(alloc),
            due: None,
        }
    }

    /// Moves to the first entry at or behind `from`, or to the end where there is none: those from there on are what
    /// it has yet to give.
    ///
    /// Errors: `Disk`, only where the disk failed in this call; `Corrupt`, only with a file that a run reads and that
    /// is outside its grammar; `OutOfMemory`. In each case it has no place.
    pub fn seek<S: Site>(&mut self, site: &mut S, from: &InternalKey) -> Result<(), RunErr>
        ensures placed { S.shows → KeepAll R.keeps self.old (folder_of (S.disk site.old)) → OnOk result (HasPlace R.entries R.place R.keeps self.new (folder_of (S.disk site.old))) }
        ensures moved { S.shows → KeepAll R.keeps self.old (folder_of (S.disk site.old))
            → OnOk result (rest R.entries R.place self.new (folder_of (S.disk site.old)) ≡ from_on from.now (union R.entries self.old (folder_of (S.disk site.old)))) }
        ensures corrupt { S.shows → KeepAll R.keeps self.old (folder_of (S.disk site.old)) → (name : Name) (place : ℕ) → result ≡ Err (Corrupt name place)
            → AnyOf (λ r. R.reads r name × R.is_outside r (folder_of (S.disk site.old)) name) self.old.runs }
        ensures keeps { S.shows → KeepAll R.keeps self.old (folder_of (S.disk site.old)) → KeepAll R.keeps self.new (folder_of (S.disk site.old)) }
        // The runs are the same ones, each with its list and its files.
        ensures same { AllZip (KeepsRun R.entries R.reads R.is_outside) self.old.runs self.new.runs }
        ensures list { (folder : Folder) → union R.entries self.new folder ≡ union R.entries self.old folder }
        ensures disk { IsErrOf result RunErr.Disk → Rose (S.disk_faults site.old) (S.disk_faults site.new) }
        // The site is read, and nothing else.
        ensures quiet { OnlyReads S.Site site.old site.new }
    {
        self.due = None;
        self.heads.clear();
        seek_all(&mut self.runs, &mut self.heads, site, from)
    }

    /// Gives the first entry of what it has yet to give, and moves behind it; None where there is none. Entries are
    /// given in key order, those of equal keys in the order of the runs. One call looks at some multiple of as
    /// many entries in hand as a heap of the runs is high, and copies none.
    ///
    /// Errors: those of `seek`, each as there; but it has yet to give what it had before.
    pub fn next<S: Site>(&mut self, site: &mut S) -> Result<Option<Entry>, RunErr>
        ensures placed { S.shows → HasPlace R.entries R.place R.keeps self.old (folder_of (S.disk site.old)) → HasPlace R.entries R.place R.keeps self.new (folder_of (S.disk site.old)) }
        ensures given { S.shows → HasPlace R.entries R.place R.keeps self.old (folder_of (S.disk site.old))
            → IfOk result (λ found. found ≡ slice_get (rest R.entries R.place self.old (folder_of (S.disk site.old))) 0) }
        ensures moved { S.shows → HasPlace R.entries R.place R.keeps self.old (folder_of (S.disk site.old))
            → OnOk result (rest R.entries R.place self.new (folder_of (S.disk site.old)) ≡ drop 1 (rest R.entries R.place self.old (folder_of (S.disk site.old)))) }
        ensures refused { S.shows → HasPlace R.entries R.place R.keeps self.old (folder_of (S.disk site.old))
            → OnErr result (rest R.entries R.place self.new (folder_of (S.disk site.old)) ≡ rest R.entries R.place self.old (folder_of (S.disk site.old))) }
        ensures admitted { IfOk result (λ found. IfSome found R.admits) }
        ensures corrupt { S.shows → KeepAll R.keeps self.old (folder_of (S.disk site.old)) → (name : Name) (place : ℕ) → result ≡ Err (Corrupt name place)
            → AnyOf (λ r. R.reads r name × R.is_outside r (folder_of (S.disk site.old)) name) self.old.runs }
        ensures keeps { S.shows → KeepAll R.keeps self.old (folder_of (S.disk site.old)) → KeepAll R.keeps self.new (folder_of (S.disk site.old)) }
        // The runs are the same ones, each with its list and its files.
        ensures same { AllZip (KeepsRun R.entries R.reads R.is_outside) self.old.runs self.new.runs }
        ensures list { (folder : Folder) → union R.entries self.new folder ≡ union R.entries self.old folder }
        ensures disk { IsErrOf result RunErr.Disk → Rose (S.disk_faults site.old) (S.disk_faults site.new) }
        // The site is read, and nothing else.
        ensures quiet { OnlyReads S.Site site.old site.new }
    {
        refill(&mut self.runs, &mut self.heads, &mut self.due, site)?;
        let Some(head) = self.heads.pop() else {
            return Ok(None);
        };
        Ok(Some(handed(head, &mut self.due)))
    }

    // The first entry at or behind a key.
    fn first_from<S: Site>(
        &mut self,
        site: &mut S,
        from: &InternalKey,
    ) -> Result<Option<Entry>, RunErr>
        ensures given { S.shows → KeepAll R.keeps self.old (folder_of (S.disk site.old))
            → IfOk result (λ found. found ≡ slice_get (from_on from.now (union R.entries self.old (folder_of (S.disk site.old)))) 0) }
        ensures admitted { IfOk result (λ found. IfSome found R.admits) }
        ensures corrupt { S.shows → KeepAll R.keeps self.old (folder_of (S.disk site.old)) → (name : Name) (place : ℕ) → result ≡ Err (Corrupt name place)
            → AnyOf (λ r. R.reads r name × R.is_outside r (folder_of (S.disk site.old)) name) self.old.runs }
        ensures keeps { S.shows → KeepAll R.keeps self.old (folder_of (S.disk site.old)) → KeepAll R.keeps self.new (folder_of (S.disk site.old)) }
        // The runs are the same ones, each with its list and its files.
        ensures same { AllZip (KeepsRun R.entries R.reads R.is_outside) self.old.runs self.new.runs }
        ensures list { (folder : Folder) → union R.entries self.new folder ≡ union R.entries self.old folder }
        ensures disk { IsErrOf result RunErr.Disk → Rose (S.disk_faults site.old) (S.disk_faults site.new) }
        // The site is read, and nothing else.
        ensures quiet { OnlyReads S.Site site.old site.new }
    {
        self.seek(site, from)?;
        self.next(site)
    }

    /// The first entry of this user key, in the order in which entries are given, whose sequence is at most `seq`;
    /// None where there is none. It has no place then.
    ///
    /// Errors: those of `seek`, each as there.
    pub fn visible<S: Site>(
        &mut self,
        site: &mut S,
        key: &[u8],
        seq: u64,
    ) -> Result<Option<Entry>, RunErr>
        ensures given { S.shows → KeepAll R.keeps self.old (folder_of (S.disk site.old))
            → IfOk result (λ found. found ≡ latest key.now seq (union R.entries self.old (folder_of (S.disk site.old)))) }
        ensures admitted { IfOk result (λ found. IfSome found R.admits) }
        ensures corrupt { S.shows → KeepAll R.keeps self.old (folder_of (S.disk site.old)) → (name : Name) (place : ℕ) → result ≡ Err (Corrupt name place)
            → AnyOf (λ r. R.reads r name × R.is_outside r (folder_of (S.disk site.old)) name) self.old.runs }
        ensures keeps { S.shows → KeepAll R.keeps self.old (folder_of (S.disk site.old)) → KeepAll R.keeps self.new (folder_of (S.disk site.old)) }
        // The runs are the same ones, each with its list and its files.
        ensures same { AllZip (KeepsRun R.entries R.reads R.is_outside) self.old.runs self.new.runs }
        ensures list { (folder : Folder) → union R.entries self.new folder ≡ union R.entries self.old folder }
        ensures disk { IsErrOf result RunErr.Disk → Rose (S.disk_faults site.old) (S.disk_faults site.new) }
        // The site is read, and nothing else.
        ensures quiet { OnlyReads S.Site site.old site.new }
    {
        let Some(from) = key_for(self.alloc, key, seq)? else {
            return Ok(None);
        };
        let found = self.first_from(site, &from)?;
        Ok(of_user(found, key))
    }
}
