//! The current folder. What is no regular file, as a link, a pipe or a folder, is never opened, followed, emptied or waited for.
ghost use Rattle.std.specs.Prelude.{◌≡◌, ◌≢◌, ◌≤◌, ◌<◌, ◌∷◌, [], List, Option, length, take, map, true, false, IfOk, IfErr, IfSome, IsTrue, IsErr, OnOk, slice_index_or};
ghost use Rattle.std.specs.String.{string_bytes};
ghost use Rattle.bl_site.specs.Disk.{Name};
ghost use Rattle.bl_site_host.specs.Events.{Event, Looked, Listing, ListingBroke, Read, Wrote, SyncedFile, SyncedFolder, Renamed, Removed, SawNoOther, IsNewest, IsOn, IsMade, IsOnDisk, StaysMarked, StaysTrue, files_of, found_of};
ghost use Rattle.bl_site_host.specs.Stops.{FailsBy, GoesThrough, NoFile, NotRenamed, OtherThing};
ghost use Rattle.bl_site_host.specs.Changes.{ChangesNone, Changes, IsMaking, IsWriting, IsRenaming, IsRemoving};
ghost use Rattle.bl_site_host.specs.declared.faults.Fault.TheVariants.{Memory};
ghost use Rattle.bl_site_host.specs.Handles.{StaysSound, IsSound, OldestIsLetGo, IsPlaceOf};

use crate::faults::{Fault, changed, synced};
use crate::handles::Handles;
use crate::system::{Found, Listed, System};
use std::alloc::Global;
use std::io::{self, ErrorKind};

#[derive(Drop)]
pub(crate) struct Folder<S: System + Drop> {
    pub(crate) system: S,
    handles: Handles<S::File>,
    alloc: Global,
    // Whether the system has failed to put something on the disk.
    lost: bool,
}

impl<S: System + Drop> Folder<S> {
    pub(crate) fn new(alloc: Global, system: S) -> Folder<S>
        ensures system { result.system ≡ system }
        ensures lost { result.lost ≡ false }
        ensures sound { S.calls system ≡ [] → IsSound S.id (S.calls result.system) result.handles.open.items }
    {
        Folder {
            system,
            handles: Handles::new(alloc),
            alloc,
            lost: false,
        }
    }

    pub(crate) fn length(&mut self, name: &str) -> Result<Option<u64>, Fault>
        ensures lost { self.new.lost ≡ self.old.lost }
        ensures seen { S.shows → IfOk result (λ length. S.calls self.new.system ≡ Looked name.now (Some (found_of length)) ∷ S.calls self.old.system) }
        ensures changes { S.shows → ChangesNone (S.calls self.old.system) (S.calls self.new.system) }
        ensures marked { S.shows → StaysMarked (S.calls self.old.system) self.old.lost (S.calls self.new.system) self.new.lost }
        ensures reason { S.shows → StaysTrue (S.calls self.old.system) self.old.lost (S.calls self.new.system) self.new.lost }
        ensures sound { S.shows → StaysSound S.id (S.calls self.old.system) self.old.handles.open.items (S.calls self.new.system) self.new.handles.open.items }
        ensures failed { S.shows → IfErr result (λ fault. FailsBy (OtherThing name.now) self.new.lost fault (S.calls self.old.system) (S.calls self.new.system)) }
        ensures grows { S.shows → length (S.calls self.old.system) < length (S.calls self.new.system) }
    {
        match self.system.look(name)? {
            Found::Nothing => Ok(None),
            Found::File(length) => Ok(Some(length)),
            Found::Other => Err(not_regular()),
        }
    }

    // The regular files whose names are UTF-8.
    pub(crate) fn names(&mut self, alloc: Global) -> Result<Vec<String>, Fault>
        ensures all { S.shows → IfOk result (λ names. (entries : List (Option Name)) × (S.calls self.new.system ≡ Listing (Some entries) ∷ S.calls self.old.system) × (map string_bytes names.items ≡ files_of entries)) }
        ensures changes { S.shows → ChangesNone (S.calls self.old.system) (S.calls self.new.system) }
        ensures stays_lost { IsTrue self.old.lost → IsTrue self.new.lost }
        ensures marked { S.shows → StaysMarked (S.calls self.old.system) self.old.lost (S.calls self.new.system) self.new.lost }
        ensures reason { S.shows → StaysTrue (S.calls self.old.system) self.old.lost (S.calls self.new.system) self.new.lost }
        ensures sound { S.shows → StaysSound S.id (S.calls self.old.system) self.old.handles.open.items (S.calls self.new.system) self.new.handles.open.items }
        ensures failed { S.shows → IfErr result (λ fault. FailsBy (λ _ _. ⊥) self.new.lost fault (S.calls self.old.system) (S.calls self.new.system)) }
    {
        let entries = self.system.list()?;
        files(alloc, &mut self.system, entries)
    }

    pub(crate) fn read(
        &mut self,
        name: &str,
        offset: u64,
        into: &mut [u8],
    ) -> Result<Option<usize>, Fault>
        ensures bound { IfOk result (λ r. IfSome r (λ count. count ≤ length into.new)) }
        ensures bytes { S.shows → IsSound S.id (S.calls self.old.system) self.old.handles.open.items
            → IfOk result (λ r. IfSome r (λ count. IsOn name.now (λ file. Read file offset (length into.old) (Some (take count into.new))) (S.calls self.old.system) (S.calls self.new.system))) }
        ensures absent { S.shows → result ≡ Ok None → IsNewest (Looked name.now (Some Found.Nothing)) (S.calls self.old.system) (S.calls self.new.system) }
        ensures changes { S.shows → ChangesNone (S.calls self.old.system) (S.calls self.new.system) }
        ensures stays_lost { IsTrue self.old.lost → IsTrue self.new.lost }
        ensures marked { S.shows → StaysMarked (S.calls self.old.system) self.old.lost (S.calls self.new.system) self.new.lost }
        ensures reason { S.shows → StaysTrue (S.calls self.old.system) self.old.lost (S.calls self.new.system) self.new.lost }
        ensures sound { S.shows → StaysSound S.id (S.calls self.old.system) self.old.handles.open.items (S.calls self.new.system) self.new.handles.open.items }
        ensures failed { S.shows → IfErr result (λ fault. FailsBy (OtherThing name.now) self.new.lost fault (S.calls self.old.system) (S.calls self.new.system)) }
    {
        let Some(at) = self.opened(name, false)? else {
            return Ok(None);
        };
        let file = &mut self.handles.open[at].file;
        Ok(Some(self.system.read(file, offset, into)?))
    }

    pub(crate) fn append(&mut self, name: &str, bytes: &[u8]) -> Result<(), Fault>
        ensures bytes { S.shows → IsSound S.id (S.calls self.old.system) self.old.handles.open.items
            → OnOk result (IsOn name.now (λ file. Wrote file bytes.now true) (S.calls self.old.system) (S.calls self.new.system)) }
        ensures changes { S.shows → Changes (IsWriting bytes.now) result (S.calls self.old.system) (S.calls self.new.system) }
        ensures stays_lost { IsTrue self.old.lost → IsTrue self.new.lost }
        ensures marked { S.shows → StaysMarked (S.calls self.old.system) self.old.lost (S.calls self.new.system) self.new.lost }
        ensures reason { S.shows → StaysTrue (S.calls self.old.system) self.old.lost (S.calls self.new.system) self.new.lost }
        ensures sound { S.shows → StaysSound S.id (S.calls self.old.system) self.old.handles.open.items (S.calls self.new.system) self.new.handles.open.items }
        ensures failed { S.shows → IfErr result (λ fault. FailsBy (NoFile name.now) self.new.lost fault (S.calls self.old.system) (S.calls self.new.system)) }
    {
        let Some(at) = self.opened(name, true)? else {
            return Err(no_such_file());
        };
        let handle = &mut self.handles.open[at];
        handle.unsynced = true;
        changed(self.system.append(&mut handle.file, bytes))
    }

    pub(crate) fn sync(&mut self, name: &str) -> Result<(), Fault>
        ensures lost { IsTrue self.old.lost → IsErr result }
        ensures file { S.shows → IsSound S.id (S.calls self.old.system) self.old.handles.open.items
            → OnOk result (IsOn name.now (λ file. SyncedFile file true) (S.calls self.old.system) (S.calls self.new.system)) }
        ensures changes { S.shows → ChangesNone (S.calls self.old.system) (S.calls self.new.system) }
        ensures stays_lost { IsTrue self.old.lost → IsTrue self.new.lost }
        ensures marked { S.shows → StaysMarked (S.calls self.old.system) self.old.lost (S.calls self.new.system) self.new.lost }
        ensures reason { S.shows → StaysTrue (S.calls self.old.system) self.old.lost (S.calls self.new.system) self.new.lost }
        ensures sound { S.shows → StaysSound S.id (S.calls self.old.system) self.old.handles.open.items (S.calls self.new.system) self.new.handles.open.items }
        ensures failed { S.shows → IfErr result (λ fault. FailsBy (NoFile name.now) self.new.lost fault (S.calls self.old.system) (S.calls self.new.system)) }
    {
        let Some(at) = self.opened(name, false)? else {
            return Err(no_such_file());
        };
        let handle = &mut self.handles.open[at];
        let done = self.system.sync_file(&handle.file);
        handle.unsynced = done.is_err();
        synced(&mut self.lost, done)
    }

    // An empty file, in the place of an older one. Its length too is on the disk before the folder is.
    pub(crate) fn create(&mut self, name: &str) -> Result<(), Fault>
        ensures lost { IsTrue self.old.lost → IsErr result }
        ensures made { S.shows → OnOk result (IsMade name.now (S.calls self.new.system)) }
        ensures changes { S.shows → Changes (IsMaking name.now) result (S.calls self.old.system) (S.calls self.new.system) }
        ensures stays_lost { IsTrue self.old.lost → IsTrue self.new.lost }
        ensures marked { S.shows → StaysMarked (S.calls self.old.system) self.old.lost (S.calls self.new.system) self.new.lost }
        ensures reason { S.shows → StaysTrue (S.calls self.old.system) self.old.lost (S.calls self.new.system) self.new.lost }
        ensures sound { S.shows → StaysSound S.id (S.calls self.old.system) self.old.handles.open.items (S.calls self.new.system) self.new.handles.open.items }
        ensures failed { S.shows → IfErr result (λ fault. FailsBy (OtherThing name.now) self.new.lost fault (S.calls self.old.system) (S.calls self.new.system)) }
    {
        let replaces = self.is_there(name)?;
        self.handles.close(name);
        let file = changed(self.system.make(name, replaces))?;
        let done = self.system.sync_file(&file);
        synced(&mut self.lost, done)?;
        self.sync_names()
    }

    pub(crate) fn rename(&mut self, from: &str, to: &str) -> Result<(), Fault>
        ensures lost { IsTrue self.old.lost → IsErr result }
        ensures renamed { S.shows → OnOk result (IsOnDisk (Renamed from.now to.now true) (S.calls self.new.system)) }
        ensures changes { S.shows → Changes (IsRenaming from.now to.now) result (S.calls self.old.system) (S.calls self.new.system) }
        ensures stays_lost { IsTrue self.old.lost → IsTrue self.new.lost }
        ensures marked { S.shows → StaysMarked (S.calls self.old.system) self.old.lost (S.calls self.new.system) self.new.lost }
        ensures reason { S.shows → StaysTrue (S.calls self.old.system) self.old.lost (S.calls self.new.system) self.new.lost }
        ensures sound { S.shows → StaysSound S.id (S.calls self.old.system) self.old.handles.open.items (S.calls self.new.system) self.new.handles.open.items }
        ensures failed { S.shows → IfErr result (λ fault. FailsBy (NotRenamed from.now to.now) self.new.lost fault (S.calls self.old.system) (S.calls self.new.system)) }
    {
        if !self.is_there(from)? {
            return Err(no_such_file());
        }
        let _replaces = self.is_there(to)?;
        self.settle(from)?;
        self.handles.close(from);
        self.handles.close(to);
        changed(self.system.rename(from, to))?;
        self.sync_names()
    }

    pub(crate) fn remove(&mut self, name: &str) -> Result<(), Fault>
        ensures lost { IsTrue self.old.lost → IsErr result }
        ensures removed { S.shows → OnOk result (IsOnDisk (Removed name.now true) (S.calls self.new.system)) }
        ensures changes { S.shows → Changes (IsRemoving name.now) result (S.calls self.old.system) (S.calls self.new.system) }
        ensures stays_lost { IsTrue self.old.lost → IsTrue self.new.lost }
        ensures marked { S.shows → StaysMarked (S.calls self.old.system) self.old.lost (S.calls self.new.system) self.new.lost }
        ensures reason { S.shows → StaysTrue (S.calls self.old.system) self.old.lost (S.calls self.new.system) self.new.lost }
        ensures sound { S.shows → StaysSound S.id (S.calls self.old.system) self.old.handles.open.items (S.calls self.new.system) self.new.handles.open.items }
        ensures failed { S.shows → IfErr result (λ fault. FailsBy (NoFile name.now) self.new.lost fault (S.calls self.old.system) (S.calls self.new.system)) }
    {
        if !self.is_there(name)? {
            return Err(no_such_file());
        }
        self.handles.close(name);
        changed(self.system.remove(name))?;
        self.sync_names()
    }

    // What was appended to the open file of this name is put on the disk before it is closed, so that no failure to do so goes unseen.
    fn settle(&mut self, name: &str) -> Result<(), Fault>
        ensures lost { IsTrue self.old.lost → IsTrue self.new.lost }
        ensures disk { IfErr result (λ fault. fault ≢ Memory) }
        ensures changes { S.shows → ChangesNone (S.calls self.old.system) (S.calls self.new.system) }
        ensures marked { S.shows → StaysMarked (S.calls self.old.system) self.old.lost (S.calls self.new.system) self.new.lost }
        ensures reason { S.shows → StaysTrue (S.calls self.old.system) self.old.lost (S.calls self.new.system) self.new.lost }
        ensures sound { S.shows → StaysSound S.id (S.calls self.old.system) self.old.handles.open.items (S.calls self.new.system) self.new.handles.open.items }
        ensures failed { S.shows → IfErr result (λ fault. FailsBy (λ _ _. ⊥) self.new.lost fault (S.calls self.old.system) (S.calls self.new.system)) }
        ensures grows { S.shows → length (S.calls self.old.system) ≤ length (S.calls self.new.system) }
    {
        let Some(at) = self.handles.place(name) else {
            return Ok(());
        };
        let handle = &mut self.handles.open[at];
        if !handle.unsynced {
            return Ok(());
        }
        let written = self.system.sync_file(&handle.file);
        handle.unsynced = written.is_err();
        synced(&mut self.lost, written)
    }

    // Whether a regular file stands under the name.
    fn is_there(&mut self, name: &str) -> Result<bool, Fault>
        ensures seen { S.shows → OnOk result (SawNoOther name.now (S.calls self.new.system)) }
        ensures absent { S.shows → result ≡ Ok false → IsNewest (Looked name.now (Some Found.Nothing)) (S.calls self.old.system) (S.calls self.new.system) }
        ensures lost { self.new.lost ≡ self.old.lost }
        ensures changes { S.shows → ChangesNone (S.calls self.old.system) (S.calls self.new.system) }
        ensures marked { S.shows → StaysMarked (S.calls self.old.system) self.old.lost (S.calls self.new.system) self.new.lost }
        ensures reason { S.shows → StaysTrue (S.calls self.old.system) self.old.lost (S.calls self.new.system) self.new.lost }
        ensures sound { S.shows → StaysSound S.id (S.calls self.old.system) self.old.handles.open.items (S.calls self.new.system) self.new.handles.open.items }
        ensures failed { S.shows → IfErr result (λ fault. FailsBy (OtherThing name.now) self.new.lost fault (S.calls self.old.system) (S.calls self.new.system)) }
        ensures grows { S.shows → length (S.calls self.old.system) < length (S.calls self.new.system) }
    {
        Ok(self.length(name)?.is_some())
    }

    // Puts the names on the disk.
    fn sync_names(&mut self) -> Result<(), Fault>
        ensures lost { IsTrue self.old.lost → IsErr result }
        ensures done { S.shows → OnOk result (S.calls self.new.system ≡ SyncedFolder true ∷ S.calls self.old.system) }
        ensures changes { S.shows → ChangesNone (S.calls self.old.system) (S.calls self.new.system) }
        ensures stays_lost { IsTrue self.old.lost → IsTrue self.new.lost }
        ensures disk { IfErr result (λ fault. fault ≢ Memory) }
        ensures marked { S.shows → StaysMarked (S.calls self.old.system) self.old.lost (S.calls self.new.system) self.new.lost }
        ensures reason { S.shows → StaysTrue (S.calls self.old.system) self.old.lost (S.calls self.new.system) self.new.lost }
        ensures sound { S.shows → StaysSound S.id (S.calls self.old.system) self.old.handles.open.items (S.calls self.new.system) self.new.handles.open.items }
        ensures failed { S.shows → IfErr result (λ fault. FailsBy (λ _ _. ⊥) self.new.lost fault (S.calls self.old.system) (S.calls self.new.system)) }
        ensures grows { S.shows → length (S.calls self.old.system) < length (S.calls self.new.system) }
    {
        let done = self.system.sync_folder();
        synced(&mut self.lost, done)
    }

    // The place of the open file of this name, which is opened where it is not, or `None` where there is no such file.
    fn opened(&mut self, name: &str, appends: bool) -> Result<Option<usize>, Fault>
        ensures place { IfOk result (λ place. IfSome place (IsPlaceOf name.now self.new.handles.open.items)) }
        ensures absent { S.shows → result ≡ Ok None → IsNewest (Looked name.now (Some Found.Nothing)) (S.calls self.old.system) (S.calls self.new.system) }
        ensures lost { IsTrue self.old.lost → IsTrue self.new.lost }
        ensures changes { S.shows → ChangesNone (S.calls self.old.system) (S.calls self.new.system) }
        ensures marked { S.shows → StaysMarked (S.calls self.old.system) self.old.lost (S.calls self.new.system) self.new.lost }
        ensures reason { S.shows → StaysTrue (S.calls self.old.system) self.old.lost (S.calls self.new.system) self.new.lost }
        ensures sound { S.shows → StaysSound S.id (S.calls self.old.system) self.old.handles.open.items (S.calls self.new.system) self.new.handles.open.items }
        ensures failed { S.shows → IfErr result (λ fault. FailsBy (OtherThing name.now) self.new.lost fault (S.calls self.old.system) (S.calls self.new.system)) }
        ensures grows { S.shows → length (S.calls self.old.system) ≤ length (S.calls self.new.system) }
    {
        if let Some(at) = self.usable(name, appends) {
            return Ok(Some(at));
        }
        self.make_room()?;
        self.open_new(name, appends)
    }

    // The place of the file of this name, if it is open and can be used so. If it cannot, it is closed.
    fn usable(&mut self, name: &str, appends: bool) -> Option<usize>
        ensures place { IfSome result (IsPlaceOf name.now self.new.handles.open.items) }
        ensures lost { self.new.lost ≡ self.old.lost }
        ensures calls { self.new.system ≡ self.old.system }
        ensures sound { StaysSound S.id (S.calls self.old.system) self.old.handles.open.items (S.calls self.new.system) self.new.handles.open.items }
    {
        let at = self.handles.place(name)?;
        if !appends || self.handles.open[at].appends {
            return Some(at);
        }
        self.handles.close(name);
        None
    }

    // Opens the file of this name, and answers its place, or `None` where there is no such file.
    fn open_new(&mut self, name: &str, appends: bool) -> Result<Option<usize>, Fault>
        ensures place { IfOk result (λ place. IfSome place (IsPlaceOf name.now self.new.handles.open.items)) }
        ensures absent { S.shows → result ≡ Ok None → IsNewest (Looked name.now (Some Found.Nothing)) (S.calls self.old.system) (S.calls self.new.system) }
        ensures lost { self.new.lost ≡ self.old.lost }
        ensures changes { S.shows → ChangesNone (S.calls self.old.system) (S.calls self.new.system) }
        ensures marked { S.shows → StaysMarked (S.calls self.old.system) self.old.lost (S.calls self.new.system) self.new.lost }
        ensures reason { S.shows → StaysTrue (S.calls self.old.system) self.old.lost (S.calls self.new.system) self.new.lost }
        ensures sound { S.shows → StaysSound S.id (S.calls self.old.system) self.old.handles.open.items (S.calls self.new.system) self.new.handles.open.items }
        ensures failed { S.shows → IfErr result (λ fault. FailsBy (OtherThing name.now) self.new.lost fault (S.calls self.old.system) (S.calls self.new.system)) }
        ensures grows { S.shows → length (S.calls self.old.system) ≤ length (S.calls self.new.system) }
    {
        let key = String::from_str(self.alloc, name)?;
        if !self.is_there(name)? {
            return Ok(None);
        }
        let file = self.system.open(name, appends)?;
        Ok(Some(self.handles.keep(key, file, appends)?))
    }

    fn make_room(&mut self) -> Result<(), Fault>
        ensures lost { IsTrue self.old.lost → IsTrue self.new.lost }
        ensures room { length self.old.handles.open.items < 64 → self.new ≡ self.old }
        ensures full { S.shows → OnOk result (64 ≤ length self.old.handles.open.items
            → OldestIsLetGo S.id (S.calls self.old.system) self.old.handles.open.items (S.calls self.new.system) self.new.handles.open.items) }
        ensures changes { S.shows → ChangesNone (S.calls self.old.system) (S.calls self.new.system) }
        ensures marked { S.shows → StaysMarked (S.calls self.old.system) self.old.lost (S.calls self.new.system) self.new.lost }
        ensures reason { S.shows → StaysTrue (S.calls self.old.system) self.old.lost (S.calls self.new.system) self.new.lost }
        ensures sound { S.shows → StaysSound S.id (S.calls self.old.system) self.old.handles.open.items (S.calls self.new.system) self.new.handles.open.items }
        ensures failed { S.shows → IfErr result (λ fault. FailsBy (λ _ _. ⊥) self.new.lost fault (S.calls self.old.system) (S.calls self.new.system)) }
        ensures grows { S.shows → length (S.calls self.old.system) ≤ length (S.calls self.new.system) }
    {
        if self.handles.is_full() {
            return self.close_oldest();
        }
        Ok(())
    }

    // Before a file is let go, what is still to be written of it is written, so that no failure to do so goes unseen.
    fn close_oldest(&mut self) -> Result<(), Fault>
        ensures lost { IsTrue self.old.lost → IsTrue self.new.lost }
        ensures synced { S.shows → OnOk result (0 < length self.old.handles.open.items
            → OldestIsLetGo S.id (S.calls self.old.system) self.old.handles.open.items (S.calls self.new.system) self.new.handles.open.items) }
        ensures changes { S.shows → ChangesNone (S.calls self.old.system) (S.calls self.new.system) }
        ensures marked { S.shows → StaysMarked (S.calls self.old.system) self.old.lost (S.calls self.new.system) self.new.lost }
        ensures reason { S.shows → StaysTrue (S.calls self.old.system) self.old.lost (S.calls self.new.system) self.new.lost }
        ensures sound { S.shows → StaysSound S.id (S.calls self.old.system) self.old.handles.open.items (S.calls self.new.system) self.new.handles.open.items }
        ensures failed { S.shows → IfErr result (λ fault. FailsBy (λ _ _. ⊥) self.new.lost fault (S.calls self.old.system) (S.calls self.new.system)) }
        ensures grows { S.shows → length (S.calls self.old.system) ≤ length (S.calls self.new.system) }
    {
        match self.handles.take_oldest() {
            Some(oldest) if oldest.unsynced => {
                let done = self.system.sync_file(&oldest.file);
                synced(&mut self.lost, done)
            }
            _ => Ok(()),
        }
    }
}

// The names of the regular files among the entries.
fn files<S: System + Drop>(
    alloc: Global,
    system: &mut S,
    mut entries: S::Entries,
) -> Result<Vec<String>, Fault>
    ensures all { S.shows → IfOk result (λ names. map string_bytes names.items ≡ files_of (S.left entries)) }
    ensures calls { S.shows → OnOk result (S.calls system.new ≡ S.calls system.old) }
    ensures goes { S.shows → GoesThrough (S.calls system.old) (S.calls system.new) }
    ensures failed { S.shows → IfErr result (λ fault. fault ≢ Memory → S.calls system.new ≡ ListingBroke ∷ S.calls system.old) }
{
    let mut names = Vec::new(alloc);
    'entries: for _entry in 0..u64::MAX {
        match system.next(alloc, &mut entries)? {
            Listed::File(name) => names.push(name)?,
            Listed::Other => {}
            Listed::End => return Ok(names),
        }
    }
    Err(Fault::Memory)
}

fn no_such_file() -> Fault {
    Fault::Disk(io::Error::new(ErrorKind::NotFound, "no such file"))
}

fn not_regular() -> Fault {
    Fault::Disk(io::Error::new(ErrorKind::Other, "not a regular file"))
}
