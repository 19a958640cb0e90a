//! The last failure, of a folder's calls and of the output's.
ghost use Rattle.std.specs.Prelude.{◌≡◌, ◌≢◌, ◌≤◌, ◌∷◌, [], ℕ, List, Option, None, Some, Ok, true, false, length, take, map, IfOk, IfErr, IfSome, IsErr, IsTrue, OnOk, OnErr};
ghost use Rattle.std.specs.Option.{option_copied};
ghost use Rattle.std.specs.String.{string_bytes};
ghost use Rattle.std.specs.Io.KnownBytes.{Appends};
ghost use Rattle.bl_site.specs.Disk.{Name};
ghost use Rattle.bl_site_host.specs.Changes.{ChangesNone, Changes, IsMaking, IsWriting, IsRenaming, IsRemoving};
ghost use Rattle.bl_site_host.specs.Events.{Looked, Listing, Read, Wrote, SyncedFile, Renamed, Removed, IsNewest, IsOn, IsMade, IsOnDisk, StaysMarked, StaysTrue, files_of, found_of};
ghost use Rattle.bl_site_host.specs.declared.faults.Fault.TheVariants.{Memory};
ghost use Rattle.bl_site_host.specs.Failures.{IsKept, IsPut};
ghost use Rattle.bl_site_host.specs.Stops.{FailsBy, NoFile, NotRenamed, OtherThing};
ghost use Rattle.bl_site_host.specs.Handles.{IsSound, StaysSound};

use crate::failure::{Asked, Failure};
use crate::faults::{Fault, changed};
use crate::folder::Folder;
use crate::output::{Output, told};
use crate::system::{Found, System};
use std::alloc::Global;

// The last failure of a call, if one has failed but for want of memory.
#[derive(Drop)]
pub(crate) struct Failures {
    alloc: Global,
    last: Option<Failure>,
}

impl Failures {
    pub(crate) fn new(alloc: Global) -> Failures
        ensures { result.last ≡ None }
    {
        Failures { alloc, last: None }
    }

    pub(crate) fn last(&self) -> Option<&Failure>
        ensures { option_copied result ≡ self.now.last }
    {
        self.last.as_ref()
    }

    // Keeps the failure of this call in the place of an earlier one, if the system failed in it.
    pub(crate) fn keep<T>(&mut self, asked: Asked, name: &str, done: &Result<T, Fault>)
        ensures { IsKept asked name.now done.now self.old.last self.new.last }
    {
        if let Err(fault) = done {
            self.put(asked, name, *fault);
        }
    }

    fn put(&mut self, asked: Asked, name: &str, fault: Fault)
        ensures { IsPut asked name.now fault self.old.last self.new.last }
    {
        if let Fault::Disk(error) = fault {
            self.last = Some(Failure::new(self.alloc, asked, name, error));
        }
    }

    // Tells the bytes, all of which are behind a flush at Ok.
    pub(crate) fn tell<W: Output>(&mut self, output: &mut W, bytes: &[u8]) -> Result<(), Fault>
        ensures all { OnOk result (Appends (W.contents output.old) (W.contents output.new) bytes.now) }
        ensures flushed { OnOk result (W.flushed output.new ≡ W.contents output.new) }
        ensures front { OnErr result ((count : ℕ) × Appends (W.contents output.old) (W.contents output.new) (take count bytes.now)) }
        ensures disk { IfErr result (λ fault. fault ≢ Memory) }
        ensures kept { IsKept Asked.Tell [] result self.old.last self.new.last }
    {
        let done = changed(told(output, bytes));
        self.keep(Asked::Tell, "", &done);
        done
    }
}

// A folder that keeps the last failure of its calls.
#[derive(Drop)]
pub(crate) struct Keeper<S: System + Drop> {
    pub(crate) folder: Folder<S>,
    pub(crate) failures: Failures,
}

impl<S: System + Drop> Keeper<S> {
    pub(crate) fn length(&mut self, name: &str) -> Result<Option<u64>, Fault>
        ensures seen { S.shows → IfOk result (λ length. S.calls self.new.folder.system ≡ Looked name.now (Some (found_of length)) ∷ S.calls self.old.folder.system) }
        ensures changes { S.shows → ChangesNone (S.calls self.old.folder.system) (S.calls self.new.folder.system) }
        ensures sound { S.shows → StaysSound S.id (S.calls self.old.folder.system) self.old.folder.handles.open.items (S.calls self.new.folder.system) self.new.folder.handles.open.items }
        ensures stays_lost { IsTrue self.old.folder.lost → IsTrue self.new.folder.lost }
        ensures marked { S.shows → StaysMarked (S.calls self.old.folder.system) self.old.folder.lost (S.calls self.new.folder.system) self.new.folder.lost }
        ensures reason { S.shows → StaysTrue (S.calls self.old.folder.system) self.old.folder.lost (S.calls self.new.folder.system) self.new.folder.lost }
        ensures kept { IsKept Asked.Length name.now result self.old.failures.last self.new.failures.last }
        ensures failed { S.shows → IfErr result (λ fault. FailsBy (OtherThing name.now) self.new.folder.lost fault (S.calls self.old.folder.system) (S.calls self.new.folder.system)) }
    {
        let done = self.folder.length(name);
        self.failures.keep(Asked::Length, name, &done);
        done
    }

    pub(crate) fn names(&mut self, alloc: Global) -> Result<Vec<String>, Fault>
        ensures all { S.shows → IfOk result (λ names. (entries : List (Option Name)) × (S.calls self.new.folder.system ≡ Listing (Some entries) ∷ S.calls self.old.folder.system) × (map string_bytes names.items ≡ files_of entries)) }
        ensures changes { S.shows → ChangesNone (S.calls self.old.folder.system) (S.calls self.new.folder.system) }
        ensures sound { S.shows → StaysSound S.id (S.calls self.old.folder.system) self.old.folder.handles.open.items (S.calls self.new.folder.system) self.new.folder.handles.open.items }
        ensures stays_lost { IsTrue self.old.folder.lost → IsTrue self.new.folder.lost }
        ensures marked { S.shows → StaysMarked (S.calls self.old.folder.system) self.old.folder.lost (S.calls self.new.folder.system) self.new.folder.lost }
        ensures reason { S.shows → StaysTrue (S.calls self.old.folder.system) self.old.folder.lost (S.calls self.new.folder.system) self.new.folder.lost }
        ensures kept { IsKept Asked.List [] result self.old.failures.last self.new.failures.last }
        ensures failed { S.shows → IfErr result (λ fault. FailsBy (λ _ _. ⊥) self.new.folder.lost fault (S.calls self.old.folder.system) (S.calls self.new.folder.system)) }
    {
        let done = self.folder.names(alloc);
        self.failures.keep(Asked::List, "", &done);
        done
    }

    pub(crate) fn read(
        &mut self,
        name: &str,
        offset: u64,
        into: &mut [u8],
    ) -> Result<Option<usize>, Fault>
        ensures bound { IfOk result (λ r. IfSome r (λ count. count ≤ length into.new)) }
        ensures bytes { S.shows → IsSound S.id (S.calls self.old.folder.system) self.old.folder.handles.open.items
            → IfOk result (λ r. IfSome r (λ count. IsOn name.now (λ file. Read file offset (length into.old) (Some (take count into.new))) (S.calls self.old.folder.system) (S.calls self.new.folder.system))) }
        ensures absent { S.shows → result ≡ Ok None → IsNewest (Looked name.now (Some Found.Nothing)) (S.calls self.old.folder.system) (S.calls self.new.folder.system) }
        ensures changes { S.shows → ChangesNone (S.calls self.old.folder.system) (S.calls self.new.folder.system) }
        ensures sound { S.shows → StaysSound S.id (S.calls self.old.folder.system) self.old.folder.handles.open.items (S.calls self.new.folder.system) self.new.folder.handles.open.items }
        ensures stays_lost { IsTrue self.old.folder.lost → IsTrue self.new.folder.lost }
        ensures marked { S.shows → StaysMarked (S.calls self.old.folder.system) self.old.folder.lost (S.calls self.new.folder.system) self.new.folder.lost }
        ensures reason { S.shows → StaysTrue (S.calls self.old.folder.system) self.old.folder.lost (S.calls self.new.folder.system) self.new.folder.lost }
        ensures kept { IsKept Asked.Read name.now result self.old.failures.last self.new.failures.last }
        ensures failed { S.shows → IfErr result (λ fault. FailsBy (OtherThing name.now) self.new.folder.lost fault (S.calls self.old.folder.system) (S.calls self.new.folder.system)) }
    {
        let done = self.folder.read(name, offset, into);
        self.failures.keep(Asked::Read, name, &done);
        done
    }

    pub(crate) fn create(&mut self, name: &str) -> Result<(), Fault>
        ensures lost { IsTrue self.old.folder.lost → IsErr result }
        ensures made { S.shows → OnOk result (IsMade name.now (S.calls self.new.folder.system)) }
        ensures changes { S.shows → Changes (IsMaking name.now) result (S.calls self.old.folder.system) (S.calls self.new.folder.system) }
        ensures sound { S.shows → StaysSound S.id (S.calls self.old.folder.system) self.old.folder.handles.open.items (S.calls self.new.folder.system) self.new.folder.handles.open.items }
        ensures stays_lost { IsTrue self.old.folder.lost → IsTrue self.new.folder.lost }
        ensures marked { S.shows → StaysMarked (S.calls self.old.folder.system) self.old.folder.lost (S.calls self.new.folder.system) self.new.folder.lost }
        ensures reason { S.shows → StaysTrue (S.calls self.old.folder.system) self.old.folder.lost (S.calls self.new.folder.system) self.new.folder.lost }
        ensures kept { IsKept Asked.Create name.now result self.old.failures.last self.new.failures.last }
        ensures failed { S.shows → IfErr result (λ fault. FailsBy (OtherThing name.now) self.new.folder.lost fault (S.calls self.old.folder.system) (S.calls self.new.folder.system)) }
    {
        let done = self.folder.create(name);
        self.failures.keep(Asked::Create, name, &done);
        done
    }

    pub(crate) fn append(&mut self, name: &str, bytes: &[u8]) -> Result<(), Fault>
        ensures bytes { S.shows → IsSound S.id (S.calls self.old.folder.system) self.old.folder.handles.open.items
            → OnOk result (IsOn name.now (λ file. Wrote file bytes.now true) (S.calls self.old.folder.system) (S.calls self.new.folder.system)) }
        ensures changes { S.shows → Changes (IsWriting bytes.now) result (S.calls self.old.folder.system) (S.calls self.new.folder.system) }
        ensures sound { S.shows → StaysSound S.id (S.calls self.old.folder.system) self.old.folder.handles.open.items (S.calls self.new.folder.system) self.new.folder.handles.open.items }
        ensures stays_lost { IsTrue self.old.folder.lost → IsTrue self.new.folder.lost }
        ensures marked { S.shows → StaysMarked (S.calls self.old.folder.system) self.old.folder.lost (S.calls self.new.folder.system) self.new.folder.lost }
        ensures reason { S.shows → StaysTrue (S.calls self.old.folder.system) self.old.folder.lost (S.calls self.new.folder.system) self.new.folder.lost }
        ensures kept { IsKept Asked.Append name.now result self.old.failures.last self.new.failures.last }
        ensures failed { S.shows → IfErr result (λ fault. FailsBy (NoFile name.now) self.new.folder.lost fault (S.calls self.old.folder.system) (S.calls self.new.folder.system)) }
    {
        let done = self.folder.append(name, bytes);
        self.failures.keep(Asked::Append, name, &done);
        done
    }

    pub(crate) fn sync(&mut self, name: &str) -> Result<(), Fault>
        ensures lost { IsTrue self.old.folder.lost → IsErr result }
        ensures file { S.shows → IsSound S.id (S.calls self.old.folder.system) self.old.folder.handles.open.items
            → OnOk result (IsOn name.now (λ file. SyncedFile file true) (S.calls self.old.folder.system) (S.calls self.new.folder.system)) }
        ensures changes { S.shows → ChangesNone (S.calls self.old.folder.system) (S.calls self.new.folder.system) }
        ensures sound { S.shows → StaysSound S.id (S.calls self.old.folder.system) self.old.folder.handles.open.items (S.calls self.new.folder.system) self.new.folder.handles.open.items }
        ensures stays_lost { IsTrue self.old.folder.lost → IsTrue self.new.folder.lost }
        ensures marked { S.shows → StaysMarked (S.calls self.old.folder.system) self.old.folder.lost (S.calls self.new.folder.system) self.new.folder.lost }
        ensures reason { S.shows → StaysTrue (S.calls self.old.folder.system) self.old.folder.lost (S.calls self.new.folder.system) self.new.folder.lost }
        ensures kept { IsKept Asked.Sync name.now result self.old.failures.last self.new.failures.last }
        ensures failed { S.shows → IfErr result (λ fault. FailsBy (NoFile name.now) self.new.folder.lost fault (S.calls self.old.folder.system) (S.calls self.new.folder.system)) }
    {
        let done = self.folder.sync(name);
        self.failures.keep(Asked::Sync, name, &done);
        done
    }

    pub(crate) fn rename(&mut self, from: &str, to: &str) -> Result<(), Fault>
        ensures lost { IsTrue self.old.folder.lost → IsErr result }
        ensures renamed { S.shows → OnOk result (IsOnDisk (Renamed from.now to.now true) (S.calls self.new.folder.system)) }
        ensures changes { S.shows → Changes (IsRenaming from.now to.now) result (S.calls self.old.folder.system) (S.calls self.new.folder.system) }
        ensures sound { S.shows → StaysSound S.id (S.calls self.old.folder.system) self.old.folder.handles.open.items (S.calls self.new.folder.system) self.new.folder.handles.open.items }
        ensures stays_lost { IsTrue self.old.folder.lost → IsTrue self.new.folder.lost }
        ensures marked { S.shows → StaysMarked (S.calls self.old.folder.system) self.old.folder.lost (S.calls self.new.folder.system) self.new.folder.lost }
        ensures reason { S.shows → StaysTrue (S.calls self.old.folder.system) self.old.folder.lost (S.calls self.new.folder.system) self.new.folder.lost }
        ensures kept { IsKept Asked.Rename from.now result self.old.failures.last self.new.failures.last }
        ensures failed { S.shows → IfErr result (λ fault. FailsBy (NotRenamed from.now to.now) self.new.folder.lost fault (S.calls self.old.folder.system) (S.calls self.new.folder.system)) }
    {
        let done = self.folder.rename(from, to);
        self.failures.keep(Asked::Rename, from, &done);
        done
    }

    pub(crate) fn remove(&mut self, name: &str) -> Result<(), Fault>
        ensures lost { IsTrue self.old.folder.lost → IsErr result }
        ensures removed { S.shows → OnOk result (IsOnDisk (Removed name.now true) (S.calls self.new.folder.system)) }
        ensures changes { S.shows → Changes (IsRemoving name.now) result (S.calls self.old.folder.system) (S.calls self.new.folder.system) }
        ensures sound { S.shows → StaysSound S.id (S.calls self.old.folder.system) self.old.folder.handles.open.items (S.calls self.new.folder.system) self.new.folder.handles.open.items }
        ensures stays_lost { IsTrue self.old.folder.lost → IsTrue self.new.folder.lost }
        ensures marked { S.shows → StaysMarked (S.calls self.old.folder.system) self.old.folder.lost (S.calls self.new.folder.system) self.new.folder.lost }
        ensures reason { S.shows → StaysTrue (S.calls self.old.folder.system) self.old.folder.lost (S.calls self.new.folder.system) self.new.folder.lost }
        ensures kept { IsKept Asked.Remove name.now result self.old.failures.last self.new.failures.last }
        ensures failed { S.shows → IfErr result (λ fault. FailsBy (NoFile name.now) self.new.folder.lost fault (S.calls self.old.folder.system) (S.calls self.new.folder.system)) }
    {
        let done = self.folder.remove(name);
        self.failures.keep(Asked::Remove, name, &done);
        done
    }
}
