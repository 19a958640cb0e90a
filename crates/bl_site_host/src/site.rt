//! The folder and an output as a site.
ghost use Rattle.std.specs.Prelude.{◌≡◌, ◌≤◌, ◌∷◌, [], ℕ, List, Option, None, Some, Ok, true, false, length, take, map, IfOk, IfSome, IsErr, IsErrOf, IsTrue, OnOk, OnErr};
ghost use Rattle.std.specs.Option.{option_copied};
ghost use Rattle.std.specs.String.{string_bytes};
ghost use Rattle.std.specs.Io.KnownBytes.{Appends};
ghost use Rattle.bl_site.specs.Causes.{one_more, HasDiskCause, HasTellCause};
ghost use Rattle.bl_site.specs.Disk.{Name};
ghost use Rattle.bl_site_host.specs.Changes.{ChangesNone, SiteChanges, IsMaking, IsWriting, IsRenaming, IsRemoving};
ghost use Rattle.bl_site_host.specs.Events.{Looked, Listing, Read, Wrote, SyncedFile, Renamed, Removed, IsNewest, IsOn, IsMade, IsOnDisk, StaysMarked, StaysTrue, files_of, found_of};
ghost use Rattle.bl_site_host.specs.Failures.{IsLast};
ghost use Rattle.bl_site_host.specs.Stops.{StopsSince, NoFile, NotRenamed, OtherThing};
ghost use Rattle.bl_site.specs.declared.site.SiteErr.TheVariants.{DiskFailed};
ghost use Rattle.bl_site_host.specs.Handles.{IsSound, StaysSound};

use crate::failure::{Asked, Failure};
use crate::faults::counted;
use crate::folder::Folder;
use crate::host::{Host, Standard};
use crate::keeper::{Failures, Keeper};
use crate::output::Output;
use crate::system::{Found, System};
use bl_site::{Site, SiteErr};
use std::alloc::Global;
use std::io::Print;
use std::rt::Files;

/// A folder with an output as a site. It shows no content.
///
/// Its files are the regular files whose names are UTF-8. Where a link, a pipe, a folder or a device has the name that is asked for, the
/// call fails, and the thing is neither opened nor followed nor emptied. A file in use stays open between calls, up to 64 of them. A
/// name call is answered `Ok` only when the folder too is on the disk. Once the system has failed to put a file or the folder on
/// the disk, no later `sync` or name call is answered `Ok`: it may have dropped bytes that it still shows.
#[derive(Drop)]
pub struct HostSite<S: System + Drop, W: Output + Drop> {
    pub(crate) keeper: Keeper<S>,
    pub(crate) output: W,
    disk_faults: u64,
    tell_faults: u64,
    changes: u64,
}

impl<R: Files + AllocGlobal + Clone + Drop, P: Print + Drop> HostSite<Host<R>, Standard<P>> {
    /// The current folder and this output, of which nothing was asked yet: its counts are 0.
    pub fn start(rt: R, output: P) -> HostSite<Host<R>, Standard<P>>
        ensures disk_faults { ⟦<HostSite<Host<R>, Standard<P>> as Site>⟧.disk_faults result ≡ 0 }
        ensures tell_faults { ⟦<HostSite<Host<R>, Standard<P>> as Site>⟧.tell_faults result ≡ 0 }
        ensures changes { ⟦<HostSite<Host<R>, Standard<P>> as Site>⟧.changes result ≡ 0 }
        ensures last { result.keeper.failures.last ≡ None }
        ensures lost { result.keeper.folder.lost ≡ false }
    {
        HostSite::new(rt.alloc(), Host::new(rt), Standard { to: output })
    }
}

impl<S: System + Drop, W: Output + Drop> HostSite<S, W> {
    pub(crate) fn new(alloc: Global, system: S, output: W) -> HostSite<S, W>
        ensures disk_faults { result.disk_faults ≡ 0 }
        ensures tell_faults { result.tell_faults ≡ 0 }
        ensures changes { result.changes ≡ 0 }
        ensures last { result.keeper.failures.last ≡ None }
        ensures system { result.keeper.folder.system ≡ system }
        ensures lost { result.keeper.folder.lost ≡ false }
        ensures output { result.output ≡ output }
        ensures sound { S.calls system ≡ [] → IsSound S.id (S.calls result.keeper.folder.system) result.keeper.folder.handles.open.items }
    {
        HostSite {
            keeper: Keeper {
                folder: Folder::new(alloc, system),
                failures: Failures::new(alloc),
            },
            output,
            disk_faults: 0,
            tell_faults: 0,
            changes: 0,
        }
    }

    /// The last call that failed, or `None` where none has but for want of memory.
    pub fn last_failure(&self) -> Option<&Failure>
        ensures { option_copied result ≡ self.now.keeper.failures.last }
    {
        self.keeper.failures.last()
    }
}

impl<S: System + Drop, W: Output + Drop> Site for HostSite<S, W> {
    ghost shows = { ⊥ };

    ghost disk = { λ _ _. None };

    ghost told = { λ _. [] };

    ghost may_be = { λ _ _. ⊥ };

    ghost certain = { λ _. ⊥ };

    ghost clock = { λ _. 0 };

    ghost left_since = { λ _ _ _. ⊥ };

    ghost disk_faults = { λ s. s.disk_faults };

    ghost tell_faults = { λ s. s.tell_faults };

    ghost changes = { λ s. s.changes };

    ghost remnant = { λ shown. absurd shown };

    ghost reads = { λ shown. absurd shown };

    ghost only = { λ shown. absurd shown };

    ghost counts_now = { λ shown. absurd shown };

    ghost earlier = { λ shown. absurd shown };

    ghost only_now = { λ shown. absurd shown };

    fn len(&mut self, name: &str) -> Result<Option<u64>, SiteErr>
        ensures seen { S.shows → IfOk result (λ length. S.calls self.new.keeper.folder.system ≡ Looked name.now (Some (found_of length)) ∷ S.calls self.old.keeper.folder.system) }
        ensures calls { S.shows → ChangesNone (S.calls self.old.keeper.folder.system) (S.calls self.new.keeper.folder.system) }
        ensures sound { S.shows → StaysSound S.id (S.calls self.old.keeper.folder.system) self.old.keeper.folder.handles.open.items (S.calls self.new.keeper.folder.system) self.new.keeper.folder.handles.open.items }
        ensures stays_lost { IsTrue self.old.keeper.folder.lost → IsTrue self.new.keeper.folder.lost }
        ensures marked { S.shows → StaysMarked (S.calls self.old.keeper.folder.system) self.old.keeper.folder.lost (S.calls self.new.keeper.folder.system) self.new.keeper.folder.lost }
        ensures reason { S.shows → StaysTrue (S.calls self.old.keeper.folder.system) self.old.keeper.folder.lost (S.calls self.new.keeper.folder.system) self.new.keeper.folder.lost }
        ensures output { self.new.output ≡ self.old.output }
        ensures kept { IsLast Asked.Length name.now result self.old.keeper.failures.last self.new.keeper.failures.last }
        ensures cause { HasDiskCause self.old.disk_faults self.new.disk_faults result }
        ensures tell_faults { self.new.tell_faults ≡ self.old.tell_faults }
        ensures changes { self.new.changes ≡ self.old.changes }
        ensures failed { S.shows → IsErrOf result DiskFailed → StopsSince (OtherThing name.now) self.new.keeper.folder.lost (S.calls self.old.keeper.folder.system) (S.calls self.new.keeper.folder.system) }
    {
        let done = self.keeper.length(name);
        counted(&mut self.disk_faults, done)
    }

    fn read_at(
        &mut self,
        name: &str,
        offset: u64,
        into: &mut [u8],
    ) -> Result<Option<usize>, SiteErr>
        ensures bound { IfOk result (λ r. IfSome r (λ count. count ≤ length into.new)) }
        ensures bytes { S.shows → IsSound S.id (S.calls self.old.keeper.folder.system) self.old.keeper.folder.handles.open.items
            → IfOk result (λ r. IfSome r (λ count. IsOn name.now (λ file. Read file offset (length into.old) (Some (take count into.new))) (S.calls self.old.keeper.folder.system) (S.calls self.new.keeper.folder.system))) }
        ensures absent { S.shows → result ≡ Ok None → IsNewest (Looked name.now (Some Found.Nothing)) (S.calls self.old.keeper.folder.system) (S.calls self.new.keeper.folder.system) }
        ensures calls { S.shows → ChangesNone (S.calls self.old.keeper.folder.system) (S.calls self.new.keeper.folder.system) }
        ensures sound { S.shows → StaysSound S.id (S.calls self.old.keeper.folder.system) self.old.keeper.folder.handles.open.items (S.calls self.new.keeper.folder.system) self.new.keeper.folder.handles.open.items }
        ensures stays_lost { IsTrue self.old.keeper.folder.lost → IsTrue self.new.keeper.folder.lost }
        ensures marked { S.shows → StaysMarked (S.calls self.old.keeper.folder.system) self.old.keeper.folder.lost (S.calls self.new.keeper.folder.system) self.new.keeper.folder.lost }
        ensures reason { S.shows → StaysTrue (S.calls self.old.keeper.folder.system) self.old.keeper.folder.lost (S.calls self.new.keeper.folder.system) self.new.keeper.folder.lost }
        ensures output { self.new.output ≡ self.old.output }
        ensures kept { IsLast Asked.Read name.now result self.old.keeper.failures.last self.new.keeper.failures.last }
        ensures cause { HasDiskCause self.old.disk_faults self.new.disk_faults result }
        ensures tell_faults { self.new.tell_faults ≡ self.old.tell_faults }
        ensures changes { self.new.changes ≡ self.old.changes }
        ensures failed { S.shows → IsErrOf result DiskFailed → StopsSince (OtherThing name.now) self.new.keeper.folder.lost (S.calls self.old.keeper.folder.system) (S.calls self.new.keeper.folder.system) }
    {
        let done = self.keeper.read(name, offset, into);
        counted(&mut self.disk_faults, done)
    }

    fn list(&mut self, alloc: Global) -> Result<Vec<String>, SiteErr>
        ensures all { S.shows → IfOk result (λ names. (entries : List (Option Name)) × (S.calls self.new.keeper.folder.system ≡ Listing (Some entries) ∷ S.calls self.old.keeper.folder.system) × (map string_bytes names.items ≡ files_of entries)) }
        ensures calls { S.shows → ChangesNone (S.calls self.old.keeper.folder.system) (S.calls self.new.keeper.folder.system) }
        ensures sound { S.shows → StaysSound S.id (S.calls self.old.keeper.folder.system) self.old.keeper.folder.handles.open.items (S.calls self.new.keeper.folder.system) self.new.keeper.folder.handles.open.items }
        ensures stays_lost { IsTrue self.old.keeper.folder.lost → IsTrue self.new.keeper.folder.lost }
        ensures marked { S.shows → StaysMarked (S.calls self.old.keeper.folder.system) self.old.keeper.folder.lost (S.calls self.new.keeper.folder.system) self.new.keeper.folder.lost }
        ensures reason { S.shows → StaysTrue (S.calls self.old.keeper.folder.system) self.old.keeper.folder.lost (S.calls self.new.keeper.folder.system) self.new.keeper.folder.lost }
        ensures output { self.new.output ≡ self.old.output }
        ensures kept { IsLast Asked.List [] result self.old.keeper.failures.last self.new.keeper.failures.last }
        ensures cause { HasDiskCause self.old.disk_faults self.new.disk_faults result }
        ensures tell_faults { self.new.tell_faults ≡ self.old.tell_faults }
        ensures changes { self.new.changes ≡ self.old.changes }
        ensures failed { S.shows → IsErrOf result DiskFailed → StopsSince (λ _ _. ⊥) self.new.keeper.folder.lost (S.calls self.old.keeper.folder.system) (S.calls self.new.keeper.folder.system) }
    {
        let done = self.keeper.names(alloc);
        counted(&mut self.disk_faults, done)
    }

    fn create(&mut self, name: &str) -> Result<(), SiteErr>
        ensures made { S.shows → OnOk result (IsMade name.now (S.calls self.new.keeper.folder.system)) }
        ensures calls { S.shows → SiteChanges (IsMaking name.now) result (S.calls self.old.keeper.folder.system) (S.calls self.new.keeper.folder.system) }
        ensures lost { IsTrue self.old.keeper.folder.lost → IsErr result }
        ensures sound { S.shows → StaysSound S.id (S.calls self.old.keeper.folder.system) self.old.keeper.folder.handles.open.items (S.calls self.new.keeper.folder.system) self.new.keeper.folder.handles.open.items }
        ensures stays_lost { IsTrue self.old.keeper.folder.lost → IsTrue self.new.keeper.folder.lost }
        ensures marked { S.shows → StaysMarked (S.calls self.old.keeper.folder.system) self.old.keeper.folder.lost (S.calls self.new.keeper.folder.system) self.new.keeper.folder.lost }
        ensures reason { S.shows → StaysTrue (S.calls self.old.keeper.folder.system) self.old.keeper.folder.lost (S.calls self.new.keeper.folder.system) self.new.keeper.folder.lost }
        ensures output { self.new.output ≡ self.old.output }
        ensures kept { IsLast Asked.Create name.now result self.old.keeper.failures.last self.new.keeper.failures.last }
        ensures cause { HasDiskCause self.old.disk_faults self.new.disk_faults result }
        ensures tell_faults { self.new.tell_faults ≡ self.old.tell_faults }
        ensures changes { self.new.changes ≡ one_more self.old.changes }
        ensures failed { S.shows → IsErrOf result DiskFailed → StopsSince (OtherThing name.now) self.new.keeper.folder.lost (S.calls self.old.keeper.folder.system) (S.calls self.new.keeper.folder.system) }
    {
        self.changes = self.changes.saturating_add(1);
        let done = self.keeper.create(name);
        counted(&mut self.disk_faults, done)
    }

    fn append(&mut self, name: &str, bytes: &[u8]) -> Result<(), SiteErr>
        ensures bytes { S.shows → IsSound S.id (S.calls self.old.keeper.folder.system) self.old.keeper.folder.handles.open.items
            → OnOk result (IsOn name.now (λ file. Wrote file bytes.now true) (S.calls self.old.keeper.folder.system) (S.calls self.new.keeper.folder.system)) }
        ensures calls { S.shows → SiteChanges (IsWriting bytes.now) result (S.calls self.old.keeper.folder.system) (S.calls self.new.keeper.folder.system) }
        ensures sound { S.shows → StaysSound S.id (S.calls self.old.keeper.folder.system) self.old.keeper.folder.handles.open.items (S.calls self.new.keeper.folder.system) self.new.keeper.folder.handles.open.items }
        ensures stays_lost { IsTrue self.old.keeper.folder.lost → IsTrue self.new.keeper.folder.lost }
        ensures marked { S.shows → StaysMarked (S.calls self.old.keeper.folder.system) self.old.keeper.folder.lost (S.calls self.new.keeper.folder.system) self.new.keeper.folder.lost }
        ensures reason { S.shows → StaysTrue (S.calls self.old.keeper.folder.system) self.old.keeper.folder.lost (S.calls self.new.keeper.folder.system) self.new.keeper.folder.lost }
        ensures output { self.new.output ≡ self.old.output }
        ensures kept { IsLast Asked.Append name.now result self.old.keeper.failures.last self.new.keeper.failures.last }
        ensures cause { HasDiskCause self.old.disk_faults self.new.disk_faults result }
        ensures tell_faults { self.new.tell_faults ≡ self.old.tell_faults }
        ensures changes { self.new.changes ≡ one_more self.old.changes }
        ensures failed { S.shows → IsErrOf result DiskFailed → StopsSince (NoFile name.now) self.new.keeper.folder.lost (S.calls self.old.keeper.folder.system) (S.calls self.new.keeper.folder.system) }
    {
        self.changes = self.changes.saturating_add(1);
        let done = self.keeper.append(name, bytes);
        counted(&mut self.disk_faults, done)
    }

    fn sync(&mut self, name: &str) -> Result<(), SiteErr>
        ensures file { S.shows → IsSound S.id (S.calls self.old.keeper.folder.system) self.old.keeper.folder.handles.open.items
            → OnOk result (IsOn name.now (λ file. SyncedFile file true) (S.calls self.old.keeper.folder.system) (S.calls self.new.keeper.folder.system)) }
        ensures calls { S.shows → ChangesNone (S.calls self.old.keeper.folder.system) (S.calls self.new.keeper.folder.system) }
        ensures lost { IsTrue self.old.keeper.folder.lost → IsErr result }
        ensures sound { S.shows → StaysSound S.id (S.calls self.old.keeper.folder.system) self.old.keeper.folder.handles.open.items (S.calls self.new.keeper.folder.system) self.new.keeper.folder.handles.open.items }
        ensures stays_lost { IsTrue self.old.keeper.folder.lost → IsTrue self.new.keeper.folder.lost }
        ensures marked { S.shows → StaysMarked (S.calls self.old.keeper.folder.system) self.old.keeper.folder.lost (S.calls self.new.keeper.folder.system) self.new.keeper.folder.lost }
        ensures reason { S.shows → StaysTrue (S.calls self.old.keeper.folder.system) self.old.keeper.folder.lost (S.calls self.new.keeper.folder.system) self.new.keeper.folder.lost }
        ensures output { self.new.output ≡ self.old.output }
        ensures kept { IsLast Asked.Sync name.now result self.old.keeper.failures.last self.new.keeper.failures.last }
        ensures cause { HasDiskCause self.old.disk_faults self.new.disk_faults result }
        ensures tell_faults { self.new.tell_faults ≡ self.old.tell_faults }
        ensures changes { self.new.changes ≡ one_more self.old.changes }
        ensures failed { S.shows → IsErrOf result DiskFailed → StopsSince (NoFile name.now) self.new.keeper.folder.lost (S.calls self.old.keeper.folder.system) (S.calls self.new.keeper.folder.system) }
    {
        self.changes = self.changes.saturating_add(1);
        let done = self.keeper.sync(name);
        counted(&mut self.disk_faults, done)
    }

    fn rename(&mut self, from: &str, to: &str) -> Result<(), SiteErr>
        ensures renamed { S.shows → OnOk result (IsOnDisk (Renamed from.now to.now true) (S.calls self.new.keeper.folder.system)) }
        ensures calls { S.shows → SiteChanges (IsRenaming from.now to.now) result (S.calls self.old.keeper.folder.system) (S.calls self.new.keeper.folder.system) }
        ensures lost { IsTrue self.old.keeper.folder.lost → IsErr result }
        ensures sound { S.shows → StaysSound S.id (S.calls self.old.keeper.folder.system) self.old.keeper.folder.handles.open.items (S.calls self.new.keeper.folder.system) self.new.keeper.folder.handles.open.items }
        ensures stays_lost { IsTrue self.old.keeper.folder.lost → IsTrue self.new.keeper.folder.lost }
        ensures marked { S.shows → StaysMarked (S.calls self.old.keeper.folder.system) self.old.keeper.folder.lost (S.calls self.new.keeper.folder.system) self.new.keeper.folder.lost }
        ensures reason { S.shows → StaysTrue (S.calls self.old.keeper.folder.system) self.old.keeper.folder.lost (S.calls self.new.keeper.folder.system) self.new.keeper.folder.lost }
        ensures output { self.new.output ≡ self.old.output }
        ensures kept { IsLast Asked.Rename from.now result self.old.keeper.failures.last self.new.keeper.failures.last }
        ensures cause { HasDiskCause self.old.disk_faults self.new.disk_faults result }
        ensures tell_faults { self.new.tell_faults ≡ self.old.tell_faults }
        ensures changes { self.new.changes ≡ one_more self.old.changes }
        ensures failed { S.shows → IsErrOf result DiskFailed → StopsSince (NotRenamed from.now to.now) self.new.keeper.folder.lost (S.calls self.old.keeper.folder.system) (S.calls self.new.keeper.folder.system) }
    {
        self.changes = self.changes.saturating_add(1);
        let done = self.keeper.rename(from, to);
        counted(&mut self.disk_faults, done)
    }

    fn remove(&mut self, name: &str) -> Result<(), SiteErr>
        ensures removed { S.shows → OnOk result (IsOnDisk (Removed name.now true) (S.calls self.new.keeper.folder.system)) }
        ensures calls { S.shows → SiteChanges (IsRemoving name.now) result (S.calls self.old.keeper.folder.system) (S.calls self.new.keeper.folder.system) }
        ensures lost { IsTrue self.old.keeper.folder.lost → IsErr result }
        ensures sound { S.shows → StaysSound S.id (S.calls self.old.keeper.folder.system) self.old.keeper.folder.handles.open.items (S.calls self.new.keeper.folder.system) self.new.keeper.folder.handles.open.items }
        ensures stays_lost { IsTrue self.old.keeper.folder.lost → IsTrue self.new.keeper.folder.lost }
        ensures marked { S.shows → StaysMarked (S.calls self.old.keeper.folder.system) self.old.keeper.folder.lost (S.calls self.new.keeper.folder.system) self.new.keeper.folder.lost }
        ensures reason { S.shows → StaysTrue (S.calls self.old.keeper.folder.system) self.old.keeper.folder.lost (S.calls self.new.keeper.folder.system) self.new.keeper.folder.lost }
        ensures output { self.new.output ≡ self.old.output }
        ensures kept { IsLast Asked.Remove name.now result self.old.keeper.failures.last self.new.keeper.failures.last }
        ensures cause { HasDiskCause self.old.disk_faults self.new.disk_faults result }
        ensures tell_faults { self.new.tell_faults ≡ self.old.tell_faults }
        ensures changes { self.new.changes ≡ one_more self.old.changes }
        ensures failed { S.shows → IsErrOf result DiskFailed → StopsSince (NoFile name.now) self.new.keeper.folder.lost (S.calls self.old.keeper.folder.system) (S.calls self.new.keeper.folder.system) }
    {
        self.changes = self.changes.saturating_add(1);
        let done = self.keeper.remove(name);
        counted(&mut self.disk_faults, done)
    }

    fn tell(&mut self, bytes: &[u8]) -> Result<(), SiteErr>
        ensures all { OnOk result (Appends (W.contents self.old.output) (W.contents self.new.output) bytes.now) }
        ensures flushed { OnOk result (W.flushed self.new.output ≡ W.contents self.new.output) }
        ensures front { OnErr result ((count : ℕ) × Appends (W.contents self.old.output) (W.contents self.new.output) (take count bytes.now)) }
        ensures folder { self.new.keeper.folder ≡ self.old.keeper.folder }
        ensures kept { IsLast Asked.Tell [] result self.old.keeper.failures.last self.new.keeper.failures.last }
        ensures cause { HasTellCause self.old.tell_faults self.new.tell_faults result }
        ensures disk_faults { self.new.disk_faults ≡ self.old.disk_faults }
        ensures changes { self.new.changes ≡ self.old.changes }
    {
        let output = &mut self.output;
        if self.keeper.failures.tell(output, bytes).is_err() {
            self.tell_faults = self.tell_faults.saturating_add(1);
            return Err(SiteErr::TellFailed);
        }
        Ok(())
    }
}
