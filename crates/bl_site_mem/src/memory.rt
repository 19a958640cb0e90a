// A site in memory: its files and output, and the record of its calls.
ghost use Rattle.std.specs.Prelude.{◌≡◌, ◌+◌, ◌-◌, ◌^◌, ◌≤◌, ◌↔◌, ◌≢◌, ℕ, List, [], ◌∷◌, ◌++◌, length, take, drop, min, false, map, string_bytes, None, Some, OnOk, OnErr, IfOk, IsErrOf, IsSome, MatchResult, MatchOption, AllPairs, Contains};
ghost use Rattle.std.specs.Option.{option_map};
ghost use Rattle.bl_site.specs.Disk.{File, IsImage, folder_of, written_of};
ghost use Rattle.bl_site.specs.Calls.{Puts};
ghost use Rattle.bl_site.specs.Causes.{one_more};
ghost use Rattle.bl_site.specs.declared.site.SiteErr.TheVariants.{DiskFailed, TellFailed, OutOfMemory};
ghost use Rattle.bl_site_mem.specs.Record.{Create, Append, Sync, Rename, Remove, Tell, Look, PutFile, is_put, fresh, fails_next, calls_in, start, run, synced_file, disk_of, told_of, IsCertain, left_since_of};
ghost use Rattle.bl_site_mem.specs.Recorded.{with_call, IsAsked, IsRecorded};
ghost use Rattle.bl_site_mem.specs.Bytes.{call_of, entry_of, entries_of};
ghost use Rattle.bl_site_mem.specs.Kept.{IsKept};
ghost use Rattle.bl_site_mem.specs.Moments.{until, state_at, left_of, IsStarted};

use crate::applied::apply;
use crate::cuts::cut_of;
use crate::files::{Files, names_in, read_of};
use crate::record::{KeptCall, KeptEntry};
use bl_site::SiteErr;
use std::alloc::{AllocError, Global};
use std::collections::BTreeMap;
use std::marker::Model;

/// A folder and its output in memory. It shows everything, and keeps a record of all its calls, which are numbered from 1,
/// so that chosen calls can fail and a power cut after any call can be tried.
///
/// A call whose number is to fail changes nothing but the counts, except that a failing `append` appends the first half of
/// its bytes, and a failing `tell` tells the first half, both rounded down.
#[derive(Drop)]
pub struct MemSite {
    alloc: Global,
    files: Files,
    told: Vec<u8>,
    entries: Vec<KeptEntry>,
    failing: Vec<u64>,
    calls: u64,
    changes: u64,
}

// Contracts see the record. The files and the output are those that the recorded calls made.
impl Model for MemSite {
    ghost use Rattle.std.specs.Prelude.{◌≡◌, ◌-◌, ◌^◌, min};
    ghost use Rattle.bl_site_mem.specs.Record.{Memory, start, run, calls_in};

    ghost Value = { Memory };

    ghost use Rattle.bl_site_mem.specs.Bytes.{entries_of};
    ghost use Rattle.bl_site_mem.specs.Kept.{IsTied};

    ghost view = { λ s. record { entries = entries_of s.entries.items; failing = s.failing.items; changes = s.changes } };

    ghost invariant = { λ s. IsTied s.files s.told.items s.calls (entries_of s.entries.items) };
}

// Does a call, and puts it into the record.
fn perform(
    alloc: Global,
    files: &mut Files,
    told: &mut Vec<u8>,
    entries: &mut Vec<KeptEntry>,
    entry: KeptEntry,
) -> Result<(), AllocError>
    ensures ok { OnOk result (entries_of entries.new.items ≡ entries_of entries.old.items ++ entry_of entry ∷ []) }
    ensures err { OnErr result (entries.new.items ≡ entries.old.items) }
    ensures kept { IsKept files.old (run (entries_of entries.old.items) start).disk → IsKept files.new (run (entries_of entries.new.items) start).disk }
    ensures told_kept { told.old.items ≡ (run (entries_of entries.old.items) start).told → told.new.items ≡ (run (entries_of entries.new.items) start).told }
{
    // With room for the entry nothing can fail once the call is done.
    entries.reserve(1)?;
    apply(alloc, files, told, &entry)?;
    entries.push(entry)?;
    Ok(())
}

impl MemSite {
    /// An empty folder, nothing told, and no failing call.
    ///
    /// Errors: `OutOfMemory` alone.
    pub fn start(alloc: Global) -> Result<MemSite, SiteErr>
        ensures fresh { IfOk result (λ site. site ≡ fresh []) }
        ensures only_memory { OnErr result (IsErrOf result OutOfMemory) }
    {
        MemSite::with_failures(alloc, &[])
    }

    /// The same, but the calls of these numbers fail.
    ///
    /// Errors: `OutOfMemory` alone.
    pub fn with_failures(alloc: Global, calls: &[u64]) -> Result<MemSite, SiteErr>
        ensures fresh { IfOk result (λ site. site ≡ fresh calls.now) }
        ensures only_memory { OnErr result (IsErrOf result OutOfMemory) }
    {
        let failing = Vec::from_slice(alloc, calls)?;
        Ok(MemSite {
            alloc,
            files: BTreeMap::new(alloc),
            told: Vec::new(alloc),
            entries: Vec::new(alloc),
            failing,
            calls: 0,
            changes: 0,
        })
    }

    /// Makes a synced file, in the place of an older one of this name. It is no numbered call, and the file stands in the
    /// cuts from the last call before it on.
    ///
    /// Errors: `OutOfMemory` alone, after which nothing has changed.
    pub fn put_file(&mut self, name: &str, bytes: &[u8]) -> Result<(), SiteErr>
        ensures recorded { OnOk result (self.new ≡ with_call (PutFile name.now bytes.now) false self.old) }
        ensures puts { OnOk result (Puts name.now (synced_file bytes.now) (disk_of self.old) (disk_of self.new)) }
        ensures certain { IsCertain self.old → OnOk result (IsCertain self.new) }
        ensures told { OnOk result (told_of self.new ≡ told_of self.old) }
        ensures unchanged { OnErr result (self.new ≡ self.old) }
        ensures only_memory { OnErr result (IsErrOf result OutOfMemory) }
    {
        let name = String::from_str(self.alloc, name)?;
        let bytes = Vec::from_slice(self.alloc, bytes)?;
        let entry = KeptEntry {
            call: KeptCall::PutFile(name, bytes),
            failed: false,
        };
        perform(
            self.alloc,
            &mut self.files,
            &mut self.told,
            &mut self.entries,
            entry,
        )?;
        Ok(())
    }

    /// A file's bytes as they read, or `None` where no file has this name. It is no call.
    pub fn file(&self, name: &str) -> Option<&[u8]>
        ensures { MatchOption result (disk_of self.now name.now ≡ None) (λ bytes. folder_of (disk_of self.now) name.now ≡ Some bytes.now) }
    {
        read_of(&self.files, name)
    }

    /// What was told. It is no call.
    pub fn told(&self) -> &[u8]
        ensures { result.now ≡ told_of self.now }
    {
        self.told.as_slice()
    }

    /// How many calls were made, of all nine kinds. It stops at 2 ^ 64 - 1.
    pub fn calls(&self) -> u64
        ensures { result ≡ min (calls_in self.now.entries) (2 ^ 64 - 1) }
    {
        self.calls
    }

    /// The folder that a power cut after call `at` leaves, after the last one where `at` is greater. Of each unsynced tail
    /// it keeps the first `keep` bytes. With a `fill` the rest of the tail is replaced by that byte, and else it is gone. All
    /// files of the new site are synced; it has told nothing, counts its calls and faults from 0, and has no failing call.
    ///
    /// Errors: `OutOfMemory` alone.
    pub fn cut(&self, at: u64, keep: u64, fill: Option<u8>) -> Result<MemSite, SiteErr>
        ensures left { IfOk result (λ site. (name : List ℕ) → disk_of site name ≡ option_map (λ file. synced_file (left_of keep fill file)) ((state_at at self.now).disk name)) }
        ensures started { IfOk result (λ site. IsStarted site) }
        // It is an image of the disk at that moment, and one of those that the site says a cut might have left.
        ensures image { IfOk result (λ site. IsImage (state_at at self.now).disk (folder_of (disk_of site))) }
        ensures was_left { IfOk result (λ site. left_since_of self.now (length (until at self.now.entries)) (record {
          folder = folder_of (disk_of site);
          told = (state_at at self.now).told;
          written = written_of (state_at at self.now).disk;
        })) }
        ensures only_memory { OnErr result (IsErrOf result OutOfMemory) }
    {
        cut_of(self.alloc, self.entries.as_slice(), at, keep, fill)
    }
}

// The calls of a site, as they are recorded.
impl MemSite {
    fn count_change(&mut self)
        ensures { self.new ≡ record { entries = self.old.entries; failing = self.old.failing; changes = one_more self.old.changes } }
    {
        self.changes = self.changes.saturating_add(1);
    }

    // Does the next call, and answers whether it fails.
    fn ask(&mut self, call: KeptCall) -> Result<bool, AllocError>
        requires { is_put (call_of call) ≡ false }
        ensures recorded { MatchResult result (λ failed. self.new ≡ with_call (call_of call) failed self.old) (λ _. self.new ≡ self.old) }
        ensures fails { IfOk result (λ failed. failed ≡ fails_next self.old) }
    {
        let number = self.calls.saturating_add(1);
        let failed = self.failing.contains(&number);
        let entry = KeptEntry { call, failed };
        perform(
            self.alloc,
            &mut self.files,
            &mut self.told,
            &mut self.entries,
            entry,
        )?;
        self.calls = number;
        Ok(failed)
    }

    // A call on the folder.
    fn ask_disk(&mut self, call: KeptCall) -> Result<(), SiteErr>
        requires { is_put (call_of call) ≡ false }
        ensures recorded { IsAsked (call_of call) result self.old self.new }
        ensures not_tell { IsErrOf result TellFailed → ⊥ }
    {
        if self.ask(call)? {
            return Err(SiteErr::DiskFailed);
        }
        Ok(())
    }

    /// The length of a file in bytes, or `None` where no file has this name.
    ///
    /// Errors: `DiskFailed` where the call is to fail; `OutOfMemory`.
    pub fn len(&mut self, name: &str) -> Result<Option<u64>, SiteErr>
        ensures recorded { IsRecorded Look result self.old self.new }
        ensures value { IfOk result (λ r. MatchOption r (disk_of self.old name.now ≡ None)
            (λ n. (file : File) × (disk_of self.old name.now ≡ Some file) × (n ≡ length file.read))) }
        ensures not_tell { IsErrOf result TellFailed → ⊥ }
    {
        let found = self.length_of(name);
        self.look()?;
        Ok(found)
    }

    /// Reads all bytes of a file from `offset` on that fit into `into`, and answers their number; `None` where no file has this
    /// name.
    ///
    /// Errors: `DiskFailed` where the call is to fail; `OutOfMemory`.
    pub fn read_at(
        &mut self,
        name: &str,
        offset: u64,
        into: &mut [u8],
    ) -> Result<Option<usize>, SiteErr>
        ensures recorded { IsRecorded Look result self.old self.new }
        ensures value { IfOk result (λ r. MatchOption r (disk_of self.old name.now ≡ None)
            (λ n. (file : File) × (disk_of self.old name.now ≡ Some file) × (n ≡ min (length into.new) (length file.read - offset)) × (take n into.new ≡ take n (drop offset file.read)))) }
        ensures not_tell { IsErrOf result TellFailed → ⊥ }
    {
        let found = self.read_into(name, offset, into);
        self.look()?;
        Ok(found)
    }

    /// All names, each once.
    ///
    /// Errors: `DiskFailed` where the call is to fail; `OutOfMemory`.
    pub fn list(&mut self, alloc: Global) -> Result<Vec<String>, SiteErr>
        ensures recorded { IsRecorded Look result self.old self.new }
        ensures value { IfOk result (λ names. (name : List ℕ) → Contains (map string_bytes names.items) name ↔ IsSome (disk_of self.old name)) }
        ensures once { IfOk result (λ names. AllPairs (λ a b. a ≢ b) (map string_bytes names.items)) }
        ensures not_tell { IsErrOf result TellFailed → ⊥ }
    {
        let names = self.names(alloc)?;
        self.look()?;
        Ok(names)
    }

    /// Makes the name stand for an empty file, in the place of what it stood for.
    ///
    /// Errors: `DiskFailed` where the call is to fail, which changes nothing but the counts; `OutOfMemory`.
    pub fn create(&mut self, name: &str) -> Result<(), SiteErr>
        ensures recorded { IsRecorded (Create name.now) result self.old self.new }
        ensures not_tell { IsErrOf result TellFailed → ⊥ }
    {
        self.count_change();
        let name = String::from_str(self.alloc, name)?;
        self.ask_disk(KeptCall::Create(name))
    }

    /// Lets the bytes follow in the file of this name.
    ///
    /// Errors: `DiskFailed` where the call is to fail: the first half of the bytes follows; `OutOfMemory`.
    pub fn append(&mut self, name: &str, bytes: &[u8]) -> Result<(), SiteErr>
        ensures recorded { IsRecorded (Append name.now bytes.now) result self.old self.new }
        ensures not_tell { IsErrOf result TellFailed → ⊥ }
    {
        self.count_change();
        let name = String::from_str(self.alloc, name)?;
        let bytes = Vec::from_slice(self.alloc, bytes)?;
        self.ask_disk(KeptCall::Append(name, bytes))
    }

    /// Puts all bytes of the file of this name on the disk.
    ///
    /// Errors: `DiskFailed` where the call is to fail, which changes nothing but the counts; `OutOfMemory`.
    pub fn sync(&mut self, name: &str) -> Result<(), SiteErr>
        ensures recorded { IsRecorded (Sync name.now) result self.old self.new }
        ensures not_tell { IsErrOf result TellFailed → ⊥ }
    {
        self.count_change();
        let name = String::from_str(self.alloc, name)?;
        self.ask_disk(KeptCall::Sync(name))
    }

    /// Makes `to` stand for what `from` stood for, and takes `from` away.
    ///
    /// Errors: `DiskFailed` where the call is to fail, which changes nothing but the counts; `OutOfMemory`.
    pub fn rename(&mut self, from: &str, to: &str) -> Result<(), SiteErr>
        ensures recorded { IsRecorded (Rename from.now to.now) result self.old self.new }
        ensures not_tell { IsErrOf result TellFailed → ⊥ }
    {
        self.count_change();
        let from = String::from_str(self.alloc, from)?;
        let to = String::from_str(self.alloc, to)?;
        self.ask_disk(KeptCall::Rename(from, to))
    }

    /// Takes the name away.
    ///
    /// Errors: `DiskFailed` where the call is to fail, which changes nothing but the counts; `OutOfMemory`.
    pub fn remove(&mut self, name: &str) -> Result<(), SiteErr>
        ensures recorded { IsRecorded (Remove name.now) result self.old self.new }
        ensures not_tell { IsErrOf result TellFailed → ⊥ }
    {
        self.count_change();
        let name = String::from_str(self.alloc, name)?;
        self.ask_disk(KeptCall::Remove(name))
    }

    fn look(&mut self) -> Result<(), SiteErr>
        ensures recorded { IsRecorded Look result self.old self.new }
        ensures not_tell { IsErrOf result TellFailed → ⊥ }
    {
        self.ask_disk(KeptCall::Look)
    }

    /// Lets the bytes follow what was told.
    ///
    /// Errors: `TellFailed` where the call is to fail: the first half of the bytes follows; `OutOfMemory`.
    pub fn tell(&mut self, bytes: &[u8]) -> Result<(), SiteErr>
        ensures recorded { IsRecorded (Tell bytes.now) result self.old self.new }
        ensures not_disk { IsErrOf result DiskFailed → ⊥ }
    {
        let bytes = Vec::from_slice(self.alloc, bytes)?;
        if self.ask(KeptCall::Tell(bytes))? {
            return Err(SiteErr::TellFailed);
        }
        Ok(())
    }

    fn length_of(&self, name: &str) -> Option<u64>
        ensures { MatchOption result (disk_of self.now name.now ≡ None) (λ n. (file : File) × (disk_of self.now name.now ≡ Some file) × (n ≡ length file.read)) }
    {
        match read_of(&self.files, name) {
            Some(bytes) => Some(bytes.len() as u64),
            None => None,
        }
    }

    fn names(&self, alloc: Global) -> Result<Vec<String>, AllocError>
        ensures value { IfOk result (λ names. (name : List ℕ) → Contains (map string_bytes names.items) name ↔ IsSome (disk_of self.now name)) }
        ensures once { IfOk result (λ names. AllPairs (λ a b. a ≢ b) (map string_bytes names.items)) }
    {
        names_in(alloc, &self.files)
    }

    fn read_into(&self, name: &str, offset: u64, into: &mut [u8]) -> Option<usize>
        ensures { MatchOption result (disk_of self.now name.now ≡ None)
            (λ n. (file : File) × (disk_of self.now name.now ≡ Some file) × (n ≡ min (length into.new) (length file.read - offset)) × (take n into.new ≡ take n (drop offset file.read))) }
    {
        match read_of(&self.files, name) {
            Some(bytes) => Some(copy_front(bytes_from(bytes, offset), into)),
            None => None,
        }
    }
}

// The bytes from an offset on, none where it is past their end.
fn bytes_from(bytes: &[u8], offset: u64) -> &[u8]
    ensures { result.now ≡ drop offset bytes.now }
{
    if offset < bytes.len() as u64 {
        &bytes[offset as usize..]
    } else {
        &[]
    }
}

// Copies as many bytes as fit.
pub(crate) fn copy_front(bytes: &[u8], into: &mut [u8]) -> usize
    ensures count { result ≡ min (length into.new) (length bytes.now) }
    ensures copied { take result into.new ≡ take result bytes.now }
    ensures rest { drop result into.new ≡ drop result into.old }
{
    let count = bytes.len().min(into.len());
    into[..count].copy_from_slice(&bytes[..count]);
    count
}
