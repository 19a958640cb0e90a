// A folder of files and standard output, with one clock for both.
ghost use Rattle.std.specs.Prelude.{◌≡◌, ◌≢◌, ◌↔◌, AllPairs, ◌≤◌, ◌-◌, ℕ, List, ◌++◌, length, take, drop, min, None, Some, MatchOption, IfOk, OnOk, IsErrOf, IsSome, IfSome, map, Contains};
ghost use Rattle.std.specs.String.{string_bytes};
ghost use Rattle.bl_site.specs.declared.site.SiteErr.TheVariants.{DiskFailed, TellFailed, OutOfMemory};
ghost use Rattle.bl_site.specs.Disk.{Name, Disk, Cut, File, IsRemnant, MayLeave};
ghost use Rattle.bl_site.specs.Calls.{Creates, Removes, Renames, Appends, AppendsAny, Syncs, Frays, DoneOrNot, MayDuring, InDoubt, FollowsFile, KeepsDisk, StandsStill, Elapses, Tells};
ghost use Rattle.bl_site.specs.Causes.{one_more, HasDiskCause, HasTellCause};

use std::alloc::{AllocError, AllocFailed, Global};

/// Why a call of a [`Site`] was not done.
#[derive(Clone, Copy, Debug, PartialEq, Eq)]
pub enum SiteErr {
    /// The folder failed. It comes only where `disk_faults` rose in this call, and never from `tell`.
    DiskFailed,
    /// The output failed. It comes from `tell` alone, and only where `tell_faults` rose in this call.
    TellFailed,
    /// Want of memory. Nothing but the count `changes` has changed.
    OutOfMemory,
}

impl From<AllocError> for SiteErr {
    ghost from_gives = { λ _ e. e ≡ OutOfMemory };

    fn from(_: AllocError) -> Self {
        SiteErr::OutOfMemory
    }
}

impl<T: Drop> From<AllocFailed<T>> for SiteErr {
    ghost from_gives = { λ _ e. e ≡ OutOfMemory };

    fn from(_: AllocFailed<T>) -> Self {
        SiteErr::OutOfMemory
    }
}

/// A folder of files and an output. They are one object, so that one clock orders replies and disk writes.
///
/// A disk has, of each file, the bytes as they read, those up to its last sync (its front), and those handed to `append`
/// since. A power cut leaves each file as its front, followed by any bytes, at most as many as were handed over since. A
/// name call (`create`, `rename`, `remove`) is done as a whole or not at all. Once one is answered `Ok`, every cut has the
/// names as they read. A failed one is in doubt until a later one is answered `Ok`: a cut may have it or not. A cut during
/// a call finds what was there before it, or what it makes of that.
///
/// What a call does not name stays, whatever it answers: the other files and what was told. The members that are shown are
/// optional (`shows`); the counts are not.
pub trait Site {
    /// Whether the folder and what was told are shown. The clauses on contents hold where they are.
    ghost shows: { Type 0 };

    /// The disk as it reads now.
    ghost disk: { Self → Disk };

    /// The bytes told so far.
    ghost told: { Self → List ℕ };

    /// The disks that a cut now may find: the one that reads and, while name calls are in doubt, those with such a call or
    /// without it.
    ghost may_be: { Self → Disk → Type 0 };

    /// No name call is in doubt.
    ghost certain: { Self → Type 0 };

    /// The moment, as a number that no call turns back.
    ghost clock: { Self → ℕ };

    /// What a cut at some moment from that clock value on might have left, during a call or between two: the folder, with
    /// the bytes told by that moment and the bytes written of each file by then.
    ghost left_since: { Self → ℕ → Cut → Type 0 };

    /// How often the disk has failed. It never falls, and stops at 2 ^ 64 - 1, where it is taken to have risen.
    ghost disk_faults: { Self → ℕ };

    /// How often the output has failed. It never falls, and stops at 2 ^ 64 - 1, where it is taken to have risen.
    ghost tell_faults: { Self → ℕ };

    /// How many calls of `create`, `append`, `sync`, `rename` and `remove` were made, whatever was answered. It stops at
    /// 2 ^ 64 - 1.
    ghost changes: { Self → ℕ };

    /// The length of a file in bytes, or `None` exactly where no file has this name. Nothing changes.
    ///
    /// Errors: `DiskFailed`, `OutOfMemory`.
    fn len(&mut self, name: &str) -> Result<Option<u64>, SiteErr>
        ensures value { shows → IfOk result (λ r. MatchOption r (disk self.old name.now ≡ None)
            (λ n. (file : File) × (disk self.old name.now ≡ Some file) × (n ≡ length file.read))) }
        ensures stays { shows → KeepsDisk disk may_be certain self.old self.new }
        ensures told { shows → told self.new ≡ told self.old }
        ensures time { shows → Elapses (clock self.old) (clock self.new) (left_since self.old) (left_since self.new) (MayLeave (may_be self.new) (told self.new)) }
        ensures still { shows → IsErrOf result OutOfMemory → StandsStill clock left_since self.old self.new }
        ensures cause { HasDiskCause (disk_faults self.old) (disk_faults self.new) result }
        ensures tell_faults { tell_faults self.new ≡ tell_faults self.old }
        ensures changes { changes self.new ≡ changes self.old };

    /// Reads all bytes of a file from `offset` on that fit into `into`, and answers their number: it is less than the length
    /// of `into` only where the file ends there. `None` exactly where no file has this name. Nothing changes.
    ///
    /// Errors: `DiskFailed`, `OutOfMemory`.
    fn read_at(
        &mut self,
        name: &str,
        offset: u64,
        into: &mut [u8],
    ) -> Result<Option<usize>, SiteErr>
        ensures bound { IfOk result (λ r. IfSome r (λ n. n ≤ length into.new)) }
        ensures value { shows → IfOk result (λ r. MatchOption r (disk self.old name.now ≡ None)
            (λ n. (file : File) × (disk self.old name.now ≡ Some file) × (n ≡ min (length into.new) (length file.read - offset)) × (take n into.new ≡ take n (drop offset file.read)))) }
        ensures stays { shows → KeepsDisk disk may_be certain self.old self.new }
        ensures told { shows → told self.new ≡ told self.old }
        ensures time { shows → Elapses (clock self.old) (clock self.new) (left_since self.old) (left_since self.new) (MayLeave (may_be self.new) (told self.new)) }
        ensures still { shows → IsErrOf result OutOfMemory → StandsStill clock left_since self.old self.new }
        ensures cause { HasDiskCause (disk_faults self.old) (disk_faults self.new) result }
        ensures tell_faults { tell_faults self.new ≡ tell_faults self.old }
        ensures changes { changes self.new ≡ changes self.old };

    /// All names, each once, in any order. Nothing changes.
    ///
    /// Errors: `DiskFailed`, `OutOfMemory`.
    fn list(&mut self, alloc: Global) -> Result<Vec<String>, SiteErr>
        ensures once { shows → IfOk result (λ names. AllPairs (λ a b. a ≢ b) (map string_bytes names.items)) }
        ensures value { shows → IfOk result (λ names. (name : Name) → Contains (map string_bytes names.items) name ↔ IsSome (disk self.old name)) }
        ensures stays { shows → KeepsDisk disk may_be certain self.old self.new }
        ensures told { shows → told self.new ≡ told self.old }
        ensures time { shows → Elapses (clock self.old) (clock self.new) (left_since self.old) (left_since self.new) (MayLeave (may_be self.new) (told self.new)) }
        ensures still { shows → IsErrOf result OutOfMemory → StandsStill clock left_since self.old self.new }
        ensures cause { HasDiskCause (disk_faults self.old) (disk_faults self.new) result }
        ensures tell_faults { tell_faults self.new ≡ tell_faults self.old }
        ensures changes { changes self.new ≡ changes self.old };

    /// Makes the name stand for an empty file, in the place of what it stood for. At `Ok` every cut has the names as they
    /// read.
    ///
    /// Errors: `DiskFailed`, after which it is done or not done, and in doubt; `OutOfMemory`.
    fn create(&mut self, name: &str) -> Result<(), SiteErr>
        ensures done { shows → OnOk result (Creates name.now (disk self.old) (disk self.new)) }
        ensures certain { shows → OnOk result (certain self.new) }
        ensures failed { shows → IsErrOf result DiskFailed → DoneOrNot (Creates name.now) (disk self.old) (disk self.new) }
        ensures doubt { shows → InDoubt (Creates name.now) (may_be self.old) (may_be self.new) }
        ensures memory { shows → IsErrOf result OutOfMemory → KeepsDisk disk may_be certain self.old self.new }
        ensures told { shows → told self.new ≡ told self.old }
        ensures time { shows → Elapses (clock self.old) (clock self.new) (left_since self.old) (left_since self.new) (MayLeave (MayDuring (Creates name.now) (may_be self.old)) (told self.old)) }
        ensures still { shows → IsErrOf result OutOfMemory → StandsStill clock left_since self.old self.new }
        ensures cause { HasDiskCause (disk_faults self.old) (disk_faults self.new) result }
        ensures tell_faults { tell_faults self.new ≡ tell_faults self.old }
        ensures changes { changes self.new ≡ one_more (changes self.old) };

    /// Lets the bytes follow in the file of this name, which must be there. They count as handed over, but no cut need
    /// leave them before a `sync`.
    ///
    /// Errors: `DiskFailed`, after which any bytes follow in the file, at most as many as were to be appended, and all of
    /// `bytes` count as handed over; `OutOfMemory`.
    fn append(&mut self, name: &str, bytes: &[u8]) -> Result<(), SiteErr>
        requires { shows → IsSome (disk self.old name.now) }
        ensures done { shows → OnOk result (Appends name.now bytes.now bytes.now (disk self.old) (disk self.new)) }
        ensures failed { shows → IsErrOf result DiskFailed → AppendsAny name.now bytes.now (disk self.old) (disk self.new) }
        ensures certain { shows → certain self.old → certain self.new }
        // A failed rename may still put the file under its other name: there the bytes follow too.
        ensures doubt { shows → FollowsFile name.now (disk self.old) (disk self.new) (may_be self.old) (may_be self.new) }
        ensures memory { shows → IsErrOf result OutOfMemory → KeepsDisk disk may_be certain self.old self.new }
        ensures told { shows → told self.new ≡ told self.old }
        ensures time { shows → Elapses (clock self.old) (clock self.new) (left_since self.old) (left_since self.new) (MayLeave (may_be self.new) (told self.new)) }
        ensures still { shows → IsErrOf result OutOfMemory → StandsStill clock left_since self.old self.new }
        ensures cause { HasDiskCause (disk_faults self.old) (disk_faults self.new) result }
        ensures tell_faults { tell_faults self.new ≡ tell_faults self.old }
        ensures changes { changes self.new ≡ one_more (changes self.old) };

    /// Puts all bytes of the file of this name, which must be there, on the disk: where no name call is in doubt, every cut
    /// from now on keeps them. The folder reads as before.
    ///
    /// Errors: `DiskFailed`, after which the bytes since the last sync read as any others, at most as many as were handed
    /// over since, and a cut may leave what it might have left before; `OutOfMemory`.
    fn sync(&mut self, name: &str) -> Result<(), SiteErr>
        requires { shows → IsSome (disk self.old name.now) }
        ensures done { shows → OnOk result (Syncs name.now (disk self.old) (disk self.new)) }
        ensures failed { shows → IsErrOf result DiskFailed → Frays name.now (disk self.old) (disk self.new) }
        ensures certain { shows → certain self.old → certain self.new }
        // A failed rename may still put the file under its other name: there it is synced too.
        ensures doubt { shows → FollowsFile name.now (disk self.old) (disk self.new) (may_be self.old) (may_be self.new) }
        ensures memory { shows → IsErrOf result OutOfMemory → KeepsDisk disk may_be certain self.old self.new }
        ensures told { shows → told self.new ≡ told self.old }
        ensures time { shows → Elapses (clock self.old) (clock self.new) (left_since self.old) (left_since self.new) (MayLeave (may_be self.new) (told self.new)) }
        ensures still { shows → IsErrOf result OutOfMemory → StandsStill clock left_since self.old self.new }
        ensures cause { HasDiskCause (disk_faults self.old) (disk_faults self.new) result }
        ensures tell_faults { tell_faults self.new ≡ tell_faults self.old }
        ensures changes { changes self.new ≡ one_more (changes self.old) };

    /// Makes `to` stand for what `from`, which must be there, stood for, and takes `from` away. The file keeps its synced
    /// and its handed bytes. At `Ok` every cut has the names as they read.
    ///
    /// Errors: `DiskFailed`, after which it is done or not done, and in doubt; `OutOfMemory`.
    fn rename(&mut self, from: &str, to: &str) -> Result<(), SiteErr>
        requires { shows → IsSome (disk self.old from.now) }
        ensures done { shows → OnOk result (Renames from.now to.now (disk self.old) (disk self.new)) }
        ensures certain { shows → OnOk result (certain self.new) }
        ensures failed { shows → IsErrOf result DiskFailed → DoneOrNot (Renames from.now to.now) (disk self.old) (disk self.new) }
        ensures doubt { shows → InDoubt (Renames from.now to.now) (may_be self.old) (may_be self.new) }
        ensures memory { shows → IsErrOf result OutOfMemory → KeepsDisk disk may_be certain self.old self.new }
        ensures told { shows → told self.new ≡ told self.old }
        ensures time { shows → Elapses (clock self.old) (clock self.new) (left_since self.old) (left_since self.new) (MayLeave (MayDuring (Renames from.now to.now) (may_be self.old)) (told self.old)) }
        ensures still { shows → IsErrOf result OutOfMemory → StandsStill clock left_since self.old self.new }
        ensures cause { HasDiskCause (disk_faults self.old) (disk_faults self.new) result }
        ensures tell_faults { tell_faults self.new ≡ tell_faults self.old }
        ensures changes { changes self.new ≡ one_more (changes self.old) };

    /// Takes the name, which must be there, away. At `Ok` every cut has the names as they read.
    ///
    /// Errors: `DiskFailed`, after which it is done or not done, and in doubt; `OutOfMemory`.
    fn remove(&mut self, name: &str) -> Result<(), SiteErr>
        requires { shows → IsSome (disk self.old name.now) }
        ensures done { shows → OnOk result (Removes name.now (disk self.old) (disk self.new)) }
        ensures certain { shows → OnOk result (certain self.new) }
        ensures failed { shows → IsErrOf result DiskFailed → DoneOrNot (Removes name.now) (disk self.old) (disk self.new) }
        ensures doubt { shows → InDoubt (Removes name.now) (may_be self.old) (may_be self.new) }
        ensures memory { shows → IsErrOf result OutOfMemory → KeepsDisk disk may_be certain self.old self.new }
        ensures told { shows → told self.new ≡ told self.old }
        ensures time { shows → Elapses (clock self.old) (clock self.new) (left_since self.old) (left_since self.new) (MayLeave (MayDuring (Removes name.now) (may_be self.old)) (told self.old)) }
        ensures still { shows → IsErrOf result OutOfMemory → StandsStill clock left_since self.old self.new }
        ensures cause { HasDiskCause (disk_faults self.old) (disk_faults self.new) result }
        ensures tell_faults { tell_faults self.new ≡ tell_faults self.old }
        ensures changes { changes self.new ≡ one_more (changes self.old) };

    /// Lets the bytes follow what was told. The folder stays.
    ///
    /// Errors: `TellFailed`, after which some first ones of the bytes follow what was told; `OutOfMemory`.
    fn tell(&mut self, bytes: &[u8]) -> Result<(), SiteErr>
        ensures done { shows → OnOk result (told self.new ≡ told self.old ++ bytes.now) }
        ensures failed { shows → IsErrOf result TellFailed → (count : ℕ) × (told self.new ≡ told self.old ++ take count bytes.now) }
        ensures memory { shows → IsErrOf result OutOfMemory → told self.new ≡ told self.old }
        ensures stays { shows → KeepsDisk disk may_be certain self.old self.new }
        ensures time { shows → Elapses (clock self.old) (clock self.new) (left_since self.old) (left_since self.new) (Tells (may_be self.old) (told self.old) bytes.now) }
        ensures still { shows → IsErrOf result OutOfMemory → StandsStill clock left_since self.old self.new }
        ensures cause { HasTellCause (tell_faults self.old) (tell_faults self.new) result }
        ensures disk_faults { disk_faults self.new ≡ disk_faults self.old }
        ensures changes { changes self.new ≡ changes self.old };

    /// What a file reads is one of the things that a cut may leave of it.
    ghost remnant: { shows → (site : Self) (name : Name) (file : File) → disk site name ≡ Some file → IsRemnant file file.read };

    /// The disk as it reads is one that a cut may find.
    ghost reads: { shows → (site : Self) → may_be site (disk site) };

    /// It is the only one while no name call is in doubt.
    ghost only: { shows → (site : Self) (other : Disk) → certain site → may_be site other → other ≡ disk site };

    /// This moment is one of those since an earlier one.
    ghost counts_now: { shows → (site : Self) (t : ℕ) (c : Cut) → t ≤ clock site → MayLeave (may_be site) (told site) c → left_since site t c };

    /// What a cut from a moment on might have left, one from an earlier moment on might have left too.
    ghost earlier: { shows → (site : Self) (s t : ℕ) (c : Cut) → s ≤ t → left_since site t c → left_since site s c };

    /// Since this moment there is no other.
    ghost only_now: { shows → (site : Self) (c : Cut) → left_since site (clock site) c → MayLeave (may_be site) (told site) c };
}
