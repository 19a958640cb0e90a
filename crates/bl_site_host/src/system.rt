//! What a folder asks of the system. Each call is noted with its answer, where the system shows its calls.
ghost use Rattle.std.specs.Prelude.{◌≡◌, ◌≤◌, ℕ, List, ◌∷◌, length, take, is_ok, IfOk, MatchResult, Option};
ghost use Rattle.std.specs.Option.{option_map};
ghost use Rattle.bl_site.specs.Disk.{Name};
ghost use Rattle.bl_site_host.specs.Events.{Event, Looked, Listing, ListingBroke, Opened, Made, Read, Wrote, SyncedFile, SyncedFolder, Renamed, Removed, answer_of, Gives};

use std::alloc::Global;
use std::io;

/// What stands under a name.
#[derive(Clone, Copy)]
pub enum Found {
    /// No thing.
    Nothing,
    /// A regular file of this length in bytes.
    File(u64),
    /// A link, a pipe, a folder or a device.
    Other,
}

/// The next entry of a folder.
#[derive(Drop)]
pub enum Listed {
    /// A regular file with this name.
    File(String),
    /// Another thing, or a file whose name is not UTF-8 or that has just left.
    Other,
    /// No entry is left.
    End,
}

/// The calls of the system that a folder stands on. They are the trusted part: of the real ones no clause says anything, so an
/// implementation for them shows nothing, and does in each call no more than it must.
pub trait System {
    type File: Drop;

    type Entries: Drop;

    /// Whether the calls are shown. The clauses hold where they are.
    ghost shows: { Type 0 };

    /// The calls so far, the newest first.
    ghost calls: { Self → List Event };

    /// The number by which the calls name an open file.
    ghost id: { Self.File → ℕ };

    /// The entries of a folder that are left.
    ghost left: { Self.Entries → List (Option Name) };

    /// What stands under the name. A link is not followed.
    fn look(&mut self, name: &str) -> io::Result<Found>
        ensures { shows → calls self.new ≡ Looked name.now (answer_of result) ∷ calls self.old };

    /// Opens the file for reading, and for appending too if `appends`.
    fn open(&mut self, name: &str, appends: bool) -> io::Result<Self::File>
        ensures { shows → calls self.new ≡ Opened name.now (option_map id (answer_of result)) ∷ calls self.old };

    /// Makes an empty file: of the one that is there if `replaces`, and else a new one where there is no thing.
    fn make(&mut self, name: &str, replaces: bool) -> io::Result<Self::File>
        ensures { shows → calls self.new ≡ Made name.now (option_map id (answer_of result)) ∷ calls self.old };

    /// Reads what there is from the offset on, as far as it fits.
    fn read(&mut self, file: &mut Self::File, offset: u64, into: &mut [u8]) -> io::Result<usize>
        ensures bound { IfOk result (λ count. count ≤ length into.new) }
        ensures calls { shows → calls self.new ≡ Read (id file.old) offset (length into.old) (option_map (λ count. take count into.new) (answer_of result)) ∷ calls self.old }
        ensures same { shows → id file.new ≡ id file.old };

    /// Appends all of the bytes, or fails and has appended some first ones of them.
    fn append(&mut self, file: &mut Self::File, bytes: &[u8]) -> io::Result<()>
        ensures calls { shows → calls self.new ≡ Wrote (id file.old) bytes.now (is_ok result) ∷ calls self.old }
        ensures same { shows → id file.new ≡ id file.old };

    /// Puts the bytes of the file on the disk.
    fn sync_file(&mut self, file: &Self::File) -> io::Result<()>
        ensures { shows → calls self.new ≡ SyncedFile (id file.now) (is_ok result) ∷ calls self.old };

    /// Puts the names of the folder on the disk.
    fn sync_folder(&mut self) -> io::Result<()>
        ensures { shows → calls self.new ≡ SyncedFolder (is_ok result) ∷ calls self.old };

    /// Gives the thing under the name another name, in the place of what stood there.
    fn rename(&mut self, from: &str, to: &str) -> io::Result<()>
        ensures { shows → calls self.new ≡ Renamed from.now to.now (is_ok result) ∷ calls self.old };

    /// Takes the name away.
    fn remove(&mut self, name: &str) -> io::Result<()>
        ensures { shows → calls self.new ≡ Removed name.now (is_ok result) ∷ calls self.old };

    /// Begins a list of the folder.
    fn list(&mut self) -> io::Result<Self::Entries>
        ensures { shows → calls self.new ≡ Listing (option_map left (answer_of result)) ∷ calls self.old };

    /// The next entry. After a failure it is not known which entries are left.
    fn next(&mut self, alloc: Global, entries: &mut Self::Entries) -> io::Result<Listed>
        ensures gives { shows → IfOk result (λ entry. Gives entry (left entries.old) (left entries.new)) }
        ensures calls { shows → MatchResult result (λ _. calls self.new ≡ calls self.old) (λ _. calls self.new ≡ ListingBroke ∷ calls self.old) };
}
