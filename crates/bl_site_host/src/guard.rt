//! What a program does before it begins: it takes the places of standard streams that are closed, and the folder for itself alone.
ghost use Rattle.std.specs.Prelude.{◌≡◌, ◌≤◌, ◌<◌, ◌⊎◌, ◌∷◌, ℕ, List, IfOk, OnOk, MatchOption};
ghost use Rattle.bl_site_host.specs.Doors.{IsAsked, IsIn, Takes, error_of};
ghost use Rattle.bl_site_host.specs.Knocks.{Knock, Opened, Locked};

use std::{fmt, io};

// The number of standard error, the last of the standard streams.
const STANDARD_ERROR: u32 = 2;

/// Keeps the places of the standard streams taken, so that no file that is opened later gets one of them.
#[derive(Drop)]
pub struct Streams<D: Door> {
    pub(crate) first: Option<D::Folder>,
    pub(crate) second: Option<D::Folder>,
    pub(crate) third: Option<D::Folder>,
}

impl<D: Door> Streams<D> {
    /// Opens the current folder where a standard stream is closed. A read from it fails then, and so does a write to it.
    ///
    /// Errors: those of opening the folder.
    pub fn guard(door: &mut D) -> io::Result<Streams<D>>
        ensures { D.shows → IfOk result (λ streams. (place : ℕ) → place ≤ 2 → D.taken door.old place
            ⊎ IsIn D.place streams.first place ⊎ IsIn D.place streams.second place ⊎ IsIn D.place streams.third place) }
    {
        let Some(first) = stand_in(door)? else {
            return Ok(Streams {
                first: None,
                second: None,
                third: None,
            });
        };
        let Some(second) = stand_in(door)? else {
            return Ok(Streams {
                first: Some(first),
                second: None,
                third: None,
            });
        };
        let third = stand_in(door)?;
        Ok(Streams {
            first: Some(first),
            second: Some(second),
            third,
        })
    }
}

// The folder, opened in the place of a standard stream, or `None` where none of these is free.
fn stand_in<D: Door>(door: &mut D) -> io::Result<Option<D::Folder>>
    ensures { D.shows → IfOk result (λ opened. MatchOption opened ((place : ℕ) → place ≤ 2 → D.taken door.old place)
        (λ folder. (D.place folder ≤ 2) × Takes (D.place folder) (D.taken door.old) (D.taken door.new))) }
{
    let folder = door.open()?;
    if door.place(&folder) > STANDARD_ERROR {
        return Ok(None);
    }
    Ok(Some(folder))
}

/// Why a folder was not locked.
#[derive(Drop)]
pub enum LockErr {
    /// Another process holds the lock.
    Held,
    /// The system failed.
    Failed(io::Error),
}

impl fmt::Display for LockErr {
    ghost use Rattle.bl_site_host.specs.Doors.{words_of};

    ghost output = { words_of };

    fn fmt<W: fmt::Write>(&self, f: &mut fmt::Formatter<W>) -> fmt::Result {
        match self {
            LockErr::Held => write!(
                f,
                "another process uses this folder; wait until it has ended. Nothing was done"
            ),
            LockErr::Failed(error) => write!(f, "the folder could not be locked: {error}"),
        }
    }
}

/// What a process asks of the system before it has the folder. Each call is noted with its answer, where the system shows its calls.
pub trait Door {
    type Folder: Drop;

    /// Whether the calls are shown, and what is locked. The clauses hold where they are.
    ghost shows: { Type 0 };

    /// The calls so far, the newest first.
    ghost knocks: { Self → List Knock };

    /// This process has the lock, as long as it keeps the open folder.
    ghost locked: { Self.Folder → Type 0 };

    /// The places that are taken among the open files of this process.
    ghost taken: { Self → ℕ → Type 0 };

    /// The place of the open folder.
    ghost place: { Self.Folder → ℕ };

    /// Opens the current folder, in the first place that is free.
    fn open(&mut self) -> io::Result<Self::Folder>
        ensures knocks { shows → knocks self.new ≡ Opened (error_of result) ∷ knocks self.old }
        ensures lowest { shows → IfOk result (λ folder. (other : ℕ) → other < place folder → taken self.old other) }
        ensures takes { shows → IfOk result (λ folder. Takes (place folder) (taken self.old) (taken self.new)) };

    /// The place of the open folder.
    fn place(&self, folder: &Self::Folder) -> u32
        ensures { shows → result ≡ place folder.now };

    /// Locks the folder. It does not wait.
    ///
    /// Errors: `Held`, `Failed`.
    fn lock(&mut self, folder: &mut Self::Folder) -> Result<(), LockErr>
        ensures locks { shows → OnOk result (locked folder.new) }
        ensures knocks { shows → knocks self.new ≡ Locked (error_of result) ∷ knocks self.old };
}

/// The current folder, as one process alone may use it. The lock leaves no file, binds only those that ask for it, and goes with the
/// process, however it ends.
#[derive(Drop)]
pub struct FolderLock<D: Door> {
    pub(crate) folder: D::Folder,
}

impl<D: Door> FolderLock<D> {
    /// Opens the current folder and locks it. It does not wait.
    ///
    /// Errors: `Held`, `Failed`, each only where the system has just answered so.
    pub fn take(door: &mut D) -> Result<FolderLock<D>, LockErr>
        ensures locked { D.shows → IfOk result (λ lock. D.locked lock.folder) }
        ensures asked { D.shows → IsAsked (error_of result) (D.knocks door.old) (D.knocks door.new) }
    {
        let mut folder = match door.open() {
            Ok(folder) => folder,
            Err(e) => return Err(LockErr::Failed(e)),
        };
        door.lock(&mut folder)?;
        Ok(FolderLock { folder })
    }
}
