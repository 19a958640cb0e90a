//! The calls of the real system, and standard output. This is the trusted edge: it shows nothing.
ghost use Rattle.std.specs.Prelude.{[], None};

use crate::guard::{Door, LockErr};
use crate::moving::{read_full, write_whole};
use crate::output::Output;
use crate::system::{Found, Listed, System};
use std::alloc::Global;
use std::fs::{self, File, OpenFile, OpenOptions, ReadDir, TryLockError};
use std::io::{self, ErrorKind, Print, Seek, SeekFrom, Write};
use std::os::fd::AsRawFd;
use std::rt::Files;

// Where Linux tells the limits of this process.
const LIMITS: &str = "/proc/self/limits";

/// The current folder.
#[derive(Drop)]
pub struct Host<R: Files + AllocGlobal + Clone + Drop> {
    rt: R,
    // How long a file may get. A write behind it would end the process by a signal.
    limit: u64,
}

impl<R: Files + AllocGlobal + Clone + Drop> Host<R> {
    pub(crate) fn new(rt: R) -> Host<R> {
        let limit = match fs::read_to_string(&rt, LIMITS) {
            Ok(limits) => file_limit(limits.as_str()).unwrap_or(u64::MAX),
            Err(_) => u64::MAX,
        };
        Host { rt, limit }
    }

    // How many of so many bytes may follow in the file.
    fn room(&self, file: &R::File, count: usize) -> io::Result<usize> {
        if self.limit == u64::MAX {
            return Ok(count);
        }
        let left = self.limit.saturating_sub(file.metadata()?.len());
        Ok(usize::try_from(left).unwrap_or(usize::MAX).min(count))
    }
}

// How long a file may get by these limits, as the system writes them; `None` where that is unlimited.
fn file_limit(limits: &str) -> Option<u64> {
    for line in limits.lines() {
        if let Some(limit) = line.strip_prefix("Max file size") {
            return limit.split_whitespace().next()?.parse::<u64>().ok();
        }
    }
    None
}

impl<R: Files + AllocGlobal + Clone + Drop> System for Host<R> {
    type File = R::File;

    type Entries = ReadDir<R, Global>;

    ghost shows = { ⊥ };

    ghost calls = { λ _. [] };

    ghost id = { λ _. 0 };

    ghost left = { λ _. [] };

    fn look(&mut self, name: &str) -> io::Result<Found> {
        match fs::symlink_metadata(&self.rt, name) {
            Ok(data) if data.is_file() => Ok(Found::File(data.len())),
            Ok(_) => Ok(Found::Other),
            Err(e) if e.kind() == ErrorKind::NotFound => Ok(Found::Nothing),
            Err(e) => Err(e),
        }
    }

    fn open(&mut self, name: &str, appends: bool) -> io::Result<R::File> {
        let mut how = OpenOptions::new();
        how.read(true);
        how.append(appends);
        how.open(&self.rt, name)
    }

    fn make(&mut self, name: &str, replaces: bool) -> io::Result<R::File> {
        let mut how = OpenOptions::new();
        how.write(true);
        how.truncate(replaces);
        how.create_new(!replaces);
        how.open(&self.rt, name)
    }

    fn read(&mut self, file: &mut R::File, offset: u64, into: &mut [u8]) -> io::Result<usize> {
        file.seek(SeekFrom::Start(offset))?;
        read_full(file, into)
    }

    fn append(&mut self, file: &mut R::File, bytes: &[u8]) -> io::Result<()> {
        let room = self.room(file, bytes.len())?;
        match bytes.split_at_checked(room) {
            Some((fits, [])) => write_whole(file, fits)?,
            Some((fits, _)) => {
                write_whole(file, fits)?;
                return Err(io::Error::from(ErrorKind::FileTooLarge));
            }
            None => return Err(io::Error::from(ErrorKind::FileTooLarge)),
        }
        file.flush()
    }

    fn sync_file(&mut self, file: &R::File) -> io::Result<()> {
        file.sync_all()
    }

    fn sync_folder(&mut self) -> io::Result<()> {
        fs::open(&self.rt, ".")?.sync_all()
    }

    fn rename(&mut self, from: &str, to: &str) -> io::Result<()> {
        fs::rename(&self.rt, from, to)
    }

    fn remove(&mut self, name: &str) -> io::Result<()> {
        fs::remove_file(&self.rt, name)
    }

    fn list(&mut self) -> io::Result<ReadDir<R, Global>> {
        fs::read_dir(&self.rt, ".")
    }

    fn next(&mut self, alloc: Global, entries: &mut ReadDir<R, Global>) -> io::Result<Listed> {
        match entries.next() {
            None => Ok(Listed::End),
            Some(Ok(entry)) => match entry.file_type() {
                Ok(kind) if kind.is_file() => {
                    Ok(Listed::File(String::from_str(alloc, entry.file_name())?))
                }
                Ok(_) => Ok(Listed::Other),
                Err(e) if e.kind() == ErrorKind::NotFound => Ok(Listed::Other),
                Err(e) => Err(e),
            },
            Some(Err(e)) if e.kind() == ErrorKind::InvalidFilename => Ok(Listed::Other),
            Some(Err(e)) => Err(e),
        }
    }
}

/// The current folder, before this process has it.
#[derive(Drop)]
pub struct HostDoor<R: Files<File = File> + Drop> {
    rt: R,
}

impl<R: Files<File = File> + Drop> HostDoor<R> {
    /// The door of the current folder.
    pub fn new(rt: R) -> HostDoor<R> {
        HostDoor { rt }
    }
}

impl<R: Files<File = File> + Drop> Door for HostDoor<R> {
    type Folder = File;

    ghost shows = { ⊥ };

    ghost knocks = { λ _. [] };

    ghost locked = { λ _. ⊥ };

    ghost taken = { λ _ _. ⊥ };

    ghost place = { λ _. 0 };

    fn open(&mut self) -> io::Result<File> {
        fs::open(&self.rt, ".")
    }

    fn place(&self, folder: &File) -> u32 {
        folder.as_raw_fd().unsigned_abs()
    }

    fn lock(&mut self, folder: &mut File) -> Result<(), LockErr> {
        match folder.try_lock() {
            Ok(()) => Ok(()),
            Err(TryLockError::WouldBlock) => Err(LockErr::Held),
            Err(TryLockError::Error(e)) => Err(LockErr::Failed(e)),
        }
    }
}

/// Standard output. It holds no bytes back: a write is one of the system.
#[derive(Drop)]
pub struct Standard<P: Print + Drop> {
    pub(crate) to: P,
}

impl<P: Print + Drop> Write for Standard<P> {
    fn write(&mut self, buf: &[u8]) -> io::Result<usize> {
        io::writer(&self.to).write(buf)
    }

    fn flush(&mut self) -> io::Result<()> {
        io::writer(&self.to).flush()
    }
}

impl<P: Print + Drop> Output for Standard<P> {
    ghost flushed = { λ _. None };

    fn flush_all(&mut self) -> io::Result<()> {
        self.flush()
    }
}
