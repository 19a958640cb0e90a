//! The adapters on the real folder, and writers and readers that are short or fail.
ghost use Rattle.std.specs.Prelude.{◌≡◌, ◌<◌, ◌∷◌, IsTrue, map};
ghost use Rattle.bl_site_host.specs.Knocks.{Opened, Locked};
ghost use Rattle.bl_site_host.specs.declared.tests.Try.TheVariants as try;

use crate::faults::{Fault, changed, counted, synced};
use crate::guard::{Door, FolderLock, LockErr, Streams};
use crate::moving::{read_full, write_whole};
use crate::{HostSite, HostSource};
use bl_site::{Site, SiteErr, Source, SourceErr};
use std::io::{self, ErrorKind, Read, Write};
use std::process::Abort;
use std::test::Fail;

fn failed(error: SiteErr) -> Fail {
    match error {
        SiteErr::DiskFailed => Fail::from("disk"),
        SiteErr::TellFailed => Fail::from("tell"),
        SiteErr::OutOfMemory => Fail::from("memory"),
    }
}

fn kind_of(done: Result<(), Fault>) -> Option<ErrorKind> {
    match done {
        Ok(()) | Err(Fault::Memory) => None,
        Err(Fault::Disk(error)) => Some(error.kind()),
    }
}

// Takes up to two bytes a call, as long as there is room, and then fails.
#[derive(Drop)]
struct Narrow {
    room: usize,
    calls: u64,
}

impl Write for Narrow {
    fn write(&mut self, buf: &[u8]) -> io::Result<usize> {
        self.calls = self.calls.saturating_add(1);
        if self.calls == 2 {
            return Err(io::Error::from(ErrorKind::Interrupted));
        }
        if self.room == 0 {
            return Err(io::Error::from(ErrorKind::StorageFull));
        }
        let count = buf.len().min(2).min(self.room);
        self.room -= count;
        Ok(count)
    }

    fn flush(&mut self) -> io::Result<()> {
        Ok(())
    }
}

// Gives one byte a call, two in all, and then fails or ends.
#[derive(Drop)]
struct Slow {
    given: u8,
    ends: bool,
}

impl Read for Slow {
    fn read(&mut self, buf: &mut [u8]) -> io::Result<usize> {
        if self.given < 2 && !buf.is_empty() {
            self.given += 1;
            buf[0] = self.given;
            return Ok(1);
        }
        if self.ends {
            return Ok(0);
        }
        Err(io::Error::from(ErrorKind::ConnectionReset))
    }
}

#[test]
fn short_writes_go_on_and_a_failure_is_counted(rt: HostRuntime) -> Result<(), Fail> {
    let mut faults = 0;
    let mut wide = Narrow { room: 9, calls: 0 };
    assert_eq!(rt;
        counted(&mut faults, changed(write_whole(&mut wide, b"abcdefg"))),
        Ok(())
    );
    assert_eq!(rt; wide.room, 2);
    assert_eq!(rt; faults, 0);
    let mut full = Narrow { room: 5, calls: 0 };
    let done = counted(&mut faults, changed(write_whole(&mut full, b"abcdefg")));
    assert_eq!(rt; done, Err(SiteErr::DiskFailed));
    assert_eq!(rt; full.room, 0);
    assert_eq!(rt; faults, 1);
    Ok(())
}

#[test]
fn short_reads_go_on(rt: HostRuntime) -> Result<(), Fail> {
    let mut into = [0; 4];
    let mut ends = Slow {
        given: 0,
        ends: true,
    };
    assert_eq!(rt; read_full(&mut ends, &mut into).ok(), Some(2));
    assert_eq!(rt; into, [1, 2, 0, 0]);
    let mut fails = Slow {
        given: 0,
        ends: false,
    };
    assert!(rt; read_full(&mut fails, &mut into).is_err());
    Ok(())
}

#[test]
fn a_failed_sync_is_for_good(rt: HostRuntime) -> Result<(), Fail> {
    let mut lost = false;
    assert!(rt; synced(&mut lost, Ok(())).is_ok());
    let failure = Err(io::Error::from(ErrorKind::StorageFull));
    assert_eq!(rt;
        kind_of(synced(&mut lost, failure)),
        Some(ErrorKind::StorageFull)
    );
    assert_eq!(rt; kind_of(synced(&mut lost, Ok(()))), Some(ErrorKind::Other));
    Ok(())
}

#[test]
fn a_source_gives_what_its_reader_gives(rt: HostRuntime) -> Result<(), Fail> {
    let mut into = [0; 4];
    let mut source = HostSource::start(Slow {
        given: 0,
        ends: false,
    });
    assert_eq!(rt; source.read(&mut into), Ok(1));
    assert_eq!(rt; source.read(&mut into), Ok(1));
    assert_eq!(rt; into[0], 2);
    assert_eq!(rt; source.read(&mut into), Err(SourceErr::Failed));
    Ok(())
}

// Each call of a door, with what came of it.
#[derive(Drop)]
enum Try {
    Opened(Option<io::Error>),
    Locked(Option<LockErr>),
}

// A door that opens or not, behind which another process has the folder or none. The newest call is the first.
#[derive(Drop)]
struct Room<R: Abort + AllocGlobal + Drop> {
    rt: R,
    opens: bool,
    taken: bool,
    next: u32,
    tries: Vec<Try>,
}

#[derive(Drop)]
struct Latch {
    locked: bool,
    place: u32,
}

impl<R: Abort + AllocGlobal + Drop> Door for Room<R> {
    type Folder = Latch;

    ghost shows = { Unit {0} };

    ghost knocks = { λ room. map (elim [
      | try.Opened error ↦ Opened error
      | try.Locked error ↦ Locked error
    ]) room.tries.items };

    ghost locked = { λ latch. IsTrue latch.locked };

    ghost taken = { λ room place. place < room.next };

    ghost place = { λ latch. latch.place };

    fn place(&self, folder: &Latch) -> u32 {
        folder.place
    }

    fn open(&mut self) -> io::Result<Latch> {
        let place = self.next;
        let (true, Some(next)) = (self.opens, place.checked_add(1)) else {
            let error = io::Error::from(ErrorKind::PermissionDenied);
            let done = self.tries.insert(0, Try::Opened(Some(error)));
            done.expect(&self.rt, "memory");
            return Err(error);
        };
        let done = self.tries.insert(0, Try::Opened(None));
        done.expect(&self.rt, "memory");
        self.next = next;
        Ok(Latch {
            locked: false,
            place,
        })
    }

    fn lock(&mut self, folder: &mut Latch) -> Result<(), LockErr> {
        if self.taken {
            let done = self.tries.insert(0, Try::Locked(Some(LockErr::Held)));
            done.expect(&self.rt, "memory");
            return Err(LockErr::Held);
        }
        let done = self.tries.insert(0, Try::Locked(None));
        done.expect(&self.rt, "memory");
        folder.locked = true;
        Ok(())
    }
}

#[test]
fn a_folder_is_locked_once(rt: HostRuntime) -> Result<(), Fail> {
    let mut room = Room {
        rt: rt.clone()?,
        opens: true,
        taken: false,
        next: 3,
        tries: Vec::new(rt.alloc()),
    };
    let Ok(lock) = FolderLock::take(&mut room) else {
        return Err(Fail::from("not locked"));
    };
    assert!(rt; lock.folder.locked);
    assert_eq!(rt; room.tries.len(), 2);
    room.taken = true;
    let Err(error) = FolderLock::take(&mut room) else {
        return Err(Fail::from("locked twice"));
    };
    let text = format!(in rt.alloc(); "{error}")?;
    assert!(rt; text.starts_with("another process uses this folder"));
    assert_eq!(rt; room.tries.len(), 4);
    room.opens = false;
    assert!(rt; matches!(FolderLock::take(&mut room), Err(LockErr::Failed(_))));
    assert_eq!(rt; room.tries.len(), 5);
    Ok(())
}

#[test]
fn the_places_of_closed_streams_are_taken(rt: HostRuntime) -> Result<(), Fail> {
    let mut room = Room {
        rt: rt.clone()?,
        opens: true,
        taken: false,
        next: 1,
        tries: Vec::new(rt.alloc()),
    };
    let Ok(streams) = Streams::guard(&mut room) else {
        return Err(Fail::from("not guarded"));
    };
    assert!(rt; matches!(streams.first, Some(Latch { place: 1, .. })));
    assert!(rt; matches!(streams.second, Some(Latch { place: 2, .. })));
    assert!(rt; streams.third.is_none());
    Ok(())
}

#[test]
fn the_host_keeps_files(rt: HostRuntime) -> Result<(), Fail> {
    let alloc = rt.alloc();
    let output = rt.stdout();
    let mut site = HostSite::start(rt, output);
    site.create("bl_site_host_test_a").map_err(failed)?;
    site.append("bl_site_host_test_a", b"wx").map_err(failed)?;
    site.append("bl_site_host_test_a", b"yz").map_err(failed)?;
    site.sync("bl_site_host_test_a").map_err(failed)?;
    let length = site.len("bl_site_host_test_a").map_err(failed)?;
    site.rename("bl_site_host_test_a", "bl_site_host_test_b")
        .map_err(failed)?;
    let gone = site.len("bl_site_host_test_a").map_err(failed)?;
    let mut into = [0; 8];
    let count = site
        .read_at("bl_site_host_test_b", 1, &mut into)
        .map_err(failed)?;
    let none = site
        .read_at("bl_site_host_test_a", 0, &mut into)
        .map_err(failed)?;
    let listed = site.list(alloc).map_err(failed)?;
    site.remove("bl_site_host_test_b").map_err(failed)?;
    let missing = site.append("bl_site_host_test_b", b"x");
    let Some(failure) = site.last_failure() else {
        return Err(Fail::from("no failure"));
    };
    let text = format!(in alloc; "{failure}")?;
    if text.as_str() != "append to bl_site_host_test_b: no such file" {
        return Err(Fail::from("failure"));
    }
    if length != Some(4) || gone != None || count != Some(3) || none != None {
        return Err(Fail::from("lengths"));
    }
    if !into.starts_with(b"xyz") || missing != Err(SiteErr::DiskFailed) {
        return Err(Fail::from("bytes"));
    }
    if !listed
        .iter()
        .any(|name| name.as_str() == "bl_site_host_test_b")
    {
        return Err(Fail::from("not listed"));
    }
    Ok(())
}
