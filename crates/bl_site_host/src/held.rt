//! An output that holds all bytes back until it is flushed.
ghost use Rattle.std.specs.Prelude.{Some, take};

use crate::failure::Asked;
use crate::faults::Fault;
use crate::keeper::Failures;
use crate::output::Output;
use std::io::{self, ErrorKind, Write};
use std::test::Fail;

#[derive(Drop)]
pub(crate) struct Held {
    pub(crate) bytes: Vec<u8>,
    // So many of the bytes are held back no longer.
    pub(crate) flushed: usize,
    pub(crate) fails: bool,
}

impl Write for Held {
    ghost contents = { λ held. Some held.bytes.items };

    fn write(&mut self, buf: &[u8]) -> io::Result<usize> {
        self.bytes.write(buf)
    }

    fn flush(&mut self) -> io::Result<()> {
        self.flush_all()
    }
}

impl Output for Held {
    ghost flushed = { λ held. Some (take held.flushed held.bytes.items) };

    fn flush_all(&mut self) -> io::Result<()> {
        if self.fails {
            return Err(io::Error::from(ErrorKind::BrokenPipe));
        }
        self.flushed = self.bytes.len();
        Ok(())
    }
}

#[test]
fn told_bytes_are_flushed_and_the_last_failure_is_kept(rt: HostRuntime) -> Result<(), Fail> {
    let alloc = rt.alloc();
    let mut failures = Failures::new(alloc);
    let mut held = Held {
        bytes: Vec::new(alloc),
        flushed: 0,
        fails: false,
    };
    assert!(rt; failures.tell(&mut held, b"abc").is_ok());
    assert_eq!(rt; held.flushed, 3);
    assert!(rt; failures.last().is_none());
    held.fails = true;
    assert!(rt; failures.tell(&mut held, b"d").is_err());
    failures.keep(Asked::Append, "b", &Ok::<(), Fault>(()));
    failures.keep(Asked::Append, "b", &Err::<(), Fault>(Fault::Memory));
    let Some(failure) = failures.last() else {
        return Err(Fail::from("no failure"));
    };
    let text = format!(in alloc; "{failure}")?;
    assert!(rt; text.starts_with("write to standard output: "));
    let full = Fault::Disk(io::Error::from(ErrorKind::StorageFull));
    failures.keep(Asked::Sync, "a", &Err::<(), Fault>(full));
    let Some(failure) = failures.last() else {
        return Err(Fail::from("no failure"));
    };
    let text = format!(in alloc; "{failure}")?;
    assert!(rt; text.starts_with("sync a: "));
    Ok(())
}
