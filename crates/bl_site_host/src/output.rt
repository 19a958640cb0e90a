//! Where bytes are told.
ghost use Rattle.std.specs.Prelude.{◌≡◌, ℕ, List, Option, take, OnOk, OnErr};
ghost use Rattle.std.specs.Io.KnownBytes.{Appends, Keeps};

use crate::moving::write_whole;
use std::io::{self, Write};

/// A writer that may hold bytes back until it is asked to flush them. Its `contents` are the bytes that were handed to it.
pub trait Output: Write {
    /// The bytes that are held back no longer, where they are known.
    ghost flushed: { Self → Option (List ℕ) };

    /// Lets all bytes go that were handed over, or fails.
    fn flush_all(&mut self) -> io::Result<()>
        ensures bytes { Keeps (Self.contents self.old) (Self.contents self.new) }
        ensures all { OnOk result (flushed self.new ≡ Self.contents self.new) };
}

// Writes all of the bytes, and lets go of all that were handed over; or fails and has written some first ones of them.
pub(crate) fn told<W: Output>(output: &mut W, bytes: &[u8]) -> io::Result<()>
    ensures all { OnOk result (Appends (W.contents output.old) (W.contents output.new) bytes.now) }
    ensures flushed { OnOk result (W.flushed output.new ≡ W.contents output.new) }
    ensures front { OnErr result ((count : ℕ) × Appends (W.contents output.old) (W.contents output.new) (take count bytes.now)) }
{
    write_whole(output, bytes)?;
    output.flush_all()
}
