//! What a person can do about the way a run ended.
ghost use Rattle.std.specs.Prelude.{◌≡◌, ◌≢◌, MatchOption};

use bl_shell::Status;

// The words of the program, and the lines of a script.
const GRAMMAR: &str = "no words are taken. Give the script on standard input, one order a line:
  put KEY =VALUE
  del KEY
  batch, and then some of `put KEY =VALUE` and `del KEY`
  get KEY
  scan, scan FROM or scan FROM TO
  sync
  reopen
`%` and two hexadecimal digits stand for a byte, and a line that begins with `#` is passed over";

/// What happened and what to do about it, at each status but `Done`.
pub fn advice(status: Status) -> Option<&'static str>
    ensures { MatchOption result (status ≡ Status.Done) (λ _. status ≢ Status.Done) }
{
    match status {
        Status::Done => None,
        Status::Words => Some(GRAMMAR),
        Status::ReadFault => Some(
            "the script could not be read to its end. What was answered is done; end a script with `sync` to have it on the disk too",
        ),
        Status::TellFault => Some(
            "a reply could not be written. See where standard output goes; what was answered before is done",
        ),
        Status::DiskFault => Some(
            "the folder could not be used. Mend what is named above, look at the disk, and then start again",
        ),
        Status::OutOfMemory => Some(
            "memory ran out. The whole map is held in memory: start again with more of it, or with smaller values",
        ),
        Status::Corrupt => Some(
            "the folder was left as it is. The reply names the first file at fault; where it is a log, the log before it may have lost its end. Keep a copy of the folder before you change anything",
        ),
        Status::Full => Some(
            "no sequence or no file number is left; the reply says which. Copy what `scan` tells into a new folder",
        ),
        Status::Long => Some(
            "the script has more than 2^40 bytes. The lines that were answered are done: give the others in another run",
        ),
    }
}
