//! A failure, in words that tell a person what to mend.
ghost use Rattle.std.specs.Prelude.{◌≡◌};
ghost use Rattle.bl_site_host.specs.Failures.{IsFailureOf};

use std::alloc::Global;
use std::{fmt, io};

// What was asked for when a call failed.
#[derive(Clone, Copy)]
pub(crate) enum Asked {
    // The length of a file.
    Length,
    // The names of the folder.
    List,
    // A file's bytes.
    Read,
    // A new file.
    Create,
    // More bytes in a file.
    Append,
    // A file on the disk.
    Sync,
    // Another name for a file.
    Rename,
    // No file under a name.
    Remove,
    // Bytes on standard output.
    Tell,
}

/// A call that failed: what was asked for, of which file, and what the system said. It prints as
/// `append to 000002.log: No space left on device (os error 28)`.
#[derive(Drop)]
pub struct Failure {
    asked: Asked,
    // Empty where there was no memory for it, or no file.
    name: String,
    error: io::Error,
}

impl Failure {
    pub(crate) fn new(alloc: Global, asked: Asked, name: &str, error: io::Error) -> Failure
        ensures of { IsFailureOf asked name.now result }
        ensures error { result.error ≡ error }
    {
        let name = match String::from_str(alloc, name) {
            Ok(name) => name,
            Err(_) => String::new(alloc),
        };
        Failure { asked, name, error }
    }
}

impl fmt::Display for Failure {
    fn fmt<W: fmt::Write>(&self, f: &mut fmt::Formatter<W>) -> fmt::Result {
        let name = self.name.as_str();
        let error = self.error;
        match self.asked {
            Asked::Length => write!(f, "look at {name}: {error}"),
            Asked::List => write!(f, "list the folder: {error}"),
            Asked::Read => write!(f, "read {name}: {error}"),
            Asked::Create => write!(f, "create {name}: {error}"),
            Asked::Append => write!(f, "append to {name}: {error}"),
            Asked::Sync => write!(f, "sync {name}: {error}"),
            Asked::Rename => write!(f, "rename {name}: {error}"),
            Asked::Remove => write!(f, "remove {name}: {error}"),
            Asked::Tell => write!(f, "write to standard output: {error}"),
        }
    }
}
