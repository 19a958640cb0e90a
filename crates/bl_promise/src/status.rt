//! How a run ends.

ghost use Rattle.std.specs.Prelude.{◌≡◌};
ghost use Rattle.bl_promise.specs.Causes.{number_of};

/// How a run ends.
#[derive(Clone, Copy, Debug, Drop, PartialEq, Eq)]
pub enum Status {
    /// The script was read to its end, and every reply was told.
    Done,
    /// The words are no reading of the options.
    Words,
    /// The script could not be read on.
    ReadFault,
    /// A reply could not be told.
    TellFault,
    /// The folder could not be read or written.
    DiskFault,
    /// Memory ran out.
    OutOfMemory,
    /// The folder is damaged; a line that says where was told.
    Corrupt,
    /// A batch would pass the greatest sequence, or a file the greatest number; a line that says which was told.
    Full,
    /// A given option is not the stored one; a line that says which was told.
    Differ,
    /// The script has more than 2^40 bytes.
    Long,
}

impl Status {
    /// The exit status of the program.
    pub fn number(&self) -> u8
        ensures { result ≡ number_of self.now }
    {
        match self {
            Status::Done => 0,
            Status::Words => 2,
            Status::ReadFault => 3,
            Status::TellFault => 4,
            Status::DiskFault => 5,
            Status::OutOfMemory => 6,
            Status::Corrupt => 7,
            Status::Full => 8,
            Status::Differ => 9,
            Status::Long => 10,
        }
    }
}
