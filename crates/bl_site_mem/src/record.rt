// What was asked of a site in memory, with copies of the names and bytes.

#[derive(Drop)]
pub(crate) enum KeptCall {
    // One of the calls that only read.
    Look,
    Create(String),
    Append(String, Vec<u8>),
    Sync(String),
    Rename(String, String),
    Remove(String),
    Tell(Vec<u8>),
    // A file that was put there, which is no numbered call.
    PutFile(String, Vec<u8>),
}

#[derive(Drop)]
pub(crate) struct KeptEntry {
    pub(crate) call: KeptCall,
    pub(crate) failed: bool,
}
