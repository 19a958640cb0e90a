//! Marks in a block that is written.

ghost use Rattle.std.specs.Prelude.{◌*◌, ◌^◌, ◌<◌, ◌≤◌, length};

/// What stood in a block before an entry was added: how many bytes and restarts, and the last key.
#[derive(Drop)]
pub(crate) struct Mark {
    pub bytes: usize,
    pub restarts: usize,
    pub count: u8,
    pub last: Vec<u8>,

    ghost valid: { (count < 16) × (3 * restarts ≤ bytes) × (restarts < 2 ^ 32) × (length last.items < 2 ^ 32) },
}
