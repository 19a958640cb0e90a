//! Writing a log.

ghost use Rattle.std.specs.Prelude.{◌≡◌, ℕ, ◌+◌, ◌-◌, ◌%◌, ◌<◌, ◌≤◌, ◌^◌, List, [], ◌∷◌, ◌++◌, false, length, replicate, IfOk, OnOk, OnErr};
ghost use Rattle.bl_log.specs.Log.{records, IsLog};
ghost use Rattle.bl_log.specs.Layout.{fragment, pieces, spelled, type_of, layout, written};
ghost use Rattle.bl_log.specs.Written.{OnlyWritten};

use bl_code::{CodeErr, Crc, Octets, mask, put_fixed16, put_fixed32};
use std::alloc::{AllocError, AllocFailed, Global};
use std::marker::Model;

/// The bytes of a block.
pub(crate) const BLOCK: usize = 32768;

/// The bytes of a fragment's head.
pub(crate) const HEAD: usize = 7;

/// Why a call failed. It changed nothing.
#[derive(Clone, Copy, Debug, Drop, PartialEq, Eq)]
pub enum LogErr {
    /// Memory ran out.
    OutOfMemory,
}

impl From<CodeErr> for LogErr {
    fn from(_: CodeErr) -> LogErr {
        LogErr::OutOfMemory
    }
}

impl From<AllocError> for LogErr {
    fn from(_: AllocError) -> LogErr {
        LogErr::OutOfMemory
    }
}

impl<T: Drop> From<AllocFailed<T>> for LogErr {
    fn from(_: AllocFailed<T>) -> LogErr {
        LogErr::OutOfMemory
    }
}

// So many zeros follow.
fn put_zeros(out: &mut Vec<u8>, count: usize) -> Result<(), LogErr>
    ensures { OnOk result (out.new.items ≡ out.old.items ++ replicate count 0) }
{
    for _ in 0..count {
        out.push(0)?;
    }
    Ok(())
}

fn kind_of(begun: bool, whole: bool) -> u8
    ensures { result ≡ type_of begun whole }
{
    match (begun, whole) {
        (false, true) => 1,
        (false, false) => 2,
        (true, false) => 3,
        (true, true) => 4,
    }
}

// One fragment follows.
fn put_fragment(out: &mut Vec<u8>, kind: u8, payload: &[u8]) -> Result<(), LogErr>
    requires { length payload.now < 2 ^ 16 }
    ensures { OnOk result (out.new.items ≡ out.old.items ++ fragment kind payload.now) }
{
    let mut crc = Crc::start();
    crc.extend(&[kind]);
    crc.extend(payload);
    put_fixed32(out, mask(crc.value()))?;
    put_fixed16(out, payload.len() as u16)?;
    out.push(kind)?;
    out.extend_from_slice(payload)?;
    Ok(())
}

// The fragments of a record follow, the first of which has room for so many bytes of its payload.
fn put_pieces(out: &mut Vec<u8>, space: usize, payload: &[u8]) -> Result<(), LogErr>
    requires { space ≤ 32761 }
    ensures { OnOk result (out.new.items ≡ out.old.items ++ spelled false (pieces space payload.now)) }
{
    let mut rest = payload;
    let mut room = space;
    let mut begun = false;
    'pieces: while rest.len() > room {
        let (piece, behind) = rest.split_at(room);
        put_fragment(out, kind_of(begun, false), piece)?;
        rest = behind;
        room = BLOCK - HEAD;
        begun = true;
    }
    put_fragment(out, kind_of(begun, true), rest)
}

/// Writes a log record by record. Contracts see it as the number of bytes that its block holds so far.
#[derive(Drop)]
pub struct LogWriter {
    place: usize,
}

impl Model for LogWriter {
    ghost use Rattle.std.specs.Prelude.{ℕ, ◌<◌};

    ghost Value = { ℕ };

    ghost view = { λ w. w.place };

    ghost invariant = { λ w. w.place < 32768 };
}

impl LogWriter {
    /// A writer at the beginning of a block.
    pub fn start() -> LogWriter
        ensures { result ≡ 0 }
    {
        LogWriter { place: 0 }
    }

    /// The bytes that append a record to the log, at whose end the writer then stands.
    ///
    /// Errors: `OutOfMemory` alone, after which the writer stands where it stood.
    pub fn frame(&mut self, alloc: Global, payload: &[u8]) -> Result<Octets, LogErr>
        ensures layout { IfOk result (λ bytes. bytes ≡ layout self.old payload.now) }
        ensures moved { IfOk result (λ bytes. self.new ≡ (self.old + length bytes) % 32768) }
        ensures adds { IfOk result (λ bytes. (before : List ℕ) (payloads : List (List ℕ)) →
            length before % 32768 ≡ self.old → IsLog before payloads → IsLog (before ++ bytes) (payloads ++ payload.now ∷ [])) }
        ensures err { OnErr result (self.new ≡ self.old) }
    {
        let mut bytes = Vec::new(alloc);
        self.frame_into(&mut bytes, payload)?;
        Ok(Octets::from_vec(bytes))
    }

    /// The same bytes, in a buffer that the caller keeps: it holds them and no others. It grows at most once, to the size that they
    /// need, and not at all where it has that size.
    ///
    /// Errors: `OutOfMemory` alone, after which the writer stands where it stood, and the buffer holds any bytes.
    pub fn frame_into(&mut self, buffer: &mut Vec<u8>, payload: &[u8]) -> Result<(), LogErr>
        ensures layout { OnOk result (buffer.new.items ≡ layout self.old payload.now) }
        ensures moved { OnOk result (self.new ≡ (self.old + length buffer.new.items) % 32768) }
        ensures adds { OnOk result ((before : List ℕ) (payloads : List (List ℕ)) →
            length before % 32768 ≡ self.old → IsLog before payloads → IsLog (before ++ buffer.new.items) (payloads ++ payload.now ∷ [])) }
        ensures err { OnErr result (self.new ≡ self.old) }
    {
        let room = BLOCK - self.place;
        let filler = if room < HEAD { room } else { 0 };
        let space = BLOCK - HEAD - (self.place + filler) % BLOCK;
        let further = payload.len().saturating_sub(space).div_ceil(BLOCK - HEAD);
        buffer.clear();
        buffer.reserve_exact(filler + HEAD * (1 + further) + payload.len())?;
        put_zeros(buffer, filler)?;
        put_pieces(buffer, space, payload)?;
        self.place = (self.place + buffer.len() % BLOCK) % BLOCK;
        Ok(())
    }
}

/// What a writer writes from a log's beginning on is a log of its records.
pub fn written_is_log()
    ensures { (payloads : List (List ℕ)) → IsLog (written 0 payloads) payloads }
{}

/// Reading a log gives its records.
pub fn log_is_read()
    ensures { (bytes : List ℕ) (payloads : List (List ℕ)) → IsLog bytes payloads → records bytes ≡ payloads }
{}

/// Whatever follows a log, its records are read first.
pub fn log_is_read_first()
    ensures { (bytes : List ℕ) (payloads : List (List ℕ)) → IsLog bytes payloads → (more : List ℕ) → (rest : List (List ℕ)) × (records (bytes ++ more) ≡ payloads ++ rest) }
{}

/// Where each fragment that is read stands at its place in what was written, as it does after a power cut unless a torn fragment's
/// checksum matches by chance, the records are the first of those written.
pub fn only_written_is_read_first()
    ensures { (bytes all : List ℕ) → OnlyWritten bytes all → (rest : List (List ℕ)) × (records all ≡ records bytes ++ rest) }
{}
