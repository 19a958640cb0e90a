//! The table that is written now.

ghost use Rattle.std.specs.Prelude.{◌≡◌, ℕ, ◌⊎◌, List, [], ◌∷◌, ◌++◌, length, min, max, Option, None, Some, Err, true, false, ◌≤◌, IfOk, IfErr, IsErrOf, IsSome, MatchOption, OnErr, OnOk};
ghost use Rattle.std.specs.List.{cons_option};
ghost use Rattle.bl_names.specs.Names.{IsNumber, name_of};
ghost use Rattle.bl_names.specs.declared.name.FileName.TheVariants.{Table};
ghost use Rattle.bl_table.specs.Spelling.{table};
ghost use Rattle.bl_entry.specs.declared.key.Entry.{Entry};
ghost use Rattle.bl_code.specs.Order.{same_bytes};
ghost use Rattle.bl_entry.specs.Keys.{Key, key_bytes};
ghost use Rattle.bl_entry.specs.Entries.{IsProper, last_of};
ghost use Rattle.bl_site.specs.Causes.{Rose};
ghost use Rattle.bl_site.specs.Quiet.{TellsNothing};
ghost use Rattle.bl_out.specs.Outputs.{OutTable, close_table, is_of_other, items_of, open_bytes, open_size};
ghost use Rattle.bl_out.specs.Tables.{least_of};
ghost use Rattle.bl_out.specs.States.{IsClosedAs, IsHandOf, Spans, oldest_in};
ghost use Rattle.bl_out.specs.declared.error.JobErr.TheVariants.{Disk, OutOfMemory};
ghost use Rattle.bl_out.specs.Causes.{IsSealCause};
ghost use Rattle.bl_out.specs.Making.{Follows, IsSetOnceAsked};
ghost use Rattle.bl_out.specs.Quiet.{TouchesOnly};

use crate::append::append;
use crate::error::JobErr;
use bl_code::Octets;
use bl_edit::NewTable;
use bl_entry::{Entry, Kind, encode_key};
use bl_index::decode_index;
use bl_names::{FileName, print_name};
use bl_site::Site;
use bl_table::TableBuilder;
use std::alloc::Global;
use std::marker::Model;

// So many bytes no table has: the next ones, fewer than 2^63, leave its size below 2^64.
const MANY: u64 = 1 << 62;

/// The least and the greatest key, and the least and the greatest sequence.
#[derive(Drop)]
struct Ends {
    smallest: Octets,
    largest: Octets,
    least: u64,
    most: u64,
}

impl Model for Ends {
    ghost use Rattle.bl_out.specs.States as states;

    ghost Value = { states.Ends };

    ghost view = { λ e. record { smallest = e.smallest; largest = e.largest; least = e.least; most = e.most } };
}

/// A table that is written now, with its name, and of its entries what an edit says of a table.
#[derive(Drop)]
pub(crate) struct TableInHand {
    name: String,
    number: u64,
    builder: TableBuilder,
    written: u64,
    ends: Option<Ends>,
    oldest: Option<u64>,
}

impl Model for TableInHand {
    ghost use Rattle.std.specs.Prelude.{◌≡◌, ◌+◌, ◌^◌, ◌≤◌, string_bytes};
    ghost use Rattle.bl_names.specs.Names.{IsNumber, name_of};
    ghost use Rattle.bl_names.specs.declared.name.FileName.TheVariants.{Table};
    ghost use Rattle.bl_out.specs.States.{Hand};

    ghost Value = { Hand };

    ghost view = { λ h. record { number = h.number; builder = h.builder; written = h.written; ends = h.ends; oldest = h.oldest } };

    ghost invariant = { λ h. IsNumber h.number × (string_bytes h.name ≡ name_of (Table h.number)) × (h.written ≤ 2 ^ 62 + 2 ^ 63) };
}

// The least blob file that an entry names, where it names one.
fn file_of(entry: &Entry) -> Option<u64>
    ensures { result ≡ oldest_in (entry.now ∷ []) }
{
    match entry.key.kind {
        Kind::Deletion | Kind::Value => None,
        Kind::BlobRef => match decode_index(entry.value.as_slice()) {
            Ok(index) => Some(index.file),
            Err(_) => None,
        },
    }
}

// The sequence of an entry.
fn sequence_of(entry: &Entry) -> u64
    ensures { result ≡ entry.now.key.seq }
{
    entry.key.seq
}

// The lesser of two numbers, where there are both.
fn lesser(a: Option<u64>, b: Option<u64>) -> Option<u64>
    ensures { result ≡ least_of (cons_option a (cons_option b [])) }
{
    match (a, b) {
        (Some(a), Some(b)) => Some(a.min(b)),
        (Some(a), None) => Some(a),
        (None, b) => b,
    }
}

// The ends of one entry, of this key and this sequence, where there are none so far.
fn first_ends(
    alloc: Global,
    so_far: &Option<Ends>,
    key: &[u8],
    sequence: u64,
) -> Result<Option<Ends>, JobErr>
    ensures first { IfOk result (λ first. so_far.now ≡ None → first ≡ Some (record { smallest = key.now; largest = key.now; least = sequence; most = sequence })) }
    ensures memory { IfErr result (λ e. e ≡ OutOfMemory) }
{
    if so_far.is_some() {
        return Ok(None);
    }
    Ok(Some(Ends {
        smallest: Octets::from_slice(alloc, key)?,
        largest: Octets::from_slice(alloc, key)?,
        least: sequence,
        most: sequence,
    }))
}

// The ends with one entry more, of this key and this sequence. It takes no memory.
fn widen(so_far: Option<Ends>, first: Option<Ends>, key: Octets, sequence: u64) -> Option<Ends>
    ensures { MatchOption so_far (result ≡ first) (λ ends. result ≡ Some (record { smallest = ends.smallest; largest = key; least = min ends.least sequence; most = max ends.most sequence })) }
{
    match so_far {
        None => first,
        Some(ends) => Some(Ends {
            smallest: ends.smallest,
            largest: key,
            least: ends.least.min(sequence),
            most: ends.most.max(sequence),
        }),
    }
}

// A copy of the ends; where there are none, empty keys and 0.
fn copy_of(alloc: Global, ends: &Option<Ends>) -> Result<Ends, JobErr>
    ensures copy { IfOk result (λ copy. MatchOption ends.now (copy ≡ record { smallest = []; largest = []; least = 0; most = 0 }) (λ e. copy ≡ e)) }
    ensures memory { IfErr result (λ e. e ≡ OutOfMemory) }
{
    match ends {
        None => Ok(Ends {
            smallest: Octets::from_vec(Vec::new(alloc)),
            largest: Octets::from_vec(Vec::new(alloc)),
            least: 0,
            most: 0,
        }),
        Some(ends) => Ok(Ends {
            smallest: Octets::from_slice(alloc, ends.smallest.as_slice())?,
            largest: Octets::from_slice(alloc, ends.largest.as_slice())?,
            least: ends.least,
            most: ends.most,
        }),
    }
}

// Whether these are the bytes of a key of this user key.
fn is_of_user(key: &[u8], user: &[u8]) -> bool
    ensures { (k : Key) → key.now ≡ key_bytes k → result ≡ same_bytes k.user user.now }
{
    key.len() == user.len() + 8 && key.starts_with(user)
}

impl TableInHand {
    /// The table of this number, without an entry.
    ///
    /// Errors: `OutOfMemory` alone.
    pub(crate) fn start(alloc: Global, number: u64) -> Result<TableInHand, JobErr>
        requires { IsNumber number }
        ensures number { IfOk result (λ hand. hand.number ≡ number) }
        ensures spans { IfOk result (λ hand. Spans [] hand) }
        ensures memory { IfErr result (λ e. e ≡ OutOfMemory) }
    {
        let name = print_name(alloc, &FileName::Table(number))?;
        Ok(TableInHand {
            name,
            number,
            builder: TableBuilder::start(alloc),
            written: 0,
            ends: None,
            oldest: None,
        })
    }

    /// The name of its file.
    pub(crate) fn name(&self) -> &str
        ensures { result.now ≡ name_of (Table self.now.number) }
    {
        self.name.as_str()
    }

    /// Takes one entry more, and gives the bytes that follow in the file.
    ///
    /// Errors: `OutOfMemory` alone. Then nothing has changed.
    fn put(&mut self, alloc: Global, entry: &Entry) -> Result<Octets, JobErr>
        requires proper { IsProper entry.now }
        ensures spans { OnOk result ((es : List Entry) → Spans es self.old → Spans (es ++ entry.now ∷ []) self.new) }
        ensures bytes { IfOk result (λ bytes. (es : List Entry) → Spans es self.old → open_bytes (es ++ entry.now ∷ []) ≡ open_bytes es ++ bytes) }
        ensures number { self.new.number ≡ self.old.number }
        ensures err { OnErr result (self.new ≡ self.old) }
        ensures memory { IfErr result (λ e. e ≡ OutOfMemory) }
    {
        if self.written > MANY {
            return Err(JobErr::OutOfMemory);
        }
        let key = encode_key(alloc, &entry.key)?;
        let sequence = sequence_of(entry);
        let first = first_ends(alloc, &self.ends, key.as_slice(), sequence)?;
        let bytes = self.builder.add(key.as_slice(), entry.value.as_slice())?;
        self.written += bytes.as_slice().len() as u64;
        self.ends = widen(self.ends.take(), first, key, sequence);
        self.oldest = lesser(self.oldest, file_of(entry));
        Ok(bytes)
    }

    /// Takes one entry more, and appends the blocks that are complete to the file, which is in the folder. `failed` is set before
    /// the folder is asked, and stays where it was set.
    ///
    /// Errors: `Disk` and `OutOfMemory`. Nothing has changed where `failed` is not set.
    pub(crate) fn write<S: Site>(
        &mut self,
        alloc: Global,
        site: &mut S,
        entry: &Entry,
        failed: &mut bool,
    ) -> Result<(), JobErr>
        requires proper { IsProper entry.now }
        requires there { S.shows → IsSome (S.disk site.old (name_of (Table self.old.number))) }
        ensures spans { OnOk result ((es : List Entry) → Spans es self.old → Spans (es ++ entry.now ∷ []) self.new) }
        ensures appended { S.shows → OnOk result ((es : List Entry) → Spans es self.old → Follows (name_of (Table self.old.number)) (open_bytes es) (open_bytes (es ++ entry.now ∷ [])) (S.disk site.old) (S.disk site.new)) }
        ensures still { S.shows → OnOk result (IsSome (S.disk site.new (name_of (Table self.old.number)))) }
        ensures number { self.new.number ≡ self.old.number }
        ensures stays { IfErr result (λ e. failed.new ≡ false → (e ≡ OutOfMemory) × (self.new ≡ self.old) × (site.new ≡ site.old)) }
        ensures flag { IsSetOnceAsked S.Site failed.old failed.new site.old site.new }
        ensures certain { S.shows → S.certain site.old → S.certain site.new }
        ensures touches { TouchesOnly S.Site (name_of (Table self.old.number) ∷ []) site.old site.new }
        ensures tells_nothing { TellsNothing S.Site site.old site.new }
        ensures causes { IfErr result IsSealCause }
        ensures disk { IsErrOf result Disk → Rose (S.disk_faults site.old) (S.disk_faults site.new) }
    {
        let bytes = self.put(alloc, entry)?;
        if bytes.as_slice().is_empty() {
            return Ok(());
        }
        *failed = true;
        append(site, self.name.as_str(), bytes.as_slice())
    }

    /// How many bytes the table has so far: its complete blocks with their trailers, and the entries of the block in hand.
    pub(crate) fn size(&self) -> u64
        ensures { (es : List Entry) → Spans es self.now → result ≡ open_size es }
    {
        let _ = self.written;
        self.builder.size()
    }

    /// Whether its last entry, which there is, has another user key than this entry.
    pub(crate) fn ends_before(&self, entry: &Entry) -> bool
        ensures { (es : List Entry) → Spans es self.now → result ≡ is_of_other entry.now es }
    {
        let user = entry.key.user.as_slice();
        match &self.ends {
            None => false,
            Some(ends) => !is_of_user(ends.largest.as_slice(), user),
        }
    }

    /// What the table is named as once it is closed, and the rest of its bytes. It stays as it is.
    ///
    /// Errors: `OutOfMemory` alone.
    pub(crate) fn finish(&mut self, alloc: Global) -> Result<(NewTable, Octets), JobErr>
        ensures closed { IfOk result (λ r. (t : OutTable) → IsHandOf t self.old → IsClosedAs (close_table t) r.0) }
        ensures rest { IfOk result (λ r. (es : List Entry) → Spans es self.old → table (items_of es) ≡ open_bytes es ++ r.1) }
        ensures number { IfOk result (λ r. r.0.number ≡ self.old.number) }
        ensures same { self.new ≡ self.old }
        ensures memory { IfErr result (λ e. e ≡ OutOfMemory) }
    {
        let rest = self.builder.finish()?;
        let left = rest.as_slice().len() as u64;
        if left > u64::MAX - self.written {
            return Err(JobErr::OutOfMemory);
        }
        let size = self.written + left;
        let ends = copy_of(alloc, &self.ends)?;
        let named = NewTable {
            level: 0,
            number: self.number,
            size,
            smallest: ends.smallest,
            largest: ends.largest,
            least_seq: ends.least,
            most_seq: ends.most,
            oldest_blob: self.oldest.unwrap_or(0),
        };
        Ok((named, rest))
    }
}
