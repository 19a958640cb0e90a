//! The output: tables and blob files that are written from entries in key order.

ghost use Rattle.std.specs.Prelude.{◌≡◌, ℕ, ◌⊎◌, ◌+◌, ◌^◌, ◌<◌, ◌≤◌, nat_le, List, [], ◌∷◌, ◌++◌, length, Err, true, false, not, ◌&&◌, None, Some, if◌then◌else◌, is_some, IfOk, IfErr, IfSome, IsSome, IsSomeAnd, IsErrOf, OnErr, OnOk};
ghost use Rattle.bl_site.specs.Causes.{Rose};
ghost use Rattle.bl_site.specs.Quiet.{TellsNothing};
ghost use Rattle.bl_blob.specs.BlobFile.{IsRecord};
ghost use Rattle.bl_names.specs.Names.{IsNumber};
ghost use Rattle.bl_entry.specs.Entries.{IsProper};
ghost use Rattle.bl_out.specs.Causes.{IsAddCause, IsSealCause};
ghost use Rattle.bl_out.specs.Outputs.{Out, added, begins_table, begun, made_for, record_of};
ghost use Rattle.bl_out.specs.Quiet.{TouchesOnly};
ghost use Rattle.bl_out.specs.States.{AreThere, Becomes, BlobHand, Draws, IsOut, Refuses, Stays, names_of};
ghost use Rattle.bl_out.specs.Steps.{Acts, Keeps, closed_blob, closed_last, index_at, with_blob_room, with_entry, with_large, with_room, with_table, with_value, with_written};
ghost use Rattle.bl_out.specs.Written.{is_large, reference_to};
ghost use Rattle.bl_out.specs.declared.error.JobErr.TheVariants.{Disk, Full, OutOfMemory};

use crate::append::append;
use crate::blob::BlobInHand;
use crate::error::JobErr;
use crate::make::create;
use crate::numbers::{END, Numbers};
use crate::table::TableInHand;
use bl_code::Octets;
use bl_edit::{BlobAddition, NewTable, Options};
use bl_entry::{Entry, InternalKey, Kind};
use bl_index::{BlobIndex, encode_index};
use bl_names::names_one;
use bl_site::Site;
use std::alloc::Global;
use std::marker::Model;

/// Tables and blob files that are written from entries in key order. Of what it has written it keeps what an edit says of
/// the closed files, and the writers of those in hand.
#[derive(Drop)]
pub struct Output {
    pub(crate) options: Options,
    pub(crate) one_table: bool,
    pub(crate) tables: Vec<NewTable>,
    pub(crate) table: Option<TableInHand>,
    pub(crate) blobs: Vec<BlobAddition>,
    pub(crate) blob: Option<BlobInHand>,
    pub(crate) drawn: Vec<u64>,
    pub(crate) sealed: usize,
    // A call that asks the folder counts as failed until it is done.
    pub(crate) failed: bool,
}

impl Model for Output {
    ghost use Rattle.std.specs.Prelude.{◌≡◌, ◌+◌, ◌≤◌, length, IfSome, false};
    ghost use Rattle.bl_out.specs.States.{AreDrawn, State};

    ghost Value = { State };

    ghost view = { λ o. record {
      options = o.options;
      one_table = o.one_table;
      tables = o.tables.items;
      table = o.table;
      blobs = o.blobs.items;
      blob = o.blob;
      drawn = o.drawn.items;
      sealed = o.sealed;
      failed = o.failed;
    } };

    ghost invariant = { λ o. AreDrawn (record { options = o.options; one_table = o.one_table; tables = o.tables.items; table = o.table; blobs = o.blobs.items; blob = o.blob; drawn = o.drawn.items; sealed = o.sealed; failed = o.failed })
        × (o.failed ≡ false → IfSome o.blob (λ b. 1 ≤ b.totals.count) × IfSome o.table (λ h. o.sealed ≤ length o.tables.items) × (o.sealed ≤ length o.tables.items + length o.blobs.items)) };
}

// Whether the entry's value goes to a blob file.
fn is_large(options: &Options, entry: &Entry) -> bool
    ensures { result ≡ is_large options.now.min_blob_size entry.now }
{
    match entry.key.kind {
        Kind::Deletion | Kind::BlobRef => false,
        Kind::Value => entry.value.as_slice().len() as u64 >= options.min_blob_size,
    }
}

// Whether a table of this size is closed before an entry, which is of another user key or not.
fn is_due(options: &Options, one_table: bool, size: u64, is_of_other: bool) -> bool
    ensures { result ≡ (not one_table && (nat_le options.now.table_size size && is_of_other)) }
{
    !one_table && options.table_size <= size && is_of_other
}

// Whether a blob file of this size is closed.
fn is_full(options: &Options, size: u128) -> bool
    ensures { result ≡ nat_le options.now.blob_file_size size }
{
    u128::from(options.blob_file_size) <= size
}

// The user key of an entry.
fn user_of(entry: &Entry) -> &[u8]
    ensures { result.now ≡ entry.now.key.user }
{
    entry.key.user.as_slice()
}

// The entry with this index in the place of its value.
fn referring(alloc: Global, entry: &Entry, index: &BlobIndex) -> Result<Entry, JobErr>
    requires proper { IsProper entry.now }
    requires file { IsNumber index.now.file }
    requires place { (index.now.offset < 2 ^ 63) × (index.now.size < 2 ^ 63) }
    ensures entry { IfOk result (λ w. w ≡ reference_to index.now entry.now) }
    ensures proper { IfOk result IsProper }
    ensures memory { IfErr result (λ e. e ≡ OutOfMemory) }
{
    let value = encode_index(alloc, index).map_err(|_| JobErr::OutOfMemory)?;
    let user = Octets::from_slice(alloc, entry.key.user.as_slice())?;
    Ok(Entry {
        key: InternalKey {
            user,
            seq: entry.key.seq,
            kind: Kind::BlobRef,
        },
        value,
    })
}

impl Output {
    /// Nothing is given, and no file made. With `one_table` all entries go into one table; else a table is closed by the size
    /// of the options, between two user keys. A blob file is closed by the record with which its header and records come to
    /// `blob_file_size` bytes. It takes no memory.
    pub fn begin(alloc: Global, options: &Options, one_table: bool) -> Output
        ensures begun { IsOut (begun options.now one_table) result }
        ensures usable { result.failed ≡ false }
    {
        Output {
            options: *options,
            one_table,
            tables: Vec::new(alloc),
            table: None,
            blobs: Vec::new(alloc),
            blob: None,
            drawn: Vec::new(alloc),
            sealed: 0,
            failed: false,
        }
    }

    /// Takes an entry, which is proper. A put of at least `min_blob_size` bytes goes to a blob file, and its index into the
    /// table; all else goes into the table as it is. Each file that is made for it takes one number, the table's first.
    /// So that the tables are read again, user keys ascend, and of one user key the sequences fall. No call has failed, no
    /// file is sealed, and those that are written are in the folder.
    ///
    /// Errors: `Disk`; `Full(10^15)`, where more files are to be made than numbers are left, unless another failure comes
    /// before it; `OutOfMemory`, also for an entry more of a table of which more than 2^62 bytes were given, and a record with
    /// which a blob file comes to 2^63. After each it has failed, and its files may hold anything, except where memory ran
    /// out before the folder was asked: then all is as before.
    pub fn add<S: Site>(
        &mut self,
        alloc: Global,
        site: &mut S,
        numbers: &mut Numbers,
        entry: &Entry,
    ) -> Result<(), JobErr>
        requires usable { self.old.failed ≡ false }
        requires unsealed { self.old.sealed ≡ 0 }
        requires proper { IsProper entry.now }
        requires there { S.shows → AreThere (S.disk site.old) self.old }
        // Which files begin, which are closed, and what stands in them.
        ensures added { OnOk result (Becomes S.Site numbers.old (λ o. added numbers.old o entry.now) self.old self.new site.old site.new) }
        ensures usable { OnOk result (self.new.failed ≡ false) }
        // One number for each file that is made.
        ensures draws { (o : Out) → IsOut o self.old → Draws (made_for o entry.now) self.old self.new numbers.old numbers.new }
        ensures full { (n : ℕ) → result ≡ Err (Full n) → numbers.new ≡ 10 ^ 15 }
        ensures wanted { (o : Out) → IsOut o self.old → (n : ℕ) → result ≡ Err (Full n) → 10 ^ 15 < numbers.old + made_for o entry.now }
        ensures refused { IfErr result (λ e. Refuses S.Site e self.old self.new numbers.old numbers.new site.old site.new) }
        // At Ok the folder was asked, or no file begins and the site is as it was.
        ensures asked { OnOk result (Rose (S.changes site.old) (S.changes site.new) ⊎ ((site.new ≡ site.old) × (numbers.new ≡ numbers.old))) }
        ensures touches { TouchesOnly S.Site (names_of self.new.drawn) site.old site.new }
        ensures tells_nothing { TellsNothing S.Site site.old site.new }
        ensures causes { IfErr result IsAddCause }
        ensures disk { IsErrOf result Disk → Rose (S.disk_faults site.old) (S.disk_faults site.new) }
    {
        let begins = self.begins_table(entry);
        self.make_room(alloc, site, numbers, begins)?;
        self.write_entry(alloc, site, numbers, entry)?;
        self.failed = false;
        Ok(())
    }

    /// The numbers drawn for its files, in the order in which they were drawn.
    ///
    /// Errors: `OutOfMemory` alone.
    pub fn outputs(&self, alloc: Global) -> Result<Vec<u64>, JobErr>
        ensures numbers { IfOk result (λ numbers. numbers.items ≡ self.now.drawn) }
        ensures memory { IfErr result (λ e. e ≡ OutOfMemory) }
    {
        Ok(Vec::from_slice(alloc, &self.drawn)?)
    }

    /// Hands back the numbers of its files, in the order in which they were drawn. It takes no memory.
    pub fn abandon(self) -> Vec<u64>
        ensures { result.items ≡ self.drawn }
    {
        self.drawn
    }

    /// Whether a call of it was refused after it asked the folder, or because no number was left. Then only `failed`,
    /// `outputs` and `abandon` may follow.
    pub fn failed(&self) -> bool
        ensures { result ≡ self.now.failed }
    {
        self.failed
    }

    // Whether a table begins with this entry.
    fn begins_table(&self, entry: &Entry) -> bool
        ensures begins { (o : Out) → IsOut o self.now → result ≡ begins_table o entry.now }
        ensures none { self.now.table ≡ None → result ≡ true }
        ensures filled { self.now.failed ≡ false → IfSome self.now.blob (λ b. 1 ≤ b.totals.count) }
    {
        match &self.table {
            None => true,
            Some(hand) => is_due(
                &self.options,
                self.one_table,
                hand.size(),
                hand.ends_before(entry),
            ),
        }
    }

    // Where a table begins, the one in hand is closed, if there is one, and the next number drawn for it.
    fn make_room<S: Site>(
        &mut self,
        alloc: Global,
        site: &mut S,
        numbers: &mut Numbers,
        begins: bool,
    ) -> Result<(), JobErr>
        requires unsealed { self.old.sealed ≡ 0 }
        requires there { S.shows → AreThere (S.disk site.old) self.old }
        requires begins { self.old.table ≡ None → begins ≡ true }
        ensures becomes { OnOk result (Becomes S.Site numbers.old (with_room begins numbers.old) self.old self.new site.old site.new) }
        ensures hand { OnOk result (IsSome self.new.table) }
        ensures next { OnOk result (numbers.new ≡ (if begins then numbers.old + 1 else numbers.old)) }
        ensures keeps { Keeps self.old self.new }
        ensures blob { self.new.blob ≡ self.old.blob }
        ensures draws { Draws (if begins then 1 else 0) self.old self.new numbers.old numbers.new }
        ensures full { (n : ℕ) → result ≡ Err (Full n) → (begins ≡ true) × (numbers.new ≡ 10 ^ 15) × (numbers.old ≡ 10 ^ 15) }
        ensures stays { self.new.failed ≡ false → Stays self.old self.new numbers.old numbers.new site.old site.new }
        ensures acts { Acts S.Site result self.old self.new site.old site.new }
    {
        if !begins {
            return Ok(());
        }
        self.close_table(alloc, site)?;
        self.begin_table(alloc, site, numbers)
    }

    // The table in hand is closed, if there is one: the rest of its bytes follows in its file, which is in the folder. No more
    // tables are sealed than are closed.
    pub(crate) fn close_table<S: Site>(&mut self, alloc: Global, site: &mut S) -> Result<(), JobErr>
        requires sealed { self.old.sealed ≤ length self.old.tables }
        requires there { S.shows → AreThere (S.disk site.old) self.old }
        ensures becomes { (next : ℕ) → OnOk result (Becomes S.Site next closed_last self.old self.new site.old site.new) }
        ensures hand { OnOk result (self.new.table ≡ None) }
        ensures count { OnOk result (IsSome self.old.table → length self.old.tables < length self.new.tables) }
        ensures keeps { Keeps self.old self.new }
        ensures blob { self.new.blob ≡ self.old.blob }
        ensures drawn { self.new.drawn ≡ self.old.drawn }
        ensures stays { self.new.failed ≡ false → (self.new ≡ self.old) × (site.new ≡ site.old) }
        ensures acts { Acts S.Site result self.old self.new site.old site.new }
        ensures causes { IfErr result IsSealCause }
    {
        names_one();
        let Some(hand) = &mut self.table else {
            return Ok(());
        };
        let (named, rest) = hand.finish(alloc)?;
        self.tables.push(named)?;
        self.failed = true;
        append(site, hand.name(), rest.as_slice())?;
        self.table = None;
        Ok(())
    }

    // A table begins: the next number is drawn, and its file made. There is none in hand.
    fn begin_table<S: Site>(
        &mut self,
        alloc: Global,
        site: &mut S,
        numbers: &mut Numbers,
    ) -> Result<(), JobErr>
        requires unsealed { self.old.sealed ≡ 0 }
        requires none { self.old.table ≡ None }
        requires there { S.shows → AreThere (S.disk site.old) self.old }
        ensures becomes { OnOk result (Becomes S.Site numbers.old (with_table numbers.old) self.old self.new site.old site.new) }
        ensures hand { OnOk result (IsSome self.new.table) }
        ensures next { OnOk result (numbers.new ≡ numbers.old + 1) }
        ensures keeps { Keeps self.old self.new }
        ensures blob { self.new.blob ≡ self.old.blob }
        ensures draws { Draws 1 self.old self.new numbers.old numbers.new }
        ensures full { (n : ℕ) → result ≡ Err (Full n) → (numbers.new ≡ 10 ^ 15) × (numbers.old ≡ 10 ^ 15) }
        ensures stays { self.new.failed ≡ false → Stays self.old self.new numbers.old numbers.new site.old site.new }
        ensures acts { Acts S.Site result self.old self.new site.old site.new }
    {
        names_one();
        let number = numbers.next();
        if number == END {
            self.failed = true;
            return Err(JobErr::Full(END));
        }
        let hand = TableInHand::start(alloc, number)?;
        self.drawn.push(number)?;
        numbers.take();
        self.failed = true;
        create(site, hand.name())?;
        self.table = Some(hand);
        Ok(())
    }

    // An entry goes into the table in hand as it is, and the blocks that are complete into its file. There is one in hand.
    fn put<S: Site>(&mut self, alloc: Global, site: &mut S, entry: &Entry) -> Result<(), JobErr>
        requires unsealed { self.old.sealed ≡ 0 }
        requires proper { IsProper entry.now }
        requires hand { IsSome self.old.table }
        requires there { S.shows → AreThere (S.disk site.old) self.old }
        ensures becomes { (next : ℕ) → OnOk result (Becomes S.Site next (with_entry entry.now) self.old self.new site.old site.new) }
        ensures keeps { Keeps self.old self.new }
        ensures blob { self.new.blob ≡ self.old.blob }
        ensures drawn { self.new.drawn ≡ self.old.drawn }
        ensures stays { OnErr result (self.new.failed ≡ false → (self.new ≡ self.old) × (site.new ≡ site.old)) }
        ensures acts { Acts S.Site result self.old self.new site.old site.new }
        ensures causes { IfErr result IsSealCause }
    {
        names_one();
        match &mut self.table {
            Some(hand) => hand.write(alloc, site, entry, &mut self.failed),
            None => unreachable!(),
        }
    }

    // The entry goes into the table in hand, which there is, and a large value to a blob file.
    fn write_entry<S: Site>(
        &mut self,
        alloc: Global,
        site: &mut S,
        numbers: &mut Numbers,
        entry: &Entry,
    ) -> Result<(), JobErr>
        requires unsealed { self.old.sealed ≡ 0 }
        requires proper { IsProper entry.now }
        requires hand { IsSome self.old.table }
        requires filled { IfSome self.old.blob (λ b. 1 ≤ b.totals.count) }
        requires there { S.shows → AreThere (S.disk site.old) self.old }
        ensures becomes { OnOk result (Becomes S.Site numbers.old (with_written (is_large self.old.options.min_blob_size entry.now) numbers.old entry.now) self.old self.new site.old site.new) }
        ensures filled { OnOk result (IfSome self.new.blob (λ b. 1 ≤ b.totals.count)) }
        ensures keeps { Keeps self.old self.new }
        ensures draws { Draws (if (is_large self.old.options.min_blob_size entry.now && not (is_some self.old.blob)) then 1 else 0) self.old self.new numbers.old numbers.new }
        ensures full { (n : ℕ) → result ≡ Err (Full n) → (is_large self.old.options.min_blob_size entry.now && not (is_some self.old.blob) ≡ true) × (numbers.new ≡ 10 ^ 15) × (numbers.old ≡ 10 ^ 15) }
        ensures stays { OnErr result (self.new.failed ≡ false → Stays self.old self.new numbers.old numbers.new site.old site.new) }
        ensures acts { Acts S.Site result self.old self.new site.old site.new }
    {
        if is_large(&self.options, entry) {
            return self.add_large(alloc, site, numbers, entry);
        }
        self.put(alloc, site, entry)
    }

    // A large value goes to the blob file in hand, which begins where there is none, and is closed once it has its size; the
    // entry with its index goes into the table in hand, which there is.
    fn add_large<S: Site>(
        &mut self,
        alloc: Global,
        site: &mut S,
        numbers: &mut Numbers,
        entry: &Entry,
    ) -> Result<(), JobErr>
        requires unsealed { self.old.sealed ≡ 0 }
        requires proper { IsProper entry.now }
        requires large { is_large self.old.options.min_blob_size entry.now ≡ true }
        requires hand { IsSome self.old.table }
        requires there { S.shows → AreThere (S.disk site.old) self.old }
        ensures becomes { OnOk result (Becomes S.Site numbers.old (with_large numbers.old entry.now) self.old self.new site.old site.new) }
        ensures filled { OnOk result (IfSome self.new.blob (λ b. 1 ≤ b.totals.count)) }
        ensures keeps { Keeps self.old self.new }
        ensures draws { Draws (if is_some self.old.blob then 0 else 1) self.old self.new numbers.old numbers.new }
        ensures full { (n : ℕ) → result ≡ Err (Full n) → (is_some self.old.blob ≡ false) × (numbers.new ≡ 10 ^ 15) × (numbers.old ≡ 10 ^ 15) }
        ensures stays { OnErr result (self.new.failed ≡ false → Stays self.old self.new numbers.old numbers.new site.old site.new) }
        ensures acts { Acts S.Site result self.old self.new site.old site.new }
    {
        self.begin_blob(alloc, site, numbers)?;
        let reference = self.store(alloc, site, entry)?;
        self.put(alloc, site, &reference)?;
        self.close_full_blob(site)
    }

    // Where no blob file is in hand, one begins: the next number is drawn, and its file made.
    fn begin_blob<S: Site>(
        &mut self,
        alloc: Global,
        site: &mut S,
        numbers: &mut Numbers,
    ) -> Result<(), JobErr>
        requires unsealed { self.old.sealed ≡ 0 }
        requires there { S.shows → AreThere (S.disk site.old) self.old }
        ensures becomes { OnOk result (Becomes S.Site numbers.old (with_blob_room (is_some self.old.blob) numbers.old) self.old self.new site.old site.new) }
        ensures hand { OnOk result (IsSome self.new.blob) }
        ensures keeps { Keeps self.old self.new }
        ensures table { self.new.table ≡ self.old.table }
        ensures draws { Draws (if is_some self.old.blob then 0 else 1) self.old self.new numbers.old numbers.new }
        ensures full { (n : ℕ) → result ≡ Err (Full n) → (is_some self.old.blob ≡ false) × (numbers.new ≡ 10 ^ 15) × (numbers.old ≡ 10 ^ 15) }
        ensures stays { self.new.failed ≡ false → Stays self.old self.new numbers.old numbers.new site.old site.new }
        ensures acts { Acts S.Site result self.old self.new site.old site.new }
    {
        names_one();
        if self.blob.is_some() {
            return Ok(());
        }
        let number = numbers.next();
        if number == END {
            self.failed = true;
            return Err(JobErr::Full(END));
        }
        let hand = BlobInHand::start(alloc, number)?;
        self.drawn.push(number)?;
        numbers.take();
        self.failed = true;
        create(site, hand.name())?;
        self.blob = Some(hand);
        Ok(())
    }

    // An entry's value goes into the blob file in hand, which there is; the entry with its index is handed back.
    fn store<S: Site>(
        &mut self,
        alloc: Global,
        site: &mut S,
        entry: &Entry,
    ) -> Result<Entry, JobErr>
        requires unsealed { self.old.sealed ≡ 0 }
        requires proper { IsProper entry.now }
        requires record { IsRecord (record_of entry.now) }
        requires hand { IsSome self.old.blob }
        requires there { S.shows → AreThere (S.disk site.old) self.old }
        ensures becomes { (next : ℕ) → OnOk result (Becomes S.Site next (with_value entry.now) self.old self.new site.old site.new) }
        ensures reference { (h : BlobHand) → self.old.blob ≡ Some h → IfOk result (λ w. w ≡ reference_to (index_at h entry.now) entry.now) }
        ensures proper { IfOk result IsProper }
        ensures filled { OnOk result ((self.new.failed ≡ true) × IsSomeAnd self.new.blob (λ b. 1 ≤ b.totals.count)) }
        ensures keeps { Keeps self.old self.new }
        ensures table { self.new.table ≡ self.old.table }
        ensures drawn { self.new.drawn ≡ self.old.drawn }
        ensures stays { self.new.failed ≡ false → (self.new ≡ self.old) × (site.new ≡ site.old) }
        ensures acts { Acts S.Site result self.old self.new site.old site.new }
        ensures causes { IfErr result IsSealCause }
    {
        names_one();
        let Some(hand) = &mut self.blob else {
            unreachable!()
        };
        let (key, value) = (user_of(entry), entry.value.as_slice());
        let Some(totals) = hand.totals_behind(key.len(), value.len()) else {
            return Err(JobErr::OutOfMemory);
        };
        let index = hand.next_index(key.len(), value.len());
        let reference = referring(alloc, entry, &index)?;
        self.failed = true;
        hand.write(site, totals, key, value)?;
        Ok(reference)
    }

    // The blob file in hand, if there is one, is closed where it has its size.
    fn close_full_blob<S: Site>(&mut self, site: &mut S) -> Result<(), JobErr>
        requires unsealed { self.old.sealed ≡ 0 }
        requires filled { IfSome self.old.blob (λ b. 1 ≤ b.totals.count) }
        requires there { S.shows → AreThere (S.disk site.old) self.old }
        ensures becomes { (next : ℕ) (h : BlobHand) → self.old.blob ≡ Some h
            → OnOk result (Becomes S.Site next (λ o. if nat_le self.old.options.blob_file_size (30 + h.totals.bytes) then closed_blob o else o) self.old self.new site.old site.new) }
        ensures filled { IfSome self.new.blob (λ b. 1 ≤ b.totals.count) }
        ensures keeps { Keeps self.old self.new }
        ensures drawn { self.new.drawn ≡ self.old.drawn }
        ensures stays { self.new.failed ≡ false → (self.new ≡ self.old) × (site.new ≡ site.old) }
        ensures acts { Acts S.Site result self.old self.new site.old site.new }
        ensures causes { IfErr result IsSealCause }
    {
        match &self.blob {
            Some(hand) if is_full(&self.options, hand.size()) => self.close_blob(site),
            _ => Ok(()),
        }
    }

    // The blob file in hand is closed, if there is one: the footer follows in its file, which is in the folder. It has some
    // record, and it is not sealed.
    pub(crate) fn close_blob<S: Site>(&mut self, site: &mut S) -> Result<(), JobErr>
        requires sealed { self.old.sealed ≤ length self.old.tables + length self.old.blobs }
        requires filled { IfSome self.old.blob (λ b. 1 ≤ b.totals.count) }
        requires there { S.shows → AreThere (S.disk site.old) self.old }
        ensures becomes { (next : ℕ) → IsSome self.old.blob → OnOk result (Becomes S.Site next closed_blob self.old self.new site.old site.new) }
        ensures hand { OnOk result (self.new.blob ≡ None) }
        ensures count { OnOk result (IsSome self.old.blob → length self.old.blobs < length self.new.blobs) }
        ensures tables { self.new.tables ≡ self.old.tables }
        ensures filled { IfSome self.new.blob (λ b. 1 ≤ b.totals.count) }
        ensures keeps { Keeps self.old self.new }
        ensures table { self.new.table ≡ self.old.table }
        ensures drawn { self.new.drawn ≡ self.old.drawn }
        ensures stays { self.new.failed ≡ false → (self.new ≡ self.old) × (site.new ≡ site.old) }
        ensures acts { Acts S.Site result self.old self.new site.old site.new }
        ensures causes { IfErr result IsSealCause }
    {
        names_one();
        let Some(hand) = &mut self.blob else {
            return Ok(());
        };
        let (named, footer) = hand.finish();
        self.blobs.push(named)?;
        self.failed = true;
        append(site, hand.name(), &footer)?;
        self.blob = None;
        Ok(())
    }
}
