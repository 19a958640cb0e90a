//! Sealing: a file is closed and synced, one at a call.

ghost use Rattle.std.specs.Prelude.{◌≡◌, ℕ, ◌⊎◌, ◌+◌, ◌^◌, ◌<◌, ◌≤◌, [], ◌∷◌, length, Ok, true, false, None, Some, IfOk, IfErr, IfSome, IsSome, IsErrOf, OnErr, OnOk};
ghost use Rattle.bl_site.specs.Causes.{Rose};
ghost use Rattle.bl_site.specs.Disk.{Name};
ghost use Rattle.bl_site.specs.Quiet.{TellsNothing};
ghost use Rattle.bl_out.specs.Causes.{IsSealCause};
ghost use Rattle.bl_out.specs.Outputs.{Out, IsSealedAs, next_file, sealed_next};
ghost use Rattle.bl_out.specs.Quiet.{IsNoneOf, TouchesOnly};
ghost use Rattle.bl_out.specs.States.{AreFilled, AreThere, Becomes, IsOut, Refuses, names_of};
ghost use Rattle.bl_out.specs.Steps.{Acts, IsNext, sealed_one};
ghost use Rattle.bl_out.specs.declared.error.JobErr.TheVariants.{Disk, OutOfMemory};

use crate::error::JobErr;
use crate::make::sync;
use crate::sealed::Sealed;
use crate::writer::Output;
use bl_code::Octets;
use bl_edit::NewTable;
use bl_names::{FileName, print_name};
use bl_site::Site;
use std::alloc::Global;

// A copy of what a table is named as.
fn copy_of(alloc: Global, named: &NewTable) -> Result<NewTable, JobErr>
    ensures copy { IfOk result (λ copy. copy ≡ named.now) }
    ensures memory { IfErr result (λ e. e ≡ OutOfMemory) }
{
    Ok(NewTable {
        level: named.level,
        number: named.number,
        size: named.size,
        smallest: Octets::from_slice(alloc, named.smallest.as_slice())?,
        largest: Octets::from_slice(alloc, named.largest.as_slice())?,
        least_seq: named.least_seq,
        most_seq: named.most_seq,
        oldest_blob: named.oldest_blob,
    })
}

impl Output {
    /// Seals the next file, the tables by number and then the blob files: it is closed and synced. `None` exactly where all are
    /// sealed; then nothing has changed. No call has failed, and those that are not sealed are in the folder.
    ///
    /// Errors: `Disk` and `OutOfMemory`. After each it has failed, except where memory ran out before the folder was asked: then
    /// all is as before.
    pub fn seal<S: Site>(&mut self, alloc: Global, site: &mut S) -> Result<Option<Sealed>, JobErr>
        requires usable { self.old.failed ≡ false }
        requires there { S.shows → AreThere (S.disk site.old) self.old }
        ensures sealed { (next : ℕ) → OnOk result (Becomes S.Site next sealed_next self.old self.new site.old site.new) }
        ensures usable { OnOk result (self.new.failed ≡ false) }
        ensures named { (o : Out) → IsOut o self.old → AreFilled o → IfOk result (IsSealedAs (next_file o)) }
        ensures none { result ≡ Ok None → (self.new ≡ self.old) × (site.new ≡ site.old) }
        ensures drawn { self.new.drawn ≡ self.old.drawn }
        ensures refused { IfErr result (λ e. Refuses S.Site e self.old self.new 0 0 site.old site.new) }
        ensures asked { Rose (S.changes site.old) (S.changes site.new) ⊎ (site.new ≡ site.old) }
        ensures touches { TouchesOnly S.Site (names_of self.new.drawn) site.old site.new }
        ensures tells_nothing { TellsNothing S.Site site.old site.new }
        ensures causes { IfErr result IsSealCause }
        ensures disk { IsErrOf result Disk → Rose (S.disk_faults site.old) (S.disk_faults site.new) }
    {
        let sealed = if self.sealed < self.tables.len() || self.table.is_some() {
            self.seal_table(alloc, site)?
        } else {
            self.seal_blob(alloc, site)?
        };
        self.failed = false;
        Ok(sealed)
    }

    // The next file is a table: the one in hand is closed, if all others are sealed, and it is synced and counted.
    fn seal_table<S: Site>(&mut self, alloc: Global, site: &mut S) -> Result<Option<Sealed>, JobErr>
        requires next { (self.old.sealed < length self.old.tables) ⊎ (IsSome self.old.table × (self.old.sealed ≤ length self.old.tables)) }
        requires there { S.shows → AreThere (S.disk site.old) self.old }
        ensures becomes { (next : ℕ) → OnOk result (Becomes S.Site next sealed_next self.old self.new site.old site.new) }
        ensures named { (o : Out) → IsOut o self.old → AreFilled o → IfOk result (IsSealedAs (next_file o)) }
        ensures some { IfOk result IsSome }
        ensures order { OnOk result ((IfSome self.new.table (λ h. self.new.sealed ≤ length self.new.tables)) × (self.new.sealed ≤ length self.new.tables + length self.new.blobs)) }
        ensures blob { self.new.blob ≡ self.old.blob }
        ensures drawn { self.new.drawn ≡ self.old.drawn }
        ensures stays { self.new.failed ≡ false → (self.new ≡ self.old) × (site.new ≡ site.old) }
        ensures acts { Acts S.Site result self.old self.new site.old site.new }
        ensures causes { IfErr result IsSealCause }
    {
        if self.sealed < self.tables.len() {
            return self.sync_table(alloc, site);
        }
        self.close_table(alloc, site)?;
        self.sync_table(alloc, site)
    }

    // The next table, which is closed, is synced and counted.
    fn sync_table<S: Site>(&mut self, alloc: Global, site: &mut S) -> Result<Option<Sealed>, JobErr>
        requires next { self.old.sealed < length self.old.tables }
        requires there { S.shows → AreThere (S.disk site.old) self.old }
        ensures becomes { (next : ℕ) → OnOk result (Becomes S.Site next sealed_one self.old self.new site.old site.new) }
        ensures named { (o : Out) → IsOut o self.old → AreFilled o → IfOk result (IsSealedAs (next_file o)) }
        ensures some { IfOk result IsSome }
        ensures same { OnOk result (self.new ≡ record self.old { sealed = self.old.sealed + 1; failed = true }) }
        ensures err { OnErr result (self.new ≡ record self.old { failed = self.new.failed }) }
        ensures drawn { self.new.drawn ≡ self.old.drawn }
        ensures stays { self.new.failed ≡ false → (self.new ≡ self.old) × (site.new ≡ site.old) }
        ensures acts { Acts S.Site result self.old self.new site.old site.new }
        ensures causes { IfErr result IsSealCause }
    {
        let named = copy_of(alloc, &self.tables[self.sealed])?;
        let name = print_name(alloc, &FileName::Table(named.number))?;
        self.sync_next(site, name.as_str())?;
        Ok(Some(Sealed::Table(named)))
    }

    // The next file is a blob file, if there is one more: the one in hand is closed, if all others are sealed, and it is synced
    // and counted. All tables are closed and sealed.
    fn seal_blob<S: Site>(&mut self, alloc: Global, site: &mut S) -> Result<Option<Sealed>, JobErr>
        requires tables { (self.old.table ≡ None) × (length self.old.tables ≤ self.old.sealed) }
        requires order { self.old.sealed ≤ length self.old.tables + length self.old.blobs }
        requires filled { IfSome self.old.blob (λ b. 1 ≤ b.totals.count) }
        requires there { S.shows → AreThere (S.disk site.old) self.old }
        ensures becomes { (next : ℕ) → OnOk result (Becomes S.Site next sealed_next self.old self.new site.old site.new) }
        ensures named { (o : Out) → IsOut o self.old → IfOk result (IsSealedAs (next_file o)) }
        ensures order { OnOk result ((self.new.table ≡ None) × (self.new.sealed ≤ length self.new.tables + length self.new.blobs)) }
        ensures filled { IfSome self.new.blob (λ b. 1 ≤ b.totals.count) }
        ensures none { result ≡ Ok None → (self.new ≡ self.old) × (site.new ≡ site.old) }
        ensures drawn { self.new.drawn ≡ self.old.drawn }
        ensures stays { self.new.failed ≡ false → (self.new ≡ self.old) × (site.new ≡ site.old) }
        ensures acts { Acts S.Site result self.old self.new site.old site.new }
        ensures causes { IfErr result IsSealCause }
    {
        if self.sealed < self.tables.len() + self.blobs.len() {
            return self.sync_blob(alloc, site);
        }
        if self.blob.is_none() {
            return Ok(None);
        }
        self.close_blob(site)?;
        self.sync_blob(alloc, site)
    }

    // The next blob file, which is closed, is synced and counted. All tables are closed and sealed.
    fn sync_blob<S: Site>(&mut self, alloc: Global, site: &mut S) -> Result<Option<Sealed>, JobErr>
        requires tables { (self.old.table ≡ None) × (length self.old.tables ≤ self.old.sealed) }
        requires next { self.old.sealed < length self.old.tables + length self.old.blobs }
        requires there { S.shows → AreThere (S.disk site.old) self.old }
        ensures becomes { (next : ℕ) → OnOk result (Becomes S.Site next sealed_one self.old self.new site.old site.new) }
        ensures named { (o : Out) → IsOut o self.old → IfOk result (IsSealedAs (next_file o)) }
        ensures some { IfOk result IsSome }
        ensures same { OnOk result (self.new ≡ record self.old { sealed = self.old.sealed + 1; failed = true }) }
        ensures err { OnErr result (self.new ≡ record self.old { failed = self.new.failed }) }
        ensures drawn { self.new.drawn ≡ self.old.drawn }
        ensures stays { self.new.failed ≡ false → (self.new ≡ self.old) × (site.new ≡ site.old) }
        ensures acts { Acts S.Site result self.old self.new site.old site.new }
        ensures causes { IfErr result IsSealCause }
    {
        let named = self.blobs[self.sealed - self.tables.len()];
        let name = print_name(alloc, &FileName::Blob(named.number))?;
        self.sync_next(site, name.as_str())?;
        Ok(Some(Sealed::Blob(named)))
    }

    // The next file, which is closed and has this name, is synced and counted.
    fn sync_next<S: Site>(&mut self, site: &mut S, name: &str) -> Result<(), JobErr>
        requires next { (o : Out) → IsOut o self.old → IsNext name.now o }
        requires bound { self.old.sealed < 2 ^ 63 }
        requires there { S.shows → IsSome (S.disk site.old name.now) }
        requires drawn { (other : Name) → IsNoneOf (names_of self.old.drawn) other → IsNoneOf (name.now ∷ []) other }
        ensures becomes { (next : ℕ) → OnOk result (Becomes S.Site next sealed_one self.old self.new site.old site.new) }
        ensures same { OnOk result (self.new ≡ record self.old { sealed = self.old.sealed + 1; failed = true }) }
        ensures err { OnErr result (self.new ≡ record self.old { failed = true }) }
        ensures acts { Acts S.Site result self.old self.new site.old site.new }
        ensures causes { IfErr result IsSealCause }
    {
        self.failed = true;
        sync(site, name)?;
        self.sealed += 1;
        Ok(())
    }
}
