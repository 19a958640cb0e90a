//! Reopening: a store is begun anew on what its folder holds.

ghost use Rattle.std.specs.Prelude.{◌≡◌, ℕ, ◌^◌, List, [], false, true, Err, IfOk, IfErr, OnOk, OnErr, IsErrOf};
ghost use Rattle.bl_site.specs.Causes.{Rose};
ghost use Rattle.bl_site.specs.Disk.{Name, folder_of, written_of};
ghost use Rattle.bl_site.specs.Quiet.{TellsNothing};
ghost use Rattle.bl_entry.specs.Revisions.{Map};
ghost use Rattle.bl_records.specs.Chance.{NoChanceMatch};
ghost use Rattle.bl_folder.specs.Settled.{IsSettled};
ghost use Rattle.bl_folder.specs.Stands.{IsSoundFolder, Stands};
ghost use Rattle.bl_open.specs.Recovering.{IsFull, IsRefusal, TakesOver};
ghost use Rattle.bl_open.specs.declared.error.OpenErr.{OpenErr as OpenErrSpec};
ghost use Rattle.bl_store.specs.Calls.{CutsOfCall, LeavesStore};
ghost use Rattle.bl_store.specs.Causes.{IsOpening, of_opening};
ghost use Rattle.bl_store.specs.Held.{Held, all_durable, begun_with};
ghost use Rattle.bl_store.specs.Opening.{AnswersAsRefused, IsBegun, KeepsFound, opened_of};
ghost use Rattle.bl_store.specs.Reopening.{HandsOver, HasReopened, IsReopening, IsUnfailed, no_words};
ghost use Rattle.bl_store.specs.Standing.{IsThere, StandsAsSynced, StandsFor};
ghost use Rattle.bl_store.specs.Stored.{Stored};

use crate::error::StoreErr;
use crate::store::Store;
use bl_folder::folders_stand_for_one_map;
use bl_open::{Asked, openings_leave_maps, refusals_are_one, steady_disks_stand};
use bl_site::Site;
use std::alloc::Global;

// No word is given.
fn ask_nothing() -> Asked
    ensures { result ≡ no_words }
{
    Asked {
        min_blob_size: None,
        blob_file_size: None,
        write_buffer: None,
        table_size: None,
        level0_trigger: None,
        level_base: None,
        level_factor: None,
        age_cutoff: None,
        force_threshold: None,
    }
}

impl Store {
    // Opens the folder with the options that it has. Where a store stood on the disk, what it held is what the folder stands for.
    fn open_stored<S: Site>(alloc: Global, site: &mut S) -> Result<Store, StoreErr>
        ensures begun { IfOk result IsBegun }
        ensures takes { S.shows → IfOk result (λ store. TakesOver (folder_of (S.disk site.old)) no_words (opened_of store)) }
        ensures there { S.shows → IfOk result (λ store. IsThere store (S.disk site.new)) }
        ensures begins { S.shows → (m : Map) → Stands (folder_of (S.disk site.old)) m → IfOk result (λ store. StandsAsSynced (begun_with m) store (S.disk site.new)) }
        ensures reopened { S.shows → (names : List Name) (held : Held) (old : Stored) → IsUnfailed old → StandsFor names held old (S.disk site.old) → IfOk result (HasReopened old) }
        ensures stands { S.shows → (held : Held) (old : Stored) → IsUnfailed old → StandsFor [] held old (S.disk site.old) → IfOk result (λ store. StandsFor [] (all_durable held) store (S.disk site.new)) }
        ensures settled { S.shows → (held : Held) (old : Stored) → IsUnfailed old → StandsFor [] held old (S.disk site.old) → NoChanceMatch (folder_of (S.disk site.new)) (written_of (S.disk site.new)) → IsSettled (S.disk site.new) }
        ensures cuts { S.shows → S.certain site.old → (held : Held) (old : Stored) → IsUnfailed old → StandsFor [] held old (S.disk site.old) → CutsOfCall S.Site held (all_durable held) site.old site.new }
        ensures certain { S.shows → OnOk result (S.certain site.new) }
        ensures keeps { S.shows → KeepsFound result (S.disk site.old) (S.disk site.new) }
        ensures answers { S.shows → AnswersAsRefused (folder_of (S.disk site.old)) no_words result }
        ensures sound { S.shows → IsSoundFolder (folder_of (S.disk site.old)) → (name : Name) (place : ℕ) → result ≡ Err (StoreErr.Corrupt name place) → ⊥ }
        ensures same { S.shows → (e : OpenErrSpec) → IsRefusal e → result ≡ Err (of_opening e) → folder_of (S.disk site.new) ≡ folder_of (S.disk site.old) }
        ensures full { (n : ℕ) → result ≡ Err (StoreErr.Full n) → (n ≡ 10 ^ 15) × (S.shows → IsFull (folder_of (S.disk site.old)) no_words) }
        ensures enough { S.shows → OnOk result (IsFull (folder_of (S.disk site.old)) no_words → ⊥) }
        ensures tells_nothing { TellsNothing S.Site site.old site.new }
        ensures causes { S.shows → IfErr result IsReopening }
        ensures kinds { IfErr result IsOpening }
        ensures disk { IsErrOf result StoreErr.Disk → Rose (S.disk_faults site.old) (S.disk_faults site.new) }
    {
        refusals_are_one();
        steady_disks_stand();
        openings_leave_maps();
        folders_stand_for_one_map();
        let asked = ask_nothing();
        Store::open_site(alloc, site, &asked)
    }

    // While no writing call has failed, no call of the log or of the manifest has.
    fn show_unfailed(&self)
        ensures { self.now.broken ≡ false → IsUnfailed self.now }
    {
        let _broken = self.broken;
    }

    // Puts the store that was opened in the place of this one. Where none was, this one is broken.
    fn hand_over(&mut self, opened: Result<Store, StoreErr>) -> Result<(), StoreErr>
        ensures { HandsOver opened result self.old self.new }
    {
        match opened {
            Ok(store) => {
                *self = store;
                Ok(())
            }
            Err(error) => {
                self.broken = true;
                Err(error)
            }
        }
    }

    /// Opens the store's folder again, with the options that it has, and begins the store anew on it; so a broken store becomes a usable one.
    /// The manifest and the logs are synced, and the entries of the logs are flushed: at `Ok` all that was written is durable, no entry is in
    /// memory, and the next number for a file follows the last one drawn. A store that was not broken holds what it held, and each cut
    /// meanwhile leaves the map after some first writes, all durable ones among them. A broken one, from any disk whose folder stands for a
    /// map, holds that map at `Ok`, as if some tables and blob files that were there had been synced.
    ///
    /// Errors: `Disk`; `OutOfMemory`; `Corrupt` exactly where the folder is damaged, with the first damaged name and place, so never where it
    /// is sound; `Full(10^15)` exactly where the opening would take more numbers than are left from the first one on. `Corrupt` and `Full`
    /// yield to `Disk` and `OutOfMemory`. After each of them the store is broken, and else as it was.
    pub fn reopen<S: Site>(&mut self, alloc: Global, site: &mut S) -> Result<(), StoreErr>
        ensures begun { OnOk result (IsBegun self.new) }
        ensures broken { OnErr result (self.new ≡ record self.old { broken = true }) }
        ensures takes { S.shows → OnOk result (TakesOver (folder_of (S.disk site.old)) no_words (opened_of self.new)) }
        ensures there { S.shows → OnOk result (IsThere self.new (S.disk site.new)) }
        ensures begins { S.shows → (m : Map) → Stands (folder_of (S.disk site.old)) m → OnOk result (StandsAsSynced (begun_with m) self.new (S.disk site.new)) }
        ensures reopened { S.shows → self.old.broken ≡ false → (names : List Name) (held : Held) → StandsFor names held self.old (S.disk site.old) → OnOk result (HasReopened self.old self.new) }
        ensures stands { S.shows → self.old.broken ≡ false → (held : Held) → StandsFor [] held self.old (S.disk site.old) → LeavesStore [] held (all_durable held) result self.new (S.disk site.new) }
        ensures cuts { S.shows → S.certain site.old → self.old.broken ≡ false → (held : Held) → StandsFor [] held self.old (S.disk site.old) → CutsOfCall S.Site held (all_durable held) site.old site.new }
        ensures certain { S.shows → OnOk result (S.certain site.new) }
        ensures keeps { S.shows → KeepsFound result (S.disk site.old) (S.disk site.new) }
        ensures answers { S.shows → AnswersAsRefused (folder_of (S.disk site.old)) no_words result }
        ensures sound { S.shows → IsSoundFolder (folder_of (S.disk site.old)) → (name : Name) (place : ℕ) → result ≡ Err (StoreErr.Corrupt name place) → ⊥ }
        ensures same { S.shows → (e : OpenErrSpec) → IsRefusal e → result ≡ Err (of_opening e) → folder_of (S.disk site.new) ≡ folder_of (S.disk site.old) }
        ensures full { (n : ℕ) → result ≡ Err (StoreErr.Full n) → (n ≡ 10 ^ 15) × (S.shows → IsFull (folder_of (S.disk site.old)) no_words) }
        ensures enough { S.shows → OnOk result (IsFull (folder_of (S.disk site.old)) no_words → ⊥) }
        ensures tells_nothing { TellsNothing S.Site site.old site.new }
        ensures causes { S.shows → IfErr result IsReopening }
        ensures kinds { IfErr result IsOpening }
        ensures disk { IsErrOf result StoreErr.Disk → Rose (S.disk_faults site.old) (S.disk_faults site.new) }
    {
        self.show_unfailed();
        let opened = Store::open_stored(alloc, site);
        self.hand_over(opened)
    }
}
