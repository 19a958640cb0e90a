//! A script, piece by piece.

ghost use Rattle.std.specs.Prelude.{◌≡◌, ℕ, ◌+◌, ◌-◌, ◌<◌, ◌≤◌, ◌^◌, List, [], ◌∷◌, ◌++◌, length, IfErr, OnOk, OnErr, IsErrOf, Err, MatchOption, false, drop, slice_index, slice_range, ◌⊎◌};
ghost use Rattle.bl_site.specs.Disk.{Name, Folder, folder_of};
ghost use Rattle.bl_site.specs.Calls.{LeavesOnly};
ghost use Rattle.bl_site.specs.Causes.{Rose};
ghost use Rattle.bl_logstore.specs.Stored.{KeepsOthers};
ghost use Rattle.bl_shell.specs.Causes.{IsNotOfScript, IsReading, IsSilent};
ghost use Rattle.bl_shell.specs.Carried.{Carried, StandsAtStart, Finished, Steady, NoLineEnd};
ghost use Rattle.bl_shell.specs.Cuts.{IsKept, Stops};
ghost use Rattle.bl_shell.specs.Inside.{HasRunCauses};
ghost use Rattle.bl_shell.specs.Machine.{orders, Start};
ghost use Rattle.bl_shell.specs.Synced.{CutOf};
ghost use Rattle.bl_shell.specs.Telling.{IsStartOf, HasRun, HasTaken, HasBegun, HasFaltered};

use crate::lines::LineInHand;
use crate::obey::obey;
use crate::stop::Stop;
use bl_logstore::{
    Store, batches_make_the_map, cuts_stand, older_logs_are_synced, stores_stand,
    synced_stores_are_left,
};
use bl_site::{Site, Source};
use memchr::memchr;
use std::alloc::Global;

// The bytes of a script that are taken, and then as many as one read gives.
const LIMIT: u64 = 1 << 40;

// Where the line ends that a place of the piece lies in, if it ends in the piece.
fn line_end(piece: &[u8], from: usize) -> Option<usize>
    requires { from ≤ length piece.now }
    ensures { MatchOption result (NoLineEnd (drop from piece.now))
        (λ end. (from ≤ end) × (end < length piece.now) × (slice_index piece.now end ≡ 10) × NoLineEnd (slice_range piece.now from end)) }
{
    match memchr(b'\n', &piece[from..]) {
        Some(count) => Some(from + count),
        None => None,
    }
}

// The line in hand is whole: it is obeyed.
fn end_line<S: Site>(
    store: &mut Store,
    line: &mut LineInHand,
    alloc: Global,
    site: &mut S,
) -> Result<(), Stop>
    requires usable { store.old.broken ≡ false }
    requires there { S.shows → (began : Start) × ((folder : Folder) × ((told : List ℕ) × ((script : List ℕ) × ((start : S)
        × Carried began folder told script store.old line.old (S.disk site.old) (S.told site.old) (Steady S.certain S.clock S.left_since start site.old))))) }
    ensures cleared { OnOk result ((line.new.long ≡ false) × (line.new.bytes.items ≡ [])) }
    ensures usable { OnOk result (store.new.broken ≡ false) }
    ensures ok { S.shows → OnOk result ((began : Start) (folder : Folder) (told script : List ℕ) (start : S)
        → Carried began folder told script store.old line.old (S.disk site.old) (S.told site.old) (Steady S.certain S.clock S.left_since start site.old)
        → Carried began folder told (script ++ 10 ∷ []) store.new line.new (S.disk site.new) (S.told site.new) (Steady S.certain S.clock S.left_since start site.new)) }
    ensures front { S.shows → IfErr result (λ e. IsSilent e → (began : Start) (folder : Folder) (told script more : List ℕ) (start : S) → IsStartOf folder began
        → Carried began folder told script store.old line.old (S.disk site.old) (S.told site.old) (Steady S.certain S.clock S.left_since start site.old)
        → HasBegun folder (script ++ 10 ∷ more) told (S.told site.new)) }
    ensures faltered { S.shows → IsErrOf result Stop.Tell → (began : Start) (folder : Folder) (told script more : List ℕ) (start : S) → IsStartOf folder began
        → Carried began folder told script store.old line.old (S.disk site.old) (S.told site.old) (Steady S.certain S.clock S.left_since start site.old)
        → HasFaltered folder (folder_of (S.disk site.new)) (script ++ 10 ∷ more) told (S.told site.new) }
    ensures full { S.shows → (limit : ℕ) → result ≡ Err (Stop.Full limit) → (began : Start) (folder : Folder) (told script more : List ℕ) (start : S) → IsStartOf folder began
        → Carried began folder told script store.old line.old (S.disk site.old) (S.told site.old) (Steady S.certain S.clock S.left_since start site.old)
        → Stops folder (folder_of (S.disk site.new)) (script ++ 10 ∷ more) told (S.told site.new) limit (LeavesOnly S.clock S.left_since start site.new) }
    ensures cuts { S.shows → (began : Start) (folder : Folder) (told script more : List ℕ) (start : S)
        → Carried began folder told script store.old line.old (S.disk site.old) (S.told site.old) (Steady S.certain S.clock S.left_since start site.old)
        → LeavesOnly S.clock S.left_since start site.new (CutOf began (orders (script ++ 10 ∷ more)) told) }
    ensures corrupt { S.shows → (name : Name) (place : ℕ) → result ≡ Err (Stop.Corrupt name place) → ⊥ }
    ensures disk { IsErrOf result Stop.Disk → Rose (S.disk_faults site.old) (S.disk_faults site.new) }
    ensures tell { IsErrOf result Stop.Tell → Rose (S.tell_faults site.old) (S.tell_faults site.new) }
    ensures causes { IfErr result IsNotOfScript }
    ensures others { S.shows → KeepsOthers (S.disk site.old) (S.disk site.new) }
    ensures later { (S.disk_faults site.old ≤ S.disk_faults site.new) × (S.tell_faults site.old ≤ S.tell_faults site.new) }
{
    stores_stand();
    batches_make_the_map();
    let order = line.parse(alloc)?;
    obey(store, alloc, order, site)?;
    line.clear();
    Ok(())
}

// More bytes of the script.
fn feed<S: Site>(
    store: &mut Store,
    line: &mut LineInHand,
    alloc: Global,
    piece: &[u8],
    site: &mut S,
) -> Result<(), Stop>
    requires usable { store.old.broken ≡ false }
    requires there { S.shows → (began : Start) × ((folder : Folder) × ((told : List ℕ) × ((script : List ℕ) × ((start : S)
        × Carried began folder told script store.old line.old (S.disk site.old) (S.told site.old) (Steady S.certain S.clock S.left_since start site.old))))) }
    ensures usable { OnOk result (store.new.broken ≡ false) }
    ensures ok { S.shows → OnOk result ((began : Start) (folder : Folder) (told script : List ℕ) (start : S)
        → Carried began folder told script store.old line.old (S.disk site.old) (S.told site.old) (Steady S.certain S.clock S.left_since start site.old)
        → Carried began folder told (script ++ piece.now) store.new line.new (S.disk site.new) (S.told site.new) (Steady S.certain S.clock S.left_since start site.new)) }
    ensures front { S.shows → IfErr result (λ e. IsSilent e → (began : Start) (folder : Folder) (told script more : List ℕ) (start : S) → IsStartOf folder began
        → Carried began folder told script store.old line.old (S.disk site.old) (S.told site.old) (Steady S.certain S.clock S.left_since start site.old)
        → HasBegun folder (script ++ (piece.now ++ more)) told (S.told site.new)) }
    ensures faltered { S.shows → IsErrOf result Stop.Tell → (began : Start) (folder : Folder) (told script more : List ℕ) (start : S) → IsStartOf folder began
        → Carried began folder told script store.old line.old (S.disk site.old) (S.told site.old) (Steady S.certain S.clock S.left_since start site.old)
        → HasFaltered folder (folder_of (S.disk site.new)) (script ++ (piece.now ++ more)) told (S.told site.new) }
    ensures full { S.shows → (limit : ℕ) → result ≡ Err (Stop.Full limit) → (began : Start) (folder : Folder) (told script more : List ℕ) (start : S) → IsStartOf folder began
        → Carried began folder told script store.old line.old (S.disk site.old) (S.told site.old) (Steady S.certain S.clock S.left_since start site.old)
        → Stops folder (folder_of (S.disk site.new)) (script ++ (piece.now ++ more)) told (S.told site.new) limit (LeavesOnly S.clock S.left_since start site.new) }
    ensures cuts { S.shows → (began : Start) (folder : Folder) (told script more : List ℕ) (start : S)
        → Carried began folder told script store.old line.old (S.disk site.old) (S.told site.old) (Steady S.certain S.clock S.left_since start site.old)
        → LeavesOnly S.clock S.left_since start site.new (CutOf began (orders (script ++ (piece.now ++ more))) told) }
    ensures corrupt { S.shows → (name : Name) (place : ℕ) → result ≡ Err (Stop.Corrupt name place) → ⊥ }
    ensures disk { IsErrOf result Stop.Disk → Rose (S.disk_faults site.old) (S.disk_faults site.new) }
    ensures tell { IsErrOf result Stop.Tell → Rose (S.tell_faults site.old) (S.tell_faults site.new) }
    ensures causes { IfErr result IsNotOfScript }
    ensures others { S.shows → KeepsOthers (S.disk site.old) (S.disk site.new) }
    ensures later { (S.disk_faults site.old ≤ S.disk_faults site.new) × (S.tell_faults site.old ≤ S.tell_faults site.new) }
{
    let mut at = 0;
    'lines: while let Some(end) = line_end(piece, at) {
        line.push(&piece[at..end])?;
        end_line(store, line, alloc, site)?;
        at = end + 1;
    }
    line.push(&piece[at..])?;
    Ok(())
}

// The script's end: a last line that no line end ends is obeyed too.
fn end_script<S: Site>(
    store: &mut Store,
    line: &mut LineInHand,
    alloc: Global,
    site: &mut S,
) -> Result<(), Stop>
    requires usable { store.old.broken ≡ false }
    requires there { S.shows → (began : Start) × ((folder : Folder) × ((told : List ℕ) × ((script : List ℕ) × ((start : S)
        × Carried began folder told script store.old line.old (S.disk site.old) (S.told site.old) (Steady S.certain S.clock S.left_since start site.old))))) }
    ensures usable { OnOk result (store.new.broken ≡ false) }
    ensures ok { S.shows → OnOk result ((began : Start) (folder : Folder) (told script : List ℕ) (start : S)
        → Carried began folder told script store.old line.old (S.disk site.old) (S.told site.old) (Steady S.certain S.clock S.left_since start site.old)
        → Finished began folder script told store.new (S.disk site.new) (S.told site.new) (Steady S.certain S.clock S.left_since start site.new)) }
    ensures front { S.shows → IfErr result (λ e. IsSilent e → (began : Start) (folder : Folder) (told script : List ℕ) (start : S) → IsStartOf folder began
        → Carried began folder told script store.old line.old (S.disk site.old) (S.told site.old) (Steady S.certain S.clock S.left_since start site.old)
        → HasBegun folder script told (S.told site.new)) }
    ensures faltered { S.shows → IsErrOf result Stop.Tell → (began : Start) (folder : Folder) (told script : List ℕ) (start : S) → IsStartOf folder began
        → Carried began folder told script store.old line.old (S.disk site.old) (S.told site.old) (Steady S.certain S.clock S.left_since start site.old)
        → HasFaltered folder (folder_of (S.disk site.new)) script told (S.told site.new) }
    ensures full { S.shows → (limit : ℕ) → result ≡ Err (Stop.Full limit) → (began : Start) (folder : Folder) (told script : List ℕ) (start : S) → IsStartOf folder began
        → Carried began folder told script store.old line.old (S.disk site.old) (S.told site.old) (Steady S.certain S.clock S.left_since start site.old)
        → Stops folder (folder_of (S.disk site.new)) script told (S.told site.new) limit (LeavesOnly S.clock S.left_since start site.new) }
    ensures cuts { S.shows → (began : Start) (folder : Folder) (told script : List ℕ) (start : S)
        → Carried began folder told script store.old line.old (S.disk site.old) (S.told site.old) (Steady S.certain S.clock S.left_since start site.old)
        → LeavesOnly S.clock S.left_since start site.new (CutOf began (orders script) told) }
    ensures corrupt { S.shows → (name : Name) (place : ℕ) → result ≡ Err (Stop.Corrupt name place) → ⊥ }
    ensures disk { IsErrOf result Stop.Disk → Rose (S.disk_faults site.old) (S.disk_faults site.new) }
    ensures tell { IsErrOf result Stop.Tell → Rose (S.tell_faults site.old) (S.tell_faults site.new) }
    ensures causes { IfErr result IsNotOfScript }
    ensures others { S.shows → KeepsOthers (S.disk site.old) (S.disk site.new) }
    ensures later { (S.disk_faults site.old ≤ S.disk_faults site.new) × (S.tell_faults site.old ≤ S.tell_faults site.new) }
{
    if line.is_empty() {
        return Ok(());
    }
    end_line(store, line, alloc, site)
}

// The script's end: the last line is obeyed, and the log is synced.
fn finish<S: Site>(
    store: &mut Store,
    line: &mut LineInHand,
    alloc: Global,
    site: &mut S,
) -> Result<(), Stop>
    requires usable { store.old.broken ≡ false }
    requires there { S.shows → (began : Start) × ((folder : Folder) × ((told : List ℕ) × ((script : List ℕ) × ((start : S)
        × Carried began folder told script store.old line.old (S.disk site.old) (S.told site.old) (Steady S.certain S.clock S.left_since start site.old))))) }
    ensures ok { S.shows → OnOk result ((began : Start) (folder : Folder) (told script : List ℕ) (start : S) → IsStartOf folder began
        → Carried began folder told script store.old line.old (S.disk site.old) (S.told site.old) (Steady S.certain S.clock S.left_since start site.old)
        → HasRun folder (folder_of (S.disk site.new)) script told (S.told site.new)) }
    ensures kept { S.shows → OnOk result ((began : Start) (folder : Folder) (told script : List ℕ) (start : S) → IsStartOf folder began
        → Carried began folder told script store.old line.old (S.disk site.old) (S.told site.old) (Steady S.certain S.clock S.left_since start site.old)
        → IsKept (S.certain site.new) (S.may_be site.new) (S.disk site.new) (S.told site.new) folder script) }
    ensures front { S.shows → IfErr result (λ e. IsSilent e → (began : Start) (folder : Folder) (told script : List ℕ) (start : S) → IsStartOf folder began
        → Carried began folder told script store.old line.old (S.disk site.old) (S.told site.old) (Steady S.certain S.clock S.left_since start site.old)
        → HasBegun folder script told (S.told site.new)) }
    ensures faltered { S.shows → IsErrOf result Stop.Tell → (began : Start) (folder : Folder) (told script : List ℕ) (start : S) → IsStartOf folder began
        → Carried began folder told script store.old line.old (S.disk site.old) (S.told site.old) (Steady S.certain S.clock S.left_since start site.old)
        → HasFaltered folder (folder_of (S.disk site.new)) script told (S.told site.new) }
    ensures full { S.shows → (limit : ℕ) → result ≡ Err (Stop.Full limit) → (began : Start) (folder : Folder) (told script : List ℕ) (start : S) → IsStartOf folder began
        → Carried began folder told script store.old line.old (S.disk site.old) (S.told site.old) (Steady S.certain S.clock S.left_since start site.old)
        → Stops folder (folder_of (S.disk site.new)) script told (S.told site.new) limit (LeavesOnly S.clock S.left_since start site.new) }
    ensures cuts { S.shows → (began : Start) (folder : Folder) (told script : List ℕ) (start : S)
        → Carried began folder told script store.old line.old (S.disk site.old) (S.told site.old) (Steady S.certain S.clock S.left_since start site.old)
        → LeavesOnly S.clock S.left_since start site.new (CutOf began (orders script) told) }
    ensures corrupt { S.shows → (name : Name) (place : ℕ) → result ≡ Err (Stop.Corrupt name place) → ⊥ }
    ensures disk { IsErrOf result Stop.Disk → Rose (S.disk_faults site.old) (S.disk_faults site.new) }
    ensures tell { IsErrOf result Stop.Tell → Rose (S.tell_faults site.old) (S.tell_faults site.new) }
    ensures causes { IfErr result IsNotOfScript }
    ensures others { S.shows → KeepsOthers (S.disk site.old) (S.disk site.new) }
    ensures later { (S.disk_faults site.old ≤ S.disk_faults site.new) × (S.tell_faults site.old ≤ S.tell_faults site.new) }
{
    stores_stand();
    batches_make_the_map();
    older_logs_are_synced();
    synced_stores_are_left();
    end_script(store, line, alloc, site)?;
    store.sync(site)?;
    Ok(())
}

// Reads the script to its end, and obeys it line by line.
pub(crate) fn serve<R: Source, S: Site>(
    store: &mut Store,
    alloc: Global,
    buffer: &mut [u8],
    script: &mut R,
    site: &mut S,
) -> Result<(), Stop>
    requires some { 0 < length buffer.old }
    requires small { length buffer.old ≤ 2 ^ 20 }
    requires usable { store.old.broken ≡ false }
    requires certain { S.shows → S.certain site.old }
    requires there { S.shows → (began : Start) × ((folder : Folder) × StandsAtStart began folder store.old (S.disk site.old)) }
    ensures ok { S.shows → R.shows → OnOk result ((began : Start) (folder : Folder) → IsStartOf folder began → StandsAtStart began folder store.old (S.disk site.old)
        → HasRun folder (folder_of (S.disk site.new)) (R.left script.old) (S.told site.old) (S.told site.new)) }
    ensures kept { S.shows → R.shows → OnOk result ((began : Start) (folder : Folder) → IsStartOf folder began → StandsAtStart began folder store.old (S.disk site.old)
        → IsKept (S.certain site.new) (S.may_be site.new) (S.disk site.new) (S.told site.new) folder (R.left script.old)) }
    ensures front { S.shows → R.shows → IfErr result (λ e. IsSilent e → (began : Start) (folder : Folder) → IsStartOf folder began → StandsAtStart began folder store.old (S.disk site.old)
        → HasBegun folder (R.left script.old) (S.told site.old) (S.told site.new)) }
    ensures taken { S.shows → R.shows → IfErr result (λ e. IsReading e → (began : Start) (folder : Folder) → IsStartOf folder began → StandsAtStart began folder store.old (S.disk site.old)
        → (taken : List ℕ) × (taken ++ R.left script.new ≡ R.left script.old) × (e ≡ Stop.Long → 2 ^ 40 < length taken) × HasTaken folder (folder_of (S.disk site.new)) taken (S.told site.old) (S.told site.new)) }
    ensures faltered { S.shows → R.shows → IsErrOf result Stop.Tell → (began : Start) (folder : Folder) → IsStartOf folder began → StandsAtStart began folder store.old (S.disk site.old)
        → HasFaltered folder (folder_of (S.disk site.new)) (R.left script.old) (S.told site.old) (S.told site.new) }
    ensures full { S.shows → R.shows → (limit : ℕ) → result ≡ Err (Stop.Full limit) → (began : Start) (folder : Folder) → IsStartOf folder began → StandsAtStart began folder store.old (S.disk site.old)
        → Stops folder (folder_of (S.disk site.new)) (R.left script.old) (S.told site.old) (S.told site.new) limit (LeavesOnly S.clock S.left_since site.old site.new) }
    ensures cuts { S.shows → R.shows → (began : Start) (folder : Folder) → StandsAtStart began folder store.old (S.disk site.old)
        → LeavesOnly S.clock S.left_since site.old site.new (CutOf began (orders (R.left script.old)) (S.told site.old)) }
    ensures corrupt { S.shows → (name : Name) (place : ℕ) → result ≡ Err (Stop.Corrupt name place) → ⊥ }
    ensures ended { R.shows → OnOk result (R.left script.new ≡ []) }
    ensures causes { HasRunCauses S.Site R.Source result script.old script.new site.old site.new }
    ensures bound { R.taken script.new ≤ R.taken script.old + 2 ^ 40 + length buffer.old }
    ensures others { S.shows → KeepsOthers (S.disk site.old) (S.disk site.new) }
{
    cuts_stand();
    stores_stand();
    batches_make_the_map();
    let mut line = LineInHand::new(alloc);
    let mut taken: u64 = 0;
    'reads: while taken <= LIMIT {
        let count = script.read(buffer)?;
        if count == 0 {
            return finish(store, &mut line, alloc, site);
        }
        feed(store, &mut line, alloc, &buffer[..count], site)?;
        taken += count as u64;
    }
    Err(Stop::Long)
}
