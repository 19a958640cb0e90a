//! What a line orders is done, and its reply told.

ghost use Rattle.std.specs.Prelude.{◌≡◌, false, ℕ, ◌+◌, ◌≤◌, ◌<◌, ◌^◌, List, [], ◌∷◌, ◌++◌, length, map, IfErr, OnOk, OnErr, IsErrOf, Err, ◌⊎◌};
ghost use Rattle.std.specs.List.{AllByRecursion};
ghost use Rattle.std.specs.Option.{option_copied};
ghost use Rattle.bl_site.specs.Disk.{Name, folder_of};
ghost use Rattle.bl_site.specs.Calls.{LeavesOnly};
ghost use Rattle.bl_site.specs.Causes.{Rose};
ghost use Rattle.bl_script.specs.Limits.{IsWithinLimits, IsCommand};
ghost use Rattle.bl_script.specs.Printing.{ok_line, end_line, pair_line};
ghost use Rattle.bl_wal.specs.LogFile.{log_name};
ghost use Rattle.bl_wal.specs.Held.{Batches};
ghost use Rattle.bl_logstore.specs.Pairs.{pairs_between};
ghost use Rattle.bl_logstore.specs.Stored.{KeepsOthers};
ghost use Rattle.bl_shell.specs.Machine.{writes_of, reply_of, reply};
ghost use Rattle.bl_shell.specs.Carried.{IsServable, TellsFront, Obeyed, Passes, HasRoom, IsWrite, IsTold, CutIn, CutTelling};
ghost use Rattle.bl_shell.specs.Causes.{IsSilent, HasStopCauses};

use crate::batch::{batch_of, batch_of_del, batch_of_put};
use crate::scan::tell_pairs;
use crate::stop::Stop;
use bl_entry::Batch;
use bl_logstore::{Store, batches_are_once, cuts_stand, damaged_do_not_stand, stores_stand};
use bl_script::{Command, Parsed, Refusal, print_refusal, print_value};
use bl_site::Site;
use std::alloc::Global;

// A write, and its reply.
fn do_write<S: Site>(
    store: &mut Store,
    alloc: Global,
    batch: &Batch,
    site: &mut S,
) -> Result<(), Stop>
    requires usable { store.old.broken ≡ false }
    requires there { S.shows → (batches : Batches) × ((least : ℕ) × IsServable store.old batches least (S.disk site.old)) }
    ensures usable { OnOk result (store.new.broken ≡ false) }
    ensures ok { S.shows → OnOk result ((order : Parsed) → IsWrite order batch.now → Obeyed order store.old store.new (S.disk site.old) (S.disk site.new) (S.told site.old) (S.told site.new)) }
    ensures front { S.shows → IfErr result (λ e. IsSilent e → TellsFront ok_line (S.told site.old) (S.told site.new)) }
    ensures room { S.shows → OnErr result ((S.told site.new ≡ S.told site.old) ⊎ ((order : Parsed) → IsWrite order batch.now → HasRoom order store.old)) }
    ensures obeyed { S.shows → IsErrOf result Stop.Tell → (order : Parsed) → IsWrite order batch.now → Obeyed order store.old store.new (S.disk site.old) (S.disk site.new) (S.told site.old) (S.told site.old ++ ok_line) }
    ensures full { S.shows → (limit : ℕ) → result ≡ Err (Stop.Full limit) → (limit ≡ store.old.last) × (2 ^ 56 ≤ limit + length batch.now) × (S.told site.new ≡ S.told site.old) }
    ensures full_stays { S.shows → (limit : ℕ) → result ≡ Err (Stop.Full limit) → folder_of (S.disk site.new) ≡ folder_of (S.disk site.old) }
    ensures corrupt { (name : Name) (place : ℕ) → result ≡ Err (Stop.Corrupt name place) → ⊥ }
    ensures causes { HasStopCauses S.Site result site.old site.new }
    ensures others { S.shows → KeepsOthers (S.disk site.old) (S.disk site.new) }
    ensures certain { S.shows → OnOk result (S.certain site.old → S.certain site.new) }
    ensures cuts { S.shows → S.certain site.old → (order : Parsed) → IsWrite order batch.now → (batches : Batches) (least : ℕ) → IsServable store.old batches least (S.disk site.old)
        → LeavesOnly S.clock S.left_since site.old site.new (CutIn order store.old batches least (S.told site.old)) }
    ensures full_cuts { S.shows → S.certain site.old → (limit : ℕ) → result ≡ Err (Stop.Full limit) → (batches : Batches) (least : ℕ) → IsServable store.old batches least (S.disk site.old)
        → LeavesOnly S.clock S.left_since site.old site.new (CutIn Parsed.Nothing store.old batches least (S.told site.old)) }
{
    cuts_stand();
    store.write(alloc, site, batch)?;
    site.tell(b"ok\n")?;
    Ok(())
}

// A line that only tells: its reply.
fn do_tell<S: Site>(store: &Store, reply: &[u8], site: &mut S) -> Result<(), Stop>
    ensures ok { S.shows → OnOk result ((order : Parsed) → IsTold order store.now.now reply.now → Obeyed order store.now store.now (S.disk site.old) (S.disk site.new) (S.told site.old) (S.told site.new)) }
    ensures front { S.shows → OnErr result (TellsFront reply.now (S.told site.old) (S.told site.new)) }
    ensures obeyed { S.shows → (order : Parsed) → IsTold order store.now.now reply.now → Obeyed order store.now store.now (S.disk site.old) (S.disk site.new) (S.told site.old) (S.told site.old ++ reply.now) }
    ensures tell { IsErrOf result Stop.Tell → Rose (S.tell_faults site.old) (S.tell_faults site.new) }
    ensures others { S.shows → KeepsOthers (S.disk site.old) (S.disk site.new) }
    ensures causes { IfErr result (λ e. (e ≡ Stop.Tell) ⊎ (e ≡ Stop.OutOfMemory)) }
    ensures certain { S.shows → S.certain site.old → S.certain site.new }
    ensures cuts { S.shows → S.certain site.old → LeavesOnly S.clock S.left_since site.old site.new (CutTelling (S.disk site.old) reply.now (S.told site.old)) }
    ensures later { (S.disk_faults site.old ≤ S.disk_faults site.new) × (S.tell_faults site.old ≤ S.tell_faults site.new) }
{
    site.tell(reply)?;
    Ok(())
}

// The log is synced, and the reply told.
fn do_sync<S: Site>(store: &mut Store, site: &mut S) -> Result<(), Stop>
    requires usable { store.old.broken ≡ false }
    requires there { S.shows → (batches : Batches) × ((least : ℕ) × IsServable store.old batches least (S.disk site.old)) }
    ensures usable { OnOk result (store.new.broken ≡ false) }
    ensures ok { S.shows → OnOk result (Obeyed (Parsed.Go Command.Sync) store.old store.new (S.disk site.old) (S.disk site.new) (S.told site.old) (S.told site.new)) }
    ensures front { S.shows → IfErr result (λ e. IsSilent e → TellsFront (reply_of (Parsed.Go Command.Sync) store.old.now) (S.told site.old) (S.told site.new)) }
    ensures obeyed { S.shows → IsErrOf result Stop.Tell → Obeyed (Parsed.Go Command.Sync) store.old store.new (S.disk site.old) (S.disk site.new) (S.told site.old) (S.told site.old ++ reply_of (Parsed.Go Command.Sync) store.old.now) }
    ensures full { S.shows → (limit : ℕ) → result ≡ Err (Stop.Full limit) → Passes (Parsed.Go Command.Sync) store.old.last store.old.log.number limit × (S.told site.new ≡ S.told site.old) }
    ensures full_stays { S.shows → (limit : ℕ) → result ≡ Err (Stop.Full limit) → folder_of (S.disk site.new) ≡ folder_of (S.disk site.old) }
    ensures corrupt { S.shows → (name : Name) (place : ℕ) → result ≡ Err (Stop.Corrupt name place) → ⊥ }
    ensures causes { HasStopCauses S.Site result site.old site.new }
    ensures others { S.shows → KeepsOthers (S.disk site.old) (S.disk site.new) }
    ensures certain { S.shows → OnOk result (S.certain site.old → S.certain site.new) }
    ensures cuts { S.shows → S.certain site.old → (batches : Batches) (least : ℕ) → IsServable store.old batches least (S.disk site.old)
        → LeavesOnly S.clock S.left_since site.old site.new (CutIn (Parsed.Go Command.Sync) store.old batches least (S.told site.old)) }
    ensures full_cuts { S.shows → S.certain site.old → (limit : ℕ) → result ≡ Err (Stop.Full limit) → (batches : Batches) (least : ℕ) → IsServable store.old batches least (S.disk site.old)
        → LeavesOnly S.clock S.left_since site.old site.new (CutIn Parsed.Nothing store.old batches least (S.told site.old)) }
{
    cuts_stand();
    store.sync(site)?;
    site.tell(b"ok\n")?;
    Ok(())
}

// The store is opened anew, and the reply told.
fn do_reopen<S: Site>(store: &mut Store, alloc: Global, site: &mut S) -> Result<(), Stop>
    requires usable { store.old.broken ≡ false }
    requires there { S.shows → (batches : Batches) × ((least : ℕ) × IsServable store.old batches least (S.disk site.old)) }
    ensures usable { OnOk result (store.new.broken ≡ false) }
    ensures ok { S.shows → OnOk result (Obeyed (Parsed.Go Command.Reopen) store.old store.new (S.disk site.old) (S.disk site.new) (S.told site.old) (S.told site.new)) }
    ensures front { S.shows → IfErr result (λ e. IsSilent e → TellsFront (reply_of (Parsed.Go Command.Reopen) store.old.now) (S.told site.old) (S.told site.new)) }
    ensures room { S.shows → OnErr result ((S.told site.new ≡ S.told site.old) ⊎ HasRoom (Parsed.Go Command.Reopen) store.old) }
    ensures obeyed { S.shows → IsErrOf result Stop.Tell → Obeyed (Parsed.Go Command.Reopen) store.old store.new (S.disk site.old) (S.disk site.new) (S.told site.old) (S.told site.old ++ reply_of (Parsed.Go Command.Reopen) store.old.now) }
    ensures full { S.shows → (limit : ℕ) → result ≡ Err (Stop.Full limit) → Passes (Parsed.Go Command.Reopen) store.old.last store.old.log.number limit × (S.told site.new ≡ S.told site.old) }
    ensures full_stays { S.shows → (limit : ℕ) → result ≡ Err (Stop.Full limit) → folder_of (S.disk site.new) ≡ folder_of (S.disk site.old) }
    ensures corrupt { S.shows → (name : Name) (place : ℕ) → result ≡ Err (Stop.Corrupt name place) → ⊥ }
    ensures causes { HasStopCauses S.Site result site.old site.new }
    ensures others { S.shows → KeepsOthers (S.disk site.old) (S.disk site.new) }
    ensures certain { S.shows → OnOk result (S.certain site.old → S.certain site.new) }
    ensures cuts { S.shows → S.certain site.old → (batches : Batches) (least : ℕ) → IsServable store.old batches least (S.disk site.old)
        → LeavesOnly S.clock S.left_since site.old site.new (CutIn (Parsed.Go Command.Reopen) store.old batches least (S.told site.old)) }
    ensures full_cuts { S.shows → S.certain site.old → (limit : ℕ) → result ≡ Err (Stop.Full limit) → (batches : Batches) (least : ℕ) → IsServable store.old batches least (S.disk site.old)
        → LeavesOnly S.clock S.left_since site.old site.new (CutIn Parsed.Nothing store.old batches least (S.told site.old)) }
{
    cuts_stand();
    stores_stand();
    damaged_do_not_stand();
    batches_are_once();
    store.let_go(alloc);
    *store = Store::open_site(alloc, site)?;
    site.tell(b"ok\n")?;
    Ok(())
}

// Does what a command orders, and tells the reply.
fn do_command<S: Site>(
    store: &mut Store,
    alloc: Global,
    command: Command,
    site: &mut S,
) -> Result<(), Stop>
    requires within { IsCommand command }
    requires usable { store.old.broken ≡ false }
    requires there { S.shows → (batches : Batches) × ((least : ℕ) × IsServable store.old batches least (S.disk site.old)) }
    ensures usable { OnOk result (store.new.broken ≡ false) }
    ensures ok { S.shows → OnOk result (Obeyed (Parsed.Go command) store.old store.new (S.disk site.old) (S.disk site.new) (S.told site.old) (S.told site.new)) }
    ensures front { S.shows → IfErr result (λ e. IsSilent e → TellsFront (reply_of (Parsed.Go command) store.old.now) (S.told site.old) (S.told site.new)) }
    ensures room { S.shows → OnErr result ((S.told site.new ≡ S.told site.old) ⊎ HasRoom (Parsed.Go command) store.old) }
    ensures obeyed { S.shows → IsErrOf result Stop.Tell → Obeyed (Parsed.Go command) store.old store.new (S.disk site.old) (S.disk site.new) (S.told site.old) (S.told site.old ++ reply_of (Parsed.Go command) store.old.now) }
    ensures full { S.shows → (limit : ℕ) → result ≡ Err (Stop.Full limit) → Passes (Parsed.Go command) store.old.last store.old.log.number limit × (S.told site.new ≡ S.told site.old) }
    ensures full_stays { S.shows → (limit : ℕ) → result ≡ Err (Stop.Full limit) → folder_of (S.disk site.new) ≡ folder_of (S.disk site.old) }
    ensures corrupt { S.shows → (name : Name) (place : ℕ) → result ≡ Err (Stop.Corrupt name place) → ⊥ }
    ensures causes { HasStopCauses S.Site result site.old site.new }
    ensures others { S.shows → KeepsOthers (S.disk site.old) (S.disk site.new) }
    ensures certain { S.shows → OnOk result (S.certain site.old → S.certain site.new) }
    ensures cuts { S.shows → S.certain site.old → (batches : Batches) (least : ℕ) → IsServable store.old batches least (S.disk site.old)
        → LeavesOnly S.clock S.left_since site.old site.new (CutIn (Parsed.Go command) store.old batches least (S.told site.old)) }
    ensures full_cuts { S.shows → S.certain site.old → (limit : ℕ) → result ≡ Err (Stop.Full limit) → (batches : Batches) (least : ℕ) → IsServable store.old batches least (S.disk site.old)
        → LeavesOnly S.clock S.left_since site.old site.new (CutIn Parsed.Nothing store.old batches least (S.told site.old)) }
{
    cuts_stand();
    match command {
        Command::Put { key, value } => {
            let batch = batch_of_put(alloc, key, value)?;
            do_write(store, alloc, &batch, site)
        }
        Command::Del { key } => {
            let batch = batch_of_del(alloc, key)?;
            do_write(store, alloc, &batch, site)
        }
        Command::Batch { operations } => {
            let batch = batch_of(alloc, operations.into_vec())?;
            do_write(store, alloc, &batch, site)
        }
        Command::Get { key } => {
            let found = store.get(&key);
            let reply = print_value(alloc, found.map(|value| value.as_slice()))?;
            do_tell(store, reply.as_bytes(), site)
        }
        Command::Scan { from, to } => { tell_pairs(store, alloc, from.as_ref(), to.as_ref(), site) }
        Command::Sync => do_sync(store, site),
        Command::Reopen => do_reopen(store, alloc, site),
        Command::Flush => do_tell(store, print_refusal(Refusal::Syntax), site),
        Command::Files => do_tell(store, print_refusal(Refusal::Syntax), site),
    }
}

// Does what a line orders, and tells the reply.
pub(crate) fn obey<S: Site>(
    store: &mut Store,
    alloc: Global,
    order: Parsed,
    site: &mut S,
) -> Result<(), Stop>
    requires within { IsWithinLimits order }
    requires usable { store.old.broken ≡ false }
    requires there { S.shows → (batches : Batches) × ((least : ℕ) × IsServable store.old batches least (S.disk site.old)) }
    ensures usable { OnOk result (store.new.broken ≡ false) }
    ensures ok { S.shows → OnOk result (Obeyed order store.old store.new (S.disk site.old) (S.disk site.new) (S.told site.old) (S.told site.new)) }
    ensures front { S.shows → IfErr result (λ e. IsSilent e → TellsFront (reply_of order store.old.now) (S.told site.old) (S.told site.new)) }
    ensures room { S.shows → OnErr result ((S.told site.new ≡ S.told site.old) ⊎ HasRoom order store.old) }
    ensures obeyed { S.shows → IsErrOf result Stop.Tell → Obeyed order store.old store.new (S.disk site.old) (S.disk site.new) (S.told site.old) (S.told site.old ++ reply_of order store.old.now) }
    ensures full { S.shows → (limit : ℕ) → result ≡ Err (Stop.Full limit) → Passes order store.old.last store.old.log.number limit × (S.told site.new ≡ S.told site.old) }
    ensures full_stays { S.shows → (limit : ℕ) → result ≡ Err (Stop.Full limit) → folder_of (S.disk site.new) ≡ folder_of (S.disk site.old) }
    ensures corrupt { S.shows → (name : Name) (place : ℕ) → result ≡ Err (Stop.Corrupt name place) → ⊥ }
    ensures causes { HasStopCauses S.Site result site.old site.new }
    ensures others { S.shows → KeepsOthers (S.disk site.old) (S.disk site.new) }
    ensures certain { S.shows → OnOk result (S.certain site.old → S.certain site.new) }
    ensures cuts { S.shows → S.certain site.old → (batches : Batches) (least : ℕ) → IsServable store.old batches least (S.disk site.old)
        → LeavesOnly S.clock S.left_since site.old site.new (CutIn order store.old batches least (S.told site.old)) }
    ensures full_cuts { S.shows → S.certain site.old → (limit : ℕ) → result ≡ Err (Stop.Full limit) → (batches : Batches) (least : ℕ) → IsServable store.old batches least (S.disk site.old)
        → LeavesOnly S.clock S.left_since site.old site.new (CutIn Parsed.Nothing store.old batches least (S.told site.old)) }
{
    cuts_stand();
    match order {
        Parsed::Nothing => Ok(()),
        Parsed::Refused(why) => do_tell(store, print_refusal(why), site),
        Parsed::Go(command) => do_command(store, alloc, command, site),
    }
}
