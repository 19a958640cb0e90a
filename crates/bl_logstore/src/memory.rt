//! The map in memory.

ghost use Rattle.std.specs.Prelude.{◌≡◌, OnOk, IfErr};
ghost use Rattle.std.specs.FinMap.{insert, remove};
ghost use Rattle.bl_entry.specs.Revisions.{after_put, after_operations};
ghost use Rattle.bl_logstore.specs.Replaying.{after_kind, after_entries};
ghost use Rattle.bl_logstore.specs.Stored.{map_in};

use crate::error::StoreErr;
use bl_code::Octets;
use bl_entry::{Batch, Entry, Kind, Operation};
use std::alloc::Global;
use std::collections::BTreeMap;

// The key has the value from now on.
fn put_pair(map: &mut BTreeMap<Octets, Octets>, key: Octets, value: Octets) -> Result<(), StoreErr>
    ensures put { OnOk result (map_in map.new.entries ≡ insert (map_in map.old.entries) key value) }
    ensures memory { IfErr result (λ e. e ≡ StoreErr.OutOfMemory) }
{
    map.insert(key, value)?;
    Ok(())
}

// The key has no value from now on.
fn take_key(map: &mut BTreeMap<Octets, Octets>, key: &Octets)
    ensures { map_in map.new.entries ≡ remove (map_in map.old.entries) key.now }
{
    map.remove(key);
}

// The entry of a batch is written.
fn put_entry(map: &mut BTreeMap<Octets, Octets>, entry: Entry) -> Result<(), StoreErr>
    ensures put { OnOk result (map_in map.new.entries ≡ after_kind entry.key.kind entry.key.user entry.value (map_in map.old.entries)) }
    ensures memory { IfErr result (λ e. e ≡ StoreErr.OutOfMemory) }
{
    match entry.key.kind {
        Kind::Value => put_pair(map, entry.key.user, entry.value),
        Kind::Deletion => {
            take_key(map, &entry.key.user);
            Ok(())
        }
        Kind::BlobRef => Ok(()),
    }
}

// Entries are written, one after another.
pub(crate) fn put_entries(
    map: &mut BTreeMap<Octets, Octets>,
    entries: Vec<Entry>,
) -> Result<(), StoreErr>
    ensures put { OnOk result (map_in map.new.entries ≡ after_entries entries.items (map_in map.old.entries)) }
    ensures memory { IfErr result (λ e. e ≡ StoreErr.OutOfMemory) }
{
    for entry in entries {
        put_entry(map, entry)?;
    }
    Ok(())
}

// One operation is written.
fn put_operation(
    alloc: Global,
    map: &mut BTreeMap<Octets, Octets>,
    operation: &Operation,
) -> Result<(), StoreErr>
    ensures put { OnOk result (map_in map.new.entries ≡ after_put operation.now.key operation.now.put (map_in map.old.entries)) }
    ensures memory { IfErr result (λ e. e ≡ StoreErr.OutOfMemory) }
{
    match &operation.put {
        Some(value) => {
            let key = Octets::from_slice(alloc, operation.key.as_slice())?;
            let value = Octets::from_slice(alloc, value.as_slice())?;
            put_pair(map, key, value)
        }
        None => {
            take_key(map, &operation.key);
            Ok(())
        }
    }
}

/// The operations of a batch are written, one after another.
pub(crate) fn put_operations(
    alloc: Global,
    map: &mut BTreeMap<Octets, Octets>,
    batch: &Batch,
) -> Result<(), StoreErr>
    ensures put { OnOk result (map_in map.new.entries ≡ after_operations batch.now (map_in map.old.entries)) }
    ensures memory { IfErr result (λ e. e ≡ StoreErr.OutOfMemory) }
{
    for operation in batch.operations() {
        put_operation(alloc, map, operation)?;
    }
    Ok(())
}
