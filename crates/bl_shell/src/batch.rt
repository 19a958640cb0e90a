//! The batch of a command.

ghost use Rattle.std.specs.Prelude.{◌≡◌, ◌<◌, ◌-◌, ◌^◌, [], ◌∷◌, ◌++◌, length, map, IfOk, IfErr, OnOk};
ghost use Rattle.std.specs.List.{AllByRecursion};
ghost use Rattle.bl_entry.specs.Batches.{put_of, deletion_of};
ghost use Rattle.bl_script.specs.Limits.{IsKey, IsValue, IsOperation};
ghost use Rattle.bl_shell.specs.Machine.{operation as ordered};

use crate::stop::Stop;
use bl_code::Octets;
use bl_entry::{Batch, BatchErr};
use bl_script::Operation;
use std::alloc::Global;

// A put follows in the batch.
fn add_put(batch: &mut Batch, key: Octets, value: Octets) -> Result<(), Stop>
    requires key { IsKey key }
    requires value { IsValue value }
    requires room { length batch.old < 2 ^ 32 - 1 }
    ensures put { OnOk result (batch.new ≡ batch.old ++ put_of key value ∷ []) }
    ensures memory { IfErr result (λ e. e ≡ Stop.OutOfMemory) }
{
    match batch.put_octets(key, value) {
        Ok(()) => Ok(()),
        Err(BatchErr::OutOfMemory) => Err(Stop::OutOfMemory),
        Err(BatchErr::Key(_)) => unreachable!(),
        Err(BatchErr::Value(_)) => unreachable!(),
        Err(BatchErr::Many) => unreachable!(),
    }
}

// A deletion follows in the batch.
fn add_del(batch: &mut Batch, key: Octets) -> Result<(), Stop>
    requires key { IsKey key }
    requires room { length batch.old < 2 ^ 32 - 1 }
    ensures put { OnOk result (batch.new ≡ batch.old ++ deletion_of key ∷ []) }
    ensures memory { IfErr result (λ e. e ≡ Stop.OutOfMemory) }
{
    match batch.del_octets(key) {
        Ok(()) => Ok(()),
        Err(BatchErr::OutOfMemory) => Err(Stop::OutOfMemory),
        Err(BatchErr::Key(_)) => unreachable!(),
        Err(BatchErr::Value(_)) => unreachable!(),
        Err(BatchErr::Many) => unreachable!(),
    }
}

// A batch of one put.
pub(crate) fn batch_of_put(alloc: Global, key: Octets, value: Octets) -> Result<Batch, Stop>
    requires key { IsKey key }
    requires value { IsValue value }
    ensures batch { IfOk result (λ b. b ≡ put_of key value ∷ []) }
    ensures memory { IfErr result (λ e. e ≡ Stop.OutOfMemory) }
{
    let mut batch = Batch::start(alloc);
    add_put(&mut batch, key, value)?;
    Ok(batch)
}

// A batch of one deletion.
pub(crate) fn batch_of_del(alloc: Global, key: Octets) -> Result<Batch, Stop>
    requires key { IsKey key }
    ensures batch { IfOk result (λ b. b ≡ deletion_of key ∷ []) }
    ensures memory { IfErr result (λ e. e ≡ Stop.OutOfMemory) }
{
    let mut batch = Batch::start(alloc);
    add_del(&mut batch, key)?;
    Ok(batch)
}

// An operation follows in the batch.
fn add(batch: &mut Batch, operation: Operation) -> Result<(), Stop>
    requires within { IsOperation operation }
    requires room { length batch.old < 2 ^ 32 - 1 }
    ensures put { OnOk result (batch.new ≡ batch.old ++ ordered operation ∷ []) }
    ensures memory { IfErr result (λ e. e ≡ Stop.OutOfMemory) }
{
    match operation {
        Operation::Put { key, value } => add_put(batch, key, value),
        Operation::Del { key } => add_del(batch, key),
    }
}

// A batch of these operations.
pub(crate) fn batch_of(alloc: Global, operations: Vec<Operation>) -> Result<Batch, Stop>
    requires within { AllByRecursion IsOperation operations.items }
    requires few { length operations.items < 2 ^ 32 }
    ensures batch { IfOk result (λ b. b ≡ map ordered operations.items) }
    ensures memory { IfErr result (λ e. e ≡ Stop.OutOfMemory) }
{
    let mut batch = Batch::start(alloc);
    for operation in operations {
        add(&mut batch, operation)?;
    }
    Ok(batch)
}
