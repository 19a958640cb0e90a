//! A store without a script: each call with ample memory, and what stands after one that failed.

use bl_code::Octets;
use bl_entry::Batch;
use bl_logstore::{Store, StoreErr};
use bl_site_mem::MemSite;
use std::alloc::Global;
use std::test::Fail;

fn failed(error: StoreErr) -> Fail {
    match error {
        StoreErr::Disk => Fail::from("disk"),
        StoreErr::OutOfMemory => Fail::from("memory"),
        StoreErr::Corrupt(_, _) => Fail::from("corrupt"),
        StoreErr::Full(_) => Fail::from("full"),
        StoreErr::Broken => Fail::from("broken"),
    }
}

// What a call answers, by name.
fn named(answer: Result<(), StoreErr>) -> &'static str {
    match answer {
        Ok(()) => "ok",
        Err(StoreErr::Disk) => "disk",
        Err(StoreErr::OutOfMemory) => "memory",
        Err(StoreErr::Corrupt(_, _)) => "corrupt",
        Err(StoreErr::Full(_)) => "full",
        Err(StoreErr::Broken) => "broken",
    }
}

// Whether the store has this value at the key.
fn has(store: &Store, key: &Octets, value: &[u8]) -> bool {
    match store.get(key) {
        Some(found) => found.as_slice() == value,
        None => false,
    }
}

fn octets(alloc: Global, bytes: &[u8]) -> Result<Octets, Fail> {
    Ok(Octets::from_slice(alloc, bytes)?)
}

// Key `a` is put and deleted, and key `b` put.
fn batch_of_three(alloc: Global) -> Result<Batch, Fail> {
    let mut batch = Batch::start(alloc);
    batch.put(b"a", b"1")?;
    batch.put(b"b", b"2")?;
    batch.del(b"a")?;
    Ok(batch)
}

// A store in which those three are written and synced.
fn written(alloc: Global, site: &mut MemSite) -> Result<Store, Fail> {
    let batch = batch_of_three(alloc)?;
    let mut store = Store::open_site(alloc, site).map_err(failed)?;
    store.write(alloc, site, &batch).map_err(failed)?;
    store.sync(site).map_err(failed)?;
    Ok(store)
}

#[test]
fn a_written_store_is_read(rt: HostRuntime) -> Result<(), Fail> {
    let mut site = MemSite::start(rt.alloc())?;
    let store = written(rt.alloc(), &mut site)?;
    let a = octets(rt.alloc(), b"a")?;
    let b = octets(rt.alloc(), b"b")?;
    assert!(rt; store.get(&a).is_none());
    assert!(rt; has(&store, &b, b"2"));
    Ok(())
}

#[test]
fn pairs_of_a_written_store(rt: HostRuntime) -> Result<(), Fail> {
    let mut site = MemSite::start(rt.alloc())?;
    let store = written(rt.alloc(), &mut site)?;
    let mut pairs: usize = 0;
    for (key, value) in store.pairs(None, None) {
        assert_eq!(rt; key.as_slice(), b"b".as_slice());
        assert_eq!(rt; value.as_slice(), b"2".as_slice());
        pairs = pairs.saturating_add(1);
    }
    assert_eq!(rt; pairs, 1);
    Ok(())
}

#[test]
fn a_written_store_is_opened_again(rt: HostRuntime) -> Result<(), Fail> {
    let mut site = MemSite::start(rt.alloc())?;
    written(rt.alloc(), &mut site)?;
    let opened = Store::open_site(rt.alloc(), &mut site).map_err(failed)?;
    let b = octets(rt.alloc(), b"b")?;
    assert!(rt; has(&opened, &b, b"2"));
    assert!(rt; !opened.is_broken());
    Ok(())
}

fn first_batch(alloc: Global) -> Result<Batch, Fail> {
    let mut batch = Batch::start(alloc);
    batch.put(b"a", b"1")?;
    Ok(batch)
}

fn second_batch(alloc: Global) -> Result<Batch, Fail> {
    let mut batch = Batch::start(alloc);
    batch.put(b"a", b"2")?;
    batch.put(b"b", b"2")?;
    Ok(batch)
}

// The site's calls: the names (1), the log (2), and the appends of two batches (3 and 4).
fn failing_site(alloc: Global) -> Result<MemSite, Fail> {
    Ok(MemSite::with_failures(alloc, &[4])?)
}

#[test]
fn a_failed_write_breaks_the_store(rt: HostRuntime) -> Result<(), Fail> {
    let first = first_batch(rt.alloc())?;
    let second = second_batch(rt.alloc())?;
    let mut site = failing_site(rt.alloc())?;
    let mut store = Store::open_site(rt.alloc(), &mut site).map_err(failed)?;
    assert_eq!(rt; named(store.write(rt.alloc(), &mut site, &first)), "ok");
    assert_eq!(rt; named(store.write(rt.alloc(), &mut site, &second)), "disk");
    assert!(rt; store.is_broken());
    assert_eq!(rt; named(store.sync(&mut site)), "broken");
    assert_eq!(rt; named(store.write(rt.alloc(), &mut site, &first)), "broken");
    Ok(())
}

// A store whose second write failed, and that was then asked to sync and to write.
fn broken(alloc: Global, site: &mut MemSite) -> Result<Store, Fail> {
    let first = first_batch(alloc)?;
    let second = second_batch(alloc)?;
    let mut store = Store::open_site(alloc, site).map_err(failed)?;
    store.write(alloc, site, &first).map_err(failed)?;
    let _ = named(store.write(alloc, site, &second));
    let _ = named(store.sync(site));
    let _ = named(store.write(alloc, site, &first));
    Ok(store)
}

#[test]
fn a_broken_store_is_read(rt: HostRuntime) -> Result<(), Fail> {
    let mut site = failing_site(rt.alloc())?;
    let store = broken(rt.alloc(), &mut site)?;
    let a = octets(rt.alloc(), b"a")?;
    let b = octets(rt.alloc(), b"b")?;
    assert!(rt; store.is_broken());
    assert!(rt; has(&store, &a, b"1"));
    assert!(rt; store.get(&b).is_none());
    Ok(())
}

#[test]
fn the_folder_of_a_broken_store_is_read(rt: HostRuntime) -> Result<(), Fail> {
    let mut site = failing_site(rt.alloc())?;
    broken(rt.alloc(), &mut site)?;
    let opened = Store::open_site(rt.alloc(), &mut site).map_err(failed)?;
    let a = octets(rt.alloc(), b"a")?;
    let b = octets(rt.alloc(), b"b")?;
    assert!(rt; has(&opened, &a, b"1"));
    assert!(rt; opened.get(&b).is_none());
    Ok(())
}
