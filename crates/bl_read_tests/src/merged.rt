//! Five tables as one list, of which the second is empty; the key b at the sequence 3 stands in three of them.

use crate::folders::{Written, key_of, table_of};
use bl_cache::TableRun;
use bl_entry::Entry;
use bl_entry::Kind::{BlobRef, Deletion, Value};
use bl_merge::Merged;
use bl_site_mem::MemSite;
use std::alloc::Global;
use std::str;
use std::test::Fail;

const FIRST: [Written; 2] = [("b", 3, Value, "1"), ("c", 9, Value, "2")];

const THIRD: [Written; 3] = [
    ("a", 2, Value, "3"),
    ("b", 4, Value, "4"),
    ("b", 3, Value, "5"),
];

const FOURTH: [Written; 1] = [("b", 3, Deletion, "")];

const FIFTH: [Written; 3] = [
    ("a", 7, Value, "6"),
    ("b", 3, Value, "7"),
    ("b", 1, Value, "8"),
];

// A table of these entries, in the folder and open.
fn table(
    alloc: Global,
    site: &mut MemSite,
    number: u64,
    entries: &[Written],
) -> Result<TableRun, Fail> {
    if number == 0 || number > 9 {
        return Err(Fail::from("no number"));
    }
    let bytes = table_of(alloc, entries)?;
    let name = format!(in alloc; "00000{number}.sst")?;
    site.put_file(name.as_str(), &bytes)?;
    match TableRun::open(alloc, site, number, bytes.len() as u64) {
        Ok(run) => Ok(run),
        Err(_) => Err(Fail::from("no table")),
    }
}

fn five_tables(alloc: Global, site: &mut MemSite) -> Result<Merged<TableRun>, Fail> {
    let mut runs = Vec::new(alloc);
    runs.push(table(alloc, site, 1, &FIRST)?)?;
    runs.push(table(alloc, site, 2, &[])?)?;
    runs.push(table(alloc, site, 3, &THIRD)?)?;
    runs.push(table(alloc, site, 4, &FOURTH)?)?;
    runs.push(table(alloc, site, 5, &FIFTH)?)?;
    Ok(Merged::over(alloc, runs))
}

// An entry as `a@7=6`.
fn put_entry(alloc: Global, text: &mut String, entry: &Entry) -> Result<(), Fail> {
    let user = str::from_utf8(entry.key.user.as_slice())?;
    let value = str::from_utf8(entry.value.as_slice())?;
    let entry = format!(in alloc; "{user}@{}={value} ", entry.key.seq)?;
    text.push_str(entry.as_str())?;
    Ok(())
}

// All entries from a key on.
fn all_from(
    alloc: Global,
    site: &mut MemSite,
    merged: &mut Merged<TableRun>,
    user: &str,
    seq: u64,
) -> Result<String, Fail> {
    let from = key_of(alloc, user, seq, BlobRef)?;
    if merged.seek(site, &from).is_err() {
        return Err(Fail::from("not sought"));
    }
    let mut text = String::new(alloc);
    for _ in 0..20 {
        match merged.next(site) {
            Ok(Some(entry)) => put_entry(alloc, &mut text, &entry)?,
            Ok(None) => return Ok(text),
            Err(_) => return Err(Fail::from("not read")),
        }
    }
    Err(Fail::from("no end"))
}

#[test]
fn entries_in_order(rt: HostRuntime) -> Result<(), Fail> {
    let alloc = rt.alloc();
    let mut site = MemSite::start(alloc)?;
    let mut merged = five_tables(alloc, &mut site)?;
    for (user, seq, want) in [
        (
            "a",
            9,
            "a@7=6 a@2=3 b@4=4 b@3=1 b@3=5 b@3=7 b@3= b@1=8 c@9=2 ",
        ),
        ("b", 2, "b@1=8 c@9=2 "),
        ("a", 6, "a@2=3 b@4=4 b@3=1 b@3=5 b@3=7 b@3= b@1=8 c@9=2 "),
        ("d", 9, ""),
    ] {
        let text = all_from(alloc, &mut site, &mut merged, user, seq)?;
        assert_eq!(rt; text.as_str(), want);
    }
    Ok(())
}

#[test]
fn visible_entries(rt: HostRuntime) -> Result<(), Fail> {
    let alloc = rt.alloc();
    let mut site = MemSite::start(alloc)?;
    let mut merged = five_tables(alloc, &mut site)?;
    for (user, seq, want) in [
        ("a", 9, "a@7=6 "),
        ("a", 6, "a@2=3 "),
        ("a", 1, ""),
        ("b", u64::MAX, "b@4=4 "),
        ("b", 3, "b@3=1 "),
        ("b", 2, "b@1=8 "),
        ("b", 0, ""),
        ("c", 8, ""),
        ("d", 9, ""),
        ("", 9, ""),
    ] {
        let mut text = String::new(alloc);
        match merged.visible(&mut site, user.as_bytes(), seq) {
            Ok(Some(entry)) => put_entry(alloc, &mut text, &entry)?,
            Ok(None) => {}
            Err(_) => return Err(Fail::from("not read")),
        }
        assert_eq!(rt; text.as_str(), want);
    }
    Ok(())
}
