//! Outputs, call by call: what is answered, what is left where a call of the folder fails, and which numbers are drawn.

ghost use Rattle.std.specs.Prelude.{◌≡◌, ◌^◌, ◌<◌, ◌≤◌, OnOk};
ghost use Rattle.bl_site_mem.specs.Record.{disk_of};
ghost use Rattle.bl_entry.specs.Entries.{IsProper};
ghost use Rattle.bl_tests.specs.Writing.{CanAdd, CanSeal};

use crate::jobs::{
    BLOB_FILE_SIZE, LARGE_SIZE, LEFT, NO_CALL, deletion_of, entry_at, folder_where, named,
    options_with, others_stay, put_of, sizes_of,
};
use bl_edit::Options;
use bl_entry::Entry;
use bl_out::{JobErr, Numbers, Output, Sealed};
use bl_site_mem::MemSite;
use std::alloc::Global;
use std::test::Fail;

#[test]
fn numbers_are_drawn_upwards(rt: HostRuntime) -> Result<(), Fail> {
    let mut numbers = Numbers::from(999_999_999_999_998);
    assert_eq!(rt; numbers.next(), 999_999_999_999_998);
    assert_eq!(rt; numbers.draw()?, 999_999_999_999_998);
    assert_eq!(rt; numbers.draw()?, 999_999_999_999_999);
    assert_eq!(rt; numbers.next(), 1_000_000_000_000_000);
    match numbers.draw() {
        Err(JobErr::Full(next)) => assert_eq!(rt; next, 1_000_000_000_000_000),
        _ => assert!(rt; false),
    }
    assert_eq!(rt; numbers.next(), 1_000_000_000_000_000);
    Ok(())
}

// An output of which no file is made.
fn begin(alloc: Global, site: &MemSite, options: &Options, one_table: bool) -> Output
    ensures { CanAdd (disk_of site.now) result }
{
    let _ = site.calls();
    Output::begin(alloc, options, one_table)
}

// An entry more is added.
fn add(
    alloc: Global,
    site: &mut MemSite,
    numbers: &mut Numbers,
    output: &mut Output,
    entry: &Entry,
) -> Result<(), JobErr>
    requires can { CanAdd (disk_of site.old) output.old }
    requires proper { IsProper entry.now }
    ensures { OnOk result (CanAdd (disk_of site.new) output.new) }
{
    output.add(alloc, site, numbers, entry)?;
    Ok(())
}

// The next file is sealed.
fn seal(alloc: Global, site: &mut MemSite, output: &mut Output) -> Result<Option<Sealed>, JobErr>
    requires { CanSeal (disk_of site.old) output.old }
    ensures { OnOk result (CanSeal (disk_of site.new) output.new) }
{
    let sealed = output.seal(alloc, site)?;
    Ok(sealed)
}

// The twenty entries are added.
fn add_all(
    alloc: Global,
    site: &mut MemSite,
    numbers: &mut Numbers,
    output: &mut Output,
) -> Result<(), JobErr>
    requires { CanAdd (disk_of site.old) output.old }
    ensures { OnOk result (CanSeal (disk_of site.new) output.new) }
{
    'entries: for place in 0..20u8 {
        let entry = entry_at(alloc, place, 1)?;
        add(alloc, site, numbers, output, &entry)?;
    }
    Ok(())
}

// Its three files are sealed.
fn seal_all(alloc: Global, site: &mut MemSite, output: &mut Output) -> Result<(), JobErr>
    requires { CanSeal (disk_of site.old) output.old }
{
    'files: for _ in 0..3 {
        seal(alloc, site, output)?;
    }
    Ok(())
}

// What an output answers and leaves where a call of the folder fails.
#[derive(Drop)]
struct Left {
    answer: &'static str,
    site: MemSite,
    next: u64,
    failed: bool,
    outputs: Vec<u64>,
    abandoned: Vec<u64>,
}

// The twenty entries are added, and their files sealed, until a call of the folder fails.
fn write_where(alloc: Global, call: u64) -> Result<Left, Fail> {
    let mut site = folder_where(alloc, call)?;
    let mut numbers = Numbers::from(4);
    let options = options_with(LARGE_SIZE, BLOB_FILE_SIZE);
    let mut output = begin(alloc, &site, &options, true);
    let answer = match add_all(alloc, &mut site, &mut numbers, &mut output) {
        Ok(()) => seal_all(alloc, &mut site, &mut output),
        Err(error) => Err(error),
    };
    let failed = output.failed();
    let outputs = output.outputs(alloc)?;
    Ok(Left {
        answer: named(answer),
        site,
        next: numbers.next(),
        failed,
        outputs,
        abandoned: output.abandon(),
    })
}

// The numbers from 4 up to below the next one, which is 7 at most.
fn drawn(next: u64) -> &'static [u64] {
    match next {
        4 => &[],
        5 => &[4],
        6 => &[4, 5],
        _ => &[4, 5, 6],
    }
}

#[test]
fn twenty_entries_are_written(rt: HostRuntime) -> Result<(), Fail> {
    let mut left = write_where(rt.alloc(), NO_CALL)?;
    assert_eq!(rt; (left.answer, left.next, left.failed), ("ok", 7, false));
    assert_eq!(rt; left.outputs.as_slice(), [4, 5, 6].as_slice());
    assert_eq!(rt; left.abandoned.as_slice(), [4, 5, 6].as_slice());
    assert_eq!(rt; sizes_of(&left.site), [Some(4973), Some(1361), Some(495)]);
    assert!(rt; others_stay(rt.alloc(), &mut left.site, 3)?);
    Ok(())
}

#[test]
fn each_call_that_fails(rt: HostRuntime) -> Result<(), Fail> {
    for (call, next, sizes) in LEFT {
        let mut left = write_where(rt.alloc(), call)?;
        assert_eq!(rt;
            (left.answer, left.next, left.failed),
            ("disk", next, true),
            "call {call}"
        );
        assert_eq!(rt; left.outputs.as_slice(), drawn(next), "call {call}");
        assert_eq!(rt; left.abandoned.as_slice(), drawn(next), "call {call}");
        assert_eq!(rt; sizes_of(&left.site), sizes, "call {call}");
        let made = sizes.iter().flatten().count();
        assert!(rt;
            others_stay(rt.alloc(), &mut left.site, made)?,
            "call {call}"
        );
    }
    Ok(())
}

// An output whose tables are closed once they have an entry, with a small value of `a`, a large one of `b`, and a deletion of `c`.
fn add_three(
    alloc: Global,
    site: &mut MemSite,
    numbers: &mut Numbers,
    output: &mut Output,
) -> Result<(), JobErr>
    requires { CanAdd (disk_of site.old) output.old }
    ensures { OnOk result (CanSeal (disk_of site.new) output.new) }
{
    let small = put_of(alloc, b"a", 1, b"xy")?;
    add(alloc, site, numbers, output, &small)?;
    let large = put_of(alloc, b"b", 2, b"xyz")?;
    add(alloc, site, numbers, output, &large)?;
    let deletion = deletion_of(alloc, b"c", 3)?;
    add(alloc, site, numbers, output, &deletion)
}

// What sealing answers: the kind of the next file, its number, and the bytes of the table or of the blob file's records.
fn seal_next(
    alloc: Global,
    site: &mut MemSite,
    output: &mut Output,
) -> Result<(&'static str, u64, u64), JobErr>
    requires { CanSeal (disk_of site.old) output.old }
    ensures { OnOk result (CanSeal (disk_of site.new) output.new) }
{
    match seal(alloc, site, output)? {
        None => Ok(("none", 0, 0)),
        Some(Sealed::Table(table)) => Ok(("table", table.number, table.size)),
        Some(Sealed::Blob(blob)) => Ok(("blob", blob.number, blob.bytes)),
    }
}

#[test]
fn files_are_sealed_one_by_one(rt: HostRuntime) -> Result<(), Fail> {
    let mut site = MemSite::start(rt.alloc())?;
    let mut numbers = Numbers::from(4);
    let options = Options {
        table_size: 1,
        ..options_with(3, 1 << 28)
    };
    let mut output = begin(rt.alloc(), &site, &options, false);
    add_three(rt.alloc(), &mut site, &mut numbers, &mut output)?;
    assert_eq!(rt;
        output.outputs(rt.alloc())?.as_slice(),
        [4, 5, 6, 7].as_slice()
    );
    'answers: for answer in [
        ("table", 4, 115),
        ("table", 5, 118),
        ("table", 7, 113),
        ("blob", 6, 36),
        ("none", 0, 0),
    ] {
        assert_eq!(rt; seal_next(rt.alloc(), &mut site, &mut output)?, answer);
    }
    assert!(rt; !output.failed());
    assert_eq!(rt; output.abandon().as_slice(), [4, 5, 6, 7].as_slice());
    Ok(())
}

// A value of `a` goes to an output whose numbers end before this one.
fn add_large(
    alloc: Global,
    site: &mut MemSite,
    numbers: &mut Numbers,
    output: &mut Output,
) -> Result<(), JobErr>
    requires { CanAdd (disk_of site.old) output.old }
{
    let large = put_of(alloc, b"a", 1, b"xyz")?;
    add(alloc, site, numbers, output, &large)
}

#[test]
fn an_output_without_numbers_has_failed(rt: HostRuntime) -> Result<(), Fail> {
    // There is a number for the table, and none for the blob file.
    let mut site = MemSite::start(rt.alloc())?;
    let mut numbers = Numbers::from(999_999_999_999_999);
    let mut output = begin(rt.alloc(), &site, &options_with(3, 1), true);
    let answer = add_large(rt.alloc(), &mut site, &mut numbers, &mut output);
    assert_eq!(rt; named(answer), "full");
    assert!(rt; output.failed());
    assert_eq!(rt; numbers.next(), 1_000_000_000_000_000);
    assert_eq!(rt;
        output.abandon().as_slice(),
        [999_999_999_999_999].as_slice()
    );
    Ok(())
}
