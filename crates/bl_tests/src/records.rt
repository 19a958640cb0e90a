//! The records of a file, read one after another.

use bl_log::{EndCause, LogWriter};
use bl_records::{NextRecord, RecordErr, RecordReader};
use bl_site_mem::MemSite;
use std::alloc::Global;
use std::test::Fail;

const NAME: &str = "000002.log";

fn failed(error: RecordErr) -> Fail {
    match error {
        RecordErr::Disk => Fail::from("disk"),
        RecordErr::OutOfMemory => Fail::from("memory"),
    }
}

// A log of a record of 100,000 bytes, which stand in four blocks and two pieces, and one of three.
fn log_of(alloc: Global) -> Result<Vec<u8>, Fail> {
    let long = vec![in alloc; 0x5A; 100_000]?;
    let mut writer = LogWriter::start();
    let mut bytes = Vec::new(alloc);
    let first = writer.frame(alloc, &long)?;
    bytes.extend_from_slice(first.as_slice())?;
    let second = writer.frame(alloc, b"xyz")?;
    bytes.extend_from_slice(second.as_slice())?;
    Ok(bytes)
}

fn opened(alloc: Global) -> Result<RecordReader, Fail> {
    let name = String::from_str(alloc, NAME)?;
    RecordReader::open(alloc, name).map_err(failed)
}

// The size of the record that was answered.
fn size_of(answer: Result<NextRecord, RecordErr>) -> Option<usize> {
    match answer {
        Ok(NextRecord::Record(payload)) => Some(payload.as_slice().len()),
        _ => None,
    }
}

// Where reading ends, and why.
fn end_of(answer: Result<NextRecord, RecordErr>) -> Option<(u64, EndCause)> {
    match answer {
        Ok(NextRecord::End(place, cause)) => Some((place, cause)),
        _ => None,
    }
}

fn is_absent(answer: Result<NextRecord, RecordErr>) -> bool {
    matches!(&answer, Ok(NextRecord::Absent))
}

fn is_disk(answer: Result<NextRecord, RecordErr>) -> bool {
    matches!(&answer, Err(RecordErr::Disk))
}

#[test]
fn records_stand_in_two_pieces(rt: HostRuntime) -> Result<(), Fail> {
    let mut site = MemSite::start(rt.alloc())?;
    let log = log_of(rt.alloc())?;
    site.put_file(NAME, &log)?;
    let mut reader = opened(rt.alloc())?;
    assert_eq!(rt; size_of(reader.next(&mut site)), Some(100_000));
    assert_eq!(rt; reader.place(), 4 * 7 + 100_000);
    assert_eq!(rt; size_of(reader.next(&mut site)), Some(3));
    assert_eq!(rt; reader.place(), 4 * 7 + 100_000 + 7 + 3);
    assert_eq!(rt;
        end_of(reader.next(&mut site)),
        Some((100_038, EndCause::Finished))
    );
    assert_eq!(rt;
        end_of(reader.next(&mut site)),
        Some((100_038, EndCause::Finished))
    );
    Ok(())
}

#[test]
fn a_cut_record_is_not_read(rt: HostRuntime) -> Result<(), Fail> {
    let mut site = MemSite::start(rt.alloc())?;
    let log = log_of(rt.alloc())?;
    // The last byte is missing.
    site.put_file(NAME, &log[..log.len().saturating_sub(1)])?;
    let mut reader = opened(rt.alloc())?;
    assert_eq!(rt; size_of(reader.next(&mut site)), Some(100_000));
    assert_eq!(rt;
        end_of(reader.next(&mut site)),
        Some((100_028, EndCause::Cut))
    );
    Ok(())
}

#[test]
fn a_reader_is_asked_again(rt: HostRuntime) -> Result<(), Fail> {
    let log = log_of(rt.alloc())?;
    // The first read finds no file, and the third one fails.
    let mut site = MemSite::with_failures(rt.alloc(), &[3])?;
    let mut reader = opened(rt.alloc())?;
    assert!(rt; is_absent(reader.next(&mut site)));
    site.put_file(NAME, &log)?;
    assert!(rt; is_disk(reader.next(&mut site)));
    assert_eq!(rt; size_of(reader.next(&mut site)), Some(100_000));
    assert_eq!(rt; size_of(reader.next(&mut site)), Some(3));
    assert_eq!(rt;
        end_of(reader.next(&mut site)),
        Some((100_038, EndCause::Finished))
    );
    Ok(())
}
