ghost use Rattle.std.specs.Prelude.{◌≡◌};

use crate::{EndCause, LogErr, LogNext, LogReader, LogWriter};
use bl_code::{crc32c, mask};
use std::alloc::Global;
use std::test::Fail;

// A batch of 19 bytes, which puts xyz at a.
const BATCH: [u8; 19] = [
    1, 0, 0, 0, 0, 0, 0, 0, 1, 0, 0, 0, 1, 1, 0x61, 3, 0x78, 0x79, 0x7A,
];

// Asks for records until the reader has none: the size of each with the place behind it, and at the end
// its place and cause.
fn read_on(reader: &mut LogReader, told: &mut Vec<u64>) -> Result<(), LogErr>
    ensures { reader.new.closed ≡ reader.old.closed }
{
    'records: for _ in 0..100 {
        match reader.next()? {
            LogNext::Found(payload) => {
                told.push(payload.as_slice().len() as u64)?;
                told.push(reader.place())?;
            }
            LogNext::NeedMore => return Ok(()),
            LogNext::End(place, cause) => {
                told.push(place)?;
                told.push(match cause {
                    EndCause::Finished => 1,
                    EndCause::Cut => 2,
                    EndCause::Length => 3,
                    EndCause::Kind => 4,
                    EndCause::Crc => 5,
                    EndCause::Order => 6,
                })?;
                return Ok(());
            }
        }
    }
    Ok(())
}

// What reading tells of a log that is fed in two pieces.
fn read(alloc: Global, front: &[u8], back: &[u8]) -> Result<Vec<u64>, LogErr> {
    let mut told = Vec::new(alloc);
    let mut reader = LogReader::start(alloc);
    reader.feed(front)?;
    read_on(&mut reader, &mut told)?;
    reader.feed(back)?;
    read_on(&mut reader, &mut told)?;
    reader.close();
    read_on(&mut reader, &mut told)?;
    Ok(told)
}

// Records of 19, 0 and 3 bytes.
fn small_log(alloc: Global) -> Result<Vec<u8>, LogErr> {
    let mut writer = LogWriter::start();
    let mut log = Vec::new(alloc);
    log.extend_from_slice(writer.frame(alloc, &BATCH)?.as_slice())?;
    log.extend_from_slice(writer.frame(alloc, b"")?.as_slice())?;
    log.extend_from_slice(writer.frame(alloc, b"xyz")?.as_slice())?;
    Ok(log)
}

#[test]
fn a_batch_in_its_fragment(rt: HostRuntime) -> Result<(), Fail> {
    let framed = LogWriter::start().frame(rt.alloc(), &BATCH)?;
    let bytes = framed.as_slice();
    let sum = mask(crc32c(b"\x01\x01\0\0\0\0\0\0\0\x01\0\0\0\x01\x01\x61\x03xyz"));
    assert_eq!(rt; bytes.len(), 26);
    assert_eq!(rt; &bytes[..4], sum.to_le_bytes().as_slice());
    assert_eq!(rt; &bytes[4..7], b"\x13\0\x01".as_slice());
    assert_eq!(rt; &bytes[7..], BATCH.as_slice());
    Ok(())
}

#[test]
fn a_kept_buffer_holds_one_record(rt: HostRuntime) -> Result<(), Fail> {
    let mut writer = LogWriter::start();
    let mut buffer = vec![in rt.alloc(); 9; 40]?;
    writer.frame_into(&mut buffer, b"xyz")?;
    assert_eq!(rt; buffer.len(), 10);
    assert_eq!(rt; &buffer[4..], b"\x03\0\x01xyz".as_slice());
    Ok(())
}

#[test]
fn a_record_where_seven_bytes_are_left(rt: HostRuntime) -> Result<(), Fail> {
    let mut writer = LogWriter::start();
    let mut log = Vec::new(rt.alloc());
    let first = vec![in rt.alloc(); 9; 32754]?;
    log.extend_from_slice(writer.frame(rt.alloc(), &first)?.as_slice())?;
    log.extend_from_slice(writer.frame(rt.alloc(), &[5])?.as_slice())?;
    assert_eq!(rt; log.len(), 32776);
    assert_eq!(rt; &log[32765..32768], b"\0\0\x02".as_slice());
    assert_eq!(rt; &log[32772..], b"\x01\0\x04\x05".as_slice());
    for cut in 32758..32772 {
        let told = read(rt.alloc(), &log[..cut], &log[cut..])?;
        assert_eq!(rt;
            told.as_slice(),
            [32754, 32761, 1, 32776, 32776, 1].as_slice()
        );
    }
    Ok(())
}

#[test]
fn a_log_is_read_however_it_is_cut(rt: HostRuntime) -> Result<(), Fail> {
    let log = small_log(rt.alloc())?;
    assert_eq!(rt; log.len(), 43);
    for cut in 0..43 {
        let told = read(rt.alloc(), &log[..cut], &log[cut..])?;
        assert_eq!(rt; told.as_slice(), [19, 26, 0, 33, 3, 43, 43, 1].as_slice());
    }
    Ok(())
}

#[test]
fn a_torn_log_ends_at_the_torn_fragment(rt: HostRuntime) -> Result<(), Fail> {
    let mut log = small_log(rt.alloc())?;
    log.truncate(33);
    let told = read(rt.alloc(), &log, b"")?;
    assert_eq!(rt; told.as_slice(), [19, 26, 0, 33, 33, 1].as_slice());
    log.truncate(32);
    let told = read(rt.alloc(), &log, b"")?;
    assert_eq!(rt; told.as_slice(), [19, 26, 26, 2].as_slice());
    log.truncate(27);
    let told = read(rt.alloc(), &log, b"")?;
    assert_eq!(rt; told.as_slice(), [19, 26, 26, 2].as_slice());
    Ok(())
}

#[test]
fn a_changed_byte_ends_a_log(rt: HostRuntime) -> Result<(), Fail> {
    let mut log = small_log(rt.alloc())?;
    assert_eq!(rt; log.len(), 43);
    log[30] = 1;
    let told = read(rt.alloc(), &log, b"")?;
    assert_eq!(rt; told.as_slice(), [19, 26, 26, 5, 26, 5, 26, 5].as_slice());
    Ok(())
}

#[test]
fn zeros_are_no_fragment(rt: HostRuntime) -> Result<(), Fail> {
    let told = read(rt.alloc(), b"\0\0\0\0\0\0\0", b"")?;
    assert_eq!(rt; told.as_slice(), [0, 4, 0, 4, 0, 4].as_slice());
    let told = read(rt.alloc(), b"\0\0\0", b"\0\0\0")?;
    assert_eq!(rt; told.as_slice(), [0, 2].as_slice());
    Ok(())
}
