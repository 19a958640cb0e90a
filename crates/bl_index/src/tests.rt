use crate::{BadIndex, BlobIndex, IndexErr, IndexRule, Meter, decode_index, encode_index};
use std::test::Fail;

const INDEX: BlobIndex = BlobIndex {
    file: 5,
    offset: 63,
    size: 3,
};

#[test]
fn index_is_spelled_and_read(rt: HostRuntime) -> Result<(), Fail> {
    let bytes = encode_index(rt.alloc(), &INDEX)?;
    assert_eq!(rt; bytes.as_slice(), b"\x01\x05\x3F\x03\x00".as_slice());
    assert_eq!(rt; decode_index(bytes.as_slice()), Ok(INDEX));
    assert_eq!(rt; decode_index(b"\x01\x85\x00\x3F\x03\x00"), Ok(INDEX));
    let trailing = BadIndex {
        rule: IndexRule::Trailing,
        place: 5,
    };
    assert_eq!(rt; decode_index(b"\x01\x05\x3F\x03\x00\x00"), Err(trailing));
    let empty = BadIndex {
        rule: IndexRule::Empty,
        place: 0,
    };
    assert_eq!(rt; decode_index(b""), Err(empty));
    Ok(())
}

#[test]
fn meter_counts_what_goes_in_and_comes_out(rt: HostRuntime) -> Result<(), Fail> {
    let mut meter = Meter::start(rt.alloc());
    meter.in_flow(1, &INDEX)?;
    assert_eq!(rt; meter.garbage(5), (1, 36));
    assert_eq!(rt; meter.garbage(9), (0, 0));
    let too_large = BlobIndex {
        size: u64::MAX,
        ..INDEX
    };
    assert_eq!(rt; meter.in_flow(1, &too_large), Err(IndexErr::Overflow(5)));
    assert_eq!(rt; meter.garbage(5), (1, 36));
    Ok(())
}

// Of file 7 nothing went in.
const OTHER: BlobIndex = BlobIndex { file: 7, ..INDEX };

#[test]
fn what_comes_out_is_no_garbage(rt: HostRuntime) -> Result<(), Fail> {
    let mut meter = Meter::start(rt.alloc());
    meter.in_flow(1, &INDEX)?;
    assert_eq!(rt; meter.garbage(5), (1, 36));
    meter.out_flow(1, &INDEX)?;
    assert_eq!(rt; meter.garbage(5), (0, 0));
    meter.out_flow(1, &OTHER)?;
    assert_eq!(rt; meter.garbage(7), (0, 0));
    Ok(())
}
