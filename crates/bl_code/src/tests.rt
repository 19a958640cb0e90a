use crate::{
    Crc, Octets, Taker, crc32c, key_order, mask, put_fixed16, put_fixed32, put_fixed64, put_slice,
    put_varint32, put_varint64, unmask,
};
use std::cmp::Ordering;
use std::test::Fail;

// The vectors of RFC 3720, appendix B.4, and the usual one of nine digits.
#[test]
fn checksums_of_published_vectors(rt: HostRuntime) {
    assert_eq!(rt; crc32c(b"123456789"), 0xE306_9283);
    assert_eq!(rt; crc32c(&[0; 32]), 0x8A91_36AA);
    assert_eq!(rt; crc32c(&[0xFF; 32]), 0x62A8_AB43);
    assert_eq!(rt; mask(0xE306_9283), 0xC78A_B0E5);
    assert_eq!(rt; unmask(0xC78A_B0E5), 0xE306_9283);
}

#[test]
fn pieces_give_the_checksum_of_the_whole(rt: HostRuntime) {
    let mut crc = Crc::start();
    crc.extend(b"12345");
    crc.extend(b"6789");
    assert_eq!(rt; crc.value(), 0xE306_9283);
}

#[test]
fn what_is_put_is_taken(rt: HostRuntime) -> Result<(), Fail> {
    let mut to = Vec::new(rt.alloc());
    put_fixed16(&mut to, 0x0201)?;
    put_fixed32(&mut to, 0x0605_0403)?;
    put_fixed64(&mut to, 7)?;
    put_varint32(&mut to, 300)?;
    put_varint64(&mut to, 1 << 35)?;
    put_slice(&mut to, b"xyz")?;
    assert_eq!(rt;
        to.as_slice(),
        b"\x01\x02\x03\x04\x05\x06\x07\0\0\0\0\0\0\0\xAC\x02\x80\x80\x80\x80\x80\x01\x03xyz".as_slice()
    );
    let mut taker = Taker::over(&to);
    assert_eq!(rt; taker.take_fixed16(), Some(0x0201));
    assert_eq!(rt; taker.take_fixed32(), Some(0x0605_0403));
    assert_eq!(rt; taker.take_fixed64(), Some(7));
    assert_eq!(rt; taker.take_varint32(), Some(300));
    assert_eq!(rt; taker.take_varint64(), Some(1 << 35));
    assert_eq!(rt; taker.place(), 22);
    assert_eq!(rt; taker.take_slice().ok_or("cut")?, b"xyz".as_slice());
    assert_eq!(rt; taker.left(), 0);
    assert_eq!(rt; taker.take_byte(), None);
    Ok(())
}

#[test]
fn taker_stays_where_too_little_is_left(rt: HostRuntime) -> Result<(), Fail> {
    let mut taker = Taker::over(b"\x04xyz");
    assert!(rt; taker.take_slice().is_none());
    assert!(rt; taker.take_bytes(5).is_none());
    assert_eq!(rt; taker.place(), 0);
    assert_eq!(rt; taker.take_bytes(4).ok_or("cut")?, b"\x04xyz".as_slice());
    Ok(())
}

#[test]
fn newest_stands_first(rt: HostRuntime) {
    let old = b"a\x01\x01\0\0\0\0\0\0";
    let new = b"a\x01\x02\0\0\0\0\0\0";
    assert_eq!(rt; key_order(new, old), Ordering::Less);
    assert_eq!(rt; key_order(new, b"b\x01\x02\0\0\0\0\0\0"), Ordering::Less);
    assert_eq!(rt; key_order(old, old), Ordering::Equal);
}

#[test]
fn octets_compare_by_bytes(rt: HostRuntime) -> Result<(), Fail> {
    let short = Octets::from_slice(rt.alloc(), b"a")?;
    let long = Octets::from_slice(rt.alloc(), b"ab")?;
    assert!(rt; short < long);
    assert_eq!(rt; long.as_slice(), b"ab".as_slice());
    assert!(rt; long == Octets::from_vec(b"ab".to_vec(rt.alloc())?));
    Ok(())
}
