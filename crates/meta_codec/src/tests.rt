//! Each public call once.

use crate::{body_length, decode, encode};
use std::test::Fail;

#[test]
fn each_kind_is_read_and_written_again(rt: HostRuntime) -> Result<(), Fail> {
    for body in [
        b"\x01\x01\0\0\0\0\0\0\0\x05\0\0\0\x05\0\0\0\xc0\x01\0\x10\0\0\0\0\0\0\x01a".as_slice(),
        b"\x02\x01\0\0\0\0\0\0\0".as_slice(),
        b"\x03\x01\0\0\0\0\0\0\0\0\x20\0\0\0\0\0\0".as_slice(),
        b"\x04\x01\0\0\0\0\0\0\0\x01\0\0\0\0\0\0\0\0\0\0\0\0\0\0\0\x04\0\0\0\0\0\0\0\x05\0\0\0\x05\0\0\0\x80\x01\x01x".as_slice(),
        b"\x05\x01\0\0\0\0\0\0\0".as_slice(),
        b"\x06\x01\0\0\0\0\0\0\0\xff\x01".as_slice(),
        b"\x07\x01\0\0\0\0\0\0\0\0\0".as_slice(),
        b"\x08\x02\0\0\0\0\0\0\0\x03\0\0\0\0\0\0\0".as_slice(),
    ] {
        match decode(rt.alloc(), body)? {
            Some(change) => {
                assert_eq!(rt; encode(rt.alloc(), &change)?.as_slice(), body);
                assert_eq!(rt; body_length(&change), body.len() as u64);
            }
            None => assert!(rt; false),
        }
    }
    Ok(())
}

#[test]
fn other_bytes_are_no_body(rt: HostRuntime) -> Result<(), Fail> {
    for bytes in [
        b"".as_slice(),
        b"\x09".as_slice(),
        b"\x02\x01\0\0\0\0\0\0".as_slice(),
        b"\x02\x01\0\0\0\0\0\0\0\0".as_slice(),
        b"\x06\x01\0\0\0\0\0\0\0\0\x02".as_slice(),
        b"\x01\x01\0\0\0\0\0\0\0\xff\xff\xff\xff\x05\0\0\0\xc0\x01\0\x10\0\0\0\0\0\0\x01a".as_slice(),
        b"\x01\x01\0\0\0\0\0\0\0\x05\0\0\0\x05\0\0\0\xc0\x01\0\x10\0\0\0\0\0\0\x00".as_slice(),
        b"\x01\x01\0\0\0\0\0\0\0\x05\0\0\0\x05\0\0\0\xc0\x01\0\x10\0\0\0\0\0\0\x01/".as_slice(),
    ] {
        assert!(rt; decode(rt.alloc(), bytes)?.is_none());
    }
    Ok(())
}
