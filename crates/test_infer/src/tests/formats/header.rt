use infer_formats::header::{has_later_header, may_have_later_header};

// By hand: a header of DOS that names the place 70, and at the fourth byte from there the number 5, between 3 and 6.
#[test]
fn later_headers(rt: HostRuntime) {
    let mut whole = [0; 76];
    whole[0] = b'M';
    whole[1] = b'Z';
    whole[60] = 70;
    whole[70] = b'P';
    whole[71] = b'E';
    whole[74] = 5;
    assert!(rt; has_later_header(&whole, b"PE", 4, 3, 6));
    assert!(rt; has_later_header(&whole, b"PE", 4, 5, 5));
    assert!(rt; !has_later_header(&whole, b"PE", 4, 6, 9));
    assert!(rt; !may_have_later_header(&whole, b"PE", 4, 6, 9));
    assert!(rt; !has_later_header(&whole, b"NE", 4, 3, 6));
    assert!(rt; !may_have_later_header(&whole, b"NE", 4, 3, 6));
    // The number has a second byte.
    assert!(rt; !has_later_header(&whole, b"PE", 3, 3, 6));
    assert!(rt; has_later_header(&whole, b"PE", 3, 0x0500, 0x0500));
    for length in 0..76 {
        assert!(rt; !has_later_header(&whole[..length], b"PE", 4, 3, 6));
        assert!(rt; may_have_later_header(&whole[..length], b"PE", 4, 3, 6));
    }
}

// Places at every power of two, and the last ones.
#[test]
fn later_headers_far(rt: HostRuntime) {
    let mut buf = [0xFF; 64];
    buf[0] = b'M';
    buf[1] = b'Z';
    assert!(rt; !has_later_header(&buf, b"PE", 0xFFFF, 0, 0xFFFF));
    assert!(rt; may_have_later_header(&buf, b"PE", 0xFFFF, 0, 0xFFFF));
    for bit in 0..32u32 {
        let place = (1u32 << bit).to_le_bytes();
        buf[60] = place[0];
        buf[61] = place[1];
        buf[62] = place[2];
        buf[63] = place[3];
        assert!(rt; !has_later_header(&buf, b"PE", 92, 0, 0xFFFF));
        assert_eq!(rt; may_have_later_header(&buf, b"PE", 92, 0, 0xFFFF), bit >= 6);
    }
}
