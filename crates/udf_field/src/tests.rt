// Worked cases: the CRC's vector, a terminating descriptor's tag, and fields written by hand.
use crate::{
    Addr, Fields, FieldsMut, Long, Short, Span, Tag, crc, id_at, relocate, retag, tag_of, whole_id,
};

// The tag of a terminating descriptor at sector 0x65, with the CRC over 496 zeros after it.
const TERMINATOR_TAG: [u8; 16] = [
    0x08, 0x00, 0x03, 0x00, 0x62, 0x00, 0x01, 0x00, 0x00, 0x00, 0xf0, 0x01, 0x65, 0x00, 0x00, 0x00,
];

#[test]
fn crc_of_known_bytes(rt: HostRuntime) {
    assert_eq!(rt; crc(&[0x70, 0x6a, 0x77]), 0x3299);
    assert_eq!(rt; crc(&[]), 0);
}

#[test]
fn terminator_is_whole_at_its_place(rt: HostRuntime) {
    let mut area = [0u8; 512];
    area[..16].copy_from_slice(&TERMINATOR_TAG);
    let tag = Tag {
        id: 8,
        version: 3,
        serial: 1,
        crc: 0,
        crc_length: 496,
        location: 0x65,
    };
    assert_eq!(rt; tag_of(&area), Some(tag));
    assert_eq!(rt; whole_id(&area), Some(8));
    assert_eq!(rt; id_at(&area, 0x65), Some(8));
    assert_eq!(rt; id_at(&area, 0x66), None);
    assert_eq!(rt; tag_of(&area[..511]), None, "the CRC runs past the area");
    assert_eq!(rt; tag_of(&area[..15]), None, "no room for a tag");
    area[511] = 1;
    assert_eq!(rt; tag_of(&area), None, "another byte under the CRC");
    area[511] = 0;
    area[5] = 1;
    assert_eq!(rt; tag_of(&area), None, "another checksum");
}

#[test]
fn tag_made_anew_and_moved(rt: HostRuntime) {
    let mut area = [0u8; 19];
    area[..16].copy_from_slice(&TERMINATOR_TAG);
    area[16..].copy_from_slice(&[0x70, 0x6a, 0x77]);
    retag(&mut area, 3, 0x65);
    let anew = [
        0x08, 0x00, 0x03, 0x00, 0x3f, 0x00, 0x01, 0x00, 0x99, 0x32, 0x03, 0x00, 0x65, 0x00, 0x00,
        0x00, 0x70, 0x6a, 0x77,
    ];
    assert_eq!(rt; area, anew);
    relocate(&mut area, 0x102);
    let moved = [
        0x08, 0x00, 0x03, 0x00, 0xdd, 0x00, 0x01, 0x00, 0x99, 0x32, 0x03, 0x00, 0x02, 0x01, 0x00,
        0x00, 0x70, 0x6a, 0x77,
    ];
    assert_eq!(rt; area, moved);
}

#[test]
fn fields_of_bytes(rt: HostRuntime) {
    let bytes = [
        0x09, 0x01, 0x02, 0x03, 0xc4, 0x05, 0x06, 0x07, 0x08, 0x0a, 0x0b, 0xff, 0xff, 0xff, 0xff,
        0xff, 0xff,
    ];
    let fields = Fields::over(&bytes);
    assert_eq!(rt; fields.u8_at(0), 9);
    assert_eq!(rt; fields.u16_at(1), 0x0201);
    assert_eq!(rt; fields.u32_at(1), 0xc403_0201);
    assert_eq!(rt; fields.u64_at(1), 0x0807_0605_c403_0201);
    assert_eq!(rt;
        fields.span_at(1),
        Span {
            length: 0xc403_0201,
            start: 0x0807_0605
        }
    );
    assert_eq!(rt;
        fields.short_at(1),
        Short {
            kind: 3,
            length: 0x0403_0201,
            block: 0x0807_0605
        }
    );
    let at = Addr {
        part: 0x0b0a,
        block: 0x0807_0605,
    };
    assert_eq!(rt;
        fields.long_at(1),
        Long {
            kind: 3,
            length: 0x0403_0201,
            at
        }
    );
    assert!(rt; Addr { part: 0, block: 9 } < Addr { part: 1, block: 0 });
    assert!(rt; Addr { part: 1, block: 0 } < Addr { part: 1, block: 1 });
}

#[test]
fn entity_by_its_name(rt: HostRuntime) {
    let mut bytes = [0u8; 33];
    bytes[1] = 2;
    bytes[2..14].copy_from_slice(b"*UDF LV Info");
    bytes[25] = 0x50;
    let fields = Fields::over(&bytes);
    assert!(rt;
        fields.entity_is(1, b"*UDF LV Info"),
        "flags and suffix are not looked at"
    );
    assert!(rt; !fields.entity_is(1, b"*UDF LV"), "a longer one");
    assert!(rt; !fields.entity_is(1, b"*UDF LV Info1"), "a shorter one");
    assert!(rt;
        !fields.entity_is(1, b"*UDF LV Info\0\0\0\0\0\0\0\0\0\0\0\0"),
        "24 bytes"
    );
}

#[test]
fn numbers_written(rt: HostRuntime) {
    let mut bytes = [0xee; 16];
    let mut fields = FieldsMut::over(&mut bytes);
    fields.put_u8(0, 1);
    fields.put_u16(1, 0x0302);
    fields.put_u32(3, 0x0706_0504);
    fields.put_u64(7, 0x0f0e_0d0c_0b0a_0908);
    assert_eq!(rt;
        bytes,
        [1, 2, 3, 4, 5, 6, 7, 8, 9, 10, 11, 12, 13, 14, 15, 0xee]
    );
}

#[test]
fn descriptors_written(rt: HostRuntime) {
    let mut bytes = [0xee; 33];
    let mut fields = FieldsMut::over(&mut bytes);
    fields.put_span(
        0,
        Span {
            length: 0x2000,
            start: 0x60,
        },
    );
    fields.put_short(
        8,
        Short {
            kind: 3,
            length: 0x0403_0201,
            block: 7,
        },
    );
    let at = Addr {
        part: 0x0b0a,
        block: 9,
    };
    fields.put_long(
        16,
        Long {
            kind: 1,
            length: 512,
            at,
        },
    );
    let written = [
        0, 0x20, 0, 0, 0x60, 0, 0, 0, 1, 2, 3, 0xc4, 7, 0, 0, 0, 0, 2, 0, 0x40, 9, 0, 0, 0, 0x0a,
        0x0b, 0xee, 0xee, 0xee, 0xee, 0xee, 0xee, 0xee,
    ];
    assert_eq!(rt; bytes, written);
}
