// The worked cases of texts.
use crate::{Name, TextFault, decode_dstring, decode_name, encode_dstring, encode_name};
use std::test::Fail;

// Characters and their bytes: each width, the widest 8-bit character and the first past it, and the characters around
// the surrogates.
#[test]
fn names_as_bytes(rt: HostRuntime) -> Result<(), Fail> {
    let alloc = rt.alloc();
    let cases: [(&str, &[u8]); 9] = [
        ("", &[]),
        (
            "LinuxUDF",
            &[8, 0x4C, 0x69, 0x6E, 0x75, 0x78, 0x55, 0x44, 0x46],
        ),
        ("\u{E9}", &[8, 0xE9]),
        ("\u{FF}", &[8, 0xFF]),
        ("\u{100}", &[16, 0x01, 0x00]),
        ("\u{3A9}", &[16, 0x03, 0xA9]),
        ("\u{D7FF}\u{E000}", &[16, 0xD7, 0xFF, 0xE0, 0x00]),
        ("\u{1F600}", &[16, 0xD8, 0x3D, 0xDE, 0x00]),
        ("x\u{10FFFF}", &[16, 0x00, 0x78, 0xDB, 0xFF, 0xDF, 0xFF]),
    ];
    for (text, bytes) in cases {
        let name = Name::from_text(alloc, text)?;
        let encoded = encode_name(alloc, &name)?;
        assert_eq!(rt; encoded.as_slice(), bytes, "{bytes:?} encoded");
        assert!(rt; decode_name(alloc, bytes)? == name, "{bytes:?} decoded");
    }
    Ok(())
}

// The wider width of a name that needs it not, and the bytes that are no name.
#[test]
fn other_bytes(rt: HostRuntime) -> Result<(), Fail> {
    let alloc = rt.alloc();
    let wide = decode_name(alloc, &[16, 0x00, 0x78])?;
    assert!(rt; wide == Name::from_text(alloc, "x")?);
    let faults: [(&[u8], TextFault); 6] = [
        (&[9, 0x41], TextFault::BadCompression),
        (&[16, 0x03], TextFault::OddLength),
        (&[16, 0xD8, 0x3D], TextFault::LoneSurrogate),
        (&[16, 0xDE, 0x00], TextFault::LoneSurrogate),
        (&[16, 0xD8, 0x3D, 0x00], TextFault::OddLength),
        (&[16, 0xDE, 0x00, 0xD8, 0x3D], TextFault::LoneSurrogate),
    ];
    for (bytes, fault) in faults {
        assert!(rt; decode_name(alloc, bytes) == Err(fault), "{bytes:?}");
    }
    Ok(())
}

// A dstring of 32 bytes with a name, an empty one and the longest one.
#[test]
fn fields(rt: HostRuntime) -> Result<(), Fail> {
    let alloc = rt.alloc();
    let mut field = [0xAAu8; 32];
    encode_dstring(&Name::from_text(alloc, "LinuxUDF")?, &mut field)?;
    let mut wanted = [0u8; 32];
    wanted[..9].copy_from_slice(&[8, 0x4C, 0x69, 0x6E, 0x75, 0x78, 0x55, 0x44, 0x46]);
    wanted[31] = 9;
    assert_eq!(rt; field, wanted);
    let read = decode_dstring(alloc, &field)?;
    assert_eq!(rt; read.put_text(alloc)?.as_str(), "LinuxUDF");
    let longer = Name::from_text(alloc, "xxxxxxxxxxxxxxxxxxxxxxxxxxxxxxx")?;
    assert_eq!(rt;
        encode_dstring(&longer, &mut field),
        Err(TextFault::TooLong)
    );
    assert_eq!(rt; field, wanted);
    let longest = longer.front(alloc, 31)?;
    encode_dstring(&longest, &mut field)?;
    assert_eq!(rt; field[30], 0x78);
    assert_eq!(rt; field[31], 31);
    encode_dstring(&Name::from_text(alloc, "")?, &mut field)?;
    assert_eq!(rt; field, [0u8; 32]);
    Ok(())
}

// The smallest and the largest field, and a last byte that equals the field's length.
#[test]
fn field_sizes(rt: HostRuntime) -> Result<(), Fail> {
    let alloc = rt.alloc();
    let x = Name::from_text(alloc, "x")?;
    let mut one = [7u8];
    assert_eq!(rt; encode_dstring(&x, &mut one), Err(TextFault::TooLong));
    assert_eq!(rt; one, [7]);
    encode_dstring(&Name::from_text(alloc, "")?, &mut one)?;
    assert_eq!(rt; one, [0]);
    let mut all = [7u8; 256];
    encode_dstring(&x, &mut all)?;
    assert_eq!(rt; all[255], 2);
    assert!(rt; decode_dstring(alloc, &all)? == x);
    assert!(rt; decode_dstring(alloc, &[8, 0x78, 3]) == Err(TextFault::BadLength));
    assert!(rt; decode_dstring(alloc, &[8, 0x78, 2])? == x);
    Ok(())
}

// Beginnings: a cut inside a pair, and one that needs the wider width.
#[test]
fn fronts(rt: HostRuntime) -> Result<(), Fail> {
    let alloc = rt.alloc();
    let cases = [
        ("x\u{1F600}", 6, "x"),
        ("x\u{1F600}", 7, "x\u{1F600}"),
        ("xyz\u{100}", 8, "xyz"),
        ("xyz\u{100}", 9, "xyz\u{100}"),
        ("x", 1, ""),
        ("x", 0, ""),
    ];
    for (text, bytes, front) in cases {
        let cut = Name::from_text(alloc, text)?.front(alloc, bytes)?;
        assert_eq!(rt; cut.put_text(alloc)?.as_str(), front, "in {bytes}");
    }
    Ok(())
}
