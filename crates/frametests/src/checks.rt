// Check octets, identifiers and fields.
use crate::frames::*;
use fault::FrameFault::{self, Body, Field};
use octets::{
    CheckOctets, LspId, before, check_body, check_octets, covered, is_right, order, read_field,
    same,
};
use std::cmp::Ordering;
use std::test::Fail;
use writer::computed_check;

// The check octets of an LSP of number 124, without a body.
const OF_124: CheckOctets = CheckOctets { x: 0xff, y: 0x81 };

// A number, a body, and the check octets of an LSP of identifier ONE and flag octet 01, worked elsewhere.
static LSPS: [(u32, &[u8], CheckOctets); 4] = [
    (1, b"", OF_ONE),
    (2, b"", OF_TWO),
    (1, b"\x81\x01\xcc", OF_FIELD),
    (124, b"", OF_124),
];

// The check octets of an LSP, whatever its lifetime is and whatever check octets it has.
#[test]
fn computed_checks(rt: HostRuntime) {
    for (number, body, want) in &LSPS {
        let m = lsp(7, *number, CheckOctets { x: 1, y: 2 }, *body);
        assert_eq!(rt; computed_check(&m), *want);
    }
}

// The parts of these LSPs from octet 12 on, with 09 09 at places 13 and 14, counted from 1, and the right check octets
// there. The others have no octets but the check octets, or no places for them.
static PARTS: [(&[u8], usize, Option<CheckOctets>); 7] = [
    (
        b"\0\0\0\0\0\x01\0\0\0\0\0\x01\x09\x09\x01",
        13,
        Some(OF_ONE),
    ),
    (
        b"\0\0\0\0\0\x01\0\0\0\0\0\x02\x09\x09\x01",
        13,
        Some(OF_TWO),
    ),
    (
        b"\0\0\0\0\0\x01\0\0\0\0\0\x01\x09\x09\x01\x81\x01\xcc",
        13,
        Some(OF_FIELD),
    ),
    (
        b"\0\0\0\0\0\x01\0\0\0\0\0\x7c\x09\x09\x01",
        13,
        Some(OF_124),
    ),
    (b"\x09\x09", 1, Some(CheckOctets { x: 0xff, y: 0xff })),
    (b"\x09\x09", 0, None),
    (b"\x09\x09", 2, None),
];

#[test]
fn part_checks(rt: HostRuntime) {
    for (part, p, want) in &PARTS {
        assert_eq!(rt; check_octets(*part, *p), *want);
    }
}

// A part, the place of its check octets, and whether they are right.
static RIGHT: [(&[u8], usize, bool); 7] = [
    (b"\0\0\0\0\0\x01\0\0\0\0\0\x01\xf6\x06\x01", 13, true),
    (b"\0\0\0\0\0\x01\0\0\0\0\0\x7c\xff\x81\x01", 13, true),
    (b"\0\0\0\0\0\x01\0\0\0\0\0\x7c\x00\x81\x01", 13, false),
    (b"\0\0\0\0\0\x01\0\0\0\0\0\x01\xf6\x07\x01", 13, false),
    (b"\xff\xff", 1, true),
    (b"\xff\xff", 0, false),
    (b"\xff\xff", 2, false),
];

#[test]
fn right_checks(rt: HostRuntime) {
    for (part, p, want) in &RIGHT {
        assert_eq!(rt; is_right(*part, *p), *want);
    }
}

// A frame, and the part that its check octets cover, from octet 12 on.
static COVERED: [(&[u8], Option<&[u8]>); 3] = [
    (b"01234567890", None),
    (b"012345678901", Some(b"")),
    (b"01234567890123", Some(b"23")),
];

#[test]
fn covered_parts(rt: HostRuntime) {
    for (frame, want) in &COVERED {
        assert_eq!(rt; covered(*frame), *want);
    }
}

// Two identifiers, and their order, of which the first octet weighs most.
static PAIRS: [(LspId, LspId, Ordering); 8] = [
    (ONE, ONE, Ordering::Equal),
    ([0; 8], [255; 8], Ordering::Less),
    (
        [1, 2, 3, 4, 5, 6, 7, 8],
        [2, 2, 3, 4, 5, 6, 7, 8],
        Ordering::Less,
    ),
    (
        [1, 2, 3, 4, 5, 6, 7, 8],
        [1, 2, 3, 4, 5, 6, 7, 9],
        Ordering::Less,
    ),
    (
        [128, 0, 0, 0, 0, 0, 0, 0],
        [127, 0, 0, 0, 0, 0, 0, 0],
        Ordering::Greater,
    ),
    (
        [0, 0, 0, 0, 0, 0, 0, 128],
        [0, 0, 0, 0, 0, 0, 0, 127],
        Ordering::Greater,
    ),
    (
        [0, 0, 0, 0, 0, 0, 0, 255],
        [1, 0, 0, 0, 0, 0, 0, 0],
        Ordering::Less,
    ),
    (
        [0, 0, 0, 0, 2, 0, 0, 0],
        [0, 0, 0, 0, 1, 255, 255, 255],
        Ordering::Greater,
    ),
];

#[test]
fn identifiers(rt: HostRuntime) {
    for (a, b, want) in &PAIRS {
        assert_eq!(rt; order(*a, *b), *want);
        assert_eq!(rt;
            (before(*a, *b), same(*a, *b), before(*b, *a)),
            (want.is_lt(), want.is_eq(), want.is_gt())
        );
    }
}

// A body, the place of its first octet, and the answer.
static FIELDS: [(&[u8], u16, Result<(), FrameFault>); 15] = [
    (b"", 0, Ok(())),
    (b"\x01", 0, Err(Field(0))),
    (b"\x01", 27, Err(Field(27))),
    (b"\x01\x00", 27, Ok(())),
    (b"\x01\x01", 0, Err(Field(0))),
    (b"\x01\x01\x07", 0, Ok(())),
    (b"\x01\x01\x07\x08", 0, Err(Field(3))),
    (b"\x01\x01\x07\x08", 27, Err(Field(30))),
    (b"\x01\x01\x07\x08\x00", 0, Ok(())),
    (b"\x01\x00\x02\x00\x03\x02\x09", 27, Err(Field(31))),
    (b"\x01\x00\x02\x00\x03\x01\x09", 27, Ok(())),
    (&[0; 99], 0, Err(Field(98))),
    (&[0; 100], 0, Ok(())),
    (&[0; 101], 0, Err(Body(0))),
    (&[0; 102], 27, Err(Body(27))),
];

#[test]
fn fields(rt: HostRuntime) {
    for (body, place, want) in &FIELDS {
        assert_eq!(rt; numbered(&rt, check_body(*body, *place)), *want);
    }
}

#[test]
fn first_field(rt: HostRuntime) -> Result<(), Fail> {
    let field = read_field(b"\x08\x02\x05\x06\x07", 3)?;
    let (value, rest): (&[u8], &[u8]) = (b"\x05\x06", b"\x07");
    assert_eq!(rt; field, (8, value, rest));
    Ok(())
}
