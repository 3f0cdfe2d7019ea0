// What frames that are read say.
use crate::frames::*;
use fault::FrameFault::{self, Length, Short};
use frame::{Entry, FrameReader, Kind};
use octets::{CheckOctets, IdRange};
use std::test::Fail;

// An LSP of lifetime 0 keeps its check octets, whatever they are.
#[test]
fn reads_lsps(rt: HostRuntime) {
    let body = b"\x81\x01\xcc";
    let live = lsp(1200, 1, OF_FIELD, body);
    assert_eq!(rt; lsp_of(FIELD_LSP), Some(live));
    let purged = lsp(0, 1, CheckOctets { x: 0x12, y: 0x34 }, body);
    assert_eq!(rt; lsp_of(PURGED_FIELD_LSP), Some(purged));
}

#[test]
fn reads_bounds(rt: HostRuntime) {
    let range = IdRange {
        start: ONE,
        end: NINE,
    };
    assert_eq!(rt; bounds(CSNP), Some((SOURCE, range)));
    let all = IdRange {
        start: [0; 8],
        end: [255; 8],
    };
    assert_eq!(rt; bounds(PSNP), Some((SOURCE, all)));
}

// The octets of the two entries of CSNP and PSNP.
const FIRST_OCTETS: &[u8; 16] = b"\x04\xb0\0\0\0\0\0\x01\0\0\0\0\0\x01\xf6\x06";

const SECOND_OCTETS: &[u8; 16] = b"\0\x07\0\0\0\0\0\x02\0\0\x01\x02\x03\x04\xab\xcd";

const TWO_OCTETS: &[u8; 32] = b"\x04\xb0\0\0\0\0\0\x01\0\0\0\0\0\x01\xf6\x06\
    \0\x07\0\0\0\0\0\x02\0\0\x01\x02\x03\x04\xab\xcd";

// An LSP whose check octets are those of number 2.
const WRONG_LSP: &[u8; 27] = b"\x83\x1b\x01\x00\x12\x01\x00\x00\x00\x1b\
    \x04\xb0\x00\x00\x00\x00\x00\x01\x00\x00\x00\x00\x00\x01\xf4\x07\x01";

// A summary, which entry of it, from 0, and what it says.
static ENTRIES: [(&[u8], usize, Option<Entry>); 8] = [
    (CSNP, 0, Some(FIRST)),
    (CSNP, 1, Some(SECOND)),
    (CSNP, 2, None),
    (PSNP, 0, Some(FIRST)),
    (PSNP, 1, Some(SECOND)),
    (PSNP, 2, None),
    (BARE_CSNP, 0, None),
    (BARE_PSNP, 0, None),
];

#[test]
fn reads_entries(rt: HostRuntime) {
    for (frame, k, want) in &ENTRIES {
        assert_eq!(rt; entry_of(*frame, *k), *want);
    }
}

// A summary, and its entries in turn.
static LISTS: [(&[u8], &[Entry]); 4] = [
    (CSNP, &[FIRST, SECOND]),
    (PSNP, &[FIRST, SECOND]),
    (BARE_CSNP, &[]),
    (BARE_PSNP, &[]),
];

#[test]
fn reads_entries_in_turn(rt: HostRuntime) -> Result<(), Fail> {
    for (frame, want) in &LISTS {
        let entries = entries_of(*frame).ok_or("no summary")?;
        assert_eq!(rt;
            (entries.count(), entries.iter().count()),
            (want.len(), want.len())
        );
        for (e, want) in entries.into_iter().zip(*want) {
            assert_eq!(rt; e, *want);
        }
    }
    Ok(())
}

// A summary, which entry of it, from 0, its place and its octets.
static PARTS: [(&[u8], usize, Option<(usize, &[u8])>); 5] = [
    (CSNP, 0, Some((35, FIRST_OCTETS))),
    (CSNP, 2, None),
    (PSNP, 0, Some((19, FIRST_OCTETS))),
    (PSNP, 1, Some((35, SECOND_OCTETS))),
    (BARE_PSNP, 0, None),
];

#[test]
fn reads_parts(rt: HostRuntime) {
    for (frame, k, want) in &PARTS {
        assert_eq!(rt; entry_part(*frame, *k), *want);
    }
}

// A frame, and the place and the octets of its body or its entries. Wrong check octets leave none.
static CONTENTS: [(&[u8], Option<(usize, &[u8])>); 5] = [
    (FIELD_LSP, Some((27, b"\x81\x01\xcc"))),
    (PURGED_FIELD_LSP, Some((27, b"\x81\x01\xcc"))),
    (CSNP, Some((35, TWO_OCTETS))),
    (PSNP, Some((19, TWO_OCTETS))),
    (WRONG_LSP, None),
];

#[test]
fn reads_contents(rt: HostRuntime) {
    for (frame, want) in &CONTENTS {
        assert_eq!(rt; content(*frame), *want);
    }
}

// A frame, and its kind or the header's refusal. Wrong check octets are not the header's.
static KINDS: [(&[u8], Result<Kind, FrameFault>); 6] = [
    (LSP, Ok(Kind::Lsp)),
    (WRONG_LSP, Ok(Kind::Lsp)),
    (CSNP, Ok(Kind::Csnp)),
    (PSNP, Ok(Kind::Psnp)),
    (b"\x83\x1b\x01\x00\x12\x01\x00\x00\x00\x1b", Err(Length)),
    (b"\x83", Err(Short(1))),
];

#[test]
fn reads_kinds(rt: HostRuntime) {
    assert_eq!(rt;
        [Kind::Lsp, Kind::Csnp, Kind::Psnp].map(u8::from),
        [18, 24, 26]
    );
    for (frame, want) in &KINDS {
        assert_eq!(rt; numbered(&rt, FrameReader::new(*frame).kind()), *want);
    }
}
