// Writing LSPs.
use crate::frames::*;
use fault::FrameFault::{self, Body, Check, Field, Length, Lifetime, Number, Size};
use frame::Lsp;
use octets::CheckOctets;
use std::process::Abort;
use std::test::Fail;
use writer::{computed_check, write_lsp};

// What is written, and that the octets behind it stay.
#[test]
fn writes_lsps(rt: HostRuntime) {
    let mut buf = [0xaa; 275];
    let m = lsp(1200, 1, OF_FIELD, b"\x81\x01\xcc");
    assert_eq!(rt; write_lsp(&m, &mut buf), Ok(30));
    assert_eq!(rt; &buf[0..30], &FIELD_LSP[..]);
    assert_eq!(rt; &buf[30..], &[0xaa; 245][..]);
}

const ONES: CheckOctets = CheckOctets { x: 1, y: 1 };

// A lifetime, a number and a body.
static LIVES: [(u16, u32, &[u8]); 4] = [
    (1, 1, &[0; 100]),
    (1200, 4294967295, &[1; 99]),
    (0, 256, b"\x09\x03\x01\x02\x03"),
    (600, 65536, b""),
];

fn check_trip(rt: &impl Abort, lifetime: u16, number: u32, body: &[u8]) -> Result<(), Fail> {
    let mut m = lsp(lifetime, number, CheckOctets::default(), body);
    m.check = computed_check(&m);
    let mut buf = [0xaa; 275];
    let n = write_lsp(&m, &mut buf)?;
    assert!(rt; n <= 275);
    let frame = &buf[..n];
    assert_eq!(rt; lsp_of(frame), Some(m));
    assert_eq!(rt; content(frame), Some((27, body)));
    Ok(())
}

// What is written with computed check octets is read again as it was.
#[test]
fn reads_what_it_writes(rt: HostRuntime) -> Result<(), Fail> {
    for (lifetime, number, body) in &LIVES {
        check_trip(&rt, *lifetime, *number, *body)?;
    }
    Ok(())
}

// A buffer's size, an LSP's lifetime, number, check octets and body, and the answer.
struct Case {
    name: &'static str,
    room: usize,
    lifetime: u16,
    number: u32,
    check: CheckOctets,
    body: &'static [u8],
    want: Result<usize, FrameFault>,
}

// Cases, one in a line: name, room, lifetime, number, check octets, body => answer.
macro_rules! cases {
    ($($name:literal, $room:expr, $lifetime:expr, $number:expr, $check:expr, $body:expr => $want:expr;)*) => {
        &[$(Case {
            name: $name,
            room: $room,
            lifetime: $lifetime,
            number: $number,
            check: $check,
            body: $body,
            want: $want,
        }),*]
    };
}

static CASES: &[Case] = cases! {
    "no buffer", 0, 0, 1, ONES, b"" => Err(Size);
    "274", 274, 0, 1, ONES, b"" => Err(Size);
    "275", 275, 0, 1, ONES, b"" => Ok(27);
    "276", 276, 1200, 1, OF_ONE, b"" => Ok(27);
    "lifetime", 275, 1201, 1, OF_ONE, b"" => Err(Lifetime(10));
    "number 0", 275, 9, 0, OF_ONE, b"" => Err(Number);
    "both", 275, 1201, 0, OF_ONE, b"" => Err(Lifetime(10));
    "number 2", 275, 9, 2, OF_TWO, b"" => Ok(27);
    "check octets", 275, 9, 2, OF_ONE, b"" => Err(Check);
    "broken field", 275, 0, 1, ONES, b"\x01\x00\x08\x01" => Err(Field(29));
    "field, number", 275, 0, 0, ONES, b"\x08" => Err(Field(27));
    "whole fields", 275, 0, 1, ONES, b"\x01\x00\x08\x01\x00" => Ok(32);
    "buffer, lifetime", 274, 1201, 1, ONES, b"" => Err(Size);
    "body of 100", 275, 0, 1, ONES, &[0; 100] => Ok(127);
    "body of 101", 275, 0, 1, ONES, &[0; 101] => Err(Body(27));
    "body of 248", 300, 0, 1, ONES, &[0; 248] => Err(Body(27));
    "body of 249", 300, 0, 1, ONES, &[0; 249] => Err(Length);
    "249 in 274", 274, 0, 1, ONES, &[0; 249] => Err(Size);
    "body of 1000", 275, 0, 1, ONES, &[0; 1000] => Err(Length);
};

// A refusal leaves a buffer of octets AA as it was.
#[test]
fn refuses_lsps(rt: HostRuntime) {
    for case in CASES {
        assert!(rt; case.room <= 300);
        let mut octets = [0xaa; 300];
        let buf = &mut octets[..case.room];
        let m = lsp(case.lifetime, case.number, case.check, case.body);
        assert_eq!(rt;
            numbered(&rt, write_lsp(&m, buf)),
            case.want,
            "{}",
            case.name
        );
        if case.want.is_err() {
            assert_eq!(rt; octets, [0xaa; 300], "{}", case.name);
        }
    }
}
