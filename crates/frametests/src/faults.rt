// The refusals of frames that are read, with their places.
use crate::frames::*;
use fault::FrameFault::{
    self, Body, Check, Field, Fixed, Header, Length, Lifetime, Number, Order, Range, Short, Tail,
};
use frame::Kind;
use std::alloc::Global;
use std::process::Abort;
use std::test::Fail;

// A frame, octets to change in it at their places, and the answer to what that makes.
struct Case {
    name: &'static str,
    frame: &'static [u8],
    changes: &'static [(usize, u8)],
    want: Result<Kind, FrameFault>,
}

// Cases, one in a line: name, frame, changes => answer.
macro_rules! cases {
    ($($name:literal, $frame:expr, $changes:expr => $want:expr;)*) => {
        &[$(Case { name: $name, frame: $frame, changes: &$changes, want: $want }),*]
    };
}

// Checks that each case is answered as it says.
fn check_cases(rt: &impl Abort, heap: Global, cases: &[Case]) -> Result<(), Fail> {
    for case in cases {
        let mut frame = case.frame.to_vec(heap)?;
        for (at, octet) in case.changes {
            if let Some(place) = frame.get_mut(*at) {
                *place = *octet;
            }
        }
        assert_eq!(rt; numbered(rt, answer(&frame)), case.want, "{}", case.name);
    }
    Ok(())
}

// The front of a frame, so many entries, octets behind them, the frame's size, and the answer to it.
struct Listing {
    front: &'static [u8],
    entries: u8,
    behind: &'static [u8],
    size: usize,
    want: Result<Kind, FrameFault>,
}

// Listings, one in a line: front, entries, octets behind them, size => answer.
macro_rules! listings {
    ($($front:expr, $entries:expr, $behind:expr, $size:expr => $want:expr;)*) => {
        &[$(Listing { front: $front, entries: $entries, behind: $behind, size: $size, want: $want }),*]
    };
}

// An LSP's octets behind its header are a body: zeros are fields of two octets. 09 00 is a field of no entries.
static LISTINGS: &[Listing] = listings! {
    PURGED_LSP, 0, &[0; 2], 29 => Ok(Kind::Lsp);
    PURGED_LSP, 0, &[0; 100], 127 => Ok(Kind::Lsp);
    PURGED_LSP, 0, &[0; 101], 128 => Err(Body(27));
    PURGED_LSP, 0, &[0; 248], 275 => Err(Body(27));
    PURGED_LSP, 0, &[0; 249], 276 => Err(Length);
    BARE_CSNP, 0, b"\x09\0", 35 => Err(Tail(33));
    BARE_CSNP, 1, b"", 51 => Ok(Kind::Csnp);
    BARE_CSNP, 1, b"\0", 52 => Err(Tail(33));
    BARE_CSNP, 9, b"", 179 => Ok(Kind::Csnp);
    BARE_CSNP, 10, b"", 195 => Err(Order(181));
    BARE_CSNP, 16, b"", 291 => Err(Length);
    WIDE_CSNP, 15, b"", 275 => Ok(Kind::Csnp);
    WIDE_CSNP, 15, b"\0", 276 => Err(Length);
    BARE_PSNP, 0, b"\x09\0", 19 => Err(Tail(17));
    BARE_PSNP, 1, b"", 35 => Ok(Kind::Psnp);
    BARE_PSNP, 1, b"\x09\0", 37 => Err(Tail(17));
    BARE_PSNP, 15, b"", 259 => Ok(Kind::Psnp);
    BARE_PSNP, 15, b"\0", 260 => Err(Tail(17));
    BARE_PSNP, 16, b"", 275 => Err(Tail(17));
    BARE_PSNP, 16, b"\0", 276 => Err(Length);
};

#[test]
fn lengths(rt: HostRuntime) -> Result<(), Fail> {
    for case in LISTINGS {
        let front = summary_frame(rt.alloc(), case.front, case.entries)?;
        let frame = joined(rt.alloc(), &front, case.behind)?;
        assert_eq!(rt; frame.len(), case.size);
        assert_eq!(rt; numbered(&rt, answer(&frame)), case.want);
    }
    Ok(())
}

// An LSP that is cut. Its length says 27.
#[test]
fn cut_lsps(rt: HostRuntime) {
    for n in 0..27 {
        let want = if n < 8 { Short(n) } else { Length };
        assert_eq!(rt; numbered(&rt, answer(&LSP[..n])), Err(want));
    }
}

// The headers' refusals. The octets 8 and 9 are the length.
static HEADERS: &[Case] = cases! {
    "nothing", &[], [] => Err(Short(0));
    "an LSP", LSP, [] => Ok(Kind::Lsp);
    "an LSP with a body", FIELD_LSP, [] => Ok(Kind::Lsp);
    "an empty CSNP", BARE_CSNP, [] => Ok(Kind::Csnp);
    "a CSNP", CSNP, [] => Ok(Kind::Csnp);
    "an empty PSNP", BARE_PSNP, [] => Ok(Kind::Psnp);
    "a PSNP", PSNP, [] => Ok(Kind::Psnp);
    "seven wrong octets", &[0; 7], [] => Err(Short(7));
    "eight wrong octets", &[0; 8], [] => Err(Fixed(0));
    "276 wrong octets", &[0; 276], [] => Err(Fixed(0));
    "octet 0", LSP, [(0, 0x82)] => Err(Fixed(0));
    "octet 2", CSNP, [(2, 0)] => Err(Fixed(2));
    "octet 3", PSNP, [(3, 6)] => Err(Fixed(3));
    "octet 5", LSP, [(5, 2)] => Err(Fixed(5));
    "octet 6", LSP, [(6, 1)] => Err(Fixed(6));
    "octet 7", LSP, [(7, 3)] => Err(Fixed(7));
    "octets 7 and 3", LSP, [(7, 1), (3, 1)] => Err(Fixed(3));
    "octet 7 and the kind", LSP, [(7, 1), (4, 19)] => Err(Fixed(7));
    "octet 7 and the header", LSP, [(7, 1), (1, 0)] => Err(Fixed(7));
    "kind 17", LSP, [(4, 17)] => Err(FrameFault::Kind);
    "kind 20", LSP, [(4, 20)] => Err(FrameFault::Kind);
    "kind 25", CSNP, [(4, 25)] => Err(FrameFault::Kind);
    "kind 27", PSNP, [(4, 27)] => Err(FrameFault::Kind);
    "kind and header", LSP, [(4, 0), (1, 0)] => Err(FrameFault::Kind);
    "header 26", LSP, [(1, 26)] => Err(Header);
    "header 28", LSP, [(1, 28)] => Err(Header);
    "an LSP's header", CSNP, [(1, 27)] => Err(Header);
    "a CSNP's header", PSNP, [(1, 33)] => Err(Header);
    "a PSNP's header", LSP, [(1, 17)] => Err(Header);
    "header and length", LSP, [(1, 28), (9, 28)] => Err(Header);
    "length 26", LSP, [(9, 26)] => Err(Length);
    "length 28", LSP, [(9, 28)] => Err(Length);
    "length 283", LSP, [(8, 1)] => Err(Length);
    "length 27 of 30", FIELD_LSP, [(9, 27)] => Err(Length);
    "length 33 of 67", CSNP, [(9, 33)] => Err(Length);
    "length 50 of 51", PSNP, [(9, 50)] => Err(Length);
    "a CSNP of 27", LSP, [(1, 33), (4, 24)] => Err(Length);
    "an LSP of 17", BARE_PSNP, [(1, 27), (4, 18)] => Err(Length);
    "length and lifetime", LSP, [(9, 28), (10, 5)] => Err(Length);
    "length and field", FIELD_LSP, [(9, 31), (28, 2)] => Err(Length);
};

#[test]
fn headers(rt: HostRuntime) -> Result<(), Fail> {
    check_cases(&rt, rt.alloc(), HEADERS)
}

// The refusals of an LSP behind its header. Its check octets are F6 06 or 30 7D.
static LSPS: &[Case] = cases! {
    "field one short", FIELD_LSP, [(28, 2)] => Err(Field(27));
    "field far short", FIELD_LSP, [(28, 255)] => Err(Field(27));
    "field one long", FIELD_LSP, [(28, 0)] => Err(Field(29));
    "field and number", FIELD_LSP, [(28, 0), (23, 0)] => Err(Field(29));
    "field and lifetime", FIELD_LSP, [(28, 2), (10, 5)] => Err(Field(27));
    "field and check", FIELD_LSP, [(28, 2), (24, 1)] => Err(Field(27));
    "lifetime 1", LSP, [(10, 0), (11, 1)] => Ok(Kind::Lsp);
    "lifetime 1199", LSP, [(11, 0xaf)] => Ok(Kind::Lsp);
    "lifetime 1201", LSP, [(11, 0xb1)] => Err(Lifetime(10));
    "lifetime 65535", LSP, [(10, 255), (11, 255)] => Err(Lifetime(10));
    "number 0", LSP, [(23, 0)] => Err(Number);
    "lifetime and number", LSP, [(11, 0xb1), (23, 0)] => Err(Lifetime(10));
    "lifetime and check", LSP, [(11, 0xb1), (24, 0)] => Err(Lifetime(10));
    "number and check", LSP, [(23, 0), (25, 9)] => Err(Number);
    "check octet 24", LSP, [(24, 0xf7)] => Err(Check);
    "check octet 25", LSP, [(25, 0x05)] => Err(Check);
    "check octets swapped", LSP, [(24, 6), (25, 0xf6)] => Err(Check);
    "check octets 0", LSP, [(24, 0), (25, 0)] => Err(Check);
    "identifier", LSP, [(19, 1)] => Err(Check);
    "number 2", LSP, [(23, 2)] => Err(Check);
    "number 2 right", LSP, [(23, 2), (24, 0xf4), (25, 7)] => Ok(Kind::Lsp);
    "number 124 right", LSP, [(23, 124), (24, 255), (25, 0x81)] => Ok(Kind::Lsp);
    "0 for 255", LSP, [(23, 124), (24, 0), (25, 0x81)] => Err(Check);
    "flag octet", LSP, [(26, 3)] => Err(Check);
    "field's code", FIELD_LSP, [(27, 0x82)] => Err(Check);
    "field's value", FIELD_LSP, [(29, 0xcd)] => Err(Check);
    "body's check", FIELD_LSP, [(24, 0xf6), (25, 6)] => Err(Check);
    "purged", LSP, [(10, 0), (11, 0)] => Ok(Kind::Lsp);
    "purged, no check", LSP, [(10, 0), (11, 0), (24, 0), (25, 0)] => Ok(Kind::Lsp);
    "purged, number 0", LSP, [(10, 0), (11, 0), (23, 0)] => Err(Number);
    "purged, field", FIELD_LSP, [(10, 0), (11, 0), (28, 2)] => Err(Field(27));
};

#[test]
fn lsp_faults(rt: HostRuntime) -> Result<(), Fail> {
    check_cases(&rt, rt.alloc(), LSPS)
}

// The refusals of a summary behind its header. A PSNP's entries have no bounds.
static SUMMARIES: &[Case] = cases! {
    "code 8", PSNP, [(17, 8)] => Err(Tail(17));
    "code 10", CSNP, [(33, 10)] => Err(Tail(33));
    "no entries", PSNP, [(18, 0)] => Err(Tail(17));
    "one entry of two", PSNP, [(18, 16)] => Err(Tail(17));
    "31 octets", PSNP, [(18, 31)] => Err(Tail(17));
    "33 octets", PSNP, [(18, 33)] => Err(Tail(17));
    "48 octets", CSNP, [(34, 48)] => Err(Tail(33));
    "two fields", PSNP, [(18, 16), (35, 9), (36, 14)] => Err(Tail(17));
    "tail and range", CSNP, [(33, 8), (17, 1)] => Err(Tail(33));
    "tail and lifetime", PSNP, [(18, 0), (19, 5)] => Err(Tail(17));
    "start over end", CSNP, [(22, 10)] => Err(Range);
    "start's octet 0", BARE_CSNP, [(17, 1)] => Err(Range);
    "start's octet 7", BARE_CSNP, [(22, 9), (24, 1)] => Err(Range);
    "start is end", BARE_CSNP, [(22, 9)] => Ok(Kind::Csnp);
    "end's octet 7", BARE_CSNP, [(22, 9), (24, 1), (32, 1)] => Ok(Kind::Csnp);
    "start and lifetime", CSNP, [(22, 10), (35, 5)] => Err(Range);
    "first under start", CSNP, [(24, 1)] => Err(Order(37));
    "second over end", CSNP, [(30, 1)] => Err(Order(53));
    "both over end", CSNP, [(22, 0), (30, 0)] => Err(Order(37));
    "second at end", CSNP, [(58, 9)] => Ok(Kind::Csnp);
    "second past end", CSNP, [(58, 9), (60, 1)] => Err(Order(53));
    "equal", CSNP, [(58, 1)] => Err(Order(53));
    "falling", CSNP, [(42, 3)] => Err(Order(53));
    "first lifetime", CSNP, [(36, 0xb1)] => Err(Lifetime(35));
    "second lifetime", CSNP, [(51, 5)] => Err(Lifetime(51));
    "lifetime and order", CSNP, [(51, 5), (58, 1)] => Err(Lifetime(51));
    "order, then lifetime", CSNP, [(51, 5), (24, 1)] => Err(Order(37));
    "lifetime, then order", CSNP, [(35, 5), (58, 1)] => Err(Lifetime(35));
    "equal in a PSNP", PSNP, [(42, 1)] => Err(Order(37));
    "falling in a PSNP", PSNP, [(42, 0)] => Err(Order(37));
    "lower octet 7", PSNP, [(28, 1), (42, 1)] => Err(Order(37));
    "higher octet 7", PSNP, [(42, 1), (44, 1)] => Ok(Kind::Psnp);
    "lower octet 0", PSNP, [(21, 1)] => Err(Order(37));
    "higher octet 0", PSNP, [(37, 1), (42, 0)] => Ok(Kind::Psnp);
    "first identifier 0", PSNP, [(26, 0)] => Ok(Kind::Psnp);
    "first in a PSNP", PSNP, [(20, 0xb1)] => Err(Lifetime(19));
    "second in a PSNP", PSNP, [(35, 4), (36, 0xb1)] => Err(Lifetime(35));
    "second of 1200", PSNP, [(35, 4), (36, 0xb0)] => Ok(Kind::Psnp);
    "lifetime 0", PSNP, [(19, 0), (20, 0)] => Ok(Kind::Psnp);
    "number 0", PSNP, [(32, 0)] => Ok(Kind::Psnp);
    "no check octets", PSNP, [(33, 0), (34, 0)] => Ok(Kind::Psnp);
};

#[test]
fn summary_faults(rt: HostRuntime) -> Result<(), Fail> {
    check_cases(&rt, rt.alloc(), SUMMARIES)
}
