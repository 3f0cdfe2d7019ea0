// Frames written out by hand, and what the tests share.
use fault::FrameFault::{
    self, Body, Check, Field, Fixed, Header, Length, Lifetime, Number, Order, Range, Short, Size,
    Summary, Tail,
};
use frame::{Entries, Entry, FrameReader, Kind, Lsp, Message};
use octets::{CheckOctets, IdRange, LspId, SourceId};
use std::alloc::{AllocError, Global};
use std::process::Abort;

// Identifier 0000.0000.0001.00-00.
pub(crate) const ONE: LspId = [0, 0, 0, 0, 0, 1, 0, 0];

// Identifier 0000.0000.0009.00-00.
pub(crate) const NINE: LspId = [0, 0, 0, 0, 0, 9, 0, 0];

// Source 0000.0000.000A.00.
pub(crate) const SOURCE: SourceId = [0, 0, 0, 0, 0, 10, 0];

// The check octets of an LSP of identifier ONE, number 1 and flag octet 01, without a body.
pub(crate) const OF_ONE: CheckOctets = CheckOctets { x: 0xf6, y: 0x06 };

// The same of number 2.
pub(crate) const OF_TWO: CheckOctets = CheckOctets { x: 0xf4, y: 0x07 };

// The same of number 1 and the body 81 01 CC.
pub(crate) const OF_FIELD: CheckOctets = CheckOctets { x: 0x30, y: 0x7d };

// An LSP: lifetime 1,200, identifier ONE, number 1, check octets F6 06, flag octet 01, no body.
pub(crate) const LSP: &[u8; 27] = b"\x83\x1b\x01\x00\x12\x01\x00\x00\x00\x1b\
    \x04\xb0\x00\x00\x00\x00\x00\x01\x00\x00\x00\x00\x00\x01\xf6\x06\x01";

// The same with the body 81 01 CC.
pub(crate) const FIELD_LSP: &[u8; 30] = b"\x83\x1b\x01\x00\x12\x01\x00\x00\x00\x1e\
    \x04\xb0\x00\x00\x00\x00\x00\x01\x00\x00\x00\x00\x00\x01\x30\x7d\x01\x81\x01\xcc";

// An LSP of lifetime 0, without a body, whose check octets are wrong.
pub(crate) const PURGED_LSP: &[u8; 27] = b"\x83\x1b\x01\x00\x12\x01\x00\x00\x00\x1b\
    \x00\x00\x00\x00\x00\x00\x00\x01\x00\x00\x00\x00\x00\x01\x12\x34\x01";

// The same with the body 81 01 CC.
pub(crate) const PURGED_FIELD_LSP: &[u8; 30] = b"\x83\x1b\x01\x00\x12\x01\x00\x00\x00\x1e\
    \x00\x00\x00\x00\x00\x00\x00\x01\x00\x00\x00\x00\x00\x01\x12\x34\x01\x81\x01\xcc";

// A CSNP of SOURCE without entries, from ONE to NINE.
pub(crate) const BARE_CSNP: &[u8; 33] = b"\x83\x21\x01\x00\x18\x01\x00\x00\x00\x21\
    \x00\x00\x00\x00\x00\x0a\x00\x00\x00\x00\x00\x00\x01\x00\x00\x00\x00\x00\x00\x00\x09\x00\x00";

// The same from eight 00 to eight FF.
pub(crate) const WIDE_CSNP: &[u8; 33] = b"\x83\x21\x01\x00\x18\x01\x00\x00\x00\x21\
    \x00\x00\x00\x00\x00\x0a\x00\x00\x00\x00\x00\x00\x00\x00\x00\xff\xff\xff\xff\xff\xff\xff\xff";

// From ONE to NINE with two entries, of ONE at 35 and of 0000.0000.0002.00-00 at 51.
pub(crate) const CSNP: &[u8; 67] = b"\x83\x21\x01\x00\x18\x01\x00\x00\x00\x43\
    \x00\x00\x00\x00\x00\x0a\x00\x00\x00\x00\x00\x00\x01\x00\x00\x00\x00\x00\x00\x00\x09\x00\x00\
    \x09\x20\x04\xb0\x00\x00\x00\x00\x00\x01\x00\x00\x00\x00\x00\x01\xf6\x06\
    \x00\x07\x00\x00\x00\x00\x00\x02\x00\x00\x01\x02\x03\x04\xab\xcd";

// A PSNP of SOURCE without entries.
pub(crate) const BARE_PSNP: &[u8; 17] = b"\x83\x11\x01\x00\x1a\x01\x00\x00\x00\x11\
    \x00\x00\x00\x00\x00\x0a\x00";

// The same with the two entries, at 19 and 35.
pub(crate) const PSNP: &[u8; 51] = b"\x83\x11\x01\x00\x1a\x01\x00\x00\x00\x33\
    \x00\x00\x00\x00\x00\x0a\x00\
    \x09\x20\x04\xb0\x00\x00\x00\x00\x00\x01\x00\x00\x00\x00\x00\x01\xf6\x06\
    \x00\x07\x00\x00\x00\x00\x00\x02\x00\x00\x01\x02\x03\x04\xab\xcd";

// The refusals that the tests meet, with their numbers and places.
static REFUSALS: [(FrameFault, u8, usize); 40] = [
    (Short(0), 1, 0),
    (Short(1), 1, 1),
    (Short(2), 1, 2),
    (Short(3), 1, 3),
    (Short(4), 1, 4),
    (Short(5), 1, 5),
    (Short(6), 1, 6),
    (Short(7), 1, 7),
    (Fixed(0), 2, 0),
    (Fixed(2), 2, 2),
    (Fixed(3), 2, 3),
    (Fixed(5), 2, 5),
    (Fixed(6), 2, 6),
    (Fixed(7), 2, 7),
    (FrameFault::Kind, 3, 4),
    (Header, 4, 1),
    (Length, 4, 8),
    (Size, 4, 0),
    (Field(0), 5, 0),
    (Field(3), 5, 3),
    (Field(27), 5, 27),
    (Field(29), 5, 29),
    (Field(30), 5, 30),
    (Field(31), 5, 31),
    (Field(98), 5, 98),
    (Body(0), 5, 0),
    (Body(27), 5, 27),
    (Tail(17), 5, 17),
    (Tail(33), 5, 33),
    (Lifetime(10), 6, 10),
    (Lifetime(19), 6, 19),
    (Lifetime(35), 6, 35),
    (Lifetime(51), 6, 51),
    (Number, 6, 20),
    (Range, 6, 17),
    (Order(37), 6, 37),
    (Order(53), 6, 53),
    (Order(181), 6, 181),
    (Summary, 6, 0),
    (Check, 7, 24),
];

// An answer, once its refusal, if it is one, is found to have the number and the place of the table.
pub(crate) fn numbered<T>(rt: &impl Abort, answer: Result<T, FrameFault>) -> Result<T, FrameFault> {
    if let Err(fault) = &answer {
        assert!(rt; REFUSALS.contains(&(*fault, fault.number(), fault.place())));
    }
    answer
}

// The kind of a frame that is read, or the refusal.
pub(crate) fn answer(frame: &[u8]) -> Result<Kind, FrameFault> {
    match FrameReader::new(frame).message()? {
        Message::Lsp(_) => Ok(Kind::Lsp),
        Message::Csnp(_) => Ok(Kind::Csnp),
        Message::Psnp(_) => Ok(Kind::Psnp),
    }
}

// Sets a frame's length to the octets that it has.
fn set_length(frame: &mut Vec<u8>) {
    let [.., high, low] = frame.len().to_be_bytes();
    if frame.len() >= 10 {
        frame[8..10].copy_from_slice(&[high, low]);
    }
}

// The front of a frame, with more octets behind it and its length set.
pub(crate) fn joined(heap: Global, front: &[u8], more: &[u8]) -> Result<Vec<u8>, AllocError> {
    let mut frame = front.to_vec(heap)?;
    frame.extend_from_slice(more)?;
    set_length(&mut frame);
    Ok(frame)
}

// What the two entries say.
pub(crate) const FIRST: Entry = Entry {
    lifetime: 1200,
    id: ONE,
    number: 1,
    check: OF_ONE,
};

pub(crate) const SECOND: Entry = Entry {
    lifetime: 7,
    id: [0, 0, 0, 0, 0, 2, 0, 0],
    number: 0x01020304,
    check: CheckOctets { x: 0xab, y: 0xcd },
};

// An entry of the identifier with this octet at its place 5.
pub(crate) fn entry(at_five: u8) -> Entry {
    Entry {
        lifetime: 1200,
        id: [0, 0, 0, 0, 0, at_five, 0, 0],
        number: 1,
        check: OF_ONE,
    }
}

// A field of so many entries, from entry(1) on. Its length octet is 0 for 16 entries.
fn listing(heap: Global, count: u8) -> Result<Vec<u8>, AllocError> {
    let mut tail = vec![in heap; 9, count % 16 * 16]?;
    for k in 0..count {
        tail.extend_from_slice(b"\x04\xb0\x00\x00\x00\x00\x00")?;
        tail.push(k + 1)?;
        tail.extend_from_slice(b"\x00\x00\x00\x00\x00\x01\xf6\x06")?;
    }
    Ok(tail)
}

// A frame of so many entries, nothing behind the front for none.
pub(crate) fn summary_frame(heap: Global, front: &[u8], count: u8) -> Result<Vec<u8>, AllocError> {
    if count == 0 {
        return front.to_vec(heap);
    }
    joined(heap, front, &listing(heap, count)?)
}

// An LSP of identifier ONE and flag octet 01.
pub(crate) fn lsp(lifetime: u16, number: u32, check: CheckOctets, body: &[u8]) -> Lsp<'_> {
    Lsp {
        lifetime,
        id: ONE,
        number,
        check,
        flags: 1,
        body,
    }
}

// What an LSP says.
pub(crate) fn lsp_of(frame: &[u8]) -> Option<Lsp<'_>> {
    match FrameReader::new(frame).message() {
        Ok(Message::Lsp(m)) => Some(m),
        _ => None,
    }
}

// The source of a summary, and its range: a PSNP may list any identifier.
pub(crate) fn bounds(frame: &[u8]) -> Option<(SourceId, IdRange)> {
    match FrameReader::new(frame).message() {
        Ok(Message::Csnp(m)) => Some((m.source, m.range)),
        Ok(Message::Psnp(m)) => Some((m.source, IdRange::ALL)),
        _ => None,
    }
}

// The entries of a summary.
pub(crate) fn entries_of(frame: &[u8]) -> Option<Entries<'_>> {
    match FrameReader::new(frame).message() {
        Ok(Message::Csnp(m)) => Some(m.entries),
        Ok(Message::Psnp(m)) => Some(m.entries),
        _ => None,
    }
}

// What an entry of a summary says.
pub(crate) fn entry_of(frame: &[u8], k: usize) -> Option<Entry> {
    entries_of(frame)?.entry(k)
}

// The place and the octets of an entry of a summary.
pub(crate) fn entry_part(frame: &[u8], k: usize) -> Option<(usize, &[u8])> {
    entries_of(frame)?.part(k)
}

// The place and the octets of an LSP's body or of a summary's entries.
pub(crate) fn content(frame: &[u8]) -> Option<(usize, &[u8])> {
    FrameReader::new(frame).content().ok()
}
