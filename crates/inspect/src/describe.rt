// What is said of a frame.
use crate::rewrite::is_written_back;
use frame::{Csnp, Entries, Entry, FrameReader, Lsp, Message, Psnp};
use octets::{ShownId, ShownOctet, ShownSource, read_field};
use std::fmt;
use std::fmt::{Formatter, Write};

// A frame that is to be described: in one line, or in one and an indented line for each field or entry; of a refused frame its refusal.
#[derive(Clone, Copy)]
pub struct Described<'a>(pub &'a [u8]);

impl fmt::Display for Described<'_> {
    fn fmt<W: Write>(&self, f: &mut Formatter<W>) -> fmt::Result {
        let message = match FrameReader::new(self.0).message() {
            Ok(message) => message,
            Err(fault) => return writeln!(f, "{fault}"),
        };
        let back = if is_written_back(&message, self.0) {
            "written back the same"
        } else {
            "written back otherwise"
        };
        match message {
            Message::Lsp(m) => describe_lsp(f, &m, back),
            Message::Csnp(m) => describe_csnp(f, &m, back),
            Message::Psnp(m) => describe_psnp(f, &m, back),
        }
    }
}

fn describe_lsp<W: Write>(f: &mut Formatter<W>, m: &Lsp<'_>, back: &str) -> fmt::Result {
    let id = ShownId(m.id);
    let number = m.number;
    let lifetime = m.lifetime;
    let check = m.check;
    let checked = if lifetime == 0 { " not checked" } else { "" };
    let flags = ShownOctet(m.flags);
    writeln!(
        f,
        "LSP {id} number {number:08X} lifetime {lifetime} check {check}{checked} flags {flags}, {back}"
    )?;
    describe_fields(f, m.body)
}

// A line for each field of a body.
fn describe_fields<W: Write>(f: &mut Formatter<W>, body: &[u8]) -> fmt::Result {
    let mut rest = body;
    while let Ok((code, value, more)) = read_field(rest, 0) {
        describe_field(f, code, value)?;
        rest = more;
    }
    Ok(())
}

fn describe_field<W: Write>(f: &mut Formatter<W>, code: u8, value: &[u8]) -> fmt::Result {
    let code = ShownOctet(code);
    let n = value.len();
    write!(f, "  field {code} length {n} value")?;
    for octet in value.iter().copied().map(ShownOctet) {
        write!(f, " {octet}")?;
    }
    writeln!(f)
}

// Its first line differs from a PSNP's in its range; what follows is one function.
fn describe_csnp<W: Write>(f: &mut Formatter<W>, m: &Csnp<'_>, back: &str) -> fmt::Result {
    let source = ShownSource(m.source);
    let start = ShownId(m.range.start);
    let end = ShownId(m.range.end);
    let count = m.entries.count();
    writeln!(
        f,
        "CSNP source {source} from {start} to {end} entries {count}, {back}"
    )?;
    describe_entries(f, &m.entries)
}

fn describe_psnp<W: Write>(f: &mut Formatter<W>, m: &Psnp<'_>, back: &str) -> fmt::Result {
    let source = ShownSource(m.source);
    let count = m.entries.count();
    writeln!(f, "PSNP source {source} entries {count}, {back}")?;
    describe_entries(f, &m.entries)
}

// A line for each entry.
fn describe_entries<W: Write>(f: &mut Formatter<W>, entries: &Entries<'_>) -> fmt::Result {
    for e in entries.iter() {
        describe_entry(f, &e)?;
    }
    Ok(())
}

fn describe_entry<W: Write>(f: &mut Formatter<W>, e: &Entry) -> fmt::Result {
    let id = ShownId(e.id);
    let number = e.number;
    let lifetime = e.lifetime;
    let check = e.check;
    writeln!(
        f,
        "  {id} number {number:08X} lifetime {lifetime} check {check}"
    )
}
