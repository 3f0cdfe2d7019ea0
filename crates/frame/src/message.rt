// What frames say.
use octets::{CheckOctets, IdRange, LspId, SourceId};

// An LSP. Lifetime 0 says that the record is purged: the format's own number, since what is read is written again octet for octet.
// It has an entry's fields as its own, not as one: they are read and written as an entry by one function each, and named everywhere else.
#[derive(Clone, Copy, PartialEq, Eq, Debug)]
pub struct Lsp<'a> {
    pub lifetime: u16,
    pub id: LspId,
    pub number: u32,
    pub check: CheckOctets,
    // the flag octet
    pub flags: u8,
    // whole fields
    pub body: &'a [u8],
}

// A record as a summary lists it.
#[derive(Clone, Copy, PartialEq, Eq, Debug, Default)]
pub struct Entry {
    pub lifetime: u16,
    pub id: LspId,
    pub number: u32,
    pub check: CheckOctets,
}

// The entries of a summary, 16 octets each and at most 15, as a part of the caller's frame with its place.
#[derive(Clone, Copy, PartialEq, Eq, Debug)]
pub struct Entries<'a> {
    pub(crate) octets: &'a [u8],
    pub(crate) place: u16,
}

#[derive(Clone, Copy, PartialEq, Eq, Debug)]
pub struct Csnp<'a> {
    pub source: SourceId,
    pub range: IdRange,
    pub entries: Entries<'a>,
}

// A type of its own beside `Csnp`: a PSNP has no range.
#[derive(Clone, Copy, PartialEq, Eq, Debug)]
pub struct Psnp<'a> {
    pub source: SourceId,
    pub entries: Entries<'a>,
}

#[derive(Clone, Copy, PartialEq, Eq, Debug)]
pub enum Message<'a> {
    Lsp(Lsp<'a>),
    Csnp(Csnp<'a>),
    Psnp(Psnp<'a>),
}
