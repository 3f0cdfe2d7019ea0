// Identifiers, and their order.
ghost use Rattle.std.specs.Prelude.{◌≡◌, ◌<◌, Decides, nat_lt};
ghost use Rattle.std.specs.Ordering.{MatchOrdering};
ghost use Rattle.octets.specs.Octets.{value};
ghost use Rattle.octets.specs.Ranges.{empty, in_range};

use std::cmp::Ordering;

// A system's identifier. Identifiers are arrays by value, not types of their own: a rule of the project.
pub type SystemId = [u8; 6];

// A system's identifier and the octet of a pseudonode.
pub type SourceId = [u8; 7];

// An LSP's identifier: a system's, the octet of a pseudonode and the octet of a fragment.
pub type LspId = [u8; 8];

// Which of two identifiers comes first, octet by octet: the order of the numbers that they write.
pub fn order(a: LspId, b: LspId) -> Ordering
    ensures ranked { MatchOrdering result (value a < value b) (value a ≡ value b) (value b < value a) }
    ensures same { value a ≡ value b → a ≡ b }
{
    number(a).cmp(&number(b))
}

// The number that an identifier writes.
fn number(id: LspId) -> u64
    ensures { result ≡ value id }
{
    u64::from_be_bytes(id)
}

// Whether two identifiers are the same.
pub fn same(a: LspId, b: LspId) -> bool
    ensures { Decides result (a ≡ b) }
{
    a == b
}

// Whether an identifier comes before another.
pub fn before(a: LspId, b: LspId) -> bool
    ensures { result ≡ nat_lt (value a) (value b) }
{
    order(a, b).is_lt()
}

// The identifiers from a start to an end, both among them.
#[derive(Clone, Copy, PartialEq, Eq, Debug)]
pub struct IdRange {
    pub start: LspId,
    pub end: LspId,
}

impl IdRange {
    // Every identifier: from eight 00 to eight FF.
    pub const ALL: IdRange = IdRange {
        start: [0; 8],
        end: [0xff; 8],
    };

    // Whether it ends before it starts.
    pub fn is_empty(self) -> bool
        ensures { result ≡ empty self }
    {
        before(self.end, self.start)
    }

    // Whether an identifier is one of these.
    pub fn contains(self, id: LspId) -> bool
        ensures { result ≡ in_range self (value id) }
    {
        !before(id, self.start) && !before(self.end, id)
    }
}
