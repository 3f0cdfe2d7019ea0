// Summaries as they are made.
ghost use Rattle.std.specs.Prelude.{◌≡◌, ◌^◌, ◌<◌, ◌≤◌, true, length};
ghost use Rattle.octets.specs.Octets.{value};
ghost use Rattle.writer.specs.Listing.{rises, in_scope};

use crate::scope::Scope;
use arrayvec::ArrayVec;
use fault::FrameFault;
use frame::Entry;
use octets::SourceId;

// What a summary lists: at most 15 entries, their identifiers rising.
#[derive(Drop, Debug)]
pub(crate) struct Listing {
    pub(crate) source: SourceId,
    pub(crate) entries: ArrayVec<Entry, 15>,
    // Two bounds that the types have too, so that they can be told of any listing.
    ghost sized: { value source < 256 ^ 7 },
    ghost few: { length entries.items ≤ 15 },
    ghost right: { rises 0 entries.items ≡ true },
}

// A summary that was begun and takes entries.
#[derive(Drop, Debug)]
pub struct OpenSummary {
    pub(crate) listing: Listing,
}

// A summary that was closed and can be written out.
#[derive(Drop, Debug)]
pub struct ClosedSummary {
    pub(crate) listing: Listing,
    pub(crate) scope: Scope,
    ghost scoped: { in_scope scope listing.entries.items ≡ true },
}

// What was refused, and the summary as it was.
#[derive(Drop, Debug)]
pub struct SummaryRefusal {
    pub summary: OpenSummary,
    pub fault: FrameFault,
}

impl From<SummaryRefusal> for FrameFault {
    ghost from_gives = { λ refusal fault. fault ≡ refusal.fault };

    fn from(refusal: SummaryRefusal) -> FrameFault {
        refusal.fault
    }
}
