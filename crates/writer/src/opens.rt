// An open summary's methods.
ghost use Rattle.std.specs.Prelude.{◌≡◌, ◌^◌, ◌<◌, true, [], ◌∷◌, ◌++◌, map, nat_lt, None};
ghost use Rattle.octets.specs.Octets.{value};
ghost use Rattle.fault.specs.Order.{unless};
ghost use Rattle.frame.specs.Meaning.{entry_said};
ghost use Rattle.writer.specs.declared.scope.Scope.TheVariants.{Psnp};
ghost use Rattle.writer.specs.Listing.{next_low, inside, in_scope, entry_fault, range_fault};
ghost use Rattle.writer.specs.Summaries.{listed, said_in, summary_said, Adds, Closes};

use crate::scope::Scope;
use crate::summary::{ClosedSummary, Listing, OpenSummary, SummaryRefusal};
use arrayvec::ArrayVec;
use fault::FrameFault;
use frame::Entry;
use octets::{IdRange, LspId, SourceId, before};

impl Listing {
    // No entry yet.
    fn new(source: SourceId) -> Listing
        ensures { (result.source ≡ source) × (result.entries.items ≡ []) }
    {
        Listing {
            source,
            entries: ArrayVec::new(),
        }
    }

    // One entry more, which may follow.
    fn push(&mut self, e: Entry)
        requires may { entry_fault self.old.entries.items e ≡ None }
        requires under { (value e.id < 256 ^ 8) × (e.number < 256 ^ 4) }
        ensures { (self.new.source ≡ self.old.source) × (self.new.entries.items ≡ self.old.entries.items ++ e ∷ []) }
    {
        self.entries.push(e);
    }
}

impl OpenSummary {
    // A summary of this source with no entry yet.
    pub fn begin(source: SourceId) -> OpenSummary
        ensures { (result.listing.source ≡ source) × (listed result ≡ []) }
    {
        OpenSummary {
            listing: Listing::new(source),
        }
    }

    // Refuses an entry that the summary cannot take; the summary stays as it is.
    pub fn check_entry(&self, e: Entry) -> Result<(), FrameFault>
        ensures is { result ≡ unless (entry_fault (listed self.now) e) tt }
        ensures under { (value e.id < 256 ^ 8) × (e.number < 256 ^ 4) }
    {
        let entries = &self.listing.entries;
        if is_not_over(entries, e.id) || entries.is_full() || e.lifetime > 1200 {
            return Err(FrameFault::Summary);
        }
        Ok(())
    }

    // Takes an entry; with a refusal the summary comes back as it was.
    pub fn add(mut self, e: Entry) -> Result<OpenSummary, SummaryRefusal>
        ensures { Adds self e result }
    {
        match self.check_entry(e) {
            Ok(()) => {
                self.listing.push(e);
                Ok(self)
            }
            // Written out here and in `close_csnp`: a function for it would take the same two and be named instead.
            Err(fault) => Err(SummaryRefusal {
                summary: self,
                fault,
            }),
        }
    }

    // Refuses a range that ends before it starts or that an entry is not in; the summary stays as it is.
    pub fn check_range(&self, range: IdRange) -> Result<(), FrameFault>
        ensures is { result ≡ unless (range_fault (listed self.now) range) tt }
        ensures under { value range.end < 256 ^ 8 }
    {
        if range.is_empty() || !are_inside(&self.listing.entries, range) {
            return Err(FrameFault::Summary);
        }
        Ok(())
    }

    // Closes a CSNP; with a refusal the summary comes back as it was.
    pub fn close_csnp(self, range: IdRange) -> Result<ClosedSummary, SummaryRefusal>
        ensures { Closes self range result }
    {
        match self.check_range(range) {
            Ok(()) => Ok(self.closed(Scope::Csnp(range))),
            Err(fault) => Err(SummaryRefusal {
                summary: self,
                fault,
            }),
        }
    }

    // Closes a PSNP, whose range is always the whole.
    pub fn close_psnp(self) -> ClosedSummary
        ensures { summary_said result ≡ said_in Psnp (value self.listing.source) (map entry_said (listed self)) }
    {
        self.closed(Scope::Psnp)
    }

    // Closes it with a scope that its entries suit.
    fn closed(self, scope: Scope) -> ClosedSummary
        requires { in_scope scope (listed self) ≡ true }
        ensures { summary_said result ≡ said_in scope (value self.listing.source) (map entry_said (listed self)) }
    {
        let OpenSummary { listing } = self;
        ClosedSummary { listing, scope }
    }
}

// Whether an identifier is not over the last one listed.
fn is_not_over(entries: &[Entry], id: LspId) -> bool
    ensures { result ≡ nat_lt (value id) (next_low 0 entries.now) }
{
    entries.last().is_some_and(|last| !before(last.id, id))
}

// Whether every identifier is in the range.
fn are_inside(entries: &[Entry], range: IdRange) -> bool
    ensures { result ≡ inside range entries.now }
{
    entries.iter().all(|e| range.contains(e.id))
}
