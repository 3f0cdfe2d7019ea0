// One router's records in the table.
ghost use Rattle.std.specs.Prelude.{◌≡◌, ◌≤◌, true, cond, [], length, is_ok, MatchResult};
ghost use Rattle.std.specs.Ordering.{nat_cmp};
ghost use Rattle.fault.specs.declared.CallFault.TheVariants.{Full};
ghost use Rattle.fault.specs.Order.{fails, unless};
ghost use Rattle.octets.specs.Octets.{value};
ghost use Rattle.store.specs.Lists.{key_of, rises, lookup, placed, without, nth as nth_of};
ghost use Rattle.store.specs.Calls.{is_full};
ghost use Rattle.store.specs.Search.{IsAt, IsGap};

use arrayvec::ArrayVec;
use fault::CallFault;
use octets::{LspId, order};
use record::Record;
use std::cmp::Ordering;

// How the identifier of a record stands to another.
fn order_of(item: &Record, id: LspId) -> Ordering
    ensures { result ≡ nat_cmp (key_of item.now) (value id) }
{
    order(item.id(), id)
}

// At most 32 records, by rising identifier. No model: the laws of `Store` read off each row that its records rise.
#[derive(Drop)]
pub(crate) struct Row {
    records: ArrayVec<Record, 32>,
    ghost few: { length records.items ≤ 32 },
    ghost rising: { rises records.items ≡ true },
}

impl Row {
    // The row with no record.
    pub(crate) fn new() -> Row
        ensures { result.records.items ≡ [] }
    {
        Row {
            records: ArrayVec::new(),
        }
    }

    // The place of the record of an identifier, or else the place where it belongs.
    fn search(&self, id: LspId) -> Result<usize, usize>
        ensures { MatchResult result (IsAt self.now.records.items (value id)) (IsGap self.now.records.items (value id)) }
    {
        self.records
            .as_slice()
            .binary_search_by(|item| order_of(item, id))
    }

    pub(crate) fn find(&self, id: LspId) -> Option<Record>
        ensures { result ≡ lookup (value id) self.now.records.items }
    {
        match self.search(id) {
            Ok(at) => Some(self.records[at]),
            Err(_) => None,
        }
    }

    pub(crate) fn count(&self) -> usize
        ensures { result ≡ length self.now.records.items }
    {
        self.records.len()
    }

    pub(crate) fn nth(&self, n: usize) -> Option<Record>
        ensures { result ≡ nth_of self.now.records.items n }
    {
        self.records.as_slice().get(n).copied()
    }

    #[tactic(auto, using(crate::proofs::Places::row_steps))]
    pub(crate) fn set(&mut self, item: Record) -> Result<(), CallFault>
        ensures is { result ≡ unless (fails (is_full item self.old.records.items) Full) tt }
        ensures after { self.new.records.items ≡ cond (is_ok result) (placed item self.old.records.items) self.old.records.items }
    {
        match self.search(item.id()) {
            Ok(at) => {
                self.records[at] = item;
                Ok(())
            }
            Err(at) => self
                .records
                .try_insert(at, item)
                .map_err(|_| CallFault::Full),
        }
    }

    #[tactic(auto, using(crate::proofs::Places::row_steps))]
    pub(crate) fn remove(&mut self, id: LspId) -> Option<Record>
        ensures is { result ≡ lookup (value id) self.old.records.items }
        ensures after { self.new.records.items ≡ without (value id) self.old.records.items }
    {
        match self.search(id) {
            Ok(at) => Some(self.records.remove(at)),
            Err(_) => None,
        }
    }
}
