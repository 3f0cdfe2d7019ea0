// The table, a store of eight rows.
ghost use Rattle.std.specs.Prelude.{◌≡◌, [], length, replicate};
ghost use Rattle.std.proofs.Common.{◌∙◌};
ghost use Rattle.std.proofs.lemmas.List.{length-map};
ghost use Rattle.store.specs.Kept.{kept, all_kept, all_rise, all_few};

use crate::Store;
use crate::row::Row;
use fault::CallFault;
use octets::LspId;
use record::Record;
use std::array;

#[derive(Drop)]
pub struct Table {
    rows: [Row; 8],
    ghost eight: { length rows ≡ 8 },
}

impl Store for Table {
    ghost lists = { λ s. all_kept s.rows };

    ghost routers = { λ s. length-map s.rows kept ∙ s.eight };

    ghost rising = { λ s r. all_rise s.rows r };

    ghost few = { λ s r. all_few s.rows r };

    // An index, and the test for it here and in `remove`: what is written through `get_mut` of an array is not told.
    #[tactic(auto, using(crate::proofs::TableLaws::table_steps))]
    fn set(&mut self, router: usize, item: Record) -> Result<(), CallFault> {
        if router >= self.rows.len() {
            return Err(CallFault::Unknown);
        }
        self.rows[router].set(item)
    }

    // An index, as in `set`.
    fn remove(&mut self, router: usize, id: LspId) -> Result<Option<Record>, CallFault> {
        if router >= self.rows.len() {
            return Err(CallFault::Unknown);
        }
        Ok(self.rows[router].remove(id))
    }

    fn find(&self, router: usize, id: LspId) -> Result<Option<Record>, CallFault> {
        let row = self.rows.get(router).ok_or(CallFault::Unknown)?;
        Ok(row.find(id))
    }

    fn count(&self, router: usize) -> Result<usize, CallFault> {
        let row = self.rows.get(router).ok_or(CallFault::Unknown)?;
        Ok(row.count())
    }

    fn nth(&self, router: usize, n: usize) -> Result<Option<Record>, CallFault> {
        let row = self.rows.get(router).ok_or(CallFault::Unknown)?;
        Ok(row.nth(n))
    }
}

impl Table {
    // The table with no record.
    pub fn new() -> Table
        ensures { all_kept result.rows ≡ replicate 8 [] }
    {
        Table {
            rows: array::from_fn(|_| Row::new()),
        }
    }
}
