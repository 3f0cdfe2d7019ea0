// Stores: the records that each router holds.
#![tactic(auto)]

ghost use Rattle.std.specs.Prelude.{◌≡◌, ℕ, ◌≤◌, true, length};
ghost use Rattle.fault.specs.Order.{unless};
ghost use Rattle.octets.specs.Octets.{value};
ghost use Rattle.store.specs.Lists.{Lists, of_router, rises, lookup, nth as nth_of};
ghost use Rattle.store.specs.Calls.{router_fault, Sets, Removes};

mod asks;
mod requests;
mod row;
mod table;

pub use asks::{ask, ask_both};
use fault::CallFault;
use octets::LspId;
use record::Record;
pub use requests::{Reply, Request};
pub use table::Table;

// A list of records for each of eight routers: at most 32, their identifiers rising.
// A router is a plain number, since every number has its answer: one past the eight is refused.
pub trait Store {
    ghost lists: { Self → Lists };

    // Replaces the record of an identifier, or inserts one.
    fn set(&mut self, router: usize, item: Record) -> Result<(), CallFault>
        ensures { Sets (lists self.old) (lists self.new) router item result };

    // Takes the record of an identifier out, if there is one.
    fn remove(&mut self, router: usize, id: LspId) -> Result<Option<Record>, CallFault>
        ensures { Removes (lists self.old) (lists self.new) router (value id) result };

    // The record of an identifier, if there is one.
    fn find(&self, router: usize, id: LspId) -> Result<Option<Record>, CallFault>
        ensures { result ≡ unless (router_fault router) (lookup (value id) (of_router (lists self.now) router)) };

    // How many records there are.
    fn count(&self, router: usize) -> Result<usize, CallFault>
        ensures { result ≡ unless (router_fault router) (length (of_router (lists self.now) router)) };

    // The n-th record, from 0, if there is one.
    fn nth(&self, router: usize, n: usize) -> Result<Option<Record>, CallFault>
        ensures { result ≡ unless (router_fault router) (nth_of (of_router (lists self.now) router) n) };

    ghost routers: { (s : Self) → length (lists s) ≡ 8 };

    ghost rising: { (s : Self) (r : ℕ) → rises (of_router (lists s) r) ≡ true };

    ghost few: { (s : Self) (r : ℕ) → length (of_router (lists s) r) ≤ 32 };
}
