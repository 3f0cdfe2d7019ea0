// One call for all that is asked of a store.
ghost use Rattle.std.specs.Prelude.{◌≡◌};
ghost use Rattle.store.specs.Asking.{reply, asked};

use crate::Store;
use crate::requests::{Reply, Request};
use fault::CallFault;

// What a store answers depends on its meaning alone, and so does what it means afterwards.
#[tactic(auto, using(crate::proofs::TableLaws::request_steps))]
pub fn ask<S: Store>(store: &mut S, router: usize, request: Request) -> Result<Reply, CallFault>
    ensures is { result ≡ reply (S.lists store.old) router request }
    ensures after { S.lists store.new ≡ asked (S.lists store.old) router request }
{
    match request {
        Request::Set(item) => {
            store.set(router, item)?;
            Ok(Reply::Done)
        }
        Request::Remove(id) => Ok(Reply::Found(store.remove(router, id)?)),
        Request::Find(id) => Ok(Reply::Found(store.find(router, id)?)),
        Request::Count => Ok(Reply::Counted(store.count(router)?)),
        Request::Nth(n) => Ok(Reply::Found(store.nth(router, n)?)),
    }
}

// Any two stores that mean the same answer alike, and mean the same afterwards.
pub fn ask_both<S: Store, T: Store>(
    one: &mut S,
    other: &mut T,
    router: usize,
    request: Request,
) -> (Result<Reply, CallFault>, Result<Reply, CallFault>)
    ensures alike { S.lists one.old ≡ T.lists other.old → result.0 ≡ result.1 }
    ensures after { S.lists one.old ≡ T.lists other.old → S.lists one.new ≡ T.lists other.new }
{
    let first = ask(one, router, request);
    let second = ask(other, router, request);
    (first, second)
}
