// Fills, replaces, removes and lists records in a store, and prints what each call answered.
#![tactic(auto)]

use anyhow::{Result, anyhow};
use record::{Body, Record};
use store::{Request, Store, Table, ask};

mod text;

use text::{ShownAnswer, ShownRequest};

// The identifier of a system's first LSP.
fn lsp_id(system: u8) -> [u8; 8] {
    [0, 0, 0, 0, 0, system, 0, 0]
}

// Asks a store, and prints what it answered. The runtime, the store and the router are passed on: a struct of borrows for short functions is no shorter.
fn put<S: Store>(rt: &impl Print, store: &mut S, router: usize, request: Request) -> Result<()> {
    let answer = ShownAnswer(ask(store, router, request));
    let request = ShownRequest(request);
    println!(rt; "router {router} {request}: {answer}")?;
    Ok(())
}

// Prints a router's records.
fn list<S: Store>(rt: &impl Print, store: &S, router: usize) -> Result<()> {
    println!(rt; "router {router} lists")?;
    for n in 0..store.count(router)? {
        if let Some(item) = store.nth(router, n)? {
            println!(rt; "  {item}")?;
        }
    }
    Ok(())
}

// An issue of a system.
fn issue(system: u8, number: u32, body: Body) -> Result<Record> {
    Record::issue(lsp_id(system), number, body).ok_or(anyhow!("no issue has number 0"))
}

// One record of each form, replaced and removed.
fn few<S: Store>(rt: &impl Print, store: &mut S) -> Result<()> {
    put(rt, store, 0, Request::Count)?;
    put(rt, store, 0, Request::Nth(0))?;
    put(rt, store, 0, Request::Set(issue(2, 1, Body::empty())?))?;
    let purge = Record::purge(lsp_id(3), 7, 1).ok_or(anyhow!("no purge has number 0"))?;
    put(rt, store, 0, Request::Set(purge))?;
    put(rt, store, 0, Request::Set(Record::placeholder(lsp_id(1))))?;
    list(rt, store, 0)?;
    let body = Body::new(&[0x81, 1, 0xCC])?;
    put(rt, store, 0, Request::Set(issue(2, 2, body)?))?;
    put(rt, store, 0, Request::Find(lsp_id(2)))?;
    put(rt, store, 0, Request::Find(lsp_id(4)))?;
    put(rt, store, 0, Request::Remove(lsp_id(1)))?;
    put(rt, store, 0, Request::Remove(lsp_id(1)))?;
    list(rt, store, 0)
}

// All 32 places of another router, and one more.
fn many<S: Store>(rt: &impl Print, store: &mut S) -> Result<()> {
    for system in 0..32u8 {
        put(
            rt,
            store,
            7,
            Request::Set(Record::placeholder(lsp_id(64 - system))),
        )?;
    }
    put(rt, store, 7, Request::Count)?;
    put(rt, store, 7, Request::Set(Record::placeholder(lsp_id(65))))?;
    put(rt, store, 7, Request::Set(Record::placeholder(lsp_id(64))))?;
    put(rt, store, 7, Request::Remove(lsp_id(33)))?;
    put(rt, store, 7, Request::Remove(lsp_id(50)))?;
    put(rt, store, 7, Request::Remove(lsp_id(64)))?;
    put(rt, store, 7, Request::Count)?;
    list(rt, store, 7)?;
    put(rt, store, 0, Request::Count)
}

// No such router.
fn none<S: Store>(rt: &impl Print, store: &mut S) -> Result<()> {
    put(rt, store, 8, Request::Set(Record::placeholder(lsp_id(1))))?;
    put(rt, store, 8, Request::Remove(lsp_id(1)))?;
    put(rt, store, 8, Request::Find(lsp_id(1)))?;
    put(rt, store, 8, Request::Count)?;
    put(rt, store, 8, Request::Nth(0))
}

fn demo<S: Store>(rt: &impl Print, store: &mut S) -> Result<()> {
    few(rt, store)?;
    many(rt, store)?;
    none(rt, store)
}

fn main(rt: HostRuntime) -> Result<()> {
    let mut table = Table::new();
    demo(&rt, &mut table)
}
