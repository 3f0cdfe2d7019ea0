// Any store, tried on the table.
use fault::CallFault;
use octets::LspId;
use record::Record;
use std::process::Abort;
use std::test::Fail;
use store::{Store, Table};

// The identifier of a system's fragment, by the system's first octet.
fn lsp_id(system: u8, fragment: u8) -> LspId {
    [system, 0, 0, 0, 0, 0, 0, fragment]
}

// The identifier of the n-th record, if there is one.
fn nth_id<S: Store>(store: &S, router: usize, n: usize) -> Result<Option<LspId>, CallFault> {
    Ok(store.nth(router, n)?.map(|item| item.id()))
}

// Sets the placeholder of an identifier.
fn hold<S: Store>(store: &mut S, router: usize, id: LspId) -> Result<(), CallFault> {
    store.set(router, Record::placeholder(id))
}

// Takes the record of an identifier out, and answers whether there was one.
fn take<S: Store>(store: &mut S, router: usize, id: LspId) -> Result<bool, CallFault> {
    Ok(store.remove(router, id)?.is_some())
}

// Sets so many records from fragment 255 down, so that each goes to the front.
fn fill<S: Store>(rt: &impl Abort, store: &mut S, router: usize, count: usize) {
    for (held, fragment) in (1..=count).zip((0..=255).rev()) {
        assert_eq!(rt; hold(store, router, lsp_id(1, fragment)), Ok(()));
        assert_eq!(rt; store.count(router), Ok(held));
    }
}

#[test]
fn counts(rt: HostRuntime) {
    let mut table = Table::new();
    assert_eq!(rt; table.count(0), Ok(0));
    assert_eq!(rt; nth_id(&table, 0, 0), Ok(None));
    fill(&rt, &mut table, 0, 1);
    assert_eq!(rt; table.count(0), Ok(1));
    fill(&rt, &mut table, 1, 31);
    assert_eq!(rt; table.count(1), Ok(31));
    fill(&rt, &mut table, 2, 32);
    assert_eq!(rt; table.count(2), Ok(32));
    assert_eq!(rt; nth_id(&table, 2, 0), Ok(Some(lsp_id(1, 224))));
    assert_eq!(rt; nth_id(&table, 2, 30), Ok(Some(lsp_id(1, 254))));
    assert_eq!(rt; table.count(3), Ok(0));
}

#[test]
fn the_33rd(rt: HostRuntime) {
    assert_eq!(rt;
        [CallFault::Full, CallFault::Unknown].map(CallFault::number),
        [9, 8]
    );
    let mut table = Table::new();
    fill(&rt, &mut table, 4, 32);
    assert_eq!(rt; hold(&mut table, 4, lsp_id(2, 0)), Err(CallFault::Full));
    assert_eq!(rt; table.count(4), Ok(32));
    assert_eq!(rt; hold(&mut table, 4, lsp_id(1, 240)), Ok(()));
    assert_eq!(rt; hold(&mut table, 8, lsp_id(2, 0)), Err(CallFault::Unknown));
    assert_eq!(rt; take(&mut table, 4, lsp_id(2, 0)), Ok(false));
    assert_eq!(rt; table.count(4), Ok(32));
    assert_eq!(rt; table.count(8), Err(CallFault::Unknown));
}

#[test]
fn removals(rt: HostRuntime) {
    let mut table = Table::new();
    fill(&rt, &mut table, 5, 32);
    fill(&rt, &mut table, 6, 3);
    assert_eq!(rt; take(&mut table, 5, lsp_id(1, 224)), Ok(true));
    assert_eq!(rt; nth_id(&table, 5, 0), Ok(Some(lsp_id(1, 225))));
    assert_eq!(rt; take(&mut table, 5, lsp_id(1, 240)), Ok(true));
    assert_eq!(rt; nth_id(&table, 5, 14), Ok(Some(lsp_id(1, 239))));
    assert_eq!(rt; nth_id(&table, 5, 15), Ok(Some(lsp_id(1, 241))));
    assert_eq!(rt; take(&mut table, 5, lsp_id(1, 255)), Ok(true));
    assert_eq!(rt; table.count(5), Ok(29));
    assert_eq!(rt; nth_id(&table, 5, 28), Ok(Some(lsp_id(1, 254))));
    assert_eq!(rt; nth_id(&table, 5, 29), Ok(None));
    assert_eq!(rt; take(&mut table, 5, lsp_id(1, 255)), Ok(false));
    assert_eq!(rt; table.count(6), Ok(3));
}

#[test]
fn all_rows(rt: HostRuntime) {
    let mut table = Table::new();
    for _ in 0..2 {
        for router in 0..8 {
            fill(&rt, &mut table, router, 32);
        }
        for router in 0..8 {
            assert_eq!(rt; table.count(router), Ok(32));
            for fragment in 224..=255 {
                assert_eq!(rt; take(&mut table, router, lsp_id(1, fragment)), Ok(true));
            }
            assert_eq!(rt; table.count(router), Ok(0));
        }
    }
}

#[test]
fn near_identifiers(rt: HostRuntime) -> Result<(), Fail> {
    let mut table = Table::new();
    hold(&mut table, 0, lsp_id(2, 7))?;
    hold(&mut table, 0, lsp_id(1, 9))?;
    hold(&mut table, 0, lsp_id(1, 8))?;
    assert_eq!(rt; table.count(0), Ok(3));
    assert_eq!(rt; nth_id(&table, 0, 0), Ok(Some(lsp_id(1, 8))));
    assert_eq!(rt; nth_id(&table, 0, 1), Ok(Some(lsp_id(1, 9))));
    assert_eq!(rt; nth_id(&table, 0, 2), Ok(Some(lsp_id(2, 7))));
    assert_eq!(rt; take(&mut table, 0, lsp_id(2, 8)), Ok(false));
    assert_eq!(rt; take(&mut table, 0, lsp_id(1, 8)), Ok(true));
    assert_eq!(rt; nth_id(&table, 0, 0), Ok(Some(lsp_id(1, 9))));
    Ok(())
}
