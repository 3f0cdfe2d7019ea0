// Forms, order and flags.
use frame::Lsp;
use octets::{CheckOctets, LspId};
use record::{Body, Form, Port, Ports, Recency, Record};
use std::test::Fail;

const ID: LspId = [0, 0, 0, 0, 0, 1, 0, 0];

#[test]
fn issues(rt: HostRuntime) -> Result<(), Fail> {
    let item = Record::issue(ID, 1, Body::empty()).ok_or("refused")?;
    assert_eq!(rt; item.check(), CheckOctets { x: 0xF6, y: 0x06 });
    assert_eq!(rt; item.lifetime(), 1200);
    assert_eq!(rt; item.flags(), 1);
    assert_eq!(rt; item.form(), Form::Live);
    assert!(rt; Record::issue(ID, 0, Body::empty()).is_none());
    Ok(())
}

#[test]
fn bodies(rt: HostRuntime) {
    assert!(rt; Body::new(&[0x81, 1, 0xCC]).is_ok());
    assert!(rt; Body::new(&[0x81, 2, 0xCC]).is_err());
    assert!(rt; Body::new(&[0; 100]).is_ok());
    assert!(rt; Body::new(&[0; 102]).is_err());
}

#[test]
fn heard(rt: HostRuntime) {
    let right = Lsp {
        lifetime: 900,
        id: ID,
        number: 2,
        check: CheckOctets { x: 0xF4, y: 0x07 },
        flags: 1,
        body: &[],
    };
    assert!(rt; Record::live(&right).is_some());
    let purged = Lsp {
        lifetime: 0,
        ..right
    };
    assert!(rt; Record::live(&purged).is_none());
    let long = Lsp {
        lifetime: 1201,
        ..right
    };
    assert!(rt; Record::live(&long).is_none());
    let flagged = Lsp {
        lifetime: 1,
        flags: 3,
        ..right
    };
    assert!(rt; Record::live(&flagged).is_none());
}

#[test]
fn order(rt: HostRuntime) -> Result<(), Fail> {
    let live = Record::issue(ID, 5, Body::empty()).ok_or("refused")?;
    let purge = Record::purge(ID, 4, 1).ok_or("refused")?;
    let none = Record::placeholder(ID);
    assert_eq!(rt; purge.recency_of(5, true), Recency::Newer);
    assert_eq!(rt; live.recency_of(5, false), Recency::Newer);
    assert_eq!(rt; live.recency_of(5, true), Recency::Same);
    assert_eq!(rt; live.recency_of(4, false), Recency::Older);
    assert_eq!(rt; purge.recency_of(4, true), Recency::Older);
    assert_eq!(rt; none.recency_of(0, true), Recency::Same);
    assert_eq!(rt; none.recency_of(1, true), Recency::Newer);
    Ok(())
}

#[test]
fn flags(rt: HostRuntime) -> Result<(), Fail> {
    let two = Port::new(2).ok_or("no port")?;
    let seven = Port::new(7).ok_or("no port")?;
    assert!(rt; Port::new(8).is_none());
    let mut item = Record::issue(ID, 5, Body::empty()).ok_or("refused")?;
    item.set_srm(two);
    item.set_ssn_on(Ports::only(two).with(seven));
    assert!(rt; item.has_srm(two) && !item.has_srm(seven));
    assert!(rt; item.has_ssn(two) && item.has_ssn(seven));
    item.clear_ssn(two);
    item.clear_srm_on(Ports::only(seven));
    assert!(rt; item.has_srm(two) && !item.has_ssn(two) && item.has_ssn(seven));
    let mut none = Record::placeholder(ID);
    none.set_srm(two);
    none.set_ssn(two);
    assert!(rt; !none.has_srm(two) && none.has_ssn(two));
    Ok(())
}

#[test]
fn written(rt: HostRuntime) -> Result<(), Fail> {
    let mut buf = [0; 275];
    let item = Record::issue(ID, 5, Body::empty()).ok_or("refused")?;
    let purge = Record::purge(ID, 5, 1).ok_or("refused")?;
    assert!(rt; item.write(&mut buf).is_ok());
    assert!(rt; item.write(&mut buf[0..274]).is_err());
    assert!(rt; purge.write(&mut buf).is_ok());
    assert!(rt; Record::placeholder(ID).write(&mut buf).is_err());
    Ok(())
}
