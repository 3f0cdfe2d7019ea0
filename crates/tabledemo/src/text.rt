// How requests and answers are shown.
use fault::CallFault;
use octets::ShownId;
use std::fmt;
use store::{Reply, Request};

// A request that is to be shown.
#[derive(Clone, Copy)]
pub struct ShownRequest(pub Request);

impl fmt::Display for ShownRequest {
    fn fmt<W: fmt::Write>(&self, f: &mut fmt::Formatter<W>) -> fmt::Result {
        match self.0 {
            Request::Set(item) => write!(f, "set {item}"),
            Request::Remove(id) => {
                let id = ShownId(id);
                write!(f, "remove {id}")
            }
            Request::Find(id) => {
                let id = ShownId(id);
                write!(f, "find {id}")
            }
            Request::Count => f.write_str("count"),
            Request::Nth(n) => write!(f, "nth {n}"),
        }
    }
}

// An answer that is to be shown.
#[derive(Clone, Copy)]
pub struct ShownAnswer(pub Result<Reply, CallFault>);

impl fmt::Display for ShownAnswer {
    fn fmt<W: fmt::Write>(&self, f: &mut fmt::Formatter<W>) -> fmt::Result {
        match self.0 {
            Ok(Reply::Done) => f.write_str("done"),
            Ok(Reply::Found(Some(item))) => item.fmt(f),
            Ok(Reply::Found(None)) => f.write_str("none"),
            Ok(Reply::Counted(n)) => n.fmt(f),
            Err(fault) => {
                let number = fault.number();
                write!(f, "refused {number}")
            }
        }
    }
}
