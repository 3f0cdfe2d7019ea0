// What is asked of a store, and what it answers.
// Requests are data: programs print them, and one theorem ranges over all of them. No equality and no Debug, as a record has none.
use octets::LspId;
use record::Record;

#[derive(Clone, Copy)]
pub enum Request {
    Set(Record),
    Remove(LspId),
    Find(LspId),
    Count,
    Nth(usize),
}

#[derive(Clone, Copy)]
pub enum Reply {
    Done,
    Found(Option<Record>),
    Counted(usize),
}
