// What a closed summary covers.
use octets::IdRange;

// A CSNP lists all records of a range, a PSNP some records.
#[derive(Clone, Copy, PartialEq, Eq, Debug)]
pub(crate) enum Scope {
    Csnp(IdRange),
    Psnp,
}
