// Octets: identifiers and their order, check octets, fields.
#![tactic(auto)]

mod checks;
mod fields;
mod ids;
mod text;

pub use checks::{CheckOctets, Sums, check_octets, covered, is_right, sums_of};
pub use fields::{check_body, check_field, read_field};
pub use ids::{IdRange, LspId, SourceId, SystemId, before, order, same};
pub use text::{ShownId, ShownOctet, ShownSource};
