// Writing: LSPs and summaries into the caller's buffer.
#![tactic(auto)]

mod closes;
mod frame_octets;
mod lsps;
mod opens;
mod scope;
mod summary;

pub use lsps::{computed_check, write_lsp};
pub use summary::{ClosedSummary, OpenSummary, SummaryRefusal};
