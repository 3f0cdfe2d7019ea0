// Frames: LSP, CSNP and PSNP read from octets and written to them.
#![tactic(auto)]

mod cells;
mod entries;
mod header;
mod kind;
mod lsp;
mod message;
mod reader;
mod snp;

pub use entries::EntryIter;
pub use kind::Kind;
pub use message::{Csnp, Entries, Entry, Lsp, Message, Psnp};
pub use reader::FrameReader;
