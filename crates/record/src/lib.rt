// Records of LSPs: their forms, which of two is newer, and their flags.
#![tactic(auto)]

mod bodies;
mod body;
mod flags;
mod form;
mod forms;
mod makes;
mod port;
mod ports;
mod reads;
mod record;
mod state;
mod text;

pub use body::Body;
pub use form::{Form, Recency};
pub use port::{Port, Ports};
pub use record::Record;
