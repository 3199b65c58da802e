//! Identify 1.0.0 and its push: the message, the handler that reads it, and the handler that sends it.
#![tactic(auto)]

mod fault;
mod identify;
pub mod laws;
mod parts;
mod reader;
mod writer;

pub use fault::IdentifyFault;
pub use identify::Identify;
pub use reader::IdentifyIn;
pub use writer::{IdentifyOut, MOST_BYTES};
