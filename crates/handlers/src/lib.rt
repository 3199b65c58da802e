//! What serves the streams of a connection: handlers, and the protocols that make them.
#![tactic(auto)]

mod handler;
pub mod laws;
mod protocols;

pub use handler::{Handler, HandlerFault};
pub use protocols::Protocols;
