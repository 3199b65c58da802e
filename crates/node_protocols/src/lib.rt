//! The protocols of a node: identify, its push, and ping.
#![tactic(auto)]

mod handler;
pub mod laws;
mod names;
mod own;
mod payloads;
mod protocols;

pub use handler::NodeHandler;
pub use names::{IDENTIFY, PING, PUSH};
pub use payloads::{FixedPayload, Payloads};
pub use protocols::NodeProtocols;
