//! `node trace`: one end of a connection with the protocols of a node, on which a script is played.
#![tactic(auto)]

mod tracing;

pub use tracing::trace;
