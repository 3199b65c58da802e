//! The session of a connection that is up, with its streams: frame by frame, what came is routed before the next frame
//! is read.
#![tactic(auto)]

mod mux;

pub use mux::Mux;
