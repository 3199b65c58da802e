//! In which order the handlers that a connection holds were made.
#![tactic(auto)]

pub mod laws;
mod order;

pub use order::HeldOrder;
