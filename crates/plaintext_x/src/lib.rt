//! The exchange of plaintext 2.0.0, in which each end shows its key and the peer id of it, for a stream of bytes that
//! comes in any pieces.
//!
//! Plaintext protects nothing: an end proves no more than that it knows the key. It is for tests and trusted networks.
#![tactic(auto)]

mod body;
mod exchange;
mod fault;
pub mod laws;
mod run;

pub use exchange::{Exchange, Proven};
pub use fault::ExchangeFault;
pub use run::{Exchanged, exchange_keys};
