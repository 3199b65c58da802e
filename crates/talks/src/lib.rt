//! The talk by which an end of a stream of bytes settles a protocol, of either end: one machine for the end that asks
//! for one protocol and for the end that answers with all that it knows.
//!
//! A talk takes bytes in any pieces and gives bytes. Where it stands depends on the bytes so far alone, and nothing
//! behind the deciding message is read (`laws`): it belongs to the protocol.
#![tactic(auto)]

pub mod laws;
mod run;
mod talk;

pub use run::{Talked, answered, asked};
pub use talk::Talk;
