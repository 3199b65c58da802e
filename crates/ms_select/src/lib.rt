//! Negotiation of a protocol by multistream-select 1.0, for a stream of bytes that comes in any pieces.
//!
//! Both sides take bytes and give bytes, and do no input or output of their own. Where a side stands depends on the
//! bytes so far alone, however they were cut (`laws`).
#![tactic(auto)]

mod answer;
mod dialer;
mod fault;
pub mod laws;
mod listener;
mod message;
mod names;
mod output;
mod run;
mod side;
mod verdict;

pub use answer::{Answer, Step};
pub use dialer::Dialer;
pub use fault::SelectFault;
pub use listener::Listener;
pub use run::{Talk, dial, listen};
pub use verdict::Role;
