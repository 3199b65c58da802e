//! What a node alone is run by: what it is, what it listens by or dials a peer for, and why its run ends early.
#![tactic(auto)]

mod ending;
mod errand;
mod listen_terms;
mod own;
mod ticks;

pub use ending::PeerEnding;
pub use errand::Errand;
pub use listen_terms::ListenTerms;
pub use own::{Own, Setup};
pub use ticks::ticks_in;
