//! A node alone that dials one peer, of any make, to ping it, or to ask what it is.
#![tactic(auto)]

mod dialing;
mod outing;

pub use node_place::Place;
pub use node_terms::{Errand, Own, PeerEnding};
pub use outing::dial;
