//! The place of a node: the socket and the peer that an address names, and the text of a socket's address.
#![tactic(auto)]

pub mod laws;
mod place;

pub use place::{Place, PlaceFault, addr_text, place_of};
