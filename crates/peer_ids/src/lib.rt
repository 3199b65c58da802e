//! Public keys, and the peer ids that are made of them (libp2p, "Peer Ids and Keys").
#![tactic(auto)]

mod base32;
mod fault;
mod key;
mod kind;
pub mod laws;
mod peer;
mod short;

pub use fault::{IdFault, KeyFault};
pub use key::PublicKey;
pub use kind::KeyType;
pub use peer::PeerId;
