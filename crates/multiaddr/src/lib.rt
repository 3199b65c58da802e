//! Addresses of peers (multiformats, "multiaddr"): bytes on the wire, text for people.
#![tactic(auto)]

mod address;
mod fault;
mod ip6;
pub mod laws;
mod port;
mod print;
mod protocol;
mod socket;
mod text;
mod wire;

pub use address::Multiaddr;
pub use fault::AddrFault;
pub use socket::Ip;
