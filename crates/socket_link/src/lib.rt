//! A link over a socket.
#![tactic(auto)]

pub mod laws;
mod link;
mod socket;

pub use conn_link::{Link, LinkFault};
pub use link::SocketLink;
pub use socket::Socket;
