//! One connection of a node, over a socket: how it is made, what it does of what a swarm's listing shows, and what it
//! tells the swarm and its owner.
//!
//! # What a peer can make it hold
//! A connection goes on reading whatever its peer sends. What that can make a node hold is bounded: at most 256 streams
//! of the peer, each with a message of at most 1,024 bytes of its negotiation, and what was answered to such messages
//! and finds no credit, some 350,000 bytes at most, since no more than a window of 262,144 came; and then with what its
//! handler holds: an echo as many bytes as a window has, where the peer gives no credit for them; a reader at most
//! 16,384 bytes. What the connection writes and the peer doesn't take has no such bound: so a connection of which more
//! than [`MOST_WAITING`](bounded_conn::MOST_WAITING) bytes wait behind one of its polls is dropped, and isn't shut
//! before. Between the calls of a seat no more wait: [`Seat::waiting`] says so. Nothing bounds how long a peer may
//! take.
#![tactic(auto)]

mod making;
mod owning;
mod payloads;
mod seat;

pub use making::Maker;
pub use owning::{let_go, put};
pub use payloads::RandomPayloads;
pub use seat::Seat;
