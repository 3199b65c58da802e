//! The streams of a connection, by their numbers: what a frame told is routed to the stream that it names, and what
//! became of it is told.
#![tactic(auto)]

mod ask;
mod board;
mod held;
mod route;

pub use board::Board;
