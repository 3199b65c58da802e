//! A connection whose peer can't make it hold output without end: where more waits than may, it is dropped.
#![tactic(auto)]

mod bounded;
pub mod laws;

pub use bounded::{BoundedConn, MOST_WAITING};
