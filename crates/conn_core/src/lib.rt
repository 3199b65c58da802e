//! The core of a connection: it takes the bytes of a link and asks, and gives events and bytes. It knows no socket.
#![tactic(auto)]

mod calls;
mod connection;
pub mod laws;
mod telling;

pub use calls::{ConnAct, ConnAnswer, ConnRan, perform, run};
pub use connection::{ConnCore, Phase};
