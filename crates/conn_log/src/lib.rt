//! What a connection tells, and the list by which it is said why: what came and was done in its session, and between it
//! what was told, which handlers were made and which protocols were asked for, each where it was.
#![tactic(auto)]

mod earlier;
mod event;

pub use earlier::Earlier;
pub use event::{ConnEvent, ConnFault, ConnRefused};
