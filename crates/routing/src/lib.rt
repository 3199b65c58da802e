//! What a stream of a session makes of what came: its talk or its handler takes it, and then it is served.
#![tactic(auto)]

mod delivered;
mod delivery;

pub use delivered::{Delivered, Outcome};
pub use delivery::{deliver, deliver_credit, deliver_end};
