//! Callers of a swarm, as what runs a node knows them, and a swarm that is made for a purpose.
#![tactic(auto)]

mod caller;
mod swarms;

pub use caller::{Caller, Fresh, Looking, Member};
pub use swarms::{SwarmUse, with_swarm};
