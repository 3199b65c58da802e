//! What a caller of the library can conclude. Each function drives the library as a program would, and its contract is a
//! closed statement, proved from the public contracts and laws of the crates below alone.
//!
//! - `swarm`: two callers dial, meet and list one history; `close` counts it; a listing after a call shows the call.
//! - `sessions`, `runs`: two sessions never fault, and each hears a prefix of what was written, also where one of them
//!   runs out of memory.
//! - `negotiation`: two ends that agree name one protocol. `exchange`: each end is proven the other's key.
//! - `identify`: a message that was written is read back.
#![tactic(auto)]

pub mod exchange;
pub mod identify;
pub mod negotiation;
pub mod runs;
pub mod sessions;
pub mod swarm;
