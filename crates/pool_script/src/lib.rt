//! A script of pool calls, played on a pool of one thread.
#![tactic(auto)]

mod playing;
mod whole;

pub use playing::play;
pub use whole::replay;
