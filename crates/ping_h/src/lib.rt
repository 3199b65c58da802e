//! Ping 1.0.0: the handler of the end that asks, for one round, and of the end that answers.
#![tactic(auto)]

mod echo;
mod fault;
pub mod laws;
mod round;

pub use echo::PingEcho;
pub use fault::PingFault;
pub use round::PingOut;
