//! What a node is driven by: its runtime, the driver of its connections, and ticks.
#![tactic(auto)]

mod outfit;
mod runtime;

pub use outfit::Outfit;
pub use runtime::NodeRuntime;
