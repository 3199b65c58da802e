//! `node run`: two nodes of one process on 127.0.0.1, driven by a script.
#![tactic(auto)]

mod ending;
mod play;
mod side;
mod turns;

pub use ending::RunEnding;
pub use play::run;
