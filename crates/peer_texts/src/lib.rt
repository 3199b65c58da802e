//! What is printed of what a peer says of itself.
#![tactic(auto)]

mod said;

pub use said::print_said;
