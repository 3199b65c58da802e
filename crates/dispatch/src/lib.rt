//! The talk of a stream of a connection, and the handler that is made once both ends agree.
#![tactic(auto)]

mod agreement;
mod direction;

pub use agreement::negotiate;
pub use direction::Direction;
