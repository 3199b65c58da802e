//! The pool of a swarm that is called in turn: which connections stand, how far each is, and which peers are blocked or
//! allowed. `specs/` says what each call is answered after a history of calls; the limits, the block list, the order of
//! refusals and the listing are this project's profile.
#![tactic(auto)]

mod call;
pub mod laws;
mod limits;
mod listing;
mod pool;
mod refusals;
mod row;

pub use call::{Call, Refusal, Reply};
pub use limits::{Config, Limits};
pub use listing::Listing;
pub use pool::Pool;
pub use row::{Agent, ConnSide, Phase, Row};
