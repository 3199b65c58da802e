//! One stream of a connection as a small machine: a talk that settles its protocol, then the handler of that protocol,
//! and the talk's output, which waits for credit. It takes bytes and gives bytes, and knows no session.
#![tactic(auto)]

mod heard;
pub mod laws;
mod stage;
mod stop;
mod stream;
mod talking;

pub use heard::Heard;
pub use stop::{Cause, Stop};
pub use stream::Stream;
