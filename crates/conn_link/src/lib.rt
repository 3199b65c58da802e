//! A link: a stream of bytes to another end and back, polled by hand. A connection stands on the trait [`Link`] alone;
//! [`Pipe`] is a link in memory, whose calls go by lists of steps.
#![tactic(auto)]

mod link;
mod pipe;
mod script;
mod step;
mod unread;

pub use link::{Link, LinkFault, finds_end};
pub use pipe::Pipe;
pub use step::PipeStep;
