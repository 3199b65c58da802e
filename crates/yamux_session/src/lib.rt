//! A session of yamux (the hashicorp specification), without input or output of its own: it is fed the bytes that came,
//! and gives events and the bytes to send. Up to 256 streams of each end are live at once, each with a window of credit
//! in both directions.
//!
//! What a session may answer is said over its history: the frames of all bytes that it was fed, and between them the
//! acts of this end (`specs/History.antt`). [`run`] says it of a whole session at once.
#![tactic(auto)]

mod arrivals;
mod calls;
mod event;
mod heads;
pub mod laws;
mod sending;
mod session;
mod streams;

pub use calls::{Act, ActAnswer, Ran, run};
pub use event::{ActRefused, Event, Fault, Role};
pub use session::Session;
pub use streams::is_own_number;
