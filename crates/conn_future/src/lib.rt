//! A connection over a link, polled by hand: its core is fed what the link gives, the link takes what the core writes,
//! and the events of the core are given one by one.
#![tactic(auto)]

mod calls;
mod conn;
mod giving;
mod hearing;
pub mod laws;
mod stage;
mod turns;

pub use conn::Conn;
pub use stage::Stage;

// The names of what a connection is made of and tells.
pub use conn_core::{ConnAct, ConnAnswer, ConnCore, ConnRan, run};
pub use conn_link::{Link, LinkFault, Pipe, PipeStep};
pub use conn_log::{ConnEvent, ConnFault, ConnRefused};
pub use handlers::{Handler, HandlerFault, Protocols};
pub use streams::Cause;
pub use upgrade::ConnRole;
