//! The lines that a node's programs read: the script of two nodes, and what comes to an end of a connection.
#![tactic(auto)]

mod awaited;
mod script;
mod trace;

pub use awaited::{is_shown, print_awaited};
pub use script::{Act, Awaited, Name, script_line_of};
pub use trace::{TraceLine, trace_line_of};
