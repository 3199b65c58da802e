//! A script, which is read whole and then played line by line: its lines, and why the playing of one stops.
#![tactic(auto)]

mod reading;
mod stopped;
mod text;

pub use reading::{LONGEST, read_script};
pub use stopped::Stopped;
pub use text::first_line;
