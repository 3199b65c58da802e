//! A script that is played on an end of a connection, and what is printed of it.
#![tactic(auto)]

mod playing;
mod print;
mod whole;

pub use playing::play;
pub use print::{print_answer, print_output};
pub use whole::{trace, trace_new};
