//! The texts of a pool: the lines that call it, and what is printed of its replies and listings.
#![tactic(auto)]

mod line;
mod print;

pub use line::{Line, digits, line_of, pair_of, peer_of, stream_of};
pub use print::{print_listing, print_reply};
