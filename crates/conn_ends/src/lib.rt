//! What tests of connections over links are made of: links whose calls go by a script, wait or are counted, and an end
//! of a connection that is driven over one. No connection of a node is made so.
#![tactic(auto)]

mod counted;
mod ends;
mod held;
mod quiet;
mod scripts;

pub use counted::Counted;
pub use ends::{
    Bounded, End, Gave, KEY, Plan, Play, PlayBounded, Said, UPGRADE, connect, drive, kind_of, lend,
    play_bounded, play_on, poll_once, poll_said, protocols, written,
};
pub use held::{Held, Hold, held_link};
pub use quiet::Quiet;
pub use scripts::{
    FAIL, PENDING, Random, answer_of, failing_at, first_then, in_turn, random_codes, steps_of,
};
