//! Plays worked rows of an end of a connection through `run`, and checks each answer, the output and the handlers that
//! are held at the end. Run so that the Nth growth is refused, for each N in turn, it checks what is said of want of
//! memory: the answers before it are those with ample memory, the call that met it answers OutOfMemory and each later
//! one Failed, and what was written begins the output of the row; where a handler met it, its stream alone is broken.
//!
//! The last line says how many growths were refused where that was seen, and in how many rows something wasn't as said.
#![tactic(auto)]

mod play;
mod rows;

use play::{Played, play};
use rows::ROWS;
use std::io::{self, Print};

fn main(rt: HostRuntime) -> io::Result<()> {
    let mut refused = 0_u32;
    let mut wrong = 0_u32;
    for row in ROWS {
        match play(rt.alloc(), row) {
            Played::AsSaid => {}
            Played::Refused => refused = refused.saturating_add(1),
            Played::Otherwise => {
                wrong = wrong.saturating_add(1);
                println!(rt; "{}: not as said", row.name())?;
            }
        }
    }
    println!(rt; "{refused} rows refused memory, {wrong} not as said")
}
