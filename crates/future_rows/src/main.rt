//! Plays the row of a dialer that pings, over a connection and a pipe. Run so that the Nth growth is refused, for each
//! N in turn, it checks what is said of want of memory: the events before it are those with ample memory, then comes
//! Fault(OutOfMemory), or Fault(Link) where the pipe met it, or where a handler met it its stream alone is broken; and
//! what was written begins the output of the row. An `ask` that is refused is the last call of the link, with `shut`
//! behind it and without.
//!
//! The last line says how many plays were refused memory, and in how many something wasn't as said.
#![tactic(auto)]

mod play;
mod row;

use futures::test::MockTask;
use play::{Played, play};
use std::io::{self, Print};

fn main(rt: HostRuntime) -> io::Result<()> {
    let mut refused = 0_u32;
    let mut wrong = 0_u32;
    let task = MockTask::new(&rt)?;
    for shuts in [false, true] {
        match play(rt.alloc(), &task, shuts) {
            Played::AsSaid => {}
            Played::Refused => refused = refused.saturating_add(1),
            Played::Otherwise => wrong = wrong.saturating_add(1),
        }
    }
    println!(rt; "{refused} plays refused memory, {wrong} not as said")
}
