//! Plays the worked rows of a session, and checks what it says of want of memory at whichever growth is refused: an act
//! has then changed nothing, and does its work when it is made again; a `feed` has failed the session, and its output
//! is whole frames with which that of an unrefused `feed` begins. Run so that the Nth growth is refused, for each N in
//! turn, it prints how many calls were refused.
//!
//! Beside the bytes that are written and fed it takes no memory of its own, so that nearly each refusal is one of a
//! session. A row in which something isn't as said is named.
#![tactic(auto)]

mod joined;
mod play;
mod rows;

use bytes::Bytes;
use joined::{TEXT, play_joined};
use play::{Tally, Way, play, play_frames, play_many_own, play_many_remote};
use rows::{FRAMES, Row, client, ends, leaves, numbers, openings, windows};
use std::alloc::{AllocError, Global};
use std::io::{self, Eprint};
use std::process::ExitCode;
use yamux_session::Role;

/// The most that a row writes, and one byte more than a window.
const ZEROS: usize = 262145;

/// The sizes of the pieces that rows are fed in: byte by byte, in pieces of 7, and whole.
const SIZES: [usize; 3] = [1, 7, 262144];

/// Names what was played where something in it wasn't as said.
fn report(rt: &impl Eprint, name: &str, before: u32, tally: &Tally) -> io::Result<()> {
    if tally.wrong == before {
        return Ok(());
    }
    eprintln!(rt; "{name}: not as said")
}

/// Plays the rows of an end in pieces of each size, through both calls.
fn play_all(
    rt: &impl Eprint,
    alloc: Global,
    role: Role,
    rows: &[Row],
    zeros: &Bytes,
    tally: &mut Tally,
) -> io::Result<()> {
    for row in rows {
        let before = tally.wrong;
        for size in SIZES {
            for is_shared in [false, true] {
                let way = Way {
                    zeros,
                    size,
                    is_shared,
                };
                play(alloc, role, row.steps, way, tally);
            }
        }
        report(rt, row.name, before, tally)?;
    }
    Ok(())
}

/// Plays the rows that are fed frame by frame.
fn play_all_frames(
    rt: &impl Eprint,
    alloc: Global,
    zeros: &Bytes,
    tally: &mut Tally,
) -> io::Result<()> {
    for row in FRAMES {
        let before = tally.wrong;
        let way = Way {
            zeros,
            size: row.piece.len(),
            is_shared: true,
        };
        play_frames(alloc, row, way, tally);
        report(rt, row.name, before, tally)?;
    }
    Ok(())
}

/// Plays what isn't a row: as many streams as may be live, and two joined sessions.
fn play_others(rt: &impl Eprint, alloc: Global, text: &[u8], tally: &mut Tally) -> io::Result<()> {
    let before = tally.wrong;
    play_many_own(alloc, tally);
    report(rt, "many streams of this end", before, tally)?;
    let before = tally.wrong;
    play_many_remote(alloc, tally);
    report(rt, "many streams of the other end", before, tally)?;
    let before = tally.wrong;
    play_joined(alloc, text, tally);
    report(rt, "two joined sessions", before, tally)
}

/// A piece of zeros, as long as a row may write.
fn zeros(alloc: Global) -> io::Result<Bytes> {
    let zeros = Bytes::from_vec(vec![in alloc; 0u8; ZEROS]?);
    zeros.map_err(|_| io::Error::from(AllocError))
}

/// A text that two joined sessions write of: each byte differs from those near it.
fn text(alloc: Global) -> io::Result<Vec<u8>> {
    let mut text = vec![in alloc; 0u8; TEXT]?;
    for (index, byte) in text.iter_mut().enumerate() {
        *byte = (index % 251) as u8;
    }
    Ok(text)
}

/// Plays all rows of both roles, whole and frame by frame.
fn play_rows(rt: &impl Eprint, alloc: Global, zeros: &Bytes, tally: &mut Tally) -> io::Result<()> {
    play_all(rt, alloc, Role::Server, openings(), zeros, tally)?;
    play_all(rt, alloc, Role::Server, ends(), zeros, tally)?;
    play_all(rt, alloc, Role::Server, windows(), zeros, tally)?;
    play_all(rt, alloc, Role::Server, numbers(), zeros, tally)?;
    play_all(rt, alloc, Role::Server, leaves(), zeros, tally)?;
    play_all(rt, alloc, Role::Client, client(), zeros, tally)?;
    play_all_frames(rt, alloc, zeros, tally)
}

fn main(rt: HostRuntime) -> io::Result<ExitCode> {
    let alloc = rt.alloc();
    let mut tally = Tally {
        refused: 0,
        wrong: 0,
    };
    play_rows(&rt, alloc, &zeros(alloc)?, &mut tally)?;
    play_others(&rt, alloc, &text(alloc)?, &mut tally)?;
    println!(rt;
        "{} calls refused, {} not as said",
        tally.refused, tally.wrong
    )?;
    Ok(ExitCode::from(if tally.wrong == 0 { 0 } else { 1 }))
}
