//! Plays two joined sessions: what one of them sends is fed to the other.

use crate::play::{Tally, act, is_failed};
use crate::rows::Act;
use std::alloc::Global;
use yamux_session::{ActRefused, Event, Role, Session};

/// How many streams each end opens, and how many bytes it writes on each.
const STREAMS: usize = 4;

const LENGTH: usize = 300000;

/// The sizes of the pieces that are fed, in turn.
const SIZES: [usize; 3] = [1, 7, 100000];

/// More rounds than the windows need.
const ROUNDS: usize = 8;

/// How many bytes `play_joined` wants of the text that is written.
pub const TEXT: usize = LENGTH + 8;

/// An end: its streams, how much it has written on each, and how much came on each of the other end's.
#[derive(Drop)]
struct End {
    alloc: Global,
    session: Session,
    streams: [u32; STREAMS],
    written: [usize; STREAMS],
    came: [usize; STREAMS],
}

impl End {
    fn new(alloc: Global, role: Role) -> End {
        End {
            alloc,
            session: Session::new(alloc, role),
            streams: if role == Role::Client {
                [1, 3, 5, 7]
            } else {
                [2, 4, 6, 8]
            },
            written: [0; STREAMS],
            came: [0; STREAMS],
        }
    }
}

/// Feeds a piece. Answers its events, none of them a fault, or that the session has failed for memory.
fn feed(
    alloc: Global,
    session: &mut Session,
    piece: &[u8],
    tally: &mut Tally,
) -> Option<Vec<Event>> {
    match session.feed(piece) {
        Ok(events) => {
            for event in &events {
                tally.expect(!matches!(event, Event::Fault(_)));
            }
            Some(events)
        }
        Err(refused) => {
            tally.expect(refused == ActRefused::OutOfMemory);
            tally.refuse();
            tally.expect(is_failed(session, alloc));
            None
        }
    }
}

/// Feeds back what `to` has answered: no data.
fn answer(from: &mut End, to: &mut End, tally: &mut Tally) -> Option<()> {
    let output = to.session.take_output();
    for event in feed(from.alloc, &mut from.session, &output, tally)? {
        tally.expect(!matches!(event, Event::Payload(_, _)));
    }
    Some(())
}

/// Looks at data that came, which must be the next that was written on the stream, and takes it.
fn take(
    from: &mut End,
    to: &mut End,
    (stream, data): (u32, &[u8]),
    text: &[u8],
    tally: &mut Tally,
) -> Option<()> {
    for index in 0..STREAMS {
        if from.streams[index] == stream {
            let behind = text
                .get((from.streams[index] as usize).saturating_add(to.came[index])..)
                .unwrap_or(&[]);
            tally.expect(behind.starts_with(data));
            to.came[index] = to.came[index].saturating_add(data.len());
        }
    }
    let taken = act(&mut to.session, Act::Take(stream, data.len()), &[], tally);
    tally.expect(taken == Ok(0));
    answer(from, to, tally)
}

/// Feeds what `from` sends to `to`, which takes all that comes.
fn deliver(from: &mut End, to: &mut End, text: &[u8], tally: &mut Tally) -> Option<()> {
    let output = from.session.take_output();
    let mut rest = output.as_slice();
    for turn in 0..output.len() {
        let (piece, behind) = rest.split_at(SIZES[turn % 3].min(rest.len()));
        let events = feed(to.alloc, &mut to.session, piece, tally)?;
        answer(from, to, tally)?;
        for event in events {
            if let Event::Payload(stream, data) = event {
                take(from, to, (stream, data.as_slice()), text, tally)?;
            }
        }
        rest = behind;
        if rest.is_empty() {
            break;
        }
    }
    Some(())
}

/// Opens all streams of an end.
fn open(from: &mut End, to: &mut End, tally: &mut Tally) -> Option<()> {
    for index in 0..STREAMS {
        let opened = act(&mut from.session, Act::Start, &[], tally);
        tally.expect(opened == Ok(from.streams[index] as usize));
        deliver(from, to, &[], tally)?;
    }
    Some(())
}

/// Writes on each stream of an end what its credit lets through.
fn write(from: &mut End, to: &mut End, text: &[u8], tally: &mut Tally) -> Option<()> {
    for index in 0..STREAMS {
        let stream = from.streams[index];
        let written = from.written[index];
        let left = text
            .get((from.streams[index] as usize).saturating_add(written)..)
            .unwrap_or(&[]);
        let count = LENGTH.saturating_sub(written);
        let through = act(&mut from.session, Act::Write(stream, count), left, tally);
        tally.expect(through.is_ok());
        from.written[index] = written.saturating_add(through.unwrap_or(0));
        deliver(from, to, text, tally)?;
    }
    Some(())
}

/// Plays them up to the first `feed` that is refused for memory: each end opens its streams and writes on all of them
/// as the credit allows, and takes all that comes.
fn play(alloc: Global, text: &[u8], tally: &mut Tally) -> Option<()> {
    let mut client = End::new(alloc, Role::Client);
    let mut server = End::new(alloc, Role::Server);
    open(&mut client, &mut server, tally)?;
    open(&mut server, &mut client, tally)?;
    for _ in 0..ROUNDS {
        write(&mut client, &mut server, text, tally)?;
        write(&mut server, &mut client, text, tally)?;
    }
    for end in [&client, &server] {
        tally.expect(end.written == [LENGTH; STREAMS]);
        tally.expect(end.came == [LENGTH; STREAMS]);
    }
    Some(())
}

/// Plays two joined sessions that write of this text, from another byte on for each stream.
pub fn play_joined(alloc: Global, text: &[u8], tally: &mut Tally) {
    let _ = play(alloc, text, tally);
}
