//! What a session costs beside the bytes that it is fed: against a copy of the same bytes, with 1 and 16 streams of
//! data, by either call; for twice as many bytes; and per frame of a flood of headers. What writing costs against a
//! copy of what is written, and what a short message costs on 1, 16 and 256 streams from one end to the other. Each
//! figure is the least of some rounds, in processor time, and is written to standard error, since it differs from run
//! to run.
#![tactic(auto)]

use bytes::Bytes;
use std::alloc::{AllocError, Global};
use std::io::{self, Eprint};
use std::time::CpuClock;
use yamux_frames::{FrameKind, Header};
use yamux_session::{Event, Role, Session};

/// The data of one frame.
const DATA: u32 = 16384;

/// How much is fed at once.
const PIECE: usize = 65536;

/// How many frames of data are fed in a round.
const FRAMES: u32 = 1024;

/// How many frames of WindowUpdate are fed in a round.
const UPDATES: u32 = 65536;

/// How long a short message is.
const MESSAGE: usize = 64;

/// How many short messages are sent in a round.
const MESSAGES: u32 = 65536;

/// How many short messages are sent at once, where they aren't sent one by one.
const BATCH: u32 = 256;

const ROUNDS: u32 = 9;

/// How a session is fed.
#[derive(Clone, Copy, Debug, PartialEq, Eq)]
enum Way {
    Shared,
    Copied,
}

/// The number of the stream of this index, counted from 0.
fn number(index: u32, streams: u32) -> u32 {
    let index = index.checked_rem(streams).unwrap_or(0);
    index.saturating_mul(2).saturating_add(1)
}

/// The header of a frame.
fn header(kind: FrameKind, flags: u16, stream: u32, length: u32) -> [u8; 12] {
    let header = Header {
        kind,
        flags,
        stream,
        length,
    };
    header.write()
}

/// A session whose other end has opened so many streams.
fn opened(alloc: Global, streams: u32) -> Option<Session> {
    let mut session = Session::new(alloc, Role::Server);
    for index in 0..streams {
        let frame = header(FrameKind::Window, Header::SYN, number(index, streams), 0);
        session.feed(&frame).ok()?;
    }
    let _ = session.take_output();
    Some(session)
}

/// Frames of data, to one stream after another.
fn data(alloc: Global, streams: u32, frames: u32) -> Result<Bytes, AllocError> {
    let payload = vec![in alloc; 7u8; DATA as usize]?;
    let mut input = Vec::new(alloc);
    for index in 0..frames {
        input.extend_from_slice(&header(FrameKind::Payload, 0, number(index, streams), DATA))?;
        input.extend_from_slice(&payload)?;
    }
    match Bytes::from_vec(input) {
        Ok(input) => Ok(input),
        Err(_) => Err(AllocError),
    }
}

/// Frames that each add 1 to the credit of a stream, of one stream after another.
fn updates(alloc: Global, streams: u32) -> Result<Bytes, AllocError> {
    let mut input = Vec::new(alloc);
    for index in 0..UPDATES {
        input.extend_from_slice(&header(FrameKind::Window, 0, number(index, streams), 1))?;
    }
    match Bytes::from_vec(input) {
        Ok(input) => Ok(input),
        Err(_) => Err(AllocError),
    }
}

/// Feeds the bytes from here to there, and takes all data. Answers how much that was.
fn feed_piece(
    session: &mut Session,
    input: &Bytes,
    (from, to): (usize, usize),
    way: Way,
) -> Option<usize> {
    if from > to || to > input.len() {
        return None;
    }
    let events = match way {
        Way::Shared => session.feed_shared(input.slice(from..to).ok()?).ok()?,
        Way::Copied => session.feed(&input.as_slice()[from..to]).ok()?,
    };
    let mut taken: usize = 0;
    for event in &events {
        if let Event::Payload(stream, bytes) = event {
            session.taken(*stream, bytes.len()).ok()?;
            taken = taken.saturating_add(bytes.len());
        }
    }
    let _ = session.take_output();
    Some(taken)
}

/// Feeds the whole input in pieces. Answers how much data was handed out.
fn feed(session: &mut Session, input: &Bytes, way: Way) -> Option<usize> {
    let mut taken: usize = 0;
    for from in (0..input.len()).step_by(PIECE) {
        let to = from.saturating_add(PIECE).min(input.len());
        taken = taken.saturating_add(feed_piece(session, input, (from, to), way)?);
    }
    Some(taken)
}

/// Copies the input, piece after piece, into one buffer of the size of a piece. Answers whether the last byte came
/// over.
fn copy(buffer: &mut [u8], input: &[u8]) -> bool {
    let mut last = None;
    for from in input.chunks(PIECE) {
        let Some(to) = buffer.get_mut(..from.len()) else {
            return false;
        };
        to.copy_from_slice(from);
        last = to.last().copied();
    }
    last == input.last().copied()
}

/// The least processor time of the rounds, in nanoseconds. Each round must end as it should.
fn timed<F: FnMut() -> bool>(clock: &impl CpuClock, mut round: F) -> io::Result<u128>
    requires { F.IsAlwaysCallable round }
{
    let mut least = u128::MAX;
    for _ in 0..ROUNDS {
        let start = clock.process_cpu_time()?.as_nanos();
        if !round() {
            return Err(io::Error::from(io::ErrorKind::Other));
        }
        let end = clock.process_cpu_time()?.as_nanos();
        least = least.min(end.saturating_sub(start));
    }
    Ok(least)
}

/// The time of feeding an input again and again, each time with so much data handed out.
fn timed_feed(
    clock: &impl CpuClock,
    session: Option<Session>,
    input: &Bytes,
    way: Way,
    length: usize,
) -> io::Result<u128> {
    let Some(mut session) = session else {
        return Err(io::Error::from(io::ErrorKind::Other));
    };
    timed(clock, || feed(&mut session, input, way) == Some(length))
}

/// A client with one stream, which may write as much as there can be credit for.
fn writing(alloc: Global) -> Option<Session> {
    let mut session = Session::new(alloc, Role::Client);
    let stream = session.open_stream().ok()?;
    let credit = u32::MAX.saturating_sub(session.credit(stream)?);
    session
        .feed(&header(FrameKind::Window, 0, stream, credit))
        .ok()?;
    let _ = session.take_output();
    Some(session)
}

/// Writes the input piece after piece, each of which is sent at once. Answers whether all of it was.
fn write(session: &mut Session, input: &[u8]) -> bool {
    let mut sent: usize = 0;
    for piece in input.chunks(PIECE) {
        if session.write(1, piece) != Ok(piece.len()) {
            return false;
        }
        sent = sent.saturating_add(session.take_output().len());
    }
    sent > input.len()
}

/// A client and a server with so many streams of the client.
fn joined(alloc: Global, streams: u32) -> Option<(Session, Session)> {
    let mut client = Session::new(alloc, Role::Client);
    let mut server = Session::new(alloc, Role::Server);
    for _ in 0..streams {
        client.open_stream().ok()?;
    }
    server.feed(&client.take_output()).ok()?;
    client.feed(&server.take_output()).ok()?;
    Some((client, server))
}

/// Sends what an end has written to the other end, which takes all data and answers. Tells how much data that was.
fn send(from: &mut Session, to: &mut Session) -> Option<usize> {
    let mut taken: usize = 0;
    let piece = Bytes::from_vec(from.take_output()).ok()?;
    for event in &to.feed_shared(piece).ok()? {
        if let Event::Payload(stream, bytes) = event {
            to.taken(*stream, bytes.len()).ok()?;
            taken = taken.saturating_add(bytes.len());
        }
    }
    from.feed(&to.take_output()).ok()?;
    Some(taken)
}

/// Writes short messages on one stream after another, and sends so many at once. Tells how much data that was.
fn exchange(
    client: &mut Session,
    server: &mut Session,
    (streams, batch): (u32, u32),
) -> Option<usize> {
    let message = [7; MESSAGE];
    let mut taken: usize = 0;
    let mut waiting: u32 = 0;
    for index in 0..MESSAGES {
        client.write(number(index, streams), &message).ok()?;
        waiting = waiting.saturating_add(1);
        if waiting >= batch {
            taken = taken.saturating_add(send(client, server)?);
            waiting = 0;
        }
    }
    Some(taken)
}

/// Writes how many hundredths one time is of another.
fn show(rt: &impl Eprint, what: &str, streams: u32, time: u128, other: u128) -> io::Result<()> {
    let hundredths = time.saturating_mul(100) / other.max(1);
    eprintln!(rt; "{what}, {streams} streams: {hundredths} hundredths ({time} ns)")
}

/// Data: by either call against a copy, and twice as much against once.
fn measure_data(rt: &(impl CpuClock + Eprint), alloc: Global, streams: u32) -> io::Result<()> {
    let length = DATA as usize * FRAMES as usize;
    let input = data(alloc, streams, FRAMES)?;
    let twice = data(alloc, streams, 2 * FRAMES)?;
    let mut buffer = vec![in alloc; 0u8; PIECE]?;
    let copied = timed(rt, || copy(&mut buffer, input.as_slice()))?;
    let shared = timed_feed(rt, opened(alloc, streams), &input, Way::Shared, length)?;
    let fed = timed_feed(rt, opened(alloc, streams), &input, Way::Copied, length)?;
    let more = timed_feed(rt, opened(alloc, streams), &twice, Way::Copied, 2 * length)?;
    show(rt, "feed_shared against a copy", streams, shared, copied)?;
    show(rt, "feed against a copy", streams, fed, copied)?;
    show(rt, "feed of twice the bytes", streams, more, fed)
}

/// A flood of headers: against a copy of its bytes, and per frame.
fn measure_flood(rt: &(impl CpuClock + Eprint), alloc: Global, streams: u32) -> io::Result<()> {
    let input = updates(alloc, streams)?;
    let mut buffer = vec![in alloc; 0u8; PIECE]?;
    let copied = timed(rt, || copy(&mut buffer, input.as_slice()))?;
    let fed = timed_feed(rt, opened(alloc, streams), &input, Way::Shared, 0)?;
    show(rt, "WindowUpdates against a copy", streams, fed, copied)?;
    eprintln!(rt;
        "WindowUpdates, {streams} streams: {} ns a frame",
        fed / u128::from(UPDATES)
    )
}

/// Writing in pieces: against a copy.
fn measure_writing(rt: &(impl CpuClock + Eprint), alloc: Global) -> io::Result<()> {
    let input = vec![in alloc; 7u8; DATA as usize * FRAMES as usize]?;
    let mut buffer = vec![in alloc; 0u8; PIECE]?;
    let copied = timed(rt, || copy(&mut buffer, &input))?;
    let Some(mut session) = writing(alloc) else {
        return Err(io::Error::from(io::ErrorKind::Other));
    };
    let written = timed(rt, || write(&mut session, &input))?;
    show(rt, "write against a copy", 1, written, copied)
}

/// The time of a round of short messages, so many sent at once.
fn timed_exchange(
    clock: &impl CpuClock,
    alloc: Global,
    (streams, batch): (u32, u32),
) -> io::Result<u128> {
    let Some((mut client, mut server)) = joined(alloc, streams) else {
        return Err(io::Error::from(io::ErrorKind::Other));
    };
    let length = MESSAGE * MESSAGES as usize;
    timed(clock, || {
        exchange(&mut client, &mut server, (streams, batch)) == Some(length)
    })
}

/// Short messages from end to end, so many sent at once: against those on one stream, and per message.
fn measure_messages(rt: &(impl CpuClock + Eprint), alloc: Global, batch: u32) -> io::Result<()> {
    let one = timed_exchange(rt, alloc, (1, batch))?;
    for streams in [1, 16, 256] {
        let time = timed_exchange(rt, alloc, (streams, batch))?;
        let each = time / u128::from(MESSAGES);
        eprintln!(rt; "short messages, {batch} at once, {streams} streams: {each} ns each")?;
        show(
            rt,
            "short messages against those on one stream",
            streams,
            time,
            one,
        )?;
    }
    Ok(())
}

fn main(rt: HostRuntime) -> io::Result<()> {
    let alloc = rt.alloc();
    for streams in [1, 16] {
        measure_data(&rt, alloc, streams)?;
    }
    for streams in [1, 256] {
        measure_flood(&rt, alloc, streams)?;
    }
    measure_writing(&rt, alloc)?;
    for batch in [1, BATCH] {
        measure_messages(&rt, alloc, batch)?;
    }
    Ok(())
}
