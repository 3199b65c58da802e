//! What an end of a connection costs beside the session that it stands on: both are fed the same frames of data, on 1
//! and on 16 streams, whose handlers drop what they take. Each figure is the least of some rounds, in processor time,
//! and is written to standard error, since it differs from run to run.
#![tactic(auto)]

mod drops;

use bytes::Bytes;
use conn_core::ConnCore;
use drops::Drops;
use peer_ids::PublicKey;
use std::alloc::{AllocError, Global};
use std::io::{self, Eprint};
use std::time::CpuClock;
use upgrade::ConnRole;
use yamux_frames::{FrameKind, Header};
use yamux_session::{Event, Role, Session};

/// How much data is fed in a round.
const ROUND: u32 = 16_777_216;

/// How much is fed at once.
const PIECE: usize = 65536;

const ROUNDS: u32 = 9;

/// The message of a key, which both ends have here.
const KEY: &[u8] = b"\x08\x02\x12\x01\x05";

/// What the other end sends until the connection is up.
const UPGRADE: &[u8] = b"\x13/multistream/1.0.0\n\x11/plaintext/2.0.0\n\
    \x10\x0a\x07\0\x05\x08\x02\x12\x01\x05\x12\x05\x08\x02\x12\x01\x05\x13/multistream/1.0.0\n\x0d/yamux/1.0.0\n";

/// What it sends on a stream until both ends agree on its protocol.
const TALK: &[u8] = b"\x13/multistream/1.0.0\n\x06/drop\n";

fn failed() -> io::Error {
    io::Error::from(io::ErrorKind::Other)
}

/// The number of the stream of this index, counted from 0.
fn number(index: u32, streams: u32) -> u32 {
    let index = index.checked_rem(streams).unwrap_or(0);
    index.saturating_mul(2).saturating_add(1)
}

/// Adds a frame.
fn put(
    input: &mut Vec<u8>,
    kind: FrameKind,
    flags: u16,
    stream: u32,
    payload: &[u8],
) -> Result<(), AllocError> {
    let Ok(length) = u32::try_from(payload.len()) else {
        return Err(AllocError);
    };
    let header = Header {
        kind,
        flags,
        stream,
        length,
    };
    input.extend_from_slice(&header.write())?;
    input.extend_from_slice(payload)?;
    Ok(())
}

/// Openings of so many streams, each with its talk.
fn openings(alloc: Global, streams: u32) -> Result<Vec<u8>, AllocError> {
    let mut input = Vec::new(alloc);
    for index in 0..streams {
        let stream = number(index, streams);
        put(&mut input, FrameKind::Window, Header::SYN, stream, b"")?;
        put(&mut input, FrameKind::Payload, 0, stream, TALK)?;
    }
    Ok(input)
}

/// Frames of so much data each, to one stream after another.
fn data(alloc: Global, streams: u32, length: u32) -> Result<Bytes, AllocError> {
    let payload = vec![in alloc; 7u8; length as usize]?;
    let mut input = Vec::new(alloc);
    for index in 0..ROUND.checked_div(length).unwrap_or(0) {
        put(
            &mut input,
            FrameKind::Payload,
            0,
            number(index, streams),
            &payload,
        )?;
    }
    match Bytes::from_vec(input) {
        Ok(input) => Ok(input),
        Err(_) => Err(AllocError),
    }
}

/// Brings an end up, and opens so many streams.
fn bring_up(core: &mut ConnCore<Drops>, openings: &[u8], streams: u32) -> Option<()> {
    core.feed(UPGRADE).ok()?;
    let told = core.feed(openings).ok()?;
    let _ = core.take_output();
    (told.len() == streams as usize).then_some(())
}

/// A session with so many streams, on each of which the talk has come.
fn session(alloc: Global, streams: u32) -> Option<Session> {
    let mut session = Session::new(alloc, Role::Server);
    session.feed(&openings(alloc, streams).ok()?).ok()?;
    for index in 0..streams {
        session.taken(number(index, streams), TALK.len()).ok()?;
    }
    let _ = session.take_output();
    Some(session)
}

/// Feeds the whole input in pieces to an end, whose output is taken. Answers whether the end goes on.
fn feed_core(core: &mut ConnCore<Drops>, input: &Bytes) -> Option<()> {
    for from in (0..input.len()).step_by(PIECE) {
        let to = from.saturating_add(PIECE).min(input.len());
        core.feed_shared(input.slice(from..to).ok()?).ok()?;
        let _ = core.take_output();
    }
    (!core.is_over()).then_some(())
}

/// Feeds the whole input in pieces to a session, whose data and output are taken.
fn feed_session(session: &mut Session, input: &Bytes) -> Option<()> {
    for from in (0..input.len()).step_by(PIECE) {
        let to = from.saturating_add(PIECE).min(input.len());
        for event in &session.feed_shared(input.slice(from..to).ok()?).ok()? {
            if let Event::Payload(stream, bytes) = event {
                session.taken(*stream, bytes.len()).ok()?;
            }
        }
        let _ = session.take_output();
    }
    Some(())
}

/// The least processor time of the rounds, in nanoseconds. Each round must end as it should.
fn timed<F: FnMut() -> bool>(clock: &impl CpuClock, mut round: F) -> io::Result<u128>
    requires { F.IsAlwaysCallable round }
{
    let mut least = u128::MAX;
    for _ in 0..ROUNDS {
        let start = clock.process_cpu_time()?.as_nanos();
        if !round() {
            return Err(failed());
        }
        let end = clock.process_cpu_time()?.as_nanos();
        least = least.min(end.saturating_sub(start));
    }
    Ok(least)
}

/// What an end with so many streams takes for the input.
fn time_core(
    clock: &impl CpuClock,
    alloc: Global,
    streams: u32,
    input: &Bytes,
) -> io::Result<u128> {
    let openings = openings(alloc, streams)?;
    let key = PublicKey::read(alloc, KEY).ok().ok_or(failed())?;
    let made = ConnCore::new(alloc, ConnRole::Listener, key, Drops { alloc });
    let Ok(mut core) = made else {
        return Err(failed());
    };
    if bring_up(&mut core, &openings, streams).is_none() {
        return Err(failed());
    }
    timed(clock, || feed_core(&mut core, input).is_some())
}

/// What a session with so many streams takes for the input.
fn time_session(
    clock: &impl CpuClock,
    alloc: Global,
    streams: u32,
    input: &Bytes,
) -> io::Result<u128> {
    let Some(mut session) = session(alloc, streams) else {
        return Err(failed());
    };
    timed(clock, || feed_session(&mut session, input).is_some())
}

/// Frames of so much data each, on so many streams: an end against its session.
fn measure(
    rt: &(impl CpuClock + Eprint),
    alloc: Global,
    streams: u32,
    length: u32,
) -> io::Result<()> {
    let input = data(alloc, streams, length)?;
    let of_session = time_session(rt, alloc, streams, &input)?;
    let of_core = time_core(rt, alloc, streams, &input)?;
    let hundredths = of_core.saturating_mul(100) / of_session.max(1);
    let a_mib = of_core / u128::from(ROUND / 1_048_576);
    eprintln!(rt;
        "frames of {length} bytes, {streams} streams: {hundredths} hundredths of the session alone ({a_mib} ns a MiB)"
    )
}

fn main(rt: HostRuntime) -> io::Result<()> {
    let alloc = rt.alloc();
    for streams in [1, 16] {
        for length in [32, 1024, 16384] {
            measure(&rt, alloc, streams, length)?;
        }
    }
    Ok(())
}
