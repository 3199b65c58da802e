//! What no row shows: a Payload that outlives its session, whole runs, and pieces of a whole window. The worked rows
//! are played by `session_rows`.

use bytes::Bytes;
use std::alloc::{AllocError, Global};
use std::test::Fail;
use yamux_session::*;

/// Frames as they stand on the wire.
const SYN_1: &[u8] = &[0, 1, 0, 1, 0, 0, 0, 1, 0, 0, 0, 0];

const ACK_1: &[u8] = &[0, 1, 0, 2, 0, 0, 0, 1, 0, 0, 0, 0];

const RST_1: &[u8] = &[0, 1, 0, 8, 0, 0, 0, 1, 0, 0, 0, 0];

/// The data of this stream, where it is all that is told.
fn data_of(told: &[Event], number: u32) -> Option<&[u8]> {
    match told {
        [Event::Payload(stream, data)] if *stream == number => Some(data.as_slice()),
        _ => None,
    }
}

/// Opens stream 1 and hands over two pieces of data, of which the first is told.
fn hear_two(alloc: Global, session: &mut Session) -> Result<Vec<Event>, Fail> {
    session.feed_shared(Bytes::copy_from_slice(alloc, SYN_1)?)?;
    let frame = [0, 0, 0, 0, 0, 0, 0, 1, 0, 0, 0, 2, 97, 98];
    let told = session.feed_shared(Bytes::copy_from_slice(alloc, &frame)?)?;
    session.feed(&[0, 0, 0, 0, 0, 0, 0, 1, 0, 0, 0, 1, 99])?;
    Ok(told)
}

fn outlives(alloc: Global) -> Result<bool, Fail> {
    let mut session = Session::new(alloc, Role::Server);
    let told = hear_two(alloc, &mut session)?;
    drop(session);
    Ok(told.len() == 1 && data_of(&told, 1) == Some(b"ab".as_slice()))
}

#[test]
fn payload_outlives_the_session(rt: HostRuntime) -> Result<(), Fail> {
    let held = outlives(rt.alloc())?;
    assert!(rt; held);
    Ok(())
}

/// Bytes that don't repeat where a frame begins.
fn text(alloc: Global, length: usize) -> Result<Vec<u8>, AllocError> {
    let mut text = vec![in alloc; 0u8; length]?;
    for (index, byte) in text.iter_mut().enumerate() {
        *byte = (index % 251) as u8;
    }
    Ok(text)
}

/// A whole window of data, with a frame before and one behind it, in one piece.
fn whole_window(alloc: Global, text: &[u8]) -> Result<Vec<u8>, AllocError> {
    let mut piece = Vec::from_slice(alloc, SYN_1)?;
    piece.extend_from_slice(&[0, 0, 0, 4, 0, 0, 0, 1, 0, 4, 0, 0])?;
    piece.extend_from_slice(text)?;
    piece.extend_from_slice(&[0, 1, 0, 1, 0, 0, 0, 3, 0, 0, 0, 0])?;
    Ok(piece)
}

fn told_of(alloc: Global, piece: &[u8], is_shared: bool) -> Result<Vec<Event>, Fail> {
    let mut session = Session::new(alloc, Role::Server);
    if is_shared {
        let shared = Bytes::copy_from_slice(alloc, piece)?;
        Ok(session.feed_shared(shared)?)
    } else {
        Ok(session.feed(piece)?)
    }
}

fn are_told(told: &[Event], text: &[u8]) -> bool {
    match told {
        [
            Event::Opened(1),
            Event::Payload(1, data),
            Event::Ended(1),
            Event::Opened(3),
        ] => { data.as_slice() == text }
        _ => false,
    }
}

fn is_window(alloc: Global, is_shared: bool) -> Result<bool, Fail> {
    let text = text(alloc, 262144)?;
    let piece = whole_window(alloc, &text)?;
    let told = told_of(alloc, &piece, is_shared)?;
    Ok(are_told(&told, &text))
}

#[test]
fn piece_of_a_whole_window(rt: HostRuntime) -> Result<(), Fail> {
    for is_shared in [false, true] {
        let held = is_window(rt.alloc(), is_shared)?;
        assert!(rt; held, "shared: {is_shared}");
    }
    Ok(())
}

// ---- faults and refusals

static FAULTS: [(Fault, usize, &str); 5] = [
    (Fault::BadFrame, 1, "a frame has no header"),
    (
        Fault::WrongParity,
        2,
        "a stream was opened with a number of the wrong end",
    ),
    (Fault::DuplicateStream, 3, "a live stream was opened again"),
    (
        Fault::WindowExceeded,
        4,
        "data is longer than the window of its stream",
    ),
    (
        Fault::WindowTooLarge,
        5,
        "the credit of a stream is above 2^32 - 1",
    ),
];

static REFUSALS: [(ActRefused, usize, &str); 7] = [
    (ActRefused::Failed, 1, "the session has failed"),
    (ActRefused::NoStream, 2, "the stream isn't live"),
    (
        ActRefused::Ended,
        3,
        "this end's direction of the stream is closed",
    ),
    (
        ActRefused::GoneAway,
        4,
        "the other end takes no more streams",
    ),
    (
        ActRefused::StreamsExhausted,
        5,
        "there is no number left for a stream",
    ),
    (
        ActRefused::StreamsFull,
        6,
        "256 streams of this end are live",
    ),
    (ActRefused::OutOfMemory, 7, "a growth was refused"),
];

/// Whether the fault has this number and text, and is equal to itself alone.
fn is_fault(alloc: Global, fault: Fault, number: usize, text: &str) -> Result<bool, Fail> {
    let mut held = fault as usize == number && fault.clone()? == fault;
    for (other, place, _) in FAULTS.iter() {
        held = held && (fault == *other) == (number == *place);
    }
    Ok(held && format!(in alloc; "{fault}")?.as_str() == text)
}

fn is_refusal(alloc: Global, refused: ActRefused, number: usize, text: &str) -> Result<bool, Fail> {
    let mut held = refused as usize == number && refused.clone()? == refused;
    for (other, place, _) in REFUSALS.iter() {
        held = held && (refused == *other) == (number == *place);
    }
    Ok(held && format!(in alloc; "{refused}")?.as_str() == text)
}

#[test]
fn numbers_and_texts_of_faults_and_refusals(rt: HostRuntime) -> Result<(), Fail> {
    for (fault, number, text) in FAULTS.iter() {
        let held = is_fault(rt.alloc(), *fault, *number, *text)?;
        assert!(rt; held, "fault {number}");
    }
    for (refused, number, text) in REFUSALS.iter() {
        let held = is_refusal(rt.alloc(), *refused, *number, *text)?;
        assert!(rt; held, "refusal {number}");
    }
    Ok(())
}

// ---- whole runs

fn acts(alloc: Global) -> Result<Vec<Act>, AllocError> {
    let mut acts = Vec::new(alloc);
    acts.push(Act::Start)?;
    acts.push(Act::Write(1, Vec::from_slice(alloc, b"ab")?))?;
    acts.push(Act::Taken(1, 5))?;
    acts.push(Act::Close(1))?;
    acts.push(Act::Write(1, Vec::new(alloc)))?;
    acts.push(Act::Reset(1))?;
    acts.push(Act::GoAway(0))?;
    acts.push(Act::Feed(Vec::from_slice(alloc, ACK_1)?))?;
    Ok(acts)
}

fn are_answers(answers: &[ActAnswer]) -> bool {
    matches!(
        answers,
        [
            ActAnswer::Stream(1),
            ActAnswer::Count(2),
            _,
            _,
            ActAnswer::Refused(ActRefused::Ended),
            _,
            ActAnswer::Done,
            _,
        ]
    )
}

fn is_run(alloc: Global) -> Result<bool, Fail> {
    let acts = acts(alloc)?;
    let ran = run(alloc, Role::Client, &acts)?;
    Ok(are_answers(ran.answers.as_slice()) && ran.output.len() == 62)
}

#[test]
fn whole_run(rt: HostRuntime) -> Result<(), Fail> {
    let held = is_run(rt.alloc())?;
    assert!(rt; held);
    Ok(())
}

/// What is written where a client writes a whole window, resets the stream and goes away.
fn window_out(alloc: Global, text: &[u8]) -> Result<Vec<u8>, AllocError> {
    let mut output = Vec::from_slice(alloc, SYN_1)?;
    for piece in text.chunks(16384).take(16) {
        output.extend_from_slice(&[0, 0, 0, 0, 0, 0, 0, 1, 0, 0, 64, 0])?;
        output.extend_from_slice(piece)?;
    }
    output.extend_from_slice(RST_1)?;
    output.extend_from_slice(&[0, 3, 0, 0, 0, 0, 0, 0, 0, 0, 0, 0])?;
    Ok(output)
}

/// It writes a whole window and no byte more.
fn window_acts(alloc: Global, text: &[u8]) -> Result<Vec<Act>, AllocError> {
    let mut acts = Vec::new(alloc);
    acts.push(Act::Start)?;
    acts.push(Act::Write(1, Vec::from_slice(alloc, text)?))?;
    acts.push(Act::Write(1, Vec::from_slice(alloc, b"a")?))?;
    acts.push(Act::Reset(1))?;
    acts.push(Act::GoAway(0))?;
    Ok(acts)
}

fn are_written(answers: &[ActAnswer]) -> bool {
    matches!(
        answers,
        [
            ActAnswer::Stream(1),
            ActAnswer::Count(262144),
            ActAnswer::Count(0),
            ActAnswer::Done,
            ActAnswer::Done,
        ]
    )
}

fn is_written(alloc: Global) -> Result<bool, Fail> {
    let text = text(alloc, 262145)?;
    let output = window_out(alloc, &text)?;
    let acts = window_acts(alloc, &text)?;
    let ran = run(alloc, Role::Client, &acts)?;
    Ok(are_written(ran.answers.as_slice()) && ran.output == output)
}

/// All answers, and all output.
#[test]
fn writes_and_goes_away(rt: HostRuntime) -> Result<(), Fail> {
    let held = is_written(rt.alloc())?;
    assert!(rt; held);
    Ok(())
}

/// Two openings of a stream in one piece.
fn two_openings(alloc: Global) -> Result<Bytes, AllocError> {
    let mut bytes = Vec::from_slice(alloc, SYN_1)?;
    bytes.extend_from_slice(RST_1)?;
    bytes.extend_from_slice(SYN_1)?;
    Bytes::copy_from_slice(alloc, &bytes)
}

/// What a write is answered behind each frame.
static WRITES: [Result<usize, ActRefused>; 3] = [Ok(1), Err(ActRefused::NoStream), Ok(1)];

/// How many frames go so, each of which tells one event.
fn frames(session: &mut Session, piece: &Bytes, told: &mut Vec<Event>) -> usize {
    for (index, answer) in WRITES.iter().enumerate() {
        let behind = index.saturating_add(1);
        let is_used = matches!(
            session.feed_frame(piece, index.saturating_mul(12), told),
            Ok(12)
        );
        if !is_used || told.len() != behind || session.write(1, b"a") != *answer {
            return index;
        }
    }
    WRITES.len()
}

fn is_apart(alloc: Global) -> Result<usize, AllocError> {
    let piece = two_openings(alloc)?;
    let mut session = Session::new(alloc, Role::Server);
    let mut told = Vec::new(alloc);
    let held = frames(&mut session, &piece, &mut told);
    let is_over = matches!(session.feed_frame(&piece, 36, &mut told), Ok(0));
    let is_told = matches!(told.as_slice(), [_, Event::Reset(1), Event::Opened(1)]);
    let is_left = session.credit(1) == Some(262143);
    Ok(held.saturating_add((is_over && is_told && is_left) as usize))
}

/// Two openings of a stream in one piece, frame by frame: what the owner writes between them reaches no later one.
#[test]
fn acts_between_the_frames_of_a_piece(rt: HostRuntime) -> Result<(), Fail> {
    let held = is_apart(rt.alloc())?;
    assert_eq!(rt; held, 4, "so many rows hold");
    Ok(())
}

fn is_sent<T: Send>(_value: &T) {}

#[test]
fn session_moves_between_threads(rt: HostRuntime) -> Result<(), Fail> {
    let session = Session::new(rt.alloc(), Role::Client);
    is_sent(&session);
    assert_eq!(rt; session.credit(1), None);
    assert!(rt; Role::Client != Role::Server);
    assert_eq!(rt; Role::Client.clone()?, Role::Client);
    assert_eq!(rt; Role::Server.clone()?, Role::Server);
    Ok(())
}
