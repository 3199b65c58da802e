//! Plays rows, and looks at the session where a call was refused for memory.

use crate::rows::{Act, FrameRow, LEAVING, PING, PING_ANSWERED, SYN_1, Step, Told, Turn};
use bytes::Bytes;
use std::alloc::{AllocError, Global};
use yamux_session::{ActRefused, Event, Role, Session};

/// How many calls answered want of memory, and how often something wasn't as it is said.
#[derive(Clone, Copy, Debug)]
pub struct Tally {
    pub refused: u32,
    pub wrong: u32,
}

impl Tally {
    /// Counts what isn't as it is said.
    pub fn expect(&mut self, holds: bool) {
        if !holds {
            self.wrong = self.wrong.saturating_add(1);
        }
    }

    /// Counts a refusal.
    pub fn refuse(&mut self) {
        self.refused = self.refused.saturating_add(1);
    }
}

/// What an event that carries no data tells.
fn plain(event: &Event) -> Option<Told> {
    match event {
        Event::Opened(stream) => Some(Told::Opened(*stream)),
        Event::Accepted(stream) => Some(Told::Accepted(*stream)),
        Event::Payload(_, _) => None,
        Event::Ended(stream) => Some(Told::Ended(*stream)),
        Event::Reset(stream) => Some(Told::Reset(*stream)),
        Event::Credit(stream) => Some(Told::Credit(*stream)),
        Event::GoAway(code) => Some(Told::GoAway(*code)),
        Event::Fault(fault) => Some(Told::Failed(*fault)),
    }
}

/// What is left of the list once this is told, where it comes next.
fn behind(told: &'static [Told], next: Told) -> Option<&'static [Told]> {
    match told.split_first() {
        Some((first, rest)) if *first == next => Some(rest),
        _ => None,
    }
}

/// What is left of the list once these events are told, where they come next.
fn behind_all(told: &'static [Told], events: &[Event]) -> Option<&'static [Told]> {
    let mut rest = told;
    for event in events {
        match event {
            Event::Payload(stream, data) => {
                for byte in data.as_slice() {
                    rest = behind(rest, Told::Data(*stream, *byte))?;
                }
            }
            other => rest = behind(rest, plain(other)?)?,
        }
    }
    Some(rest)
}

/// How many bytes of data the events hand out.
fn data_length(events: &[Event]) -> usize {
    let mut length: usize = 0;
    for event in events {
        if let Event::Payload(_, data) = event {
            length = length.saturating_add(data.len());
        }
    }
    length
}

/// Feeds one piece by either call.
fn feed_piece(
    session: &mut Session,
    piece: &'static [u8],
    is_shared: bool,
) -> Result<Vec<Event>, ActRefused> {
    if is_shared {
        session.feed_shared(Bytes::from_static(piece))
    } else {
        session.feed(piece)
    }
}

/// The bytes from here to there.
fn slice_of(bytes: &Bytes, from: usize, to: usize) -> Result<Bytes, AllocError> {
    if from > to || to > bytes.len() {
        return Ok(Bytes::new());
    }
    bytes.slice(from..to)
}

/// Whether a part of a piece is refused by a failed session, and tells nothing.
fn is_failed_at_a_frame(session: &mut Session, alloc: Global) -> bool {
    let mut told = Vec::new(alloc);
    let answer = session.feed_frame(&Bytes::from_static(SYN_1), 0, &mut told);
    answer == Err(ActRefused::Failed) && told.is_empty()
}

/// Whether each call of a failed session answers so.
pub fn is_failed(session: &mut Session, alloc: Global) -> bool {
    let failed = Err(ActRefused::Failed);
    session.open_stream() == failed
        && session.write(1, &[1]) == Err(ActRefused::Failed)
        && session.taken(1, 1) == Err(ActRefused::Failed)
        && session.close(1) == Err(ActRefused::Failed)
        && session.reset(1) == Err(ActRefused::Failed)
        && session.go_away(0) == Err(ActRefused::Failed)
        && matches!(session.feed(SYN_1), Err(ActRefused::Failed))
        && matches!(
            session.feed_shared(Bytes::from_static(SYN_1)),
            Err(ActRefused::Failed)
        )
        && is_failed_at_a_frame(session, alloc)
        && session.credit(1).is_none()
        && !session.mid_frame()
}

/// Looks at a session whose `feed` was refused for memory: it has failed, and its output is whole frames with which
/// this output begins.
fn look_at_failed(alloc: Global, session: &mut Session, output: &[u8], tally: &mut Tally) {
    tally.refuse();
    tally.expect(is_failed(session, alloc));
    let gained = session.take_output();
    tally.expect(gained.len() % 12 == 0);
    tally.expect(output.starts_with(&gained));
}

/// Feeds the bytes in pieces of this size. Answers whether the session goes on.
fn feed(
    alloc: Global,
    session: &mut Session,
    (bytes, told, output): (&'static [u8], &'static [Told], &'static [u8]),
    size: usize,
    is_shared: bool,
    tally: &mut Tally,
) -> bool {
    let mut rest = Some(told);
    for piece in bytes.chunks(size.max(1)) {
        match feed_piece(session, piece, is_shared) {
            Ok(events) => rest = rest.and_then(|rest| behind_all(rest, &events)),
            Err(refused) => {
                tally.expect(refused == ActRefused::OutOfMemory);
                look_at_failed(alloc, session, output, tally);
                return false;
            }
        }
    }
    tally.expect(rest == Some(&[]));
    tally.expect(session.take_output().as_slice() == output);
    true
}

/// Feeds so many zeros of data by either call. Answers whether the session goes on.
fn fill(
    alloc: Global,
    session: &mut Session,
    (zeros, count): (&Bytes, usize),
    (size, is_shared): (usize, bool),
    tally: &mut Tally,
) -> bool {
    let mut length: usize = 0;
    let size = size.max(4096);
    for at in (0..count).step_by(size) {
        let next = at.saturating_add(size).min(count);
        let fed = if is_shared {
            let Ok(piece) = slice_of(zeros, at, next) else {
                return false;
            };
            session.feed_shared(piece)
        } else {
            session.feed(zeros.get(at..next).unwrap_or(&[]))
        };
        match fed {
            Ok(events) => length = length.saturating_add(data_length(&events)),
            Err(refused) => {
                tally.expect(refused == ActRefused::OutOfMemory);
                look_at_failed(alloc, session, &[], tally);
                return false;
            }
        }
    }
    tally.expect(length == count);
    tally.expect(session.take_output().is_empty());
    true
}

/// Makes an act: its number, or 0 where it has none.
fn make(session: &mut Session, act: Act, zeros: &[u8]) -> Result<usize, ActRefused> {
    match act {
        Act::Start => Ok(session.open_stream()? as usize),
        Act::Write(stream, count) => session.write(stream, &zeros[..count.min(zeros.len())]),
        Act::Take(stream, count) => session.taken(stream, count).map(|()| 0),
        Act::Close(stream) => session.close(stream).map(|()| 0),
        Act::Reset(stream) => session.reset(stream).map(|()| 0),
        Act::Leave(code) => session.go_away(code).map(|()| 0),
    }
}

/// Makes an act, and once more where it was refused for memory, which must have changed nothing.
pub fn act(
    session: &mut Session,
    act: Act,
    zeros: &[u8],
    tally: &mut Tally,
) -> Result<usize, ActRefused> {
    let before = (session.credit(1), session.mid_frame());
    let answer = make(session, act, zeros);
    if answer != Err(ActRefused::OutOfMemory) {
        return answer;
    }
    tally.refuse();
    tally.expect((session.credit(1), session.mid_frame()) == before);
    tally.expect(session.take_output().is_empty());
    make(session, act, zeros)
}

/// How a row is played: the zeros that are fed and written, and the size of the pieces that are fed, by either call.
#[derive(Clone, Copy)]
pub struct Way<'a> {
    pub zeros: &'a Bytes,
    pub size: usize,
    pub is_shared: bool,
}

/// Plays one step. Answers whether the session goes on.
fn play_step(
    alloc: Global,
    session: &mut Session,
    step: Step,
    way: Way<'_>,
    tally: &mut Tally,
) -> bool {
    match step {
        Step::Fed(bytes, told, output) => {
            return feed(
                alloc,
                session,
                (bytes, told, output),
                way.size,
                way.is_shared,
                tally,
            );
        }
        Step::Filled(count) => {
            return fill(
                alloc,
                session,
                (way.zeros, count),
                (way.size, way.is_shared),
                tally,
            );
        }
        Step::Acts(made, answer, output) => {
            let given = act(session, made, way.zeros.as_slice(), tally);
            tally.expect(given == answer);
            tally.expect(session.take_output().as_slice() == output);
        }
        Step::Writes(stream, count, through, length) => {
            let given = act(
                session,
                Act::Write(stream, count),
                way.zeros.as_slice(),
                tally,
            );
            tally.expect(given == Ok(through));
            tally.expect(session.take_output().len() == length);
        }
        Step::Credit(stream, answer) => tally.expect(session.credit(stream) == answer),
        Step::MidFrame(answer) => tally.expect(session.mid_frame() == answer),
    }
    true
}

/// Plays a row up to the first `feed` that is refused for memory.
pub fn play(alloc: Global, role: Role, row: &[Step], way: Way<'_>, tally: &mut Tally) {
    let mut session = Session::new(alloc, role);
    for step in row {
        if !play_step(alloc, &mut session, *step, way, tally) {
            return;
        }
    }
}

/// Feeds one part of the piece, and acts: both tell and send what the turn says. Answers where the next part begins, if
/// none was refused for memory: of one that was, nothing is told and nothing sent.
fn play_turn(
    alloc: Global,
    session: &mut Session,
    (piece, at): (&Bytes, usize),
    told: &mut Vec<Event>,
    turn: &Turn,
    zeros: &[u8],
    tally: &mut Tally,
) -> Option<usize> {
    let before = told.len();
    let used = match session.feed_frame(piece, at, told) {
        Ok(used) => used,
        Err(refused) => {
            tally.expect(refused == ActRefused::OutOfMemory && told.len() == before);
            look_at_failed(alloc, session, &[], tally);
            return None;
        }
    };
    let events = told.get(before..).unwrap_or(&[]);
    tally.expect(behind_all(turn.told, events) == Some(&[]));
    tally.expect(session.take_output().as_slice() == turn.sent);
    let given = act(session, turn.act, zeros, tally);
    tally.expect(given == turn.answer);
    tally.expect(session.take_output().as_slice() == turn.output);
    Some(at.saturating_add(used))
}

/// Plays the turns of a row of a server, up to the first part that is refused for memory.
fn play_turns(
    alloc: Global,
    session: &mut Session,
    row: &FrameRow,
    zeros: &[u8],
    tally: &mut Tally,
) -> Option<()> {
    let piece = Bytes::from_static(row.piece);
    let mut told = Vec::new(alloc);
    let mut at = 0;
    for turn in row.turns {
        at = play_turn(alloc, session, (&piece, at), &mut told, turn, zeros, tally)?;
    }
    tally.expect(at == row.piece.len());
    tally.expect(session.feed_frame(&piece, at, &mut told) == Ok(0));
    Some(())
}

/// Plays a row of a server frame by frame.
pub fn play_frames(alloc: Global, row: &FrameRow, way: Way<'_>, tally: &mut Tally) {
    let mut session = Session::new(alloc, Role::Server);
    for step in row.before {
        if !play_step(alloc, &mut session, *step, way, tally) {
            return;
        }
    }
    let _ = play_turns(alloc, &mut session, row, way.zeros.as_slice(), tally);
}

/// Opens as many streams of this end as may be live, and one more, before and after the other end goes away.
pub fn play_many_own(alloc: Global, tally: &mut Tally) {
    let mut session = Session::new(alloc, Role::Client);
    for index in 0..256usize {
        let given = act(&mut session, Act::Start, &[], tally);
        tally.expect(given == Ok(2 * index + 1));
        tally.expect(session.take_output().len() == 12);
    }
    let given = act(&mut session, Act::Start, &[], tally);
    tally.expect(given == Err(ActRefused::StreamsFull));
    if feed(
        alloc,
        &mut session,
        (PING, &[], PING_ANSWERED),
        12,
        false,
        tally,
    ) && feed(
        alloc,
        &mut session,
        (LEAVING, &[Told::GoAway(0)], &[]),
        12,
        false,
        tally,
    ) {
        let given = act(&mut session, Act::Start, &[], tally);
        tally.expect(given == Err(ActRefused::GoneAway));
    }
}

/// The frame that opens the stream of this index, counted from 0.
fn opening(index: u16) -> [u8; 12] {
    let [high, low] = index.saturating_mul(2).saturating_add(1).to_be_bytes();
    [0, 1, 0, 1, 0, 0, high, low, 0, 0, 0, 0]
}

/// The other end opens as many streams as may be live, and one more, which is refused.
pub fn play_many_remote(alloc: Global, tally: &mut Tally) {
    let mut session = Session::new(alloc, Role::Server);
    for index in 0..257u16 {
        let frame = opening(index);
        let mut answer = frame;
        answer[3] = if index < 256 { 2 } else { 8 };
        match session.feed(&frame) {
            Ok(events) => tally.expect(events.len() == if index < 256 { 1 } else { 0 }),
            Err(refused) => {
                tally.expect(refused == ActRefused::OutOfMemory);
                look_at_failed(alloc, &mut session, &answer, tally);
                return;
            }
        }
        tally.expect(session.take_output().as_slice() == answer.as_slice());
    }
}
