//! A connection at the sizes that its code names.

use bounded_conn::MOST_WAITING;
use conn_ends::{
    Bounded, End, FAIL, PENDING, Play, PlayBounded, Said, UPGRADE, first_then, play_bounded,
    play_on, poll_said, steps_of, written,
};
use conn_link::{Link, Pipe};
use conn_log::{ConnFault, ConnRefused};
use futures::task::Poll;
use futures::test::MockTask;
use std::alloc::Global;
use std::test::*;
use upgrade::ConnRole;

/// A Ping of the session, and its answer.
const PING: &[u8] = b"\0\x02\0\x01\0\0\0\0\0\0\0\x07";

const PONG: &[u8] = b"\0\x02\0\x02\0\0\0\0\0\0\0\x07";

/// SYN of stream 1, and the header and the name of ping on it.
const OPENING: &[u8] = b"\0\x01\0\x01\0\0\0\x01\0\0\0\0\0\0\0\0\0\0\0\x01\0\0\0\x26\
    \x13/multistream/1.0.0\n\x11/ipfs/ping/1.0.0\n";

/// Credit for a stream that isn't known: nothing is told of it, and nothing sent.
const CREDIT: &[u8] = b"\0\x01\0\0\0\0\0\x09\0\0\0\x05";

/// The index of ping.
const PROTOCOL: usize = 2;

/// How long the upgrade is.
const UPGRADE_LEN: u8 = 89;

/// What a poll gives.
const NOTHING: Poll<Option<Said>> = Poll::Pending;

const UPGRADED: Poll<Option<Said>> = Poll::Ready(Some(Said::Upgraded));

const AGREED: Poll<Option<Said>> = Poll::Ready(Some(Said::Agreed(1, PROTOCOL)));

const SHUT: Poll<Option<Said>> = Poll::Ready(Some(Said::Shut));

const LINK_FAULT: Poll<Option<Said>> = Poll::Ready(Some(Said::Fault(ConnFault::Link)));

const THE_END: Poll<Option<Said>> = Poll::Ready(None);

/// The upgrade, and behind it so many times this frame.
fn input(alloc: Global, frame: &[u8], count: u32) -> Option<Vec<u8>> {
    let mut input = UPGRADE.to_vec(alloc).ok()?;
    for _ in 0..count {
        input.extend_from_slice(frame).ok()?;
    }
    Some(input)
}

/// A pipe that gives these bytes, as many as each read asks for.
fn open_pipe(alloc: Global, input: Vec<u8>) -> Pipe {
    Pipe::new(alloc, input, Vec::new(alloc), Vec::new(alloc))
}

/// The upgrade comes by one read, so many pings by the next, and the end in the same poll.
fn two_reads(alloc: Global, count: u32) -> Option<Pipe> {
    let reads = steps_of(alloc, &[UPGRADE_LEN, 240])?;
    Some(Pipe::new(alloc, input(alloc, PING, count)?, reads, Vec::new(alloc)))
}

/// Each read fails.
fn failing(alloc: Global) -> Option<Pipe> {
    let reads = steps_of(alloc, &[FAIL, FAIL])?;
    Some(Pipe::new(alloc, input(alloc, PING, 1)?, reads, Vec::new(alloc)))
}

/// A link that has failed before.
fn failed_before(alloc: Global, task: &MockTask) -> Option<Pipe> {
    let mut pipe = failing(alloc)?;
    let mut buffer = [0; 4];
    let first = task.enter(|cx| pipe.poll_read(cx, &mut buffer));
    (first.is_ready() && pipe.failures() == 1).then_some(pipe)
}

/// How often the pong was written behind the upgrade, where nothing else was.
fn pongs(conn: &End<Pipe>) -> Option<usize> {
    let rest = written(conn).strip_prefix(UPGRADE)?;
    let all = rest.chunks_exact(PONG.len()).all(|frame| frame == PONG);
    if all && rest.len() % PONG.len() == 0 {
        Some(rest.len() / PONG.len())
    } else {
        None
    }
}

/// The upgrade is told, then Shut and the end, and so many pings were answered.
fn is_answered(task: &MockTask, conn: &mut End<Pipe>, count: usize) -> bool {
    let gave = [
        poll_said(task, conn),
        poll_said(task, conn),
        poll_said(task, conn),
    ];
    gave == [UPGRADED, SHUT, THE_END] && pongs(conn) == Some(count)
}

/// An ask while an event is held still takes memory, and is answered.
fn is_asked_while_one_is_held(task: &MockTask, conn: &mut End<Pipe>) -> bool {
    let first = poll_said(task, conn);
    let asked = conn.ask(PROTOCOL);
    first == UPGRADED && asked == Ok(2) && poll_said(task, conn) == AGREED
}

/// The link of a dialer whose other end comes up at once, and then sends credit so many times, a byte at a time.
fn credits(alloc: Global, count: u32) -> Option<Pipe> {
    let steps = first_then(alloc, UPGRADE_LEN, 1, count.saturating_mul(13))?;
    let reads = steps_of(alloc, &steps)?;
    Some(Pipe::new(alloc, input(alloc, CREDIT, count)?, reads, Vec::new(alloc)))
}

/// How many streams could be opened, each with the next number of a dialer.
fn opened(conn: &mut End<Pipe>, most: u32) -> u32 {
    let mut next: u32 = 1;
    for count in 0..most {
        if conn.ask(PROTOCOL) != Ok(next) {
            return count;
        }
        next = next.saturating_add(2);
    }
    most
}

fn opens_all(task: &MockTask, conn: &mut End<Pipe>) -> bool {
    let is_up = poll_said(task, conn) == UPGRADED;
    let count = opened(conn, 300);
    is_up && count == 256 && conn.ask(PROTOCOL) == Err(ConnRefused::StreamsFull)
}

/// What waits is written before more is read, however much can be read.
fn writes_first(task: &MockTask, conn: &mut End<Pipe>) -> bool {
    let is_up = poll_said(task, conn) == UPGRADED;
    let count = opened(conn, 40);
    let is_much = conn.waiting() > 3000;
    let gave = poll_said(task, conn);
    is_up && count == 40 && is_much && gave == NOTHING && conn.waiting() == 0
}

/// 2,000 reads of a byte each, and then the end.
fn reads_on(task: &MockTask, conn: &mut End<Pipe>) -> bool {
    let is_up = poll_said(task, conn) == UPGRADED;
    for _poll in 0..100 {
        let gave = poll_said(task, conn);
        if gave != NOTHING {
            return is_up && gave == SHUT;
        }
    }
    false
}

/// Two polls give the failure, and the end.
fn is_failed(task: &MockTask, conn: &mut End<Pipe>) -> bool {
    [poll_said(task, conn), poll_said(task, conn)] == [LINK_FAULT, THE_END]
}

/// A link that takes nothing, and whose other end sends so many Pings.
fn flood(alloc: Global, count: u32) -> Option<Pipe> {
    let writes = steps_of(alloc, &first_then(alloc, PENDING, PENDING, 100)?)?;
    Some(Pipe::new(alloc, input(alloc, PING, count)?, Vec::new(alloc), writes))
}

fn gives_none(task: &MockTask, conn: &mut Bounded<Pipe>) -> bool {
    matches!(task.enter(|cx| conn.poll_next(cx)), Poll::Ready(None))
}

/// How much waits behind the poll before the one at which it is dropped; None, where it isn't within so many.
fn most_waiting(task: &MockTask, conn: &mut Bounded<Pipe>, polls: u32) -> Option<usize> {
    let mut most = 0usize;
    for _poll in 0..polls {
        if gives_none(task, conn) {
            return conn.was_dropped().then_some(most);
        }
        most = most.max(conn.waiting());
    }
    None
}

/// It is dropped where more than 4 MiB wait, and not before; then it gives nothing, and asks for no poll.
fn is_dropped(task: &MockTask, conn: &mut Bounded<Pipe>) -> Option<bool> {
    let most = most_waiting(task, conn, 60)?;
    let is_bounded = most <= MOST_WAITING && most > MOST_WAITING - 300_000;
    let ends = gives_none(task, conn) && !task.is_woken();
    let refuses = conn.ask(PROTOCOL) == Err(ConnRefused::Failed);
    Some(is_bounded && ends && refuses && conn.waiting() == 0)
}

/// An ask while much output waits still takes memory, and is answered.
fn is_asked_while_much_waits(task: &MockTask, conn: &mut End<Pipe>) -> bool {
    let gave = [poll_said(task, conn), poll_said(task, conn)];
    let is_much = conn.waiting() > 200_000;
    gave == [UPGRADED, NOTHING] && is_much && conn.ask(PROTOCOL) == Ok(2)
}

/// What is played on an end over a pipe.
#[derive(Clone, Copy, Debug, Drop)]
enum Flow {
    /// 9,689 bytes come, more than a read asks for at once.
    AnswersMuch,
    /// 20 pings come right before the end: little output is written before the end is read.
    AnswersBeforeTheEnd,
    AsksWhileOneIsHeld,
    OpensAllStreams,
    WritesBeforeItReads,
    ReadsOften,
    /// The link has failed before: its next failure is told.
    FailsAgain,
    AsksWhileMuchWaits,
}

/// Which end each is played on.
static FLOWS: [(ConnRole, Flow); 8] = [
    (ConnRole::Listener, Flow::AnswersMuch),
    (ConnRole::Listener, Flow::AnswersBeforeTheEnd),
    (ConnRole::Listener, Flow::AsksWhileOneIsHeld),
    (ConnRole::Dialer, Flow::OpensAllStreams),
    (ConnRole::Dialer, Flow::WritesBeforeItReads),
    (ConnRole::Dialer, Flow::ReadsOften),
    (ConnRole::Listener, Flow::FailsAgain),
    (ConnRole::Listener, Flow::AsksWhileMuchWaits),
];

impl Flow {
    fn pipe(self, alloc: Global, task: &MockTask) -> Option<Pipe> {
        match self {
            Flow::AnswersMuch => Some(open_pipe(alloc, input(alloc, PING, 800)?)),
            Flow::AnswersBeforeTheEnd => two_reads(alloc, 20),
            Flow::AsksWhileOneIsHeld => Some(open_pipe(alloc, input(alloc, OPENING, 1)?)),
            Flow::OpensAllStreams | Flow::WritesBeforeItReads => credits(alloc, 20),
            Flow::ReadsOften => credits(alloc, 167),
            Flow::FailsAgain => failed_before(alloc, task),
            Flow::AsksWhileMuchWaits => flood(alloc, 60_000),
        }
    }
}

impl Play<Pipe> for Flow {
    fn play(self, _alloc: Global, task: &MockTask, conn: &mut End<Pipe>) -> Option<bool> {
        let holds = match self {
            Flow::AnswersMuch => is_answered(task, conn, 800),
            Flow::AnswersBeforeTheEnd => is_answered(task, conn, 20),
            Flow::AsksWhileOneIsHeld => is_asked_while_one_is_held(task, conn),
            Flow::OpensAllStreams => opens_all(task, conn),
            Flow::WritesBeforeItReads => writes_first(task, conn),
            Flow::ReadsOften => reads_on(task, conn),
            Flow::FailsAgain => is_failed(task, conn),
            Flow::AsksWhileMuchWaits => is_asked_while_much_waits(task, conn),
        };
        Some(holds)
    }
}

#[test]
fn sizes_of_one_end(rt: HostRuntime) -> Result<(), Fail> {
    let task = MockTask::new(&rt)?;
    for (role, flow) in FLOWS.iter() {
        let pipe = flow.pipe(rt.alloc(), &task);
        let held = play_on(rt.alloc(), &task, *role, pipe, *flow) == Some(true);
        assert!(rt; held, "{flow:?}");
    }
    Ok(())
}

/// A bounded listener whose link takes nothing.
#[derive(Clone, Copy, Drop)]
struct Flooded;

impl PlayBounded<Pipe> for Flooded {
    fn play_bounded(self, task: &MockTask, conn: &mut Bounded<Pipe>) -> Option<bool> {
        is_dropped(task, conn)
    }
}

#[test]
fn too_much_waits(rt: HostRuntime) -> Result<(), Fail> {
    let task = MockTask::new(&rt)?;
    let pipe = flood(rt.alloc(), 360_000);
    let held = play_bounded(rt.alloc(), &task, ConnRole::Listener, pipe, Flooded);
    assert_eq!(rt; held, Some(true), "4 MiB");
    Ok(())
}
