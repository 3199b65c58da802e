//! A pipe by itself: what its calls answer by their steps.

use conn_ends::{FAIL, PENDING, answer_of, steps_of};
use conn_link::{Link, Pipe};
use futures::task::Poll;
use futures::test::MockTask;
use std::alloc::Global;
use std::test::*;

/// What a link gives or takes in all: a call offers four bytes of it at a time.
const ALL: &[u8] = b"abcdef";

/// The codes of a list of steps, and what calls in turn answer by them.
static ROWS: [(&[u8], &[u8]); 11] = [
    // Past the end of the list a call moves all that it can, and past the end of the input nothing.
    (&[], b"4200"),
    (&[1], b"14100"),
    (&[2], b"24000"),
    // No more than there is room for, and no more than is left.
    (&[9, 9], b"4200"),
    (&[3, 9], b"33000"),
    // What is pending or fails moves nothing.
    (&[PENDING], b"p420"),
    (&[FAIL], b"f420"),
    (&[1, PENDING, 2, FAIL, 9], b"1p2f30"),
    (&[PENDING, PENDING, FAIL, FAIL], b"ppff420"),
    // The steps go on past the end of the input.
    (&[9, 9, 9, PENDING, FAIL], b"420pf00"),
    (&[1, 1, 1, 1, 1, 1, PENDING, FAIL, 1], b"111111pf00"),
];

/// What a link has given, or taken, and whether each call answered as it was to.
#[derive(Drop)]
struct Came {
    bytes: Vec<u8>,
    is_right: bool,
}

/// Whether it moved a front part, as the answers say, and the failures among them were counted.
fn is_counted(came: &Came, answers: &[u8], failures: u64) -> bool {
    let mut moved = 0usize;
    let mut failed = 0u64;
    for letter in answers {
        match answer_of(*letter) {
            Poll::Ready(Ok(count)) => moved = moved.saturating_add(count),
            Poll::Ready(Err(_)) => failed = failed.saturating_add(1),
            Poll::Pending => {}
        }
    }
    came.is_right && failures == failed && ALL.get(..moved) == Some(came.bytes.as_slice())
}

/// Reads by calls of the trait. A call asks for another poll exactly where it is pending.
fn read<L: Link>(alloc: Global, task: &MockTask, link: &mut L, answers: &[u8]) -> Option<Came> {
    let mut came = Came {
        bytes: Vec::new(alloc),
        is_right: true,
    };
    for letter in answers {
        let mut buffer = [0; 4];
        let polled = task.enter(|cx| link.poll_read(cx, &mut buffer));
        let is_right = polled == answer_of(*letter) && task.is_woken() == polled.is_pending();
        if let Poll::Ready(Ok(count)) = polled {
            came.bytes.extend_from_slice(buffer.get(..count)?).ok()?;
        }
        came.is_right = came.is_right && is_right;
    }
    Some(came)
}

fn offer(sent: usize) -> &'static [u8] {
    let rest = ALL.get(sent..).unwrap_or(&[]);
    rest.get(..4).unwrap_or(rest)
}

fn write<L: Link>(alloc: Global, task: &MockTask, link: &mut L, answers: &[u8]) -> Option<Came> {
    let mut came = Came {
        bytes: Vec::new(alloc),
        is_right: true,
    };
    for letter in answers {
        let offered = offer(came.bytes.len());
        let polled = task.enter(|cx| link.poll_write(cx, offered));
        let is_right = polled == answer_of(*letter) && task.is_woken() == polled.is_pending();
        if let Poll::Ready(Ok(count)) = polled {
            came.bytes.extend_from_slice(offered.get(..count)?).ok()?;
        }
        came.is_right = came.is_right && is_right;
    }
    Some(came)
}

fn reads_so(alloc: Global, task: &MockTask, steps: &[u8], answers: &[u8]) -> Option<bool> {
    let reads = steps_of(alloc, steps)?;
    let mut pipe = Pipe::new(alloc, ALL.to_vec(alloc).ok()?, reads, Vec::new(alloc));
    let came = read(alloc, task, &mut pipe, answers)?;
    Some(is_counted(&came, answers, pipe.failures()) && pipe.written().is_empty())
}

fn writes_so(alloc: Global, task: &MockTask, steps: &[u8], answers: &[u8]) -> Option<bool> {
    let writes = steps_of(alloc, steps)?;
    let mut pipe = Pipe::new(alloc, Vec::new(alloc), Vec::new(alloc), writes);
    let came = write(alloc, task, &mut pipe, answers)?;
    let is_kept = pipe.written() == came.bytes.as_slice();
    Some(is_counted(&came, answers, pipe.failures()) && is_kept)
}

#[test]
fn reads_by_steps(rt: HostRuntime) -> Result<(), Fail> {
    let task = MockTask::new(&rt)?;
    for (row, (steps, answers)) in ROWS.iter().enumerate() {
        let held = reads_so(rt.alloc(), &task, *steps, *answers) == Some(true);
        assert!(rt; held, "row {row}");
    }
    Ok(())
}

#[test]
fn writes_by_steps(rt: HostRuntime) -> Result<(), Fail> {
    let task = MockTask::new(&rt)?;
    for (row, (steps, answers)) in ROWS.iter().enumerate() {
        let held = writes_so(rt.alloc(), &task, *steps, *answers) == Some(true);
        assert!(rt; held, "row {row}");
    }
    Ok(())
}

/// Whether shutting succeeds at once.
fn shuts<L: Link>(task: &MockTask, link: &mut L) -> bool {
    task.enter(|cx| link.poll_shut(cx)) == Poll::Ready(Ok(())) && !task.is_woken()
}

/// What reads and writes in turn answer.
static TURNS: [(&[u8], &[u8]); 2] = [(b"1", b"f"), (b"p410", b"240")];

fn in_turn<L: Link>(alloc: Global, task: &MockTask, link: &mut L) -> Option<bool> {
    let mut is_right = true;
    for (reads, writes) in TURNS.iter() {
        let read = read(alloc, task, link, *reads)?.is_right;
        let written = write(alloc, task, link, *writes)?.is_right;
        is_right = shuts(task, link) && read && written && is_right;
    }
    Some(is_right)
}

/// Reads and writes have each their own steps, and shutting takes none of them.
fn both_ways(alloc: Global, task: &MockTask) -> Option<bool> {
    let (reads, writes) = (
        steps_of(alloc, &[1, PENDING])?,
        steps_of(alloc, &[FAIL, 2])?,
    );
    let mut pipe = Pipe::new(alloc, ALL.to_vec(alloc).ok()?, reads, writes);
    let was_shut = pipe.is_shut();
    let is_right = in_turn(alloc, task, &mut pipe)? && pipe.written() == ALL;
    Some(is_right && pipe.failures() == 1 && !was_shut && pipe.is_shut())
}

#[test]
fn both_directions(rt: HostRuntime) -> Result<(), Fail> {
    let task = MockTask::new(&rt)?;
    assert_eq!(rt; both_ways(rt.alloc(), &task), Some(true));
    Ok(())
}

/// A read into an empty buffer gives nothing, and takes a step all the same.
fn into_nothing(alloc: Global, task: &MockTask) -> Option<bool> {
    let reads = steps_of(alloc, &[1, PENDING])?;
    let mut pipe = Pipe::new(alloc, ALL.to_vec(alloc).ok()?, reads, Vec::new(alloc));
    let first = task.enter(|cx| pipe.poll_read(cx, &mut []));
    let rest = read(alloc, task, &mut pipe, b"p420")?;
    Some(first == Poll::Ready(Ok(0)) && rest.is_right && rest.bytes.as_slice() == ALL)
}

#[test]
fn an_empty_buffer(rt: HostRuntime) -> Result<(), Fail> {
    let task = MockTask::new(&rt)?;
    assert_eq!(rt; into_nothing(rt.alloc(), &task), Some(true));
    Ok(())
}
