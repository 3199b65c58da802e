//! A connection whose link takes nothing for long: much output waits, and none of it is lost.

use conn_ends::{
    End, Gave, PENDING, Plan, Play, Said, UPGRADE, drive, play_on, poll_once, steps_of, written,
};
use conn_link::Pipe;
use futures::task::Poll;
use futures::test::MockTask;
use std::alloc::Global;
use std::test::*;
use upgrade::ConnRole;

/// How long a Ping of the session is, and its answer.
const PING_LEN: usize = 12;

/// The flags of a Ping, and of its answer.
const ASKS: u8 = 1;

const ANSWERS: u8 = 2;

/// The upgrade, and behind it so many Pings of the session, each of its own number, or their answers.
fn pings(alloc: Global, flag: u8, count: u32) -> Option<Vec<u8>> {
    let mut bytes = UPGRADE.to_vec(alloc).ok()?;
    for number in 0..count {
        let head = [0, 2, 0, flag, 0, 0, 0, 0];
        bytes.extend_from_slice(&head).ok()?;
        bytes.extend_from_slice(&number.to_be_bytes()).ok()?;
    }
    Some(bytes)
}

/// The link of a listener whose other end sends Pings without end. The first two writes take nothing, the third a
/// little; past the fourth it takes all.
fn flood(alloc: Global) -> Option<Pipe> {
    let writes = steps_of(alloc, &[PENDING, PENDING, 200, PENDING])?;
    let input = pings(alloc, ASKS, 60_000)?;
    Some(Pipe::new(alloc, input, Vec::new(alloc), writes))
}

fn sum(counts: &[usize]) -> usize {
    let mut sum = 0usize;
    for count in counts {
        sum = sum.saturating_add(*count);
    }
    sum
}

/// Each whole Ping that came was answered, in order, and nothing else was written.
fn is_answered(alloc: Global, conn: &End<Pipe>) -> Option<bool> {
    let heard = sum(conn.link().given.as_slice());
    let all = pings(alloc, ANSWERS, 60_000)?;
    let missing = heard.checked_sub(written(conn).len())?;
    Some(all.starts_with(written(conn)) && missing < PING_LEN)
}

/// Two polls that fill what waits, and then `shut`.
fn waits_much(alloc: Global, task: &MockTask, conn: &mut End<Pipe>) -> Option<bool> {
    let mut gave = Gave::new(alloc);
    let first = poll_once(task, conn, &mut gave)?;
    let is_up = first == Poll::Ready(Some(Said::Upgraded));
    let fills = poll_once(task, conn, &mut gave)?.is_pending();
    let fills_more = poll_once(task, conn, &mut gave)?.is_pending();
    let is_much = conn.waiting() > 400_000 && written(conn).len() == 200;
    conn.shut();
    let rest = drive(alloc, task, conn, Plan::Listen, 100)?;
    let is_right = is_up && fills && fills_more && is_much && rest.is(&[Said::Shut]);
    Some(is_right && conn.waiting() == 0 && is_answered(alloc, conn)?)
}

/// A listener whose other end floods it.
#[derive(Clone, Copy, Drop)]
struct Flooded;

impl Play<Pipe> for Flooded {
    fn play(self, alloc: Global, task: &MockTask, conn: &mut End<Pipe>) -> Option<bool> {
        waits_much(alloc, task, conn)
    }
}

fn loses_none(alloc: Global, task: &MockTask) -> Option<bool> {
    play_on(alloc, task, ConnRole::Listener, flood(alloc), Flooded)
}

#[test]
fn much_output_waits(rt: HostRuntime) -> Result<(), Fail> {
    let task = MockTask::new(&rt)?;
    assert_eq!(rt; loses_none(rt.alloc(), &task), Some(true));
    Ok(())
}
