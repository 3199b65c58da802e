//! `shut`: with output left, with the link pending, twice, and after a fault.

use crate::row_tests::{TOLD, begins_output, pipe, plan};
use conn_ends::{End, FAIL, PENDING, Plan, Play, Said, drive, in_turn, play_on, written};
use conn_link::Pipe;
use conn_log::{ConnFault, ConnRefused};
use futures::test::MockTask;
use std::alloc::Global;
use std::test::*;
use upgrade::ConnRole;

/// Behind `shut`, called once or twice before the first poll, it reads no more: all that is left is written, though
/// each other write is pending, the link is shut, and Shut comes. Asks are refused.
fn is_written_out(
    alloc: Global,
    task: &MockTask,
    conn: &mut End<Pipe>,
    times: u32,
) -> Option<bool> {
    let left = conn.waiting();
    for _ in 0..times {
        conn.shut();
    }
    let is_refused = conn.ask(2) == Err(ConnRefused::Failed);
    let gave = drive(alloc, task, conn, Plan::Listen, 2000)?;
    let is_written = written(conn).len() == left && conn.waiting() == 0;
    let is_shut = conn.link().link.is_shut() && conn.ask(2) == Err(ConnRefused::Failed);
    let is_right = gave.is(&[Said::Shut]) && left > 0 && is_refused && is_written && is_shut;
    Some(is_right && begins_output(ConnRole::Dialer, written(conn)))
}

/// `shut` before any poll of a run: what was told before is a front, then comes Shut, and all that the core wrote is
/// written. Where the run was over already, nothing changes.
fn is_shut_at(alloc: Global, task: &MockTask, conn: &mut End<Pipe>, poll: u32) -> Option<bool> {
    let gave = drive(alloc, task, conn, Plan::ShutAt(poll), 4000)?;
    let before = gave.said.len().checked_sub(1)?;
    let is_told = gave.said.get(before) == Some(&Said::Shut)
        && TOLD.get(..before) == gave.said.get(..before);
    let is_written = begins_output(ConnRole::Listener, written(conn)) && conn.waiting() == 0;
    Some(is_told && gave.has_ended && gave.most <= 32 && is_written)
}

/// Behind a fault `shut` changes nothing, and asks are refused.
fn stays_over(alloc: Global, task: &MockTask, conn: &mut End<Pipe>) -> Option<bool> {
    let gave = drive(alloc, task, conn, plan(ConnRole::Dialer), 100)?;
    conn.shut();
    let later = drive(alloc, task, conn, Plan::Listen, 100)?;
    let is_over = later.is(&[]) && !conn.link().link.is_shut();
    let is_refused = conn.ask(2) == Err(ConnRefused::Failed);
    Some(gave.is(&[Said::Fault(ConnFault::Link)]) && is_over && is_refused)
}

/// Behind `shut`, where each write takes a byte, a poll asks for another exactly behind its 32nd call: 32 writes, and
/// then those that are left, and shutting.
fn is_shut_by_32(alloc: Global, task: &MockTask, conn: &mut End<Pipe>) -> Option<bool> {
    let left = u32::try_from(conn.waiting()).ok()?;
    conn.shut();
    let first = drive(alloc, task, conn, Plan::Listen, 1)?;
    let has_waited = first.said.is_empty() && !first.is_idle && first.least_pending == 32;
    let rest = drive(alloc, task, conn, Plan::Listen, 3)?;
    let calls = conn.link().calls;
    Some(has_waited && rest.is(&[Said::Shut]) && calls == left.saturating_add(1))
}

/// When `shut` is called.
#[derive(Clone, Copy, Debug, Drop)]
enum When {
    /// So many times before the first poll.
    AtOnce(u32),
    /// Before the poll of this number.
    Within(u32),
    BehindAFault,
    /// Before the first poll, where each write takes a byte.
    By32,
}

impl When {
    fn role(self) -> ConnRole {
        match self {
            When::Within(_) => ConnRole::Listener,
            _ => ConnRole::Dialer,
        }
    }

    /// The codes of the writes of its pipe.
    fn writes(self, alloc: Global) -> Option<Vec<u8>> {
        match self {
            When::AtOnce(_) => in_turn(alloc, PENDING, 1, 400),
            When::Within(_) => in_turn(alloc, PENDING, 5, 400),
            When::BehindAFault => in_turn(alloc, 1, 1, 0),
            When::By32 => in_turn(alloc, 1, 1, 100),
        }
    }

    fn pipe(self, alloc: Global) -> Option<Pipe> {
        let writes = self.writes(alloc)?;
        match self {
            When::Within(_) => {
                pipe(
                    alloc,
                    self.role(),
                    &in_turn(alloc, 3, PENDING, 400)?,
                    &writes,
                )
            }
            When::BehindAFault => pipe(alloc, self.role(), &[9, 9, FAIL], &writes),
            When::AtOnce(_) | When::By32 => pipe(alloc, self.role(), &[FAIL], &writes),
        }
    }

    fn holds(self, alloc: Global, task: &MockTask) -> bool {
        play_on(alloc, task, self.role(), self.pipe(alloc), self) == Some(true)
    }
}

impl Play<Pipe> for When {
    fn play(self, alloc: Global, task: &MockTask, conn: &mut End<Pipe>) -> Option<bool> {
        match self {
            When::AtOnce(times) => is_written_out(alloc, task, conn, times),
            When::Within(poll) => is_shut_at(alloc, task, conn, poll),
            When::BehindAFault => stays_over(alloc, task, conn),
            When::By32 => is_shut_by_32(alloc, task, conn),
        }
    }
}

#[test]
fn shut(rt: HostRuntime) -> Result<(), Fail> {
    let task = MockTask::new(&rt)?;
    for when in [
        When::AtOnce(1),
        When::AtOnce(2),
        When::BehindAFault,
        When::By32,
    ] {
        assert!(rt; when.holds(rt.alloc(), &task), "{when:?}");
    }
    for turn in 0..60u32 {
        let when = When::Within(turn.saturating_mul(3));
        assert!(rt; when.holds(rt.alloc(), &task), "{when:?}");
    }
    Ok(())
}
