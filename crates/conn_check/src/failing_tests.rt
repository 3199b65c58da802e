//! A read or a write that fails.

use crate::row_tests::{TOLD, begins_output, pipe, plan};
use conn_ends::{End, Gave, Play, Said, drive, failing_at, play_on, written};
use conn_link::{Link, Pipe};
use conn_log::ConnFault;
use futures::test::MockTask;
use std::alloc::Global;
use std::test::*;
use upgrade::ConnRole;

/// Which calls fail.
#[derive(Clone, Copy, Debug, PartialEq, Eq)]
enum Side {
    Reads,
    Writes,
}

/// The events are a front of what is told without the failure, then Fault(Link), and then the end of the stream.
fn is_cut_off(gave: &Gave) -> bool {
    let Some(before) = gave.said.len().checked_sub(1) else {
        return false;
    };
    let last = gave.said.get(before) == Some(&Said::Fault(ConnFault::Link));
    last && gave.has_ended && TOLD.get(..before) == gave.said.get(..before)
}

/// Where a call has failed the events are cut off, and no call of the link is made behind that.
fn ends_so(alloc: Global, task: &MockTask, role: ConnRole, conn: &mut End<Pipe>) -> Option<bool> {
    let gave = drive(alloc, task, conn, plan(role), 4000)?;
    let calls = conn.link().calls;
    let later = drive(alloc, task, conn, plan(role), 3)?;
    let is_right = match conn.link().failures() {
        0 => gave.is(&TOLD),
        1 => is_cut_off(&gave) && conn.waiting() == 0,
        _ => false,
    };
    let is_over = later.is(&[]) && conn.link().calls == calls;
    Some(is_right && is_over && gave.most <= 32 && begins_output(role, written(conn)))
}

/// A pipe whose call behind so many fails.
fn failing_pipe(alloc: Global, role: ConnRole, side: Side, count: u32) -> Option<Pipe> {
    let failing = failing_at(alloc, count, 9)?;
    let single = failing_at(alloc, 400, 9)?;
    match side {
        Side::Reads => pipe(alloc, role, &failing, &single),
        Side::Writes => pipe(alloc, role, &single, &failing),
    }
}

/// An end of this role whose link fails.
#[derive(Clone, Copy, Drop)]
struct Failing(ConnRole);

impl Play<Pipe> for Failing {
    fn play(self, alloc: Global, task: &MockTask, conn: &mut End<Pipe>) -> Option<bool> {
        ends_so(alloc, task, self.0, conn)
    }
}

/// The call behind so many fails.
fn fails_at(
    alloc: Global,
    task: &MockTask,
    role: ConnRole,
    side: Side,
    count: u32,
) -> Option<bool> {
    let pipe = failing_pipe(alloc, role, side, count);
    play_on(alloc, task, role, pipe, Failing(role))
}

#[test]
fn the_kth_call_fails(rt: HostRuntime) -> Result<(), Fail> {
    let task = MockTask::new(&rt)?;
    for count in 0..60u32 {
        for role in [ConnRole::Dialer, ConnRole::Listener] {
            let reads = fails_at(rt.alloc(), &task, role, Side::Reads, count) == Some(true);
            let writes = fails_at(rt.alloc(), &task, role, Side::Writes, count) == Some(true);
            assert!(rt; reads && writes, "behind {count} calls");
        }
    }
    Ok(())
}
