//! A connection over a socket that is held up while it is shut: nobody asks for another poll while it is.

use conn_ends::{End, Held, Hold, Plan, Said, connect, drive, held_link, lend};
use conn_link::Link;
use conn_log::ConnFault;
use futures::test::MockTask;
use socket_link::SocketLink;
use std::alloc::Global;
use std::test::*;
use upgrade::ConnRole;

/// Behind `shut` a link whose shutting waits is asked once in each poll, none of which asks for another.
fn is_asked_to_shut(
    alloc: Global,
    task: &MockTask,
    conn: &mut End<SocketLink<Held>>,
) -> Option<bool> {
    let _written = drive(alloc, task, conn, Plan::Listen, 10)?;
    conn.shut();
    for _ in 0..3u32 {
        let gave = drive(alloc, task, conn, Plan::Listen, 1)?;
        if !gave.is_idle || !gave.said.is_empty() || gave.most != 1 {
            return Some(false);
        }
    }
    Some(conn.waiting() == 0 && conn.link().failures() == 0)
}

/// Letting go wakes the task. One call of the link more, and it is over: shutting that failed isn't tried again.
fn ends_by(
    alloc: Global,
    task: &MockTask,
    conn: &mut End<SocketLink<Held>>,
    last: Said,
) -> Option<bool> {
    let is_woken = task.is_woken();
    let before = conn.link().calls;
    let gave = drive(alloc, task, conn, Plan::Listen, 10)?;
    let is_once = conn.link().calls == before.saturating_add(1);
    let later = drive(alloc, task, conn, Plan::Listen, 10)?;
    let failed = if last == Said::Shut { 0 } else { 1 };
    let is_over = later.is(&[]) && later.most == 0 && conn.link().failures() == failed;
    Some(is_woken && gave.is(&[last]) && is_once && is_over)
}

fn is_shut_so(
    alloc: Global,
    task: &MockTask,
    conn: &mut End<SocketLink<Held>>,
    holder: Hold,
    last: Said,
) -> Option<bool> {
    let waits = is_asked_to_shut(alloc, task, conn);
    drop(holder);
    Some(waits? && ends_by(alloc, task, conn, last)?)
}

fn shuts_so(alloc: Global, task: &MockTask, fails: bool, last: Said) -> Option<bool> {
    let (link, holder) = held_link(alloc, true, fails, false)?;
    lend(
        connect(alloc, ConnRole::Dialer, link),
        |conn| is_shut_so(alloc, task, conn, holder, last),
    )
}

#[test]
fn shutting_that_waits(rt: HostRuntime) -> Result<(), Fail> {
    let task = MockTask::new(&rt)?;
    assert_eq!(rt; shuts_so(rt.alloc(), &task, false, Said::Shut), Some(true));
    let fault = Said::Fault(ConnFault::Link);
    assert_eq!(rt; shuts_so(rt.alloc(), &task, true, fault), Some(true));
    Ok(())
}
