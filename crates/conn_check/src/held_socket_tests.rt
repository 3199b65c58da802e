//! Links over a socket that is held up: nobody asks for another poll while it is.

use crate::socket_tests::call;
use conn_ends::{Hold, answer_of, held_link};
use conn_link::Link;
use futures::test::MockTask;
use std::alloc::Global;
use std::test::*;

/// A call of a held socket is pending and asks for no other poll. It has registered: letting go wakes the task. Then
/// it answers so, and what failed is counted.
fn waits_so<L: Link>(task: &MockTask, link: &mut L, holder: Hold, kind: u8, answer: u8) -> bool {
    let first = call(task, link, kind);
    let again = call(task, link, kind);
    let is_calm = first.is_pending() && again.is_pending() && !task.is_woken();
    drop(holder);
    let is_woken = task.is_woken();
    let is_right = call(task, link, kind) == answer_of(answer) && !task.is_woken();
    let failed = if answer == b'f' { 1 } else { 0 };
    is_calm && is_woken && is_right && link.failures() == failed
}

fn is_held(alloc: Global, task: &MockTask, fails: bool, kind: u8, answer: u8) -> Option<bool> {
    let (mut link, holder) = held_link(alloc, false, fails, false)?;
    Some(waits_so(task, &mut link, holder, kind, answer))
}

/// One that says first that it is ready, and then isn't, is asked again, and waits.
fn is_held_behind_a_try(alloc: Global, task: &MockTask, kind: u8) -> Option<bool> {
    let (mut link, holder) = held_link(alloc, false, false, true)?;
    Some(waits_so(task, &mut link, holder, kind, b'4'))
}

#[test]
fn a_socket_that_waits(rt: HostRuntime) -> Result<(), Fail> {
    let task = MockTask::new(&rt)?;
    for (kind, answer) in [(b'r', b'4'), (b'w', b'4'), (b's', b'0')] {
        let held = is_held(rt.alloc(), &task, false, kind, answer) == Some(true);
        let fails = is_held(rt.alloc(), &task, true, kind, b'f') == Some(true);
        assert!(rt; held && fails, "call {kind}");
    }
    for kind in [b'r', b'w'] {
        let held = is_held_behind_a_try(rt.alloc(), &task, kind) == Some(true);
        assert!(rt; held, "call {kind} of a socket that isn't ready");
    }
    Ok(())
}
