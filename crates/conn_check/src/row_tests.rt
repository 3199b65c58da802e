//! The upgrade and a ping, of either end, and how many calls of the link a poll makes.

use conn_ends::{
    Bounded, End, Gave, PENDING, Plan, Play, PlayBounded, Quiet, Said, UPGRADE, drive, in_turn,
    play_bounded, play_on, poll_once, steps_of, written,
};
use conn_link::Pipe;
use futures::task::Poll;
use futures::test::MockTask;
use std::alloc::Global;
use std::test::*;
use upgrade::ConnRole;

/// What the listener's other end sends behind the upgrade: SYN of stream 1, the header and the name of ping on it, a
/// ping, and FIN.
pub(crate) const PINGS: &[u8] = b"\0\x01\0\x01\0\0\0\x01\0\0\0\0\0\0\0\0\0\0\0\x01\0\0\0\x26\
    \x13/multistream/1.0.0\n\x11/ipfs/ping/1.0.0\n\0\0\0\0\0\0\0\x01\0\0\0\x20\
    \x07\x07\x07\x07\x07\x07\x07\x07\x07\x07\x07\x07\x07\x07\x07\x07\
    \x07\x07\x07\x07\x07\x07\x07\x07\x07\x07\x07\x07\x07\x07\x07\x07\
    \0\x01\0\x04\0\0\0\x01\0\0\0\0";

/// What the dialer's other end sends behind the upgrade: the header and the name of ping on stream 1, the pong, and
/// FIN.
pub(crate) const PONGS: &[u8] = b"\0\0\0\0\0\0\0\x01\0\0\0\x26\
    \x13/multistream/1.0.0\n\x11/ipfs/ping/1.0.0\n\0\0\0\0\0\0\0\x01\0\0\0\x20\
    \x07\x07\x07\x07\x07\x07\x07\x07\x07\x07\x07\x07\x07\x07\x07\x07\
    \x07\x07\x07\x07\x07\x07\x07\x07\x07\x07\x07\x07\x07\x07\x07\x07\
    \0\x01\0\x04\0\0\0\x01\0\0\0\0";

/// What the listener sends behind the upgrade: ACK of stream 1, the header, the name of ping, the pong, and FIN.
const ECHOES: &[u8] =
    b"\0\x01\0\x02\0\0\0\x01\0\0\0\0\0\0\0\0\0\0\0\x01\0\0\0\x14\x13/multistream/1.0.0\n\
    \0\0\0\0\0\0\0\x01\0\0\0\x12\x11/ipfs/ping/1.0.0\n\0\0\0\0\0\0\0\x01\0\0\0\x20\
    \x07\x07\x07\x07\x07\x07\x07\x07\x07\x07\x07\x07\x07\x07\x07\x07\
    \x07\x07\x07\x07\x07\x07\x07\x07\x07\x07\x07\x07\x07\x07\x07\x07\
    \0\x01\0\x04\0\0\0\x01\0\0\0\0";

/// What the dialer sends behind the upgrade: SYN of stream 1, and on it the header, the name of ping, and a ping before
/// any answer, and FIN.
const ASKS: &[u8] = b"\0\x01\0\x01\0\0\0\x01\0\0\0\0\0\0\0\0\0\0\0\x01\0\0\0\x46\
    \x13/multistream/1.0.0\n\x11/ipfs/ping/1.0.0\n\
    \x07\x07\x07\x07\x07\x07\x07\x07\x07\x07\x07\x07\x07\x07\x07\x07\
    \x07\x07\x07\x07\x07\x07\x07\x07\x07\x07\x07\x07\x07\x07\x07\x07\
    \0\x01\0\x04\0\0\0\x01\0\0\0\0";

/// How long the upgrade is.
const UPGRADE_LEN: u8 = 89;

/// What either end tells.
pub(crate) const TOLD: [Said; 4] = [
    Said::Upgraded,
    Said::Agreed(1, 2),
    Said::Done(1),
    Said::Shut,
];

/// How the calls of a link are cut.
#[derive(Clone, Copy, Debug, PartialEq, Eq)]
pub(crate) enum Cut {
    /// The upgrade comes by one read, and what follows by another.
    Whole,
    /// One byte a call, and between them one that is pending.
    Single,
    /// One byte a call.
    Bytes,
}

fn reads(alloc: Global, cut: Cut) -> Option<Vec<u8>> {
    match cut {
        Cut::Whole => in_turn(alloc, UPGRADE_LEN, 254, 1),
        Cut::Single => in_turn(alloc, 1, PENDING, 400),
        Cut::Bytes => in_turn(alloc, 1, 1, 200),
    }
}

fn writes(alloc: Global, cut: Cut) -> Option<Vec<u8>> {
    match cut {
        Cut::Whole => in_turn(alloc, 254, 254, 4),
        Cut::Single => in_turn(alloc, PENDING, 1, 400),
        Cut::Bytes => in_turn(alloc, 1, 1, 200),
    }
}

/// All that comes to an end of this role.
fn input(alloc: Global, role: ConnRole) -> Option<Vec<u8>> {
    let mut input = UPGRADE.to_vec(alloc).ok()?;
    let rest = match role {
        ConnRole::Dialer => PONGS,
        ConnRole::Listener => PINGS,
    };
    input.extend_from_slice(rest).ok()?;
    Some(input)
}

/// A pipe that gives all that comes to an end of this role, by these codes of its reads and these of its writes.
pub(crate) fn pipe(alloc: Global, role: ConnRole, reads: &[u8], writes: &[u8]) -> Option<Pipe> {
    let input = input(alloc, role)?;
    Some(Pipe::new(
        alloc,
        input,
        steps_of(alloc, reads)?,
        steps_of(alloc, writes)?,
    ))
}

/// The dialer asks for a ping once it is up.
pub(crate) fn plan(role: ConnRole) -> Plan {
    match role {
        ConnRole::Dialer => Plan::Ping,
        ConnRole::Listener => Plan::Listen,
    }
}

/// Whether these bytes begin what an end of this role writes.
pub(crate) fn begins_output(role: ConnRole, bytes: &[u8]) -> bool {
    let behind = match role {
        ConnRole::Dialer => ASKS,
        ConnRole::Listener => ECHOES,
    };
    match bytes.get(UPGRADE.len()..) {
        Some(rest) => bytes.starts_with(UPGRADE) && behind.starts_with(rest),
        None => UPGRADE.starts_with(bytes),
    }
}

/// A pipe whose calls are cut so.
fn cut_pipe(alloc: Global, role: ConnRole, cut: Cut) -> Option<Pipe> {
    let (reads, writes) = (reads(alloc, cut)?, writes(alloc, cut)?);
    pipe(alloc, role, &reads, &writes)
}

fn is_told(alloc: Global, task: &MockTask, role: ConnRole, conn: &mut End<Pipe>) -> Option<bool> {
    let gave = drive(alloc, task, conn, plan(role), 4000)?;
    Some(gave.is(&TOLD) && !gave.is_idle && begins_output(role, written(conn)))
}

/// What is played on an end over a pipe.
#[derive(Clone, Copy, Drop)]
enum Row {
    /// The upgrade and a ping of an end of this role.
    Told(ConnRole),
    /// The same, where a poll asks for another behind its 32nd call.
    Behind32(ConnRole),
    /// Many events of one read.
    Many,
}

impl Play<Pipe> for Row {
    fn play(self, alloc: Global, task: &MockTask, conn: &mut End<Pipe>) -> Option<bool> {
        match self {
            Row::Told(role) => is_told(alloc, task, role, conn),
            Row::Behind32(role) => waits_behind_32(alloc, task, role, conn),
            Row::Many => are_all_told(alloc, task, conn),
        }
    }
}

#[test]
fn the_upgrade_and_a_ping(rt: HostRuntime) -> Result<(), Fail> {
    let task = MockTask::new(&rt)?;
    let rows = [
        (ConnRole::Dialer, Cut::Whole),
        (ConnRole::Dialer, Cut::Single),
        (ConnRole::Dialer, Cut::Bytes),
        (ConnRole::Listener, Cut::Whole),
        (ConnRole::Listener, Cut::Single),
        (ConnRole::Listener, Cut::Bytes),
    ];
    for (row, (role, cut)) in rows.iter().enumerate() {
        let pipe = cut_pipe(rt.alloc(), *role, *cut);
        let held = play_on(rt.alloc(), &task, *role, pipe, Row::Told(*role)) == Some(true);
        assert!(rt; held, "row {row}");
    }
    Ok(())
}

/// Where each call moves a byte, a poll asks for another exactly behind its 32nd call.
fn waits_behind_32(
    alloc: Global,
    task: &MockTask,
    role: ConnRole,
    conn: &mut End<Pipe>,
) -> Option<bool> {
    let first = conn.waiting();
    let mut gave = Gave::new(alloc);
    let polled = poll_once(task, conn, &mut gave)?;
    let has_waited = polled == Poll::Pending && !gave.is_idle && gave.most == 32;
    let has_written = role == ConnRole::Listener
        || (written(conn).len() == 32 && conn.waiting() == first.saturating_sub(32));
    let rest = drive(alloc, task, conn, plan(role), 4000)?;
    Some(has_waited && has_written && rest.is(&TOLD) && rest.least_pending == 32 && rest.most == 32)
}

#[test]
fn thirty_two_calls(rt: HostRuntime) -> Result<(), Fail> {
    let task = MockTask::new(&rt)?;
    for role in [ConnRole::Dialer, ConnRole::Listener] {
        let pipe = cut_pipe(rt.alloc(), role, Cut::Bytes);
        let held = play_on(rt.alloc(), &task, role, pipe, Row::Behind32(role)) == Some(true);
        assert!(rt; held, "calls of a poll");
    }
    Ok(())
}

/// Polls that follow make so many calls each, and ask for no other poll.
fn is_idle_again(
    alloc: Global,
    task: &MockTask,
    conn: &mut End<Quiet>,
    calls: u32,
) -> Option<bool> {
    for _ in 0..3u32 {
        let gave = drive(alloc, task, conn, Plan::Listen, 1)?;
        if !gave.is_idle || !gave.said.is_empty() || gave.most != calls {
            return Some(false);
        }
    }
    Some(true)
}

/// A link whose reads wait for ever is asked to write what is left and to read, and no more: the poll asks for no
/// other. Behind `shut` it is shut, where it takes what it is offered, and else the output that is left waits.
fn is_asked_once(
    alloc: Global,
    task: &MockTask,
    conn: &mut End<Quiet>,
    takes: bool,
) -> Option<bool> {
    let first = conn.waiting();
    let gave = drive(alloc, task, conn, Plan::Listen, 1)?;
    let left = if takes { 0 } else { first };
    let is_right = gave.is_idle && gave.said.is_empty() && gave.most == 2 && conn.waiting() == left;
    let stays_idle = is_idle_again(alloc, task, conn, if takes { 1 } else { 2 })?;
    conn.shut();
    let later = drive(alloc, task, conn, Plan::Listen, 10)?;
    let is_shut = if takes {
        later.is(&[Said::Shut]) && later.most == 1
    } else {
        later.is_idle && later.said.is_empty() && later.most == 1 && conn.waiting() == first
    };
    Some(is_right && stays_idle && is_shut)
}

/// So too once it is up: where all that came was heard, and its link waits, a poll asks for no other.
fn is_idle_once_up(
    alloc: Global,
    task: &MockTask,
    conn: &mut End<Quiet>,
    takes: bool,
) -> Option<bool> {
    let gave = drive(alloc, task, conn, Plan::Listen, 20)?;
    let is_up = gave.is_idle && gave.said.as_slice() == [Said::Upgraded].as_slice();
    let stays_idle = is_idle_again(alloc, task, conn, if takes { 1 } else { 2 })?;
    Some(is_up && stays_idle)
}

/// Behind the event no poll asks for another by a waker that an earlier one has kept.
fn is_woken_no_more(alloc: Global, task: &MockTask, conn: &mut End<Quiet>) -> Option<bool> {
    let mut gave = Gave::new(alloc);
    for _ in 0..20u32 {
        if poll_once(task, conn, &mut gave)? == Poll::Ready(Some(Said::Upgraded)) {
            break;
        }
    }
    for _ in 0..3u32 {
        if !poll_once(task, conn, &mut gave)?.is_pending() || task.is_woken() {
            return Some(false);
        }
    }
    Some(true)
}

/// So too where it is bounded: each poll waits for the link, and asks for no other.
fn is_idle_bounded(task: &MockTask, conn: &mut Bounded<Quiet>) -> bool {
    for _ in 0..3u32 {
        let polled = task.enter(|cx| conn.poll_next(cx));
        if !polled.is_pending() || task.is_woken() || conn.was_dropped() {
            return false;
        }
    }
    true
}

/// What is played over a link that waits, which takes bytes or doesn't.
#[derive(Clone, Copy, Debug, Drop)]
enum Waiting {
    /// It is asked once a poll.
    Asked(bool),
    /// So too once the connection is up.
    Up(bool),
    /// No kept waker asks for another poll.
    Woken,
    /// So too where the connection is bounded.
    Bounded(bool),
}

impl Waiting {
    /// The link, which gives the upgrade where the connection comes up.
    fn link(self, alloc: Global) -> Option<Quiet> {
        let upgrade = UPGRADE.to_vec(alloc).ok()?;
        Some(match self {
            Waiting::Asked(takes) | Waiting::Bounded(takes) => Quiet::new(takes, Vec::new(alloc)),
            Waiting::Up(takes) => Quiet::new(takes, upgrade),
            Waiting::Woken => Quiet::new(true, upgrade),
        })
    }

    fn role(self) -> ConnRole {
        match self {
            Waiting::Asked(_) | Waiting::Bounded(_) => ConnRole::Dialer,
            Waiting::Up(_) | Waiting::Woken => ConnRole::Listener,
        }
    }

    fn holds(self, alloc: Global, task: &MockTask) -> bool {
        let (role, link) = (self.role(), self.link(alloc));
        let held = match self {
            Waiting::Bounded(_) => play_bounded(alloc, task, role, link, self),
            _ => play_on(alloc, task, role, link, self),
        };
        held == Some(true)
    }
}

impl Play<Quiet> for Waiting {
    fn play(self, alloc: Global, task: &MockTask, conn: &mut End<Quiet>) -> Option<bool> {
        match self {
            Waiting::Asked(takes) => is_asked_once(alloc, task, conn, takes),
            Waiting::Up(takes) => is_idle_once_up(alloc, task, conn, takes),
            Waiting::Woken => is_woken_no_more(alloc, task, conn),
            Waiting::Bounded(_) => None,
        }
    }
}

impl PlayBounded<Quiet> for Waiting {
    fn play_bounded(self, task: &MockTask, conn: &mut Bounded<Quiet>) -> Option<bool> {
        Some(is_idle_bounded(task, conn))
    }
}

#[test]
fn a_link_that_waits(rt: HostRuntime) -> Result<(), Fail> {
    let task = MockTask::new(&rt)?;
    for waiting in [
        Waiting::Asked(true),
        Waiting::Asked(false),
        Waiting::Up(true),
        Waiting::Up(false),
        Waiting::Bounded(true),
        Waiting::Bounded(false),
        Waiting::Woken,
    ] {
        assert!(rt; waiting.holds(rt.alloc(), &task), "{waiting:?}");
    }
    Ok(())
}

/// How many streams the other end opens by one piece.
const MANY: u8 = 100;

/// The upgrade, and behind it the opening of so many streams, on each of which ping is asked for.
fn many_openings(alloc: Global) -> Option<Vec<u8>> {
    let mut input = UPGRADE.to_vec(alloc).ok()?;
    for count in 0..MANY {
        let mut opening = PINGS.get(..62)?.to_vec(alloc).ok()?;
        let number = count.saturating_mul(2).saturating_add(1);
        *opening.get_mut(7)? = number;
        *opening.get_mut(19)? = number;
        input.extend_from_slice(opening.as_slice()).ok()?;
    }
    Some(input)
}

/// One read brings them all: each that is agreed on is told, in order, and the connection goes on.
fn are_all_told(alloc: Global, task: &MockTask, conn: &mut End<Pipe>) -> Option<bool> {
    let gave = drive(alloc, task, conn, Plan::Listen, 101)?;
    let mut is_right = gave.said.len() == 101 && gave.said.first() == Some(&Said::Upgraded);
    for count in 0..MANY {
        let number = u32::from(count).saturating_mul(2).saturating_add(1);
        let at = usize::from(count).saturating_add(1);
        is_right = is_right && gave.said.get(at) == Some(&Said::Agreed(number, 2));
    }
    Some(is_right && conn.ask(2) == Ok(2))
}

fn many_pipe(alloc: Global) -> Option<Pipe> {
    let reads = steps_of(alloc, &[UPGRADE_LEN])?;
    Some(Pipe::new(alloc, many_openings(alloc)?, reads, Vec::new(alloc)))
}

#[test]
fn many_events_of_a_read(rt: HostRuntime) -> Result<(), Fail> {
    let task = MockTask::new(&rt)?;
    let pipe = many_pipe(rt.alloc());
    let held = play_on(rt.alloc(), &task, ConnRole::Listener, pipe, Row::Many);
    assert_eq!(rt; held, Some(true));
    Ok(())
}
