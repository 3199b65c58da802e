//! An end of a connection over a pipe, driven to the end of its events.

ghost use Rattle.std.specs.Prelude.{◌<◌, ◌-◌};

use crate::counted::Counted;
use bounded_conn::BoundedConn;
use conn_core::ConnCore;
use conn_future::Conn;
use conn_link::{Link, Pipe};
use conn_log::{ConnEvent, ConnFault};
use futures::Stream;
use futures::task::Poll;
use futures::test::MockTask;
use node_protocols::{FixedPayload, NodeHandler, NodeProtocols};
use peer_ids::PublicKey;
use std::alloc::Global;
use upgrade::ConnRole;

/// The message of a key (Secp256k1, of one byte), which both ends have here.
pub const KEY: &[u8] = b"\x08\x02\x12\x01\x05";

/// What each end sends until the connection is up.
pub const UPGRADE: &[u8] = b"\x13/multistream/1.0.0\n\x11/plaintext/2.0.0\n\
    \x10\x0a\x07\0\x05\x08\x02\x12\x01\x05\x12\x05\x08\x02\x12\x01\x05\x13/multistream/1.0.0\n\x0d/yamux/1.0.0\n";

/// The bytes of each ping.
const PAYLOAD: [u8; 32] = [7; 32];

/// The index of ping.
const PING: usize = 2;

/// An end of a connection over a link whose calls are counted.
pub type End<L> = Conn<Counted<L>, NodeProtocols<FixedPayload>>;

/// One that is dropped where more output waits than may.
pub type Bounded<L> = BoundedConn<Counted<L>, NodeProtocols<FixedPayload>>;

/// What is told, by its kind.
#[derive(Clone, Copy, Debug, PartialEq, Eq, Drop)]
pub enum Said {
    Upgraded,
    Agreed(u32, usize),
    Done(u32),
    Refused(u32),
    Broken(u32),
    Fault(ConnFault),
    Shut,
}

/// What kind of event this is.
pub fn kind_of(event: &ConnEvent<NodeHandler>) -> Said {
    match event {
        ConnEvent::Upgraded(_) => Said::Upgraded,
        ConnEvent::Agreed(number, index) => Said::Agreed(*number, *index),
        ConnEvent::Refused(number) => Said::Refused(*number),
        ConnEvent::Done(number, _) => Said::Done(*number),
        ConnEvent::Broken(number, _) => Said::Broken(*number),
        ConnEvent::Fault(fault) => Said::Fault(*fault),
        ConnEvent::Shut => Said::Shut,
    }
}

/// The protocols of the node that both ends are.
pub fn protocols(alloc: Global) -> Option<NodeProtocols<FixedPayload>> {
    let own = PublicKey::read(alloc, KEY).ok()?;
    let payloads = FixedPayload { payload: PAYLOAD };
    NodeProtocols::new(alloc, own, "node/0.1.0", payloads).ok()
}

fn core_of(alloc: Global, role: ConnRole) -> Option<ConnCore<NodeProtocols<FixedPayload>>> {
    let protocols = protocols(alloc)?;
    let key = PublicKey::read(alloc, KEY).ok()?;
    ConnCore::new(alloc, role, key, protocols).ok()
}

/// A connection over this link, before any byte came.
pub fn connect<L: Link>(alloc: Global, role: ConnRole, link: L) -> Option<End<L>> {
    if link.failures() == u64::MAX {
        return None;
    }
    let core = core_of(alloc, role)?;
    Conn::new(alloc, Counted::new(alloc, link), core).ok()
}

/// A bounded one.
fn bounded<L: Link>(alloc: Global, role: ConnRole, link: L) -> Option<Bounded<L>> {
    match connect(alloc, role, link) {
        Some(conn) => Some(BoundedConn::new(conn)),
        None => None,
    }
}

/// What is played on a connection over a link.
pub trait Play<L: Link> {
    /// Whether it goes as it must; None where memory is refused.
    fn play(self, alloc: Global, task: &MockTask, conn: &mut End<L>) -> Option<bool>;
}

/// What is played on a bounded one.
pub trait PlayBounded<L: Link> {
    /// Whether it goes as it must; None where memory is refused.
    fn play_bounded(self, task: &MockTask, conn: &mut Bounded<L>) -> Option<bool>;
}

/// Plays on a new connection over this link, and lets it go: each function that does is dear to prove.
pub fn play_on<L: Link, P: Play<L> + Drop>(
    alloc: Global,
    task: &MockTask,
    role: ConnRole,
    link: Option<L>,
    play: P,
) -> Option<bool> {
    let mut conn = connect(alloc, role, link?)?;
    play.play(alloc, task, &mut conn)
}

/// The same on a bounded one.
pub fn play_bounded<L: Link, P: PlayBounded<L> + Drop>(
    alloc: Global,
    task: &MockTask,
    role: ConnRole,
    link: Option<L>,
    play: P,
) -> Option<bool> {
    let mut conn = bounded(alloc, role, link?)?;
    play.play_bounded(task, &mut conn)
}

/// Lends what was made, and lets it go, whatever it is.
pub fn lend<T: Drop, F: FnOnce(&mut T) -> Option<bool> + Drop>(
    made: Option<T>,
    play: F,
) -> Option<bool>
    requires { F.IsAlwaysCallable play }
{
    let mut made = made?;
    play(&mut made)
}

/// What polls gave.
#[derive(Drop)]
pub struct Gave {
    pub said: Vec<Said>,
    /// The stream has ended.
    pub has_ended: bool,
    /// How many calls of the link one poll made at most.
    pub most: u32,
    /// How many calls of the link the least of the pending polls made.
    pub least_pending: u32,
    /// A poll was pending and didn't ask for another.
    pub is_idle: bool,
}

impl Gave {
    /// Before the first poll.
    pub fn new(alloc: Global) -> Gave {
        Gave {
            said: Vec::new(alloc),
            has_ended: false,
            most: 0,
            least_pending: u32::MAX,
            is_idle: false,
        }
    }

    /// Exactly these events were given, and then the end of the stream.
    pub fn is(&self, said: &[Said]) -> bool {
        self.has_ended && self.said.as_slice() == said && self.most <= 32
    }
}

/// What is done with a connection between polls.
#[derive(Clone, Copy, Debug, PartialEq, Eq)]
pub enum Plan {
    /// Nothing.
    Listen,
    /// A ping is asked for once the connection is up.
    Ping,
    /// `shut` is called before the poll of this number.
    ShutAt(u32),
}

/// Polls once, and tells by its kind what came of it.
pub fn poll_said<L: Link>(task: &MockTask, conn: &mut End<L>) -> Poll<Option<Said>> {
    match task.enter(|cx| conn.poll_next(cx)) {
        Poll::Ready(Some(event)) => Poll::Ready(Some(kind_of(&event))),
        Poll::Ready(None) => Poll::Ready(None),
        Poll::Pending => Poll::Pending,
    }
}

/// Polls once, and notes what came of it.
pub fn poll_once<L: Link>(
    task: &MockTask,
    conn: &mut End<L>,
    gave: &mut Gave,
) -> Option<Poll<Option<Said>>> {
    let before = conn.link().calls;
    let polled = poll_said(task, conn);
    let calls = conn.link().calls.saturating_sub(before);
    gave.most = gave.most.max(calls);
    match polled {
        Poll::Ready(Some(said)) => gave.said.push(said).ok()?,
        Poll::Ready(None) => gave.has_ended = true,
        Poll::Pending => {
            gave.least_pending = gave.least_pending.min(calls);
            gave.is_idle = gave.is_idle || !task.is_woken();
        }
    }
    Some(polled)
}

/// Polls until the stream has ended or waits for the link, at most so many times.
pub fn drive<L: Link>(
    alloc: Global,
    task: &MockTask,
    conn: &mut End<L>,
    plan: Plan,
    polls: u32,
) -> Option<Gave> {
    let mut gave = Gave::new(alloc);
    for poll in 0..polls {
        if plan == Plan::ShutAt(poll) {
            conn.shut();
        }
        let polled = poll_once(task, conn, &mut gave)?;
        if polled == Poll::Ready(Some(Said::Upgraded)) && plan == Plan::Ping {
            conn.ask(PING).ok()?;
        }
        if gave.has_ended || gave.is_idle {
            break;
        }
    }
    Some(gave)
}

/// What was written.
pub fn written(conn: &End<Pipe>) -> &[u8] {
    conn.link().link.written()
}
