//! One connection of a node.

ghost use Rattle.std.specs.Prelude.{◌≡◌, ◌<◌, ◌≤◌};
ghost use Rattle.futures.specs.Task.{Keeps};

use crate::making::{Maker, Socketed};
use crate::owning::set;
use callers::Caller;
use conn_log::{ConnEvent, ConnFault, ConnRefused};
use futures::task::{Context, Poll};
use futures::{Future, ready};
use identify_h::Identify;
use node_protocols::NodeHandler;
use plaintext_x::Proven;
use pool_state::{Agent, Phase, Refusal, Reply, Row};
use reports::{ConnEnd, Report, Reports, StreamEnd};
use std::alloc::Global;
use tokio::net::{ConnectFuture, TcpStream};
use upgrade::ConnRole;

/// How many events of a connection are heard in a row, before others have their turn.
const MOST_EVENTS: u32 = 64;

/// How many asks are taken up in a row. No listing shows more that are open.
const MOST_ASKS: u32 = 64;

/// How far a connection is.
#[derive(Drop)]
enum Way {
    /// Its socket is being connected.
    Connecting(ConnectFuture),
    /// It stands.
    Up(Socketed),
    /// It has ended for this, and the swarm isn't told yet.
    Ended(ConnEnd),
}

/// A stream that was asked for and isn't over.
#[derive(Clone, Copy)]
struct AskedStream {
    number: u32,
    index: u8,
}

/// One connection of a node.
pub struct Seat {
    /// The connection's number in the swarm.
    number: u32,
    way: Way,
    /// How many asks were taken up, by the index of the protocol.
    taken: [u64; 3],
    /// How many streams are over of which the swarm isn't told yet, by the index of the protocol.
    over: [u64; 3],
    streams: Vec<AskedStream>,
    /// What the peer has said of itself.
    identify: Option<Identify>,
    /// Why it is shut, where it is.
    shut: Option<ConnEnd>,
}

// By hand, so that the proof of who lets go of it is that of a call, and not of all that a connection is made of.
impl Drop for Seat {
    fn drop(self) {
        let Self {
            number: _,
            way: _way,
            taken: _,
            over: _,
            streams: _streams,
            identify: _identify,
            shut: _,
        } = self;
    }
}

impl Seat {
    fn new(alloc: Global, number: u32, way: Way) -> Seat {
        Seat {
            number,
            way,
            taken: [0; 3],
            over: [0; 3],
            streams: Vec::new(alloc),
            identify: None,
            shut: None,
        }
    }

    /// A connection that this node dials.
    pub fn dialing(alloc: Global, number: u32, connecting: ConnectFuture) -> Seat {
        Seat::new(alloc, number, Way::Connecting(connecting))
    }

    /// A connection whose socket another node dialed.
    pub fn accepted(maker: &mut Maker, number: u32, stream: TcpStream) -> Seat {
        let way = way_of(maker, stream, ConnRole::Listener);
        Seat::new(maker.alloc, number, way)
    }

    /// A connection that has ended before it had a socket.
    pub fn unconnected(alloc: Global, number: u32) -> Seat {
        Seat::new(alloc, number, Way::Ended(ConnEnd::NoConnection))
    }

    /// The connection's number in the swarm.
    pub fn number(&self) -> u32
        ensures { result ≡ self.now.number }
    {
        self.number
    }

    /// Whether it has ended.
    pub fn has_ended(&self) -> bool {
        matches!(self.way, Way::Ended(_))
    }

    /// What its owner is told at its end.
    pub fn report(&self) -> Report {
        let end = match self.way {
            Way::Ended(end) => end,
            Way::Connecting(_) | Way::Up(_) => ConnEnd::Closed,
        };
        Report::Conn(self.number, end)
    }

    /// It ends, for what it was shut for or else for this.
    fn end(&mut self, end: ConnEnd) {
        let way = Way::Ended(self.shut.unwrap_or(end));
        set(&mut self.way, way);
    }

    /// Shuts it for this, where it isn't shut; what isn't connected yet ends.
    pub fn shut(&mut self, end: ConnEnd) {
        if self.shut.is_some() {
            return;
        }
        self.shut = Some(end);
        match &mut self.way {
            Way::Up(conn) => conn.shut(),
            Way::Connecting(_) => self.end(end),
            Way::Ended(_) => {}
        }
    }

    /// Does what the listing's row of this connection asks for.
    pub fn heed(&mut self, row: &Row, reports: &mut Reports) {
        match row.phase {
            Phase::Pending => {}
            Phase::Live => {
                for index in 0..3 {
                    self.take_up(index, row.asked[index as usize], reports);
                }
            }
            Phase::Closing => self.shut(ConnEnd::Closed),
        }
    }

    /// Opens a stream for each ask of this protocol that wasn't taken up.
    fn take_up(&mut self, index: u8, asked: u64, reports: &mut Reports)
        requires { index < 3 }
    {
        for _ in 0..MOST_ASKS {
            if self.taken[index as usize] >= asked {
                return;
            }
            self.taken[index as usize] += 1;
            if let Err(refused) = self.open(index) {
                self.count_over(index, StreamEnd::Unopened(refused), reports);
            }
        }
    }

    /// Opens a stream.
    fn open(&mut self, index: u8) -> Result<(), ConnRefused> {
        if self.streams.reserve(1).is_err() {
            return Err(ConnRefused::OutOfMemory);
        }
        let Way::Up(conn) = &mut self.way else {
            return Err(ConnRefused::NotUp);
        };
        let asked = conn.ask(index as usize);
        if conn.was_dropped() {
            self.end(ConnEnd::Untaken);
        }
        let _ = self.streams.push(AskedStream {
            number: asked?,
            index,
        });
        Ok(())
    }

    /// A stream of this protocol that was asked for is over.
    fn count_over(&mut self, index: u8, end: StreamEnd, reports: &mut Reports) {
        reports.add(Report::Stream(self.number, index, end));
        if let Some(count) = self.over.get_mut(index as usize) {
            *count = count.saturating_add(1);
        }
    }

    /// This stream is over.
    fn finish(&mut self, number: u32, end: StreamEnd, reports: &mut Reports) {
        let at = self
            .streams
            .iter()
            .position(|stream| stream.number == number);
        if let Some(at) = at {
            let stream = self.streams.swap_remove(at);
            self.count_over(stream.index, end, reports);
        }
    }

    /// Tells the swarm of the streams that are over. Where it has no memory for it, it is told later.
    pub fn tell<C: Caller>(&mut self, caller: &mut C) {
        for index in 0..3 {
            for _ in 0..MOST_ASKS {
                if self.over[index as usize] == 0 {
                    break;
                }
                if caller.done(self.number, index) == Reply::Refused(Refusal::OutOfMemory) {
                    return;
                }
                self.over[index as usize] -= 1;
            }
        }
    }

    /// Goes on as far as it can now, or until its owner is to see what came.
    pub fn serve<C: Caller>(
        &mut self,
        cx: &mut Context<'_>,
        maker: &mut Maker,
        caller: &mut C,
        reports: &mut Reports,
    )
        ensures { Keeps cx.old cx.new }
    {
        if let Poll::Ready(connected) = self.poll_connected(cx) {
            if let Some(stream) = connected {
                set(&mut self.way, way_of(maker, stream, ConnRole::Dialer));
            }
            self.hear_all(cx, caller, reports);
        }
    }

    /// The socket that is connected now; none, where it was before, or can't be.
    fn poll_connected(&mut self, cx: &mut Context<'_>) -> Poll<Option<TcpStream>>
        ensures { Keeps cx.old cx.new }
    {
        let Way::Connecting(connecting) = &mut self.way else {
            return Poll::Ready(None);
        };
        match ready!(connecting.poll(cx)) {
            Ok(stream) => Poll::Ready(Some(stream)),
            Err(_) => {
                self.end(ConnEnd::NoConnection);
                Poll::Ready(None)
            }
        }
    }

    /// Hears what the connection tells, until it waits, or its owner is to see what came.
    fn hear_all<C: Caller>(&mut self, cx: &mut Context<'_>, caller: &mut C, reports: &mut Reports)
        ensures { Keeps cx.old cx.new }
    {
        for _ in 0..MOST_EVENTS {
            let Way::Up(conn) = &mut self.way else {
                return;
            };
            let polled = conn.poll_next(cx);
            if conn.was_dropped() {
                self.end(ConnEnd::Untaken);
                return;
            }
            match polled {
                Poll::Ready(Some(event)) => {
                    if self.hear(event, caller, reports) {
                        break;
                    }
                }
                Poll::Ready(None) => self.end(ConnEnd::Shut),
                Poll::Pending => return,
            }
        }
        let _again: Poll<()> = cx.yield_now();
    }

    /// Hears one event of the connection, and answers whether the owner is to see what came of it before the next one.
    fn hear<C: Caller>(
        &mut self,
        event: ConnEvent<NodeHandler>,
        caller: &mut C,
        reports: &mut Reports,
    ) -> bool {
        match event {
            ConnEvent::Upgraded(proven) => {
                self.settle(&proven, caller);
                return true;
            }
            ConnEvent::Agreed(..) => {}
            ConnEvent::Refused(stream) => self.finish(stream, StreamEnd::Refused, reports),
            ConnEvent::Broken(stream, cause) => {
                self.finish(stream, StreamEnd::Broken(cause), reports);
            }
            ConnEvent::Done(stream, handler) => {
                let is_said = self.take_in(stream, handler, caller);
                self.finish(stream, StreamEnd::Done, reports);
                return is_said;
            }
            ConnEvent::Fault(fault) => self.end(ConnEnd::Fault(fault)),
            ConnEvent::Shut => self.end(ConnEnd::Shut),
        }
        false
    }

    /// Takes in what the peer said of itself on this stream, and answers whether it did.
    fn take_in<C: Caller>(&mut self, stream: u32, handler: NodeHandler, caller: &mut C) -> bool {
        match handler.into_message() {
            Ok(message) => {
                self.note(&message, caller);
                self.keep(stream, message);
                true
            }
            Err(_) => false,
        }
    }

    /// The other end has proven its key.
    fn settle<C: Caller>(&mut self, proven: &Proven, caller: &mut C) {
        match caller.settle(self.number, proven) {
            Reply::Refused(refusal) => self.shut(ConnEnd::Refused(refusal)),
            Reply::Done | Reply::Conn(_) | Reply::Count(_) => {}
        }
    }

    /// Tells the swarm the agent that this message names, if it does.
    fn note<C: Caller>(&mut self, message: &Identify, caller: &mut C) {
        let agent = message
            .agent
            .as_ref()
            .and_then(|agent| Agent::from_bytes(agent.as_slice()));
        if let Some(agent) = agent {
            if caller.note(self.number, agent) == Reply::Refused(Refusal::OutOfMemory) {
                self.shut(ConnEnd::Fault(ConnFault::OutOfMemory));
            }
        }
    }

    /// Keeps what the peer said of itself: what was asked for replaces what is kept, and a push is merged into it.
    fn keep(&mut self, stream: u32, message: Identify) {
        let was_asked = self.streams.iter().any(|asked| asked.number == stream);
        let kept = if was_asked {
            None
        } else {
            self.identify.take()
        };
        self.identify = Some(merged(kept, message));
    }

    /// How much of its output waits.
    pub fn waiting(&self) -> usize
        ensures { result ≤ 4194304 }
    {
        match &self.way {
            Way::Up(conn) => conn.waiting(),
            Way::Connecting(_) | Way::Ended(_) => 0,
        }
    }

    /// What the peer has said of itself.
    pub fn identify(&self) -> Option<&Identify> {
        self.identify.as_ref()
    }
}

/// A connection over a socket that is connected, or the end where memory was refused.
fn way_of(maker: &mut Maker, stream: TcpStream, role: ConnRole) -> Way {
    match maker.conn(stream, role) {
        Ok(conn) => Way::Up(conn),
        Err(_) => Way::Ended(ConnEnd::Fault(ConnFault::OutOfMemory)),
    }
}

/// What is kept with a message merged into it.
fn merged(kept: Option<Identify>, message: Identify) -> Identify {
    match kept {
        Some(kept) => kept.merged_with(message),
        None => message,
    }
}
