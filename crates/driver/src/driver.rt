//! What runs a node.

ghost use Rattle.std.specs.Prelude.{◌≡◌, ◌<◌, ◌≤◌, ◌↔◌, true, [], ◌++◌, vec_len, Some, None};
ghost use Rattle.std.specs.Prelude.{is_some, IfSome, IsSome, IfOk, IfErr};
ghost use Rattle.std.specs.Option.{option_to_list};
ghost use Rattle.futures.specs.Task.{Keeps};

use callers::Caller;
use conn_log::ConnFault;
use futures::task::{Context, Poll};
use identify_h::Identify;
use node_terms::Setup;
use pool_state::{ConnSide, Listing, Phase, Refusal, Reply, Row};
use reports::{ConnEnd, Report, Reports};
use seat::{Maker, Seat, let_go, put};
use std::alloc::{AllocError, Global};
use std::io;
use std::net::{Net, SocketAddr};
use tokio::net::{TcpListener, TcpStream};
use tokio::reactor::Handle;

/// How many sockets are taken in a row, and how many connections are dialed in a row.
const MOST_SOCKETS: u32 = 256;

/// What runs a node: a caller of its swarm, its listener and its connections.
pub struct Driver<'a, N: Net, C: Caller> {
    net: &'a N,
    reactor: Handle,
    caller: C,
    maker: Maker,
    listener: Option<TcpListener>,
    /// Where it dials.
    place: Option<SocketAddr>,
    seats: Vec<Seat>,
    reports: Reports,
}

// By hand, so that the proof of who lets go of it is that of a call.
impl<N: Net, C: Caller> Drop for Driver<'_, N, C> {
    fn drop(self) {
        let Self {
            net: _,
            reactor: _reactor,
            caller: _caller,
            maker: _maker,
            listener: _listener,
            place: _,
            seats: _seats,
            reports: _reports,
        } = self;
    }
}

impl<'a, N: Net, C: Caller> Driver<'a, N, C> {
    /// A node without listener and connections. Its sockets are the reactor's. Its only refusal is want of memory.
    pub fn new(
        alloc: Global,
        net: &'a N,
        reactor: Handle,
        caller: C,
        setup: Setup,
    ) -> Result<Driver<'a, N, C>, AllocError>
        ensures idle { IfOk result (λ driver. (driver.listener ≡ None) × (driver.place ≡ None)
            × (driver.seats.items ≡ []) × (driver.reports.kept.items ≡ [])) }
        ensures made { IfOk result (λ driver. (driver.caller ≡ caller) × (driver.maker.alloc ≡ alloc)
            × (driver.maker.key ≡ setup.key) × (driver.maker.agent ≡ setup.agent) × (driver.maker.rng ≡ setup.rng)) }
    {
        let Setup { key, agent, rng } = setup;
        Ok(Driver {
            net,
            reactor,
            caller,
            maker: Maker {
                alloc,
                key,
                agent,
                rng,
            },
            listener: None,
            place: None,
            seats: Vec::new(alloc),
            reports: Reports::new(alloc)?,
        })
    }

    /// Takes sockets from now on that come to this address, and tells where that is. A listener that stood is dropped,
    /// but where it is refused.
    pub fn listen(&mut self, addr: SocketAddr) -> io::Result<SocketAddr>
        ensures listens { IfOk result (λ _. is_some self.new.listener ≡ true) }
        ensures rest { (self.new.place ≡ self.old.place) × (self.new.seats ≡ self.old.seats)
            × (self.new.reports ≡ self.old.reports) × (self.new.caller ≡ self.old.caller)
            × (self.new.maker ≡ self.old.maker) }
        ensures refused { IfErr result (λ _. self.new ≡ self.old) }
    {
        let listener = TcpListener::bind(self.net, addr, &self.reactor)?;
        let addr = listener.local_addr()?;
        self.listener = Some(listener);
        Ok(addr)
    }

    /// Whether it listens.
    pub fn listens(&self) -> bool
        ensures { result ≡ is_some self.now.listener }
    {
        self.listener.is_some()
    }

    /// Dials there from now on.
    pub fn dial_at(&mut self, addr: SocketAddr)
        ensures place { self.new.place ≡ Some addr }
        ensures rest { (self.new.listener ≡ self.old.listener) × (self.new.seats ≡ self.old.seats)
            × (self.new.reports ≡ self.old.reports) × (self.new.caller ≡ self.old.caller)
            × (self.new.maker ≡ self.old.maker) }
    {
        self.place = Some(addr);
    }

    /// Takes no more sockets, and shuts each connection.
    pub fn close(&mut self)
        ensures closed { self.new.listener ≡ None }
        ensures place { self.new.place ≡ self.old.place }
        ensures rest { (self.new.reports ≡ self.old.reports) × (self.new.caller ≡ self.old.caller)
            × (self.new.maker ≡ self.old.maker) }
        ensures conns { vec_len self.new.seats ≡ vec_len self.old.seats }
    {
        self.listener = None;
        for seat in self.seats.iter_mut() {
            seat.shut(ConnEnd::Closed);
        }
    }

    /// Hands out what came first of a connection or of a stream that was asked for, where that wasn't handed out yet.
    pub fn take_report(&mut self) -> Option<Report>
        ensures first { self.old.reports.kept.items ≡ option_to_list result ++ self.new.reports.kept.items }
        ensures some { IsSome result ↔ (0 < vec_len self.old.reports.kept) }
        ensures rest { (self.new.listener ≡ self.old.listener) × (self.new.place ≡ self.old.place)
            × (self.new.seats ≡ self.old.seats) × (self.new.caller ≡ self.old.caller)
            × (self.new.maker ≡ self.old.maker) }
    {
        self.reports.take()
    }

    /// Does all that is to be done now, but for what its owner is to see first: behind a connection that became live,
    /// and behind what a peer said of itself, it goes on in the next call. Where a socket that has come can't be taken,
    /// the next call tries it, which its owner makes by a tick of its own.
    pub fn work(&mut self, cx: &mut Context<'_>)
        ensures { Keeps cx.old cx.new }
    {
        self.admit(cx);
        self.caller.renew();
        self.dial();
        self.serve(cx);
    }

    /// Takes the sockets that have come.
    fn admit(&mut self, cx: &mut Context<'_>)
        ensures { Keeps cx.old cx.new }
    {
        for _ in 0..MOST_SOCKETS {
            let Some(listener) = &mut self.listener else {
                return;
            };
            match listener.poll_accept(cx) {
                Poll::Ready(Ok((stream, _addr))) => self.seat(stream),
                // Descriptors are wanting, say. The next call tries again, and asks for none, so nothing spins.
                Poll::Ready(Err(_)) | Poll::Pending => return,
            }
        }
        let _again: Poll<()> = cx.yield_now();
    }

    /// Admits a socket; where the swarm refuses it, or there is no memory for it, it is dropped.
    fn seat(&mut self, stream: TcpStream) {
        if self.seats.reserve(1).is_err() {
            return;
        }
        if let Reply::Conn(number) = self.caller.accept() {
            let seat = Seat::accepted(&mut self.maker, number, stream);
            put(&mut self.seats, seat);
        }
    }

    /// Dials each connection that the listing shows as to be dialed.
    fn dial(&mut self) {
        for _ in 0..MOST_SOCKETS {
            if !self.dial_next() {
                return;
            }
        }
    }

    /// Dials the next connection, and answers whether there was one, and memory for it.
    fn dial_next(&mut self) -> bool {
        let Some(number) = self.next_dial() else {
            return false;
        };
        if self.seats.reserve(1).is_err() {
            self.starve(number);
            return false;
        }
        let seat = self.dialing(number);
        put(&mut self.seats, seat);
        true
    }

    /// The connection of this number, which isn't dialed yet, ends for want of memory.
    fn starve(&mut self, number: u32) {
        self.caller.gone(number);
        let end = ConnEnd::Fault(ConnFault::OutOfMemory);
        self.reports.add(Report::Conn(number, end));
    }

    /// A connection that is to be dialed and wasn't.
    fn next_dial(&self) -> Option<u32> {
        let conns = &self.caller.listing().conns;
        let row = conns.iter().find(|row| is_due(row, &self.seats));
        row.map(|row| row.conn)
    }

    /// The connection of this number, which is being dialed.
    fn dialing(&self, number: u32) -> Seat {
        match self.place {
            Some(addr) => {
                let connecting = TcpStream::connect(self.net, addr, &self.reactor);
                Seat::dialing(self.maker.alloc, number, connecting)
            }
            None => Seat::unconnected(self.maker.alloc, number),
        }
    }

    /// Goes on with each connection, and lets go of those that have ended.
    fn serve(&mut self, cx: &mut Context<'_>)
        ensures { Keeps cx.old cx.new }
    {
        let mut at = 0;
        for _ in 0..self.seats.len() {
            if at >= self.seats.len() {
                return;
            }
            self.serve_at(at, cx);
            if self.is_gone(at) {
                self.let_go(at);
            } else {
                at += 1;
            }
        }
    }

    /// Lets go of the connection at this place, and reports why it ended.
    fn let_go(&mut self, at: usize) {
        if let Some(seat) = self.seats.get(at) {
            self.reports.add(seat.report());
        }
        let_go(&mut self.seats, at);
    }

    /// Goes on with the connection at this place.
    fn serve_at(&mut self, at: usize, cx: &mut Context<'_>)
        ensures { Keeps cx.old cx.new }
    {
        let Some(seat) = self.seats.get_mut(at) else {
            return;
        };
        if let Some(row) = row_of(self.caller.listing(), seat.number()) {
            seat.heed(&row, &mut self.reports);
        }
        seat.serve(cx, &mut self.maker, &mut self.caller, &mut self.reports);
        seat.tell(&mut self.caller);
    }

    /// Whether the connection at this place has ended, and the swarm knows it.
    fn is_gone(&mut self, at: usize) -> bool {
        let Some(seat) = self.seats.get(at) else {
            return false;
        };
        seat.has_ended() && self.caller.gone(seat.number()) != Reply::Refused(Refusal::OutOfMemory)
    }

    /// How much output of this connection waits that its peer doesn't take. Between the calls of a driver it is never
    /// more than [`MOST_WAITING`](bounded_conn::MOST_WAITING) says.
    pub fn waiting(&self, number: u32) -> Option<usize>
        ensures bounded { IfSome result (λ count. count ≤ 4194304) }
    {
        let seat = self.seats.iter().find(|seat| seat.number() == number);
        match seat {
            Some(seat) => Some(seat.waiting()),
            None => None,
        }
    }

    /// What the peer of this connection has said of itself.
    pub fn identify(&self, number: u32) -> Option<&Identify> {
        let seat = self.seats.iter().find(|seat| seat.number() == number);
        seat.and_then(|seat| seat.identify())
    }
}

/// The listing's row of this connection.
fn row_of(listing: &Listing, number: u32) -> Option<Row> {
    listing.conns.iter().find(|row| row.conn == number).copied()
}

/// Whether this connection is to be dialed and wasn't.
fn is_due(row: &Row, seats: &Vec<Seat>) -> bool {
    row.role == ConnSide::Dialer
        && row.phase != Phase::Live
        && seats.iter().all(|seat| seat.number() != row.conn)
}
