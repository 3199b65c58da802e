//! A caller of a swarm, as a driver and a script know it.

ghost use Rattle.std.specs.Prelude.{◌≡◌};
ghost use Rattle.peer_ids.specs.PeerId.{id_of};
ghost use Rattle.pool_state.specs.Shown.{Shown};
ghost use Rattle.pool_state.specs.declared.call.Call.TheVariants as call;
ghost use Rattle.swarm_calls.specs.Calls.{IsCalled, Later, SameCalls};

use peer_ids::PeerId;
use plaintext_x::Proven;
use pool_state::{Agent, Listing, Reply};
use std::sync::Wait;
use swarm_calls::{Identity, Ledgers, NoGate, Pass, Swarm};

/// A caller of a swarm: it makes pool calls, and looks at listings. A test may hand in one that looks less.
pub trait Caller: Drop {
    /// Admits a connection that this node dials, to the peer that is expected, if one is.
    fn dial(&mut self, peer: Option<PeerId>) -> Reply;

    /// Admits a connection that another node dialed.
    fn accept(&mut self) -> Reply;

    /// The other end of the connection of this number has proven to be a peer.
    fn settle(&mut self, conn: u32, proven: &Proven) -> Reply;

    /// Asks for one more stream of a protocol, by its index from 0 to 2, on a connection.
    fn ask(&mut self, conn: u32, index: u8) -> Reply;

    /// A stream that was asked for is over.
    fn done(&mut self, conn: u32, index: u8) -> Reply;

    /// Closes the connections of a peer.
    fn hang_up(&mut self, peer: PeerId) -> Reply;

    /// Closes the connections of a peer and keeps it out, until it is unblocked.
    fn block(&mut self, peer: PeerId) -> Reply;

    /// Lets a blocked peer in again.
    fn unblock(&mut self, peer: PeerId) -> Reply;

    /// Lets a peer in where only allowed peers may connect.
    fn allow(&mut self, peer: PeerId) -> Reply;

    /// The connection of this number has ended.
    fn gone(&mut self, conn: u32) -> Reply;

    /// The peer of a connection has named its agent.
    fn note(&mut self, conn: u32, agent: Agent) -> Reply;

    /// Sees what is published.
    fn renew(&mut self);

    /// The listing of what it has seen.
    fn listing(&self) -> &Listing;
}

/// How a caller comes to see what is published. A test may hand in one that sees less.
pub trait Looking: Drop {
    /// Sees what is published, or less.
    fn renew<J: Identity, L: Ledgers>(&self, swarm: &Swarm<NoGate, J, L>, pass: &mut Pass<J, L>)
        ensures later { Later J.config J.callers pass.old pass.new }
        ensures own { SameCalls pass.old pass.new };
}

/// Sees all that is published.
#[derive(Clone, Copy, Debug, Drop)]
pub struct Fresh;

impl Looking for Fresh {
    fn renew<J: Identity, L: Ledgers>(&self, swarm: &Swarm<NoGate, J, L>, pass: &mut Pass<J, L>) {
        swarm.renew(pass);
    }
}

/// A caller of a swarm, by its pass.
pub struct Member<'a, 's, R: Wait, J: Identity, L: Ledgers, K: Looking> {
    rt: &'a R,
    swarm: &'s Swarm<NoGate, J, L>,
    pass: Box<Pass<J, L>>,
    looking: &'a K,
}

// By hand, so that the proof of who lets go of it is that of a call.
impl<R: Wait, J: Identity, L: Ledgers, K: Looking> Drop for Member<'_, '_, R, J, L, K> {
    fn drop(self) {
        let Self {
            rt: _,
            swarm: _,
            pass: _pass,
            looking: _,
        } = self;
    }
}

impl<'a, 's, R: Wait, J: Identity, L: Ledgers, K: Looking> Member<'a, 's, R, J, L, K> {
    /// The caller of this pass.
    pub fn new(
        rt: &'a R,
        swarm: &'s Swarm<NoGate, J, L>,
        pass: Box<Pass<J, L>>,
        looking: &'a K,
    ) -> Member<'a, 's, R, J, L, K>
        ensures { result.pass ≡ pass }
    {
        Member {
            rt,
            swarm,
            pass,
            looking,
        }
    }
}

impl<R: Wait, J: Identity, L: Ledgers, K: Looking> Caller for Member<'_, '_, R, J, L, K> {
    fn dial(&mut self, peer: Option<PeerId>) -> Reply
        ensures { IsCalled J.config J.callers (call.Dial peer) self.old.pass.value result self.new.pass.value }
    {
        self.swarm.dial(self.rt, &mut self.pass, peer)
    }

    fn accept(&mut self) -> Reply
        ensures { IsCalled J.config J.callers call.Accept self.old.pass.value result self.new.pass.value }
    {
        self.swarm.accept(self.rt, &mut self.pass)
    }

    fn settle(&mut self, conn: u32, proven: &Proven) -> Reply
        ensures { IsCalled J.config J.callers (call.Settle conn (id_of proven.now)) self.old.pass.value result
            self.new.pass.value }
    {
        self.swarm.settle(self.rt, &mut self.pass, conn, proven)
    }

    fn ask(&mut self, conn: u32, index: u8) -> Reply
        ensures { IsCalled J.config J.callers (call.Ask conn index) self.old.pass.value result self.new.pass.value }
    {
        self.swarm.ask(self.rt, &mut self.pass, conn, index)
    }

    fn done(&mut self, conn: u32, index: u8) -> Reply
        ensures { IsCalled J.config J.callers (call.Done conn index) self.old.pass.value result self.new.pass.value }
    {
        self.swarm.done(self.rt, &mut self.pass, conn, index)
    }

    fn hang_up(&mut self, peer: PeerId) -> Reply
        ensures { IsCalled J.config J.callers (call.HangUp peer) self.old.pass.value result self.new.pass.value }
    {
        self.swarm.hang_up(self.rt, &mut self.pass, peer)
    }

    fn block(&mut self, peer: PeerId) -> Reply
        ensures { IsCalled J.config J.callers (call.Block peer) self.old.pass.value result self.new.pass.value }
    {
        self.swarm.block(self.rt, &mut self.pass, peer)
    }

    fn unblock(&mut self, peer: PeerId) -> Reply
        ensures { IsCalled J.config J.callers (call.Unblock peer) self.old.pass.value result self.new.pass.value }
    {
        self.swarm.unblock(self.rt, &mut self.pass, peer)
    }

    fn allow(&mut self, peer: PeerId) -> Reply
        ensures { IsCalled J.config J.callers (call.Allow peer) self.old.pass.value result self.new.pass.value }
    {
        self.swarm.allow(self.rt, &mut self.pass, peer)
    }

    fn gone(&mut self, conn: u32) -> Reply
        ensures { IsCalled J.config J.callers (call.Gone conn) self.old.pass.value result self.new.pass.value }
    {
        self.swarm.gone(self.rt, &mut self.pass, conn)
    }

    fn note(&mut self, conn: u32, agent: Agent) -> Reply
        ensures { IsCalled J.config J.callers (call.Note conn agent) self.old.pass.value result self.new.pass.value }
    {
        self.swarm.note(self.rt, &mut self.pass, conn, agent)
    }

    fn renew(&mut self)
        ensures later { Later J.config J.callers self.old.pass.value self.new.pass.value }
        ensures own { SameCalls self.old.pass.value self.new.pass.value }
    {
        self.looking.renew(self.swarm, &mut self.pass);
    }

    fn listing(&self) -> &Listing
        ensures shown { result.now ≡ Shown J.config self.now.pass.value.seen }
    {
        self.pass.listing()
    }
}
