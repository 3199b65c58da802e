//! Opening a stream of this end's own.

ghost use Rattle.std.specs.Prelude.{◌≡◌, ◌≢◌, ℕ, ◌<◌, ◌≤◌, true, List, ◌∷◌, length, slice_get, Some, None, Err};
ghost use Rattle.std.specs.Prelude.{IfOk, IfErr, OnOk};
ghost use Rattle.std.specs.Ordering.{nat_cmp};
ghost use Rattle.std.specs.BTreeMap as tree;
ghost use Rattle.talks.specs.Talks.{Asks as AsksFor};
ghost use Rattle.yamux_session.specs.declared.event.Role.{Role};
ghost use Rattle.yamux_session.specs.History.{Item};
ghost use Rattle.yamux_session.specs.History.Item.{Did};
ghost use Rattle.yamux_session.specs.History.Act.{Start};
ghost use Rattle.yamux_session.specs.Acts.{start_refusal, IsRefusedFor};
ghost use Rattle.yamux_session.specs.State.{State, Stands as SessionStands, Whenever};
ghost use Rattle.streams.specs.Streams.{fresh};
ghost use Rattle.streams.specs.State.{Stands, is_talking};
ghost use Rattle.dispatch.specs.Dispatch.{makes_once};
ghost use Rattle.conn_log.specs.Entries.{Entry, items};
ghost use Rattle.conn_log.specs.Rests.{AreAtRest};
ghost use Rattle.conn_log.specs.Asked.{Asked, IsEarly, IsRefusedAs};
ghost use Rattle.held_order.specs.Orders.{with_if};
ghost use Rattle.board.specs.Boards.{Keeps, MakesOnBoard};

use crate::board::{Board, insert};
use conn_log::{ConnEvent, ConnRefused};
use dispatch::Direction;
use handlers::Protocols;
use held_order::HeldOrder;
use peer_ids::PeerId;
use routing::deliver_credit;
use std::alloc::{AllocError, Global};
use streams::Stream;
use yamux_session::laws::acts_tell;
use yamux_session::{ActRefused, Session};

/// Why no stream is opened, as a connection says it.
fn refused_as(refused: ActRefused) -> ConnRefused
    ensures reason { (role : Role) (past : List Item) → IsRefusedFor (start_refusal role past) refused
        → IsRefusedAs (start_refusal role past) result }
    ensures memory { refused ≡ ActRefused.OutOfMemory → result ≡ ConnRefused.OutOfMemory }
    ensures failed { refused ≡ ActRefused.Failed → result ≡ ConnRefused.Failed }
{
    match refused {
        ActRefused::Failed | ActRefused::NoStream | ActRefused::Ended => ConnRefused::Failed,
        ActRefused::GoneAway => ConnRefused::GoneAway,
        ActRefused::StreamsExhausted => ConnRefused::StreamsExhausted,
        ActRefused::StreamsFull => ConnRefused::StreamsFull,
        ActRefused::OutOfMemory => ConnRefused::OutOfMemory,
    }
}

/// The handler of an eager protocol, which is made before the other end has answered.
fn early<P: Protocols>(
    protocols: &mut P,
    index: usize,
    peer: PeerId,
) -> Result<Option<P::H>, AllocError>
    requires { index < length (P.listed protocols.old) }
    ensures names { P.listed protocols.new ≡ P.listed protocols.old }
    ensures eager { P.is_eager protocols.new ≡ P.is_eager protocols.old }
    ensures early { IfOk result (IsEarly (P.is_eager protocols.old index) (makes_once P.makes_inbound P.makes_outbound
        P.leads_inbound P.leads_outbound Direction.Outbound peer protocols.old protocols.new index)
        (protocols.new ≡ protocols.old)) }
{
    if !protocols.eager(index) {
        return Ok(None);
    }
    let handler = protocols.outbound(index, peer)?;
    Ok(Some(handler))
}

/// The stream that asks for the protocol of this index, with the handler of an eager one.
fn asking<P: Protocols>(
    alloc: Global,
    protocols: &P,
    index: usize,
    handler: Option<P::H>,
) -> Result<Stream<P::H>, AllocError>
    ensures asks { IfOk result (λ stream. (name : List ℕ)
        × (slice_get (P.listed protocols.now) index ≡ Some name) × (is_talking stream.stage ≡ true)
        × Stands P.H.steps stream (fresh (AsksFor name index) handler)) }
{
    let Some(name) = protocols.names().get(index) else {
        return Err(AllocError);
    };
    match Stream::ask(alloc, *name, index, handler) {
        Ok(stream) => Ok(stream),
        Err(_) => Err(AllocError),
    }
}

/// The newest handler is that of this stream, where one was made as the stream was asked for.
fn make(order: &mut HeldOrder, number: u32, was_made: bool) -> Result<(), AllocError>
    ensures { OnOk result (order.new ≡ with_if was_made number order.old) }
{
    if was_made {
        return order.make(number);
    }
    Ok(())
}

impl<P: Protocols> Board<P> {
    /// Begins to serve the stream of this number, which was just opened for the protocol of this index.
    fn begin(
        &mut self,
        alloc: Global,
        session: &mut Session,
        number: u32,
        index: usize,
        owed: &mut Vec<ConnEvent<P::H>>,
    ) -> Result<(), AllocError>
        requires { index < length (P.listed self.old.protocols) }
        ensures keeps { Keeps P.listed P.is_eager self.old self.new }
        ensures past { self.new.past.items ≡ self.old.past.items }
        ensures begins { (log : List (Entry P.H)) (fed sent : List ℕ) (before : State)
            → AreAtRest P.H.steps P.H.fails P.H.is_closed P.H.is_finished P.makes_inbound P.makes_outbound
            (P.is_eager self.old.protocols) (P.listed self.old.protocols) self.old.peer self.old.role log fed sent
            before (tree.get nat_cmp self.old.streams) self.old.past.items
            → SessionStands self.old.role (Did (Start number) ∷ items log) fed sent session.old
            → OnOk result (Asked P.H.steps P.H.fails P.H.is_closed P.H.is_finished P.makes_inbound P.makes_outbound
            (P.is_eager self.old.protocols) (P.listed self.old.protocols) self.old.peer self.old.role
            (MakesOnBoard P.leads_inbound P.leads_outbound self.old self.new) number index log owed.old.items
            owed.new.items fed sent session.new (tree.get nat_cmp self.new.streams) self.new.past.items) }
    {
        acts_tell();
        let handler = early(&mut self.protocols, index, self.peer)?;
        let is_held = handler.is_some();
        make(&mut self.order, number, is_held)?;
        let mut stream = asking(alloc, &self.protocols, index, handler)?;
        let outcome = deliver_credit(session, number, &mut stream)?;
        insert(&mut self.streams, number, stream)?;
        self.settle(session, number, outcome, is_held, owed)
    }

    /// Opens a stream of this end's own for the protocol of this index, and tells its number. Where the protocol is
    /// eager, its handler is made at once, and served. What is told of the stream then is owed to the connection's
    /// owner.
    ///
    /// Want of memory may leave a stream that was opened and isn't held, and ends the connection.
    pub fn ask(
        &mut self,
        alloc: Global,
        session: &mut Session,
        index: usize,
        owed: &mut Vec<ConnEvent<P::H>>,
    ) -> Result<u32, ConnRefused>
        ensures keeps { Keeps P.listed P.is_eager self.old self.new }
        ensures past { self.new.past.items ≡ self.old.past.items }
        // No stream of this number is held: none is dropped.
        ensures unheld { (log : List (Entry P.H)) (fed sent : List ℕ)
            → AreAtRest P.H.steps P.H.fails P.H.is_closed P.H.is_finished P.makes_inbound P.makes_outbound
            (P.is_eager self.old.protocols) (P.listed self.old.protocols) self.old.peer self.old.role log fed sent
            session.old (tree.get nat_cmp self.old.streams) self.old.past.items
            → IfOk result (λ number. tree.get nat_cmp self.old.streams number ≡ None) }
        ensures asks { (log : List (Entry P.H)) (fed sent : List ℕ)
            → AreAtRest P.H.steps P.H.fails P.H.is_closed P.H.is_finished P.makes_inbound P.makes_outbound
            (P.is_eager self.old.protocols) (P.listed self.old.protocols) self.old.peer self.old.role log fed sent
            session.old (tree.get nat_cmp self.old.streams) self.old.past.items
            → IfOk result (λ number. Asked P.H.steps P.H.fails P.H.is_closed P.H.is_finished P.makes_inbound
            P.makes_outbound (P.is_eager self.old.protocols) (P.listed self.old.protocols) self.old.peer self.old.role
            (MakesOnBoard P.leads_inbound P.leads_outbound self.old self.new) number index log owed.old.items
            owed.new.items fed sent session.new (tree.get nat_cmp self.new.streams) self.new.past.items) }
        ensures bad_index { length (P.listed self.old.protocols) ≤ index → result ≡ Err ConnRefused.BadIndex }
        ensures within { IfOk result (λ number. index < length (P.listed self.old.protocols)) }
        ensures opened { IfOk result (λ number.
            Whenever session.old (λ role past. start_refusal role past ≡ None)) }
        // Where several reasons hold, the session's own order decides.
        ensures refused { index < length (P.listed self.old.protocols) → IfErr result (λ refused.
            Whenever session.old (λ role past. IsRefusedAs (start_refusal role past) refused)) }
        ensures failed { index < length (P.listed self.old.protocols) → session.old.failed ≡ true
            → result ≡ Err ConnRefused.Failed }
        ensures kept { IfErr result (λ refused. refused ≢ ConnRefused.OutOfMemory
            → (self.new ≡ self.old) × (session.new ≡ session.old) × (owed.new ≡ owed.old)) }
    {
        if index >= self.protocols.names().len() {
            return Err(ConnRefused::BadIndex);
        }
        let number = match session.open_stream() {
            Ok(number) => number,
            Err(refused) => return Err(refused_as(refused)),
        };
        match self.begin(alloc, session, number, index, owed) {
            Ok(()) => Ok(number),
            Err(_) => Err(ConnRefused::OutOfMemory),
        }
    }
}
