//! The session of a connection that is up, with its streams.

ghost use Rattle.std.specs.Prelude.{◌≡◌, ◌≢◌, ℕ, ◌<◌, ◌≤◌, ◌-◌, true, false, List, [], ◌++◌, length, take, drop};
ghost use Rattle.std.specs.Prelude.{reverse, None, Ok, Err, OnOk, IfOk, IfErr};
ghost use Rattle.std.specs.Ordering.{nat_cmp};
ghost use Rattle.std.specs.BTreeMap as tree;
ghost use Rattle.conn_log.specs.Entries.{Entry};
ghost use Rattle.yamux_session.specs.Acts.{start_refusal};
ghost use Rattle.yamux_session.specs.State.{Whenever};
ghost use Rattle.conn_log.specs.Rests.{AreAtRest, Grows};
ghost use Rattle.conn_log.specs.Asked.{Asked, IsRefusedAs};
ghost use Rattle.held_order.specs.Orders.{arranged};
ghost use Rattle.board.specs.Boards.{Keeps, MakesOnBoard};
ghost use Rattle.board.specs.Handlers.{handlers_of, handlers_past};
ghost use Rattle.mux.specs.Faults.{Faults};

use board::Board;
use bytes::Bytes;
use conn_log::{ConnEvent, ConnRefused};
use handlers::Protocols;
use held_order::HeldOrder;
use peer_ids::PeerId;
use std::alloc::{AllocError, Global};
use std::collections::BTreeMap;
use yamux_session::laws::{credit_is_told, ends_are_last, events_tell, openings_are_told};
use yamux_session::{Event, Role, Session};

/// The session of a connection that is up, with its streams.
#[derive(Drop)]
pub struct Mux<P: Protocols> {
    /// The session.
    pub session: Session,
    /// Its streams.
    pub board: Board<P>,
    alloc: Global,
}

impl<P: Protocols> Mux<P> {
    /// A session of this end with that peer, before the first frame.
    pub fn new(alloc: Global, role: Role, peer: PeerId, protocols: P) -> Mux<P>
        ensures role { result.board.role ≡ role }
        ensures peer { result.board.peer ≡ peer }
        ensures protocols { result.board.protocols ≡ protocols }
        ensures order { result.board.order ≡ [] }
        ensures fresh { AreAtRest P.H.steps P.H.fails P.H.is_closed P.H.is_finished P.makes_inbound P.makes_outbound
            (P.is_eager protocols) (P.listed protocols) peer role [] [] [] result.session
            (tree.get nat_cmp result.board.streams) result.board.past.items }
    {
        Mux {
            session: Session::new(alloc, role),
            board: Board {
                role,
                peer,
                protocols,
                streams: BTreeMap::new(alloc),
                past: Vec::new(alloc),
                order: HeldOrder::new(alloc),
            },
            alloc,
        }
    }

    /// Takes one frame's head, or one part of its payload, from this place of the piece on, routes what it told, and
    /// answers how many bytes were used. Where the other end broke the rules of the session, the session has failed.
    /// What the session tells is written over `events`, whose room is used again by the next frame.
    ///
    /// Its only error is want of memory, and ends the connection.
    fn feed_frame(
        &mut self,
        piece: &Bytes,
        at: usize,
        events: &mut Vec<Event>,
        told: &mut Vec<ConnEvent<P::H>>,
    ) -> Result<usize, AllocError>
        ensures keeps { Keeps P.listed P.is_eager self.old.board self.new.board }
        ensures goes { (log : List (Entry P.H)) (fed sent : List ℕ)
            → AreAtRest P.H.steps P.H.fails P.H.is_closed P.H.is_finished P.makes_inbound P.makes_outbound
            (P.is_eager self.old.board.protocols) (P.listed self.old.board.protocols) self.old.board.peer
            self.old.board.role log fed sent self.old.session (tree.get nat_cmp self.old.board.streams)
            self.old.board.past.items → IfOk result (λ used. self.new.session.failed ≡ false
            → Grows P.H.steps P.H.fails P.H.is_closed P.H.is_finished P.makes_inbound P.makes_outbound
            (P.is_eager self.old.board.protocols) (P.listed self.old.board.protocols) self.old.board.peer
            self.old.board.role (MakesOnBoard P.leads_inbound P.leads_outbound self.old.board self.new.board) log
            told.old.items told.new.items (fed ++ take used (drop at piece.now)) sent self.new.session
            (tree.get nat_cmp self.new.board.streams) self.new.board.past.items) }
        ensures faults { (log : List (Entry P.H)) (fed sent : List ℕ)
            → AreAtRest P.H.steps P.H.fails P.H.is_closed P.H.is_finished P.makes_inbound P.makes_outbound
            (P.is_eager self.old.board.protocols) (P.listed self.old.board.protocols) self.old.board.peer
            self.old.board.role log fed sent self.old.session (tree.get nat_cmp self.old.board.streams)
            self.old.board.past.items → IfOk result (λ used. self.new.session.failed ≡ true
            → Faults P.H.steps P.H.fails P.H.is_closed P.H.is_finished P.makes_inbound P.makes_outbound
            (P.is_eager self.old.board.protocols) (P.listed self.old.board.protocols) self.old.board.peer
            self.old.board.role (MakesOnBoard P.leads_inbound P.leads_outbound self.old.board self.new.board) log []
            told.old.items told.new.items fed (take used (drop at piece.now)) sent self.new.session.pending
            (tree.get nat_cmp self.new.board.streams) self.new.board.past.items) }
        ensures within { IfOk result (λ used. used ≤ length piece.now - at) }
        ensures goes_on { IfOk result (λ used. at < length piece.now → 0 < used) }
    {
        events_tell();
        credit_is_told();
        openings_are_told();
        ends_are_last();
        events.clear();
        let Ok(used) = self.session.feed_frame(piece, at, events) else {
            return Err(AllocError);
        };
        if self.session.has_failed() {
            return Ok(used);
        }
        self.board
            .route(self.alloc, &mut self.session, events, told)?;
        Ok(used)
    }

    /// Takes the bytes that came, frame by frame, and tells what they led to. Where the other end broke the rules of
    /// the session, the session has failed, and nothing behind that is read.
    ///
    /// Its only error is want of memory, and ends the connection.
    pub fn feed(&mut self, piece: &Bytes, told: &mut Vec<ConnEvent<P::H>>) -> Result<(), AllocError>
        ensures keeps { Keeps P.listed P.is_eager self.old.board self.new.board }
        ensures goes { (log : List (Entry P.H)) (fed sent : List ℕ)
            → AreAtRest P.H.steps P.H.fails P.H.is_closed P.H.is_finished P.makes_inbound P.makes_outbound
            (P.is_eager self.old.board.protocols) (P.listed self.old.board.protocols) self.old.board.peer
            self.old.board.role log fed sent self.old.session (tree.get nat_cmp self.old.board.streams)
            self.old.board.past.items → OnOk result (self.new.session.failed ≡ false
            → Grows P.H.steps P.H.fails P.H.is_closed P.H.is_finished P.makes_inbound P.makes_outbound
            (P.is_eager self.old.board.protocols) (P.listed self.old.board.protocols) self.old.board.peer
            self.old.board.role (MakesOnBoard P.leads_inbound P.leads_outbound self.old.board self.new.board) log
            told.old.items told.new.items (fed ++ piece.now) sent self.new.session
            (tree.get nat_cmp self.new.board.streams) self.new.board.past.items) }
        ensures faults { (log : List (Entry P.H)) (fed sent : List ℕ)
            → AreAtRest P.H.steps P.H.fails P.H.is_closed P.H.is_finished P.makes_inbound P.makes_outbound
            (P.is_eager self.old.board.protocols) (P.listed self.old.board.protocols) self.old.board.peer
            self.old.board.role log fed sent self.old.session (tree.get nat_cmp self.old.board.streams)
            self.old.board.past.items → OnOk result (self.new.session.failed ≡ true
            → Faults P.H.steps P.H.fails P.H.is_closed P.H.is_finished P.makes_inbound P.makes_outbound
            (P.is_eager self.old.board.protocols) (P.listed self.old.board.protocols) self.old.board.peer
            self.old.board.role (MakesOnBoard P.leads_inbound P.leads_outbound self.old.board self.new.board) log []
            told.old.items told.new.items fed piece.now sent self.new.session.pending
            (tree.get nat_cmp self.new.board.streams) self.new.board.past.items) }
        ensures failed { self.old.session.failed ≡ true
            → (result ≡ Ok tt) × (self.new ≡ self.old) × (told.new ≡ told.old) }
    {
        let mut events = Vec::new(self.alloc);
        let mut at = 0;
        while at < piece.len() && !self.session.has_failed() {
            at += self.feed_frame(piece, at, &mut events, told)?;
        }
        Ok(())
    }

    /// Opens a stream of this end's own for the protocol of this index, and tells its number. Where the protocol is
    /// eager, its handler is made at once, and served. What is told of the stream then is owed to the connection's
    /// owner.
    ///
    /// Want of memory may leave a stream that was opened and isn't held, and ends the connection.
    pub fn ask(&mut self, index: usize, owed: &mut Vec<ConnEvent<P::H>>) -> Result<u32, ConnRefused>
        ensures keeps { Keeps P.listed P.is_eager self.old.board self.new.board }
        ensures asks { (log : List (Entry P.H)) (fed sent : List ℕ)
            → AreAtRest P.H.steps P.H.fails P.H.is_closed P.H.is_finished P.makes_inbound P.makes_outbound
            (P.is_eager self.old.board.protocols) (P.listed self.old.board.protocols) self.old.board.peer
            self.old.board.role log fed sent self.old.session (tree.get nat_cmp self.old.board.streams)
            self.old.board.past.items → IfOk result (λ number. Asked P.H.steps P.H.fails P.H.is_closed P.H.is_finished
            P.makes_inbound P.makes_outbound (P.is_eager self.old.board.protocols) (P.listed self.old.board.protocols)
            self.old.board.peer self.old.board.role
            (MakesOnBoard P.leads_inbound P.leads_outbound self.old.board self.new.board) number index log
            owed.old.items owed.new.items fed sent self.new.session (tree.get nat_cmp self.new.board.streams)
            self.new.board.past.items) }
        ensures bad_index { length (P.listed self.old.board.protocols) ≤ index → result ≡ Err ConnRefused.BadIndex }
        ensures within { IfOk result (λ number. index < length (P.listed self.old.board.protocols)) }
        ensures opened { IfOk result (λ number.
            Whenever self.old.session (λ role past. start_refusal role past ≡ None)) }
        // Where several reasons hold, the session's own order decides.
        ensures refused { index < length (P.listed self.old.board.protocols) → IfErr result (λ refused.
            Whenever self.old.session (λ role past. IsRefusedAs (start_refusal role past) refused)) }
        ensures failed { index < length (P.listed self.old.board.protocols) → self.old.session.failed ≡ true
            → result ≡ Err ConnRefused.Failed }
        ensures kept { IfErr result (λ refused. refused ≢ ConnRefused.OutOfMemory
            → (self.new ≡ self.old) × (owed.new ≡ owed.old)) }
    {
        self.board.ask(self.alloc, &mut self.session, index, owed)
    }

    /// The handlers that are held still, each with the number of its stream, in the order in which they were made.
    pub fn into_handlers(self) -> Result<Vec<(u32, P::H)>, AllocError>
        ensures held { IfOk result (λ held. held.items ≡ arranged (reverse self.board.order)
            (handlers_past self.board.past.items ++ handlers_of self.board.streams.entries)) }
        ensures ordered { tree.IsOrdered nat_cmp self.board.streams }
    {
        let Self { board, alloc, .. } = self;
        board.into_handlers(alloc)
    }
}
