//! Routing what a frame told.

ghost use Rattle.std.specs.Prelude.{◌≡◌, ℕ, List, ◌++◌, drop, Some, OnOk};
ghost use Rattle.std.specs.List.{AllByRecursion};
ghost use Rattle.std.specs.Ordering.{nat_cmp};
ghost use Rattle.std.specs.BTreeMap as tree;
ghost use Rattle.yamux_session.specs.Arrives.{telling, tellings};
ghost use Rattle.yamux_session.specs.Events.{Told};
ghost use Rattle.yamux_session.specs.Openings.{is_live};
ghost use Rattle.yamux_session.specs.State.{Whenever};
ghost use Rattle.conn_log.specs.Entries.{Entry};
ghost use Rattle.conn_log.specs.Routes.{IsFor, IsNoData, Awaits, Routed};
ghost use Rattle.conn_log.specs.Rests.{AreAtRest, Grows};
ghost use Rattle.board.specs.Boards.{Keeps, MakesOnBoard};
ghost use Rattle.board.specs.Goings.{IsLastOf, IsHeldAlive};

use crate::board::Board;
use conn_log::ConnEvent;
use handlers::Protocols;
use std::alloc::{AllocError, Global};
use yamux_session::{Event, Session};

/// The stream that a frame may have brought to its end: the last of what it told is the end of its data, or credit for
/// it.
fn ending(events: &[Event]) -> Option<u32>
    ensures { (n : ℕ) → IsLastOf n events.now → result ≡ Some n }
{
    match events.last() {
        Some(Event::Ended(number)) => Some(*number),
        Some(Event::Credit(number)) => Some(*number),
        _ => None,
    }
}

impl<P: Protocols> Board<P> {
    /// Routes one event of the session to the stream that it names.
    fn route_event(
        &mut self,
        alloc: Global,
        session: &mut Session,
        event: &Event,
        told: &mut Vec<ConnEvent<P::H>>,
    ) -> Result<(), AllocError>
        ensures keeps { Keeps P.listed P.is_eager self.old self.new }
        ensures routes { (log : List (Entry P.H)) (fed sent : List ℕ) (n : ℕ) (rest : List Told)
            → IsFor n event.now
            → Awaits P.H.steps P.H.fails P.H.is_closed P.H.is_finished P.makes_inbound P.makes_outbound
            (P.is_eager self.old.protocols) (P.listed self.old.protocols) self.old.peer self.old.role log fed sent
            session.old (tree.get nat_cmp self.old.streams) self.old.past.items n (telling event.now ++ rest)
            → AllByRecursion IsNoData rest
            → OnOk result (Routed P.H.steps P.H.fails P.H.is_closed P.H.is_finished P.makes_inbound P.makes_outbound
            (P.is_eager self.old.protocols) (P.listed self.old.protocols) self.old.peer self.old.role
            (MakesOnBoard P.leads_inbound P.leads_outbound self.old self.new) log told.old.items told.new.items fed sent
            session.new (tree.get nat_cmp self.new.streams) self.new.past.items n rest) }
    {
        match event {
            Event::Opened(number) => self.open(alloc, session, *number, told),
            Event::Payload(number, bytes) => self.data(session, *number, bytes.as_slice(), told),
            Event::Ended(number) => self.end(session, *number, told),
            Event::Reset(number) => self.reset(*number, told),
            Event::Credit(number) => self.credit(session, *number, told),
            Event::Accepted(_) => Ok(()),
            Event::GoAway(_) => Ok(()),
            Event::Fault(_) => Ok(()),
        }
    }

    /// Lets a stream go whose handler was handed out, unless it is live.
    fn let_go(&mut self, session: &Session, number: u32)
        ensures keeps { Keeps P.listed P.is_eager self.old self.new }
        ensures made { self.new.protocols ≡ self.old.protocols }
        ensures order { self.new.order ≡ self.old.order }
        ensures rests { (log : List (Entry P.H)) (fed sent : List ℕ)
            → AreAtRest P.H.steps P.H.fails P.H.is_closed P.H.is_finished P.makes_inbound P.makes_outbound
            (P.is_eager self.old.protocols) (P.listed self.old.protocols) self.old.peer self.old.role log fed sent
            session.now (tree.get nat_cmp self.old.streams) self.old.past.items
            → AreAtRest P.H.steps P.H.fails P.H.is_closed P.H.is_finished P.makes_inbound P.makes_outbound
            (P.is_eager self.old.protocols) (P.listed self.old.protocols) self.old.peer self.old.role log fed sent
            session.now (tree.get nat_cmp self.new.streams) self.new.past.items }
        ensures gone { Whenever session.now (λ role past. IsHeldAlive (is_live role past number)
            (tree.get nat_cmp self.new.streams number)) }
    {
        let Some(stream) = self.streams.get(&number) else {
            return;
        };
        if stream.was_handed_out() && !session.is_live(number) {
            self.streams.remove(&number);
        }
    }

    // Event by event, to the stream that it names.
    fn route_all(
        &mut self,
        alloc: Global,
        session: &mut Session,
        events: &[Event],
        told: &mut Vec<ConnEvent<P::H>>,
    ) -> Result<(), AllocError>
        ensures keeps { Keeps P.listed P.is_eager self.old self.new }
        ensures routes { (log : List (Entry P.H)) (fed sent : List ℕ) (n : ℕ)
            → AllByRecursion (IsFor n) events.now
            → Awaits P.H.steps P.H.fails P.H.is_closed P.H.is_finished P.makes_inbound P.makes_outbound
            (P.is_eager self.old.protocols) (P.listed self.old.protocols) self.old.peer self.old.role log fed sent
            session.old (tree.get nat_cmp self.old.streams) self.old.past.items n (tellings events.now)
            → AllByRecursion IsNoData (tellings (drop 1 events.now))
            → OnOk result (Grows P.H.steps P.H.fails P.H.is_closed P.H.is_finished P.makes_inbound P.makes_outbound
            (P.is_eager self.old.protocols) (P.listed self.old.protocols) self.old.peer self.old.role
            (MakesOnBoard P.leads_inbound P.leads_outbound self.old self.new) log told.old.items told.new.items fed sent
            session.new (tree.get nat_cmp self.new.streams) self.new.past.items) }
    {
        for event in events {
            self.route_event(alloc, session, event, told)?;
        }
        Ok(())
    }

    /// Routes what one frame told, event by event, to the stream that it names. A stream that it brought to its end is
    /// let go, where its handler was handed out.
    ///
    /// Its only error is want of memory, and ends the connection.
    pub fn route(
        &mut self,
        alloc: Global,
        session: &mut Session,
        events: &[Event],
        told: &mut Vec<ConnEvent<P::H>>,
    ) -> Result<(), AllocError>
        ensures keeps { Keeps P.listed P.is_eager self.old self.new }
        ensures routes { (log : List (Entry P.H)) (fed sent : List ℕ) (n : ℕ)
            → AllByRecursion (IsFor n) events.now
            → Awaits P.H.steps P.H.fails P.H.is_closed P.H.is_finished P.makes_inbound P.makes_outbound
            (P.is_eager self.old.protocols) (P.listed self.old.protocols) self.old.peer self.old.role log fed sent
            session.old (tree.get nat_cmp self.old.streams) self.old.past.items n (tellings events.now)
            → AllByRecursion IsNoData (tellings (drop 1 events.now))
            → OnOk result (Grows P.H.steps P.H.fails P.H.is_closed P.H.is_finished P.makes_inbound P.makes_outbound
            (P.is_eager self.old.protocols) (P.listed self.old.protocols) self.old.peer self.old.role
            (MakesOnBoard P.leads_inbound P.leads_outbound self.old self.new) log told.old.items told.new.items fed sent
            session.new (tree.get nat_cmp self.new.streams) self.new.past.items) }
        ensures gone { (n : ℕ) → IsLastOf n events.now → OnOk result (Whenever session.new (λ role past.
            IsHeldAlive (is_live role past n) (tree.get nat_cmp self.new.streams n))) }
    {
        self.route_all(alloc, session, events, told)?;
        if let Some(number) = ending(events) {
            self.let_go(session, number);
        }
        Ok(())
    }
}
