//! What a read leads to.

ghost use Rattle.std.specs.Prelude.{◌≡◌, ◌<◌, ℕ, Bool, true, false, List, [], ◌++◌, OnOk, OnErr, take};
ghost use Rattle.peer_ids.specs.Key.{Key};
ghost use Rattle.upgrade.specs.declared.role.ConnRole.{ConnRole};
ghost use Rattle.conn_log.specs.declared.event.ConnEvent.{ConnEvent};
ghost use Rattle.conn_log.specs.Entries.{Entry};
ghost use Rattle.conn_core.specs.Connects.{Stands, is_over, waiting_in};
ghost use Rattle.conn_core.specs.Runs.{has_ended};
ghost use Rattle.conn_future.specs.Stages.{is_live};
ghost use Rattle.conn_future.specs.Follows.{Joins, GoesOn, Parts};
ghost use Rattle.conn_future.specs.Turning.{OnGoing, OnWait, faults_of, Leads, EndsFor};

use crate::conn::Conn;
use crate::stage::Stage;
use crate::turns::{Turn, buffer};
use bytes::{Bytes, BytesMut};
use conn_link::Link;
use conn_log::ConnEvent;
use handlers::{Handler, Protocols};
use std::alloc::AllocError;
use std::collections::VecDeque;
use std::mem;

/// Puts more behind what waits. It asks for memory only where some bytes wait.
fn put_behind(unsent: &mut BytesMut, more: Vec<u8>) -> Result<(), AllocError>
    ensures { OnOk result (unsent.new.items ≡ unsent.old.items ++ more.items) }
{
    if unsent.is_empty() {
        *unsent = BytesMut::from_vec(more);
        return Ok(());
    }
    unsent.extend_from_slice(&more)
}

impl<L: Link, P: Protocols> Conn<L, P> {
    // Moves what the core has written behind what is left.
    pub(crate) fn collect(&mut self) -> Result<(), AllocError>
        requires { self.old.stage ≡ Stage.Going }
        ensures stands { (start : P) (role : ConnRole) (own : Key)
            (input taken : List ℕ) (ended : Bool) (log : List (Entry P.H)) (told : List (ConnEvent P.H))
            → Stands P.H.steps P.H.fails P.H.is_closed P.H.is_finished P.makes_inbound P.makes_outbound P.listed
            P.is_eager P.leads_inbound P.leads_outbound start role own input ended log told
            (taken ++ self.old.unsent.items) self.old.core
            → OnOk result (Stands P.H.steps P.H.fails P.H.is_closed P.H.is_finished P.makes_inbound P.makes_outbound
            P.listed P.is_eager P.leads_inbound P.leads_outbound start role own input ended log told
            (taken ++ self.new.unsent.items) self.new.core) }
        // What couldn't be put behind was taken from the core all the same.
        ensures lost { (start : P) (role : ConnRole) (own : Key)
            (input taken : List ℕ) (ended : Bool) (log : List (Entry P.H)) (told : List (ConnEvent P.H))
            → Stands P.H.steps P.H.fails P.H.is_closed P.H.is_finished P.makes_inbound P.makes_outbound P.listed
            P.is_eager P.leads_inbound P.leads_outbound start role own input ended log told
            (taken ++ self.old.unsent.items) self.old.core
            → OnErr result (Stands P.H.steps P.H.fails P.H.is_closed P.H.is_finished P.makes_inbound P.makes_outbound
            P.listed P.is_eager P.leads_inbound P.leads_outbound start role own input ended log told
            (taken ++ (self.old.unsent.items ++ waiting_in self.old.core.phase self.old.core.output.items))
            self.new.core) }
        ensures none_waits { waiting_in self.new.core.phase self.new.core.output.items ≡ [] }
        ensures over { is_over self.new.core.phase ≡ is_over self.old.core.phase }
        ensures link { self.new.link ≡ self.old.link }
        ensures held { self.new.held ≡ self.old.held }
        ensures stage { self.new.stage ≡ self.old.stage }
    {
        let more = self.core.take_output();
        put_behind(&mut self.unsent, more)
    }

    // Memory was refused: it tells so behind the events that it holds.
    pub(crate) fn starve(&mut self) -> Turn<P::H>
        ensures follows { (start : P) (role : ConnRole) (own : Key) (first : L)
            (log : List (Entry P.H)) (gave : List (ConnEvent P.H))
            → Parts L.Link P.Protocols P.H.Handler start role own first log gave self.old.link self.old.core
            self.old.held.items → Leads L.Link P.Protocols P.H.Handler start role own first log gave
            result self.new }
        ensures gives { OnGoing result ⊥ }
        ensures fails { faults_of result ≡ 0 }
        ensures stage { is_live self.new.stage ≡ false }
        ensures why { EndsFor L.Link P.Protocols P.H.Handler result self.new }
        ensures link { self.new.link ≡ self.old.link }
    {
        self.stop(Stage::Starved);
        Turn::Give(self.give())
    }

    // The core told these events.
    fn tell(&mut self, events: Vec<ConnEvent<P::H>>) -> Turn<P::H>
        requires { self.old.stage ≡ Stage.Going }
        ensures follows { (start : P) (role : ConnRole) (own : Key) (first : L)
            (log : List (Entry P.H)) (gave : List (ConnEvent P.H))
            (ended : Bool) → Joins L.Link P.Protocols P.H.Handler start role own first log gave ended
            self.old.link self.old.core self.old.unsent.items events.items
            → (ended ≡ true → is_over self.old.core.phase ≡ true) → has_ended gave ≡ false
            → Leads L.Link P.Protocols P.H.Handler start role own first log gave
            result self.new }
        ensures goes_on { OnGoing result ((self.new.stage ≡ Stage.Going) × (self.new.held.items ≡ [])) }
        ensures no_wait { OnWait result ⊥ }
        ensures fails { faults_of result ≡ 0 }
        ensures stage { is_live self.new.stage ≡ true → self.new.stage ≡ Stage.Going }
        ensures why { EndsFor L.Link P.Protocols P.H.Handler result self.new }
        ensures link { self.new.link ≡ self.old.link }
    {
        self.held = VecDeque::from(events);
        if self.core.is_over() {
            self.stop(Stage::Over);
            return Turn::Give(self.give());
        }
        let Ok(()) = self.collect() else {
            return self.starve();
        };
        if self.held.is_empty() {
            return Turn::Again;
        }
        Turn::Give(self.give())
    }

    // The link has given so many bytes, which stand at the front of the buffer.
    pub(crate) fn hear(&mut self, count: usize) -> Turn<P::H>
        requires going { self.old.stage ≡ Stage.Going }
        requires none_held { self.old.held.items ≡ [] }
        ensures follows { (start : P) (role : ConnRole) (own : Key) (first : L)
            (log : List (Entry P.H)) (gave : List (ConnEvent P.H)) (before : L)
            → GoesOn L.Link P.Protocols P.H.Handler start role own first log gave before self.old.core
            self.old.unsent.items []
            → L.moves before (take count self.old.buffer.items) [] self.old.link
            → (L.has_ended self.old.link → L.has_ended before)
            → Leads L.Link P.Protocols P.H.Handler start role own first log gave
            result self.new }
        ensures goes_on { OnGoing result ((self.new.stage ≡ Stage.Going) × (self.new.held.items ≡ [])) }
        ensures no_wait { OnWait result ⊥ }
        ensures fails { faults_of result ≡ 0 }
        ensures stage { is_live self.new.stage ≡ true → self.new.stage ≡ Stage.Going }
        ensures why { EndsFor L.Link P.Protocols P.H.Handler result self.new }
        ensures link { self.new.link ≡ self.old.link }
    {
        let Ok(next) = buffer(self.alloc) else {
            return self.starve();
        };
        let mut piece = mem::replace(&mut self.buffer, next);
        piece.truncate(count);
        let Ok(piece) = Bytes::from_vec(piece) else {
            return self.starve();
        };
        match self.core.feed_shared(piece) {
            Ok(events) => self.tell(events),
            Err(_) => self.starve(),
        }
    }

    // The input of the link has ended.
    pub(crate) fn end(&mut self) -> Turn<P::H>
        requires going { self.old.stage ≡ Stage.Going }
        requires none_held { self.old.held.items ≡ [] }
        ensures follows { (start : P) (role : ConnRole) (own : Key) (first : L)
            (log : List (Entry P.H)) (gave : List (ConnEvent P.H)) (before : L)
            → GoesOn L.Link P.Protocols P.H.Handler start role own first log gave before self.old.core
            self.old.unsent.items [] → L.moves before [] [] self.old.link → L.has_ended self.old.link
            → Leads L.Link P.Protocols P.H.Handler start role own first log gave
            result self.new }
        ensures goes_on { OnGoing result ((self.new.stage ≡ Stage.Going) × (self.new.held.items ≡ [])) }
        ensures no_wait { OnWait result ⊥ }
        ensures fails { faults_of result ≡ 0 }
        ensures stage { is_live self.new.stage ≡ true → self.new.stage ≡ Stage.Going }
        ensures why { EndsFor L.Link P.Protocols P.H.Handler result self.new }
        ensures link { self.new.link ≡ self.old.link }
    {
        match self.core.ended() {
            Ok(events) => self.tell(events),
            Err(_) => self.starve(),
        }
    }
}
