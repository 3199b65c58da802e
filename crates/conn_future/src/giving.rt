//! What is given without a link call.

ghost use Rattle.std.specs.Prelude.{◌≡◌, ◌≢◌, ℕ, true, false, List, [], ◌∷◌, Some, None};
ghost use Rattle.futures.specs.declared.task.Poll.TheVariants.{Ready};
ghost use Rattle.peer_ids.specs.Key.{Key};
ghost use Rattle.upgrade.specs.declared.role.ConnRole.{ConnRole};
ghost use Rattle.conn_log.specs.declared.event.ConnEvent.{ConnEvent};
ghost use Rattle.conn_log.specs.declared.event.ConnEvent.TheVariants as event;
ghost use Rattle.conn_log.specs.declared.event.ConnFault.TheVariants as fault;
ghost use Rattle.conn_future.specs.Stages.{is_live};
ghost use Rattle.conn_log.specs.Entries.{Entry};
ghost use Rattle.conn_future.specs.Follows.{Gives, Follows, given_by};

use crate::conn::Conn;
use crate::stage::Stage;
use bytes::BytesMut;
use conn_link::Link;
use conn_log::{ConnEvent, ConnFault};
use handlers::{Handler, Protocols};

impl<L: Link, P: Protocols> Conn<L, P> {
    // The next event that it holds, and behind them that memory was refused.
    pub(crate) fn give(&mut self) -> Option<ConnEvent<P::H>>
        ensures follows { Gives L.Link P.Protocols P.H.Handler self.old (given_by (Ready result)) self.new }
        ensures held { (event : ConnEvent P.H) (rest : List (ConnEvent P.H)) → self.old.held.items ≡ event ∷ rest
            → (result ≡ Some event) × (self.new.held.items ≡ rest) × (self.new.stage ≡ self.old.stage) }
        ensures starved { self.old.held.items ≡ [] → self.old.stage ≡ Stage.Starved
            → (result ≡ Some (event.Fault fault.OutOfMemory)) × (self.new.held.items ≡ [])
            × (self.new.stage ≡ Stage.Over) }
        ensures none { self.old.held.items ≡ [] → self.old.stage ≢ Stage.Starved → (result ≡ None)
            × (self.new.held.items ≡ []) × (self.new.stage ≡ self.old.stage) }
        ensures live { is_live self.new.stage ≡ is_live self.old.stage }
        ensures kept { is_live self.old.stage ≡ true → self.new.stage ≡ self.old.stage }
        ensures empty { result ≡ None → (self.old.held.items ≡ []) × (self.old.stage ≢ Stage.Starved) }
        ensures over { self.new.stage ≡ Stage.Over → self.old.stage ≢ Stage.Over
            → result ≡ Some (event.Fault fault.OutOfMemory) }
        ensures core { self.new.core ≡ self.old.core }
        ensures link { self.new.link ≡ self.old.link }
        ensures not_link { (start : P) (role : ConnRole) (own : Key) (first : L) (log : List (Entry P.H))
            (gave : List (ConnEvent P.H))
            → Follows L.Link P.Protocols P.H.Handler start role own first log gave self.old
            → result ≢ Some (event.Fault fault.Link) }
    {
        if let Some(event) = self.held.pop_front() {
            return Some(event);
        }
        match self.stage {
            Stage::Starved => {
                self.stage = Stage::Over;
                Some(ConnEvent::Fault(ConnFault::OutOfMemory))
            }
            Stage::Going | Stage::Shutting | Stage::Over => None,
        }
    }

    // It makes no link call more, and its output is dropped.
    pub(crate) fn stop(&mut self, stage: Stage)
        requires { is_live stage ≡ false }
        ensures stage { self.new.stage ≡ stage }
        ensures unsent { self.new.unsent.items ≡ [] }
        ensures link { self.new.link ≡ self.old.link }
        ensures core { self.new.core ≡ self.old.core }
        ensures held { self.new.held ≡ self.old.held }
    {
        self.unsent = BytesMut::new(self.alloc);
        self.stage = stage;
    }
}
