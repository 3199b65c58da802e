//! The calls of a connection over a link.

ghost use Rattle.std.specs.Prelude.{◌≡◌, ◌≢◌, ◌-◌, ◌<◌, ◌^◌, ◌+◌, ◌⊎◌, ℕ, true, false, List, [], ◌∷◌, ◌++◌};
ghost use Rattle.std.specs.Prelude.{length, Some, None, Ok, Err, IfOk, IfErr, OnOk, OnErr};
ghost use Rattle.futures.specs.Poll.{OnPending};
ghost use Rattle.futures.specs.Task.{Covers, Keeps};
ghost use Rattle.futures.specs.declared.task.Poll.TheVariants.{Ready};
ghost use Rattle.peer_ids.specs.Key.{Key};
ghost use Rattle.upgrade.specs.declared.role.ConnRole.{ConnRole};
ghost use Rattle.conn_log.specs.declared.event.ConnEvent.{ConnEvent};
ghost use Rattle.conn_log.specs.declared.event.ConnEvent.TheVariants as event;
ghost use Rattle.conn_log.specs.declared.event.ConnFault.TheVariants as fault;
ghost use Rattle.conn_log.specs.Entries.{Entry};
ghost use Rattle.conn_core.specs.Connects.{Stands, IsOpened, MayOpen, IsRefused, is_over};
ghost use Rattle.conn_future.specs.Stages.{is_live, shut_stage, Came, Drains, WaitsAt};
ghost use Rattle.conn_future.specs.Polling.{Polls};
ghost use Rattle.conn_future.specs.Follows.{Carries, Gives, Follows, given_by};

use crate::conn::Conn;
use crate::stage::Stage;
use crate::turns::{Turn, Waits, buffer};
use bytes::BytesMut;
use conn_core::ConnCore;
use conn_link::Link;
use conn_log::{ConnEvent, ConnFault, ConnRefused};
use futures::Stream;
use futures::task::{Context, Poll};
use handlers::{Handler, Protocols};
use std::alloc::Global;
use std::collections::VecDeque;

/// How many calls of the link one poll makes at most.
const MOST_CALLS: u32 = 32;

impl<L: Link, P: Protocols> Conn<L, P> {
    /// A connection over this link, whose core is as [`ConnCore::new`] left it. Its only refusal is want of memory.
    pub fn new(alloc: Global, link: L, core: ConnCore<P>) -> Result<Conn<L, P>, ConnRefused>
        requires can_fail { L.failed link < 2 ^ 64 - 1 }
        ensures follows { (start : P) (role : ConnRole) (own : Key)
            → Stands P.H.steps P.H.fails P.H.is_closed P.H.is_finished P.makes_inbound P.makes_outbound P.listed
            P.is_eager P.leads_inbound P.leads_outbound start role own [] false [] [] [] core
            → IfOk result (λ conn. Follows L.Link P.Protocols P.H.Handler start role own link [] [] conn) }
        ensures link { IfOk result (λ conn. conn.link ≡ link) }
        ensures going { IfOk result (λ conn. (conn.stage ≡ Stage.Going) × (conn.held.items ≡ [])) }
        ensures memory { OnErr result (result ≡ Err ConnRefused.OutOfMemory) }
    {
        let mut core = core;
        let unsent = BytesMut::from_vec(core.take_output());
        match buffer(alloc) {
            Ok(buffer) => Ok(Conn {
                link,
                core,
                unsent,
                held: VecDeque::new(alloc),
                stage: Stage::Going,
                buffer,
                alloc,
            }),
            Err(_) => Err(ConnRefused::OutOfMemory),
        }
    }

    /// The link.
    pub fn link(&self) -> &L
        ensures { result.now ≡ self.now.link }
    {
        &self.link
    }

    /// How many bytes of the output the link hasn't taken yet. Where it makes no link call more, none: what was left
    /// was dropped.
    pub fn waiting(&self) -> usize
        ensures waiting { result ≡ length self.now.unsent.items }
        ensures dropped { is_live self.now.stage ≡ false → result ≡ 0 }
    {
        self.unsent.len()
    }

    /// Opens a stream for the protocol of this index, and tells its number, as the core does. Behind `shut`, a Fault or
    /// Shut the answer is [`ConnRefused::Failed`].
    ///
    /// Where memory was refused, the events that are held are given, then Fault(OutOfMemory), and no link call is made.
    pub fn ask(&mut self, index: usize) -> Result<u32, ConnRefused>
        ensures asked { (start : P) (role : ConnRole) (own : Key) (first : L)
            (log : List (Entry P.H)) (gave : List (ConnEvent P.H))
            → Follows L.Link P.Protocols P.H.Handler start role own first log gave self.old
            → IfOk result (λ number. (now : List (Entry P.H)) × IsOpened number index log now
            × Follows L.Link P.Protocols P.H.Handler start role own first now gave self.new) }
        ensures refused { OnErr result (Gives L.Link P.Protocols P.H.Handler self.old [] self.new) }
        ensures failed { self.old.stage ≢ Stage.Going → (result ≡ Err ConnRefused.Failed) × (self.new ≡ self.old) }
        ensures opened { IfOk result (λ number. MayOpen P.listed self.old.core.phase index) }
        ensures why { self.old.stage ≡ Stage.Going
            → IfErr result (λ refused. IsRefused P.listed self.old.core.phase index refused) }
        ensures unchanged { IfErr result (λ refused. refused ≢ ConnRefused.OutOfMemory → self.new ≡ self.old) }
        ensures memory { result ≡ Err ConnRefused.OutOfMemory → self.new.stage ≡ Stage.Starved }
        ensures link { self.new.link ≡ self.old.link }
        ensures held { self.new.held ≡ self.old.held }
        ensures stage { OnOk result (self.new.stage ≡ self.old.stage) }
    {
        let Stage::Going = self.stage else {
            return Err(ConnRefused::Failed);
        };
        match self.core.ask(index) {
            Ok(number) => {
                let Ok(()) = self.collect() else {
                    self.stop(Stage::Starved);
                    return Err(ConnRefused::OutOfMemory);
                };
                Ok(number)
            }
            Err(refused) => match refused {
                ConnRefused::OutOfMemory => {
                    self.stop(Stage::Starved);
                    Err(ConnRefused::OutOfMemory)
                }
                refused => Err(refused),
            },
        }
    }

    /// From now on it reads no more, writes the output that is left, shuts the link and gives Shut. It takes no memory.
    pub fn shut(&mut self)
        ensures follows { Gives L.Link P.Protocols P.H.Handler self.old [] self.new }
        ensures stage { self.new.stage ≡ shut_stage self.old.stage }
        ensures link { self.new.link ≡ self.old.link }
        ensures core { self.new.core ≡ self.old.core }
        ensures unsent { self.new.unsent.items ≡ self.old.unsent.items }
        ensures held { self.new.held ≡ self.old.held }
    {
        if let Stage::Going = self.stage {
            self.stage = Stage::Shutting;
        }
    }
}

impl<L: Link, P: Protocols> Stream for Conn<L, P> {
    type Item = ConnEvent<P::H>;

    ghost needs = { λ conn source. WaitsAt (L.reads_at conn.link) (L.writes_at conn.link) (L.shuts_at conn.link)
        conn.stage conn.unsent.items source };

    /// The next event, in the order of the core; None, where no more comes. It makes at most 32 calls of the link, and
    /// then asks for another poll.
    ///
    /// Where it is pending, it has asked for another poll, or has registered at each source that it waits for.
    fn poll_next(&mut self, cx: &mut Context<'_>) -> Poll<Option<ConnEvent<P::H>>>
        ensures follows { Carries L.Link P.Protocols P.H.Handler self.old (given_by result) self.new }
        ensures rose { L.failed self.old.link < L.failed self.new.link
            → result ≡ Ready (Some (event.Fault fault.Link)) }
        ensures fault { (start : P) (role : ConnRole) (own : Key) (first : L)
            (log : List (Entry P.H)) (gave : List (ConnEvent P.H))
            → Follows L.Link P.Protocols P.H.Handler start role own first log gave self.old
            → result ≡ Ready (Some (event.Fault fault.Link))
            → L.failed self.new.link ≡ L.failed self.old.link + 1 }
        ensures held { (event : ConnEvent P.H) (rest : List (ConnEvent P.H)) → self.old.held.items ≡ event ∷ rest
            → (result ≡ Ready (Some event)) × (self.new.held.items ≡ rest) × (self.new.stage ≡ self.old.stage)
            × (self.new.link ≡ self.old.link) }
        ensures starved { self.old.held.items ≡ [] → self.old.stage ≡ Stage.Starved
            → (result ≡ Ready (Some (event.Fault fault.OutOfMemory))) × (self.new.held.items ≡ [])
            × (self.new.stage ≡ Stage.Over) }
        ensures over { self.old.held.items ≡ [] → self.old.stage ≡ Stage.Over
            → (result ≡ Ready None) × (self.new.held.items ≡ []) × (self.new.stage ≡ Stage.Over) }
        ensures ends { (start : P) (role : ConnRole) (own : Key) (first : L)
            (log : List (Entry P.H)) (gave : List (ConnEvent P.H))
            → Follows L.Link P.Protocols P.H.Handler start role own first log gave self.old
            → result ≡ Ready None → (self.old.held.items ≡ []) × (self.old.stage ≡ Stage.Over) }
        ensures stage { is_live self.new.stage ≡ true → self.new.stage ≡ self.old.stage }
        // It comes to its end by itself only where the core does, a call of the link fails, or memory is refused.
        ensures why { self.old.stage ≡ Stage.Going → self.new.stage ≡ Stage.Over
            → (is_over self.new.core.phase ≡ true) ⊎ ((result ≡ Ready (Some (event.Fault fault.Link)))
            ⊎ (result ≡ Ready (Some (event.Fault fault.OutOfMemory)))) }
        // And only where a call of the link failed, or bytes or the end of the input came.
        ensures came { self.old.held.items ≡ [] → self.old.stage ≡ Stage.Going → is_live self.new.stage ≡ false
            → (result ≡ Ready (Some (event.Fault fault.Link))) ⊎ Came L.Link self.old.link self.new.link }
        // Behind shut it takes no memory: it ends by Shut, or where a call of the link fails.
        ensures closes { self.old.held.items ≡ [] → self.old.stage ≡ Stage.Shutting
            → (self.new.stage ≡ Stage.Shutting) ⊎ ((self.new.stage ≡ Stage.Over)
            × ((result ≡ Ready (Some (event.Fault fault.Link))) ⊎ (result ≡ Ready (Some event.Shut)))) }
        ensures no_call { is_live self.old.stage ≡ false → self.new.link ≡ self.old.link }
        // The link is told to shut only behind shut, once it took all output.
        ensures unshut { self.old.stage ≢ Stage.Shutting → L.is_shut self.new.link → L.is_shut self.old.link }
        ensures shutting { self.old.stage ≡ Stage.Shutting
            → (rest : List ℕ) × Drains L.Link self.old.link self.old.unsent.items self.new.link rest }
        ensures none_held { OnPending result ((self.new.held.items ≡ []) × (self.new.stage ≡ self.old.stage)) }
        ensures registered { OnPending result (Covers cx.new (WaitsAt (L.reads_at self.new.link)
            (L.writes_at self.new.link) (L.shuts_at self.new.link) self.new.stage self.new.unsent.items)) }
        // It makes at most 32 calls of the link, none that could move nothing and none behind one of its kind that was
        // pending; what waits is written before a read; behind shutting that was answered it ends; and it asks for
        // another poll only where a call does, or behind 32.
        ensures polls { Polls L.calls (length self.old.unsent.items) (is_live self.new.stage) self.old.link cx.old
            self.new.link cx.new }
        ensures kept { Keeps cx.old cx.new }
    {
        if !self.held.is_empty() || !self.stage.is_live() {
            return Poll::Ready(self.give());
        }
        let mut waits = Waits {
            reading: false,
            writing: false,
        };
        for _call in 0..MOST_CALLS {
            match self.turn(cx, &mut waits) {
                Turn::Again => {}
                Turn::Give(given) => return Poll::Ready(given),
                Turn::Failed => return Poll::Ready(Some(ConnEvent::Fault(ConnFault::Link))),
                Turn::Wait => return Poll::Pending,
            }
        }
        cx.yield_now()
    }
}
