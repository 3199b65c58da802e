//! A connection that is dropped where too much of its output waits.

ghost use Rattle.std.specs.Prelude.{◌≡◌, ◌≢◌, ◌<◌, ◌≤◌, ◌+◌, ◌⊎◌, ℕ, true, false, List, [], ◌∷◌, ◌++◌, length};
ghost use Rattle.std.specs.Prelude.{Err, None, Some, is_none, IfSome, IfOk, IfErr, OnOk, OnErr};
ghost use Rattle.futures.specs.Poll.{OnPending};
ghost use Rattle.futures.specs.Task.{Covers, Keeps};
ghost use Rattle.futures.specs.declared.task.Poll.TheVariants.{Ready};
ghost use Rattle.conn_log.specs.declared.event.ConnEvent.{ConnEvent};
ghost use Rattle.conn_log.specs.declared.event.ConnEvent.TheVariants as event;
ghost use Rattle.conn_log.specs.declared.event.ConnFault.TheVariants as fault;
ghost use Rattle.conn_log.specs.Entries.{Entry};
ghost use Rattle.conn_core.specs.Connects.{IsOpened, MayOpen, IsRefused, is_over};
ghost use Rattle.conn_future.specs.Stages.{is_live, shut_stage, Came, Drains, WaitsAt};
ghost use Rattle.conn_future.specs.Polling.{Polls};
ghost use Rattle.conn_future.specs.Follows.{Carries, Gives, Follows, given_by};
ghost use Rattle.peer_ids.specs.Key.{Key};
ghost use Rattle.upgrade.specs.declared.role.ConnRole.{ConnRole};
ghost use Rattle.bounded_conn.specs.Bounds.{Bounds, IfStands, Leaves, waiting_of};

use conn_future::{Conn, Stage};
use conn_link::Link;
use conn_log::{ConnEvent, ConnRefused};
use futures::Stream;
use futures::task::{Context, Poll};
use handlers::Protocols;

/// How many bytes of output a connection may hold that the other end doesn't take: 4 MiB. Between two looks at it a
/// poll makes at most 32 calls of the link, each of which reads at most 8,192 bytes: that bounds what it holds above
/// these.
pub const MOST_WAITING: usize = 4_194_304;

/// A connection of which no more output waits behind a call than may. Where more does it is dropped at once, and isn't
/// shut before.
pub struct BoundedConn<L: Link, P: Protocols> {
    /// None, where it was dropped.
    conn: Option<Conn<L, P>>,
    ghost bounded: { waiting_of (λ conn. length conn.unsent.items) conn ≤ 4194304 },
}

// By hand, so that the proof of who lets go of it is that of a call, and not of all that it holds.
impl<L: Link, P: Protocols> Drop for BoundedConn<L, P> {
    fn drop(self) {
        let Self { conn: _conn } = self;
    }
}

impl<L: Link, P: Protocols> BoundedConn<L, P> {
    /// The connection, unless too much of its output waits.
    pub fn new(conn: Conn<L, P>) -> BoundedConn<L, P>
        ensures { Leaves (λ conn. length conn.unsent.items) conn result.conn }
    {
        let is_within = conn.waiting() <= MOST_WAITING;
        let kept = if is_within {
            Some(conn)
        } else {
            drop(conn);
            None
        };
        BoundedConn { conn: kept }
    }

    /// Whether it was dropped, since more of its output waited than may.
    pub fn was_dropped(&self) -> bool
        ensures { result ≡ is_none self.now.conn }
    {
        self.conn.is_none()
    }

    /// How many bytes of its output wait.
    pub fn waiting(&self) -> usize
        ensures waiting { result ≡ waiting_of (λ conn. length conn.unsent.items) self.now.conn }
        ensures bounded { result ≤ 4194304 }
    {
        match &self.conn {
            Some(conn) => conn.waiting(),
            None => 0,
        }
    }

    /// Opens a stream for the protocol of this index, as [`Conn::ask`] does; Failed, where it was or is dropped.
    pub fn ask(&mut self, index: usize) -> Result<u32, ConnRefused>
        ensures asks { Bounds (λ conn. length conn.unsent.items) (λ before answer after.
            OnErr answer (Gives L.Link P.Protocols P.H.Handler before [] after)
            × ((start : P) (role : ConnRole) (own : Key) (first : L) (log : List (Entry P.H))
            (gave : List (ConnEvent P.H))
            → Follows L.Link P.Protocols P.H.Handler start role own first log gave before → IfOk answer (λ number.
            (now : List (Entry P.H)) × IsOpened number index log now
            × Follows L.Link P.Protocols P.H.Handler start role own first now gave after)))
            (Err ConnRefused.Failed) self.old.conn result self.new.conn }
        // Where it stands, the connection's own clauses hold of it.
        ensures failed { IfStands (λ before after. before.stage ≢ Stage.Going
            → (result ≡ Err ConnRefused.Failed) × (after ≡ before)) self.old.conn self.new.conn }
        ensures opened { IfStands (λ before after. IfOk result (λ number.
            MayOpen P.listed before.core.phase index)) self.old.conn self.new.conn }
        ensures why { IfStands (λ before after. before.stage ≡ Stage.Going
            → IfErr result (λ refused. IsRefused P.listed before.core.phase index refused))
            self.old.conn self.new.conn }
        ensures unchanged { IfStands (λ before after. IfErr result (λ refused.
            refused ≢ ConnRefused.OutOfMemory → after ≡ before)) self.old.conn self.new.conn }
        ensures memory { IfStands (λ before after. result ≡ Err ConnRefused.OutOfMemory
            → after.stage ≡ Stage.Starved) self.old.conn self.new.conn }
        ensures link { IfStands (λ before after. after.link ≡ before.link) self.old.conn self.new.conn }
        ensures held { IfStands (λ before after. after.held ≡ before.held) self.old.conn self.new.conn }
        ensures stage { IfStands (λ before after. OnOk result (after.stage ≡ before.stage))
            self.old.conn self.new.conn }
        ensures dropped { self.new.conn ≡ None → result ≡ Err ConnRefused.Failed }
        ensures stays { self.old.conn ≡ None → self.new.conn ≡ None }
    {
        let Some(conn) = &mut self.conn else {
            return Err(ConnRefused::Failed);
        };
        let asked = conn.ask(index);
        if conn.waiting() > MOST_WAITING {
            // The proof of an assignment would walk through all that the connection holds.
            drop(self.conn.take());
            return Err(ConnRefused::Failed);
        }
        asked
    }

    /// Shuts it, as [`Conn::shut`] does.
    pub fn shut(&mut self)
        ensures waiting { waiting_of (λ conn. length conn.unsent.items) self.new.conn
            ≡ waiting_of (λ conn. length conn.unsent.items) self.old.conn }
        ensures dropped { is_none self.new.conn ≡ is_none self.old.conn }
        ensures shuts { IfSome self.old.conn (λ before. IfSome self.new.conn (λ after.
            (after.stage ≡ shut_stage before.stage) × (after.link ≡ before.link) × (after.core ≡ before.core)
            × (after.unsent.items ≡ before.unsent.items) × (after.held ≡ before.held))) }
    {
        if let Some(conn) = &mut self.conn {
            conn.shut();
        }
    }

    /// Its next event, as [`Conn`] gives it; None, where it was or is dropped.
    pub fn poll_next(&mut self, cx: &mut Context<'_>) -> Poll<Option<ConnEvent<P::H>>>
        ensures kept { Keeps cx.old cx.new }
        ensures polls { Bounds (λ conn. length conn.unsent.items) (λ before answer after.
            Carries L.Link P.Protocols P.H.Handler before (given_by answer) after
            × Polls L.calls (length before.unsent.items) (is_live after.stage) before.link cx.old after.link cx.new)
            (Ready None) self.old.conn result self.new.conn }
        ensures calm { self.old.conn ≡ None → cx.new ≡ cx.old }
        // Where it stands, the connection's own clauses hold of it.
        ensures rose { IfStands (λ before after. L.failed before.link < L.failed after.link
            → result ≡ Ready (Some (event.Fault fault.Link))) self.old.conn self.new.conn }
        ensures fault { IfStands (λ before after. (start : P) (role : ConnRole) (own : Key) (first : L)
            (log : List (Entry P.H)) (gave : List (ConnEvent P.H))
            → Follows L.Link P.Protocols P.H.Handler start role own first log gave before
            → result ≡ Ready (Some (event.Fault fault.Link))
            → L.failed after.link ≡ L.failed before.link + 1) self.old.conn self.new.conn }
        ensures held { IfStands (λ before after. (event : ConnEvent P.H) (rest : List (ConnEvent P.H))
            → before.held.items ≡ event ∷ rest → (result ≡ Ready (Some event)) × (after.held.items ≡ rest)
            × (after.stage ≡ before.stage) × (after.link ≡ before.link)) self.old.conn self.new.conn }
        ensures starved { IfStands (λ before after. before.held.items ≡ [] → before.stage ≡ Stage.Starved
            → (result ≡ Ready (Some (event.Fault fault.OutOfMemory))) × (after.held.items ≡ [])
            × (after.stage ≡ Stage.Over)) self.old.conn self.new.conn }
        ensures over { IfStands (λ before after. before.held.items ≡ [] → before.stage ≡ Stage.Over
            → (result ≡ Ready None) × (after.held.items ≡ []) × (after.stage ≡ Stage.Over))
            self.old.conn self.new.conn }
        ensures ends { IfStands (λ before after. (start : P) (role : ConnRole) (own : Key) (first : L)
            (log : List (Entry P.H)) (gave : List (ConnEvent P.H))
            → Follows L.Link P.Protocols P.H.Handler start role own first log gave before
            → result ≡ Ready None → (before.held.items ≡ []) × (before.stage ≡ Stage.Over))
            self.old.conn self.new.conn }
        ensures stage { IfStands (λ before after. is_live after.stage ≡ true → after.stage ≡ before.stage)
            self.old.conn self.new.conn }
        ensures why { IfStands (λ before after. before.stage ≡ Stage.Going → after.stage ≡ Stage.Over
            → (is_over after.core.phase ≡ true) ⊎ ((result ≡ Ready (Some (event.Fault fault.Link)))
            ⊎ (result ≡ Ready (Some (event.Fault fault.OutOfMemory))))) self.old.conn self.new.conn }
        ensures came { IfStands (λ before after. before.held.items ≡ [] → before.stage ≡ Stage.Going
            → is_live after.stage ≡ false
            → (result ≡ Ready (Some (event.Fault fault.Link))) ⊎ Came L.Link before.link after.link)
            self.old.conn self.new.conn }
        ensures closes { IfStands (λ before after. before.held.items ≡ [] → before.stage ≡ Stage.Shutting
            → (after.stage ≡ Stage.Shutting) ⊎ ((after.stage ≡ Stage.Over)
            × ((result ≡ Ready (Some (event.Fault fault.Link))) ⊎ (result ≡ Ready (Some event.Shut)))))
            self.old.conn self.new.conn }
        ensures no_call { IfStands (λ before after. is_live before.stage ≡ false → after.link ≡ before.link)
            self.old.conn self.new.conn }
        ensures unshut { IfStands (λ before after. before.stage ≢ Stage.Shutting → L.is_shut after.link
            → L.is_shut before.link) self.old.conn self.new.conn }
        ensures shutting { IfStands (λ before after. before.stage ≡ Stage.Shutting
            → (rest : List ℕ) × Drains L.Link before.link before.unsent.items after.link rest)
            self.old.conn self.new.conn }
        ensures none_held { IfStands (λ before after. OnPending result
            ((after.held.items ≡ []) × (after.stage ≡ before.stage))) self.old.conn self.new.conn }
        ensures registered { IfStands (λ before after. OnPending result (Covers cx.new (WaitsAt
            (L.reads_at after.link) (L.writes_at after.link) (L.shuts_at after.link) after.stage after.unsent.items)))
            self.old.conn self.new.conn }
        ensures dropped { self.new.conn ≡ None → result ≡ Ready None }
        ensures stays { self.old.conn ≡ None → self.new.conn ≡ None }
    {
        let Some(conn) = &mut self.conn else {
            return Poll::Ready(None);
        };
        let (polled, waiting) = (conn.poll_next(cx), conn.waiting());
        if waiting > MOST_WAITING {
            drop(self.conn.take());
            return Poll::Ready(None);
        }
        polled
    }
}
