//! The pool: the sequential swarm, kept as tables.

ghost use Rattle.std.specs.Prelude.{◌≡◌, ◌≢◌, true, [], ◌∷◌, ◌++◌, ◌<◌, Some, None, ℕ, List};
ghost use Rattle.pool_state.specs.Parts.{has};
ghost use Rattle.pool_state.specs.Table.{may_refuse, answer, has_conn, first_that_holds, closable, is_kept_out};
ghost use Rattle.pool_state.specs.Table.{is_full, is_exhausted};
ghost use Rattle.pool_state.specs.declared.call.Call.TheVariants as call;
ghost use Rattle.pool_state.specs.declared.row.Agent.{Agent};
ghost use Rattle.pool_state.specs.declared.call.Reply.TheVariants.{Refused};
ghost use Rattle.pool_state.specs.declared.call.Refusal.TheVariants.{Spent};
ghost use Rattle.pool_state.specs.declared.limits.Config.{Config};
ghost use Rattle.pool_state.specs.History.{Entry, entry};
ghost use Rattle.pool_state.specs.Shown.{Shown, reply_after};
ghost use Rattle.pool_state.specs.At.{Stands, followed, number_after};

use crate::call::{Call, Refusal, Reply};
use crate::limits::Config;
use crate::listing::{Listing, has};
use crate::refusals::{
    closable, expects_another, has_conn, has_phase, is_busy, is_idle, others_of, rows_of, rows_on,
};
use crate::row::{ConnSide, Phase, is_same};
use peer_ids::PeerId;

/// The connections of a swarm that is called in turn, with its limits, its blocked and its allowed peers. Each call is
/// answered as the history of calls so far says, and adds to it; no call takes memory.
#[derive(Drop)]
pub struct Pool {
    config: Config,
    next: u64,
    listing: Listing,
}

fn first_that_holds(refusals: &[(Refusal, bool)]) -> Option<Refusal>
    ensures { result ≡ first_that_holds refusals.now }
{
    match refusals {
        [] => None,
        [(refusal, true), ..] => Some(*refusal),
        [_, rest @ ..] => first_that_holds(rest),
    }
}

fn number_after(next: u64, reply: &Reply) -> u64
    ensures { result ≡ number_after next reply.now }
{
    match reply {
        Reply::Conn(conn) => u64::from(*conn) + 1,
        _ => next,
    }
}

impl Pool {
    fn is_kept_out(&self, peer: &PeerId) -> bool
        ensures { result ≡ is_kept_out self.now.config self.now.listing peer.now }
    {
        self.config.allow_only && !has(self.listing.allowed.as_slice(), peer)
    }

    fn is_blocked(&self, peer: &PeerId) -> bool
        ensures { result ≡ has self.now.listing.blocked.items peer.now }
    {
        has(self.listing.blocked.as_slice(), peer)
    }

    fn is_full(&self) -> bool
        ensures { result ≡ is_full self.now.config self.now.listing }
    {
        self.config.limits.conns <= self.listing.conns.len()
    }

    fn is_exhausted(&self) -> bool
        ensures { result ≡ is_exhausted self.now.next }
    {
        self.next > u64::from(u32::MAX)
    }

    fn stands(&self, conn: u32) -> bool
        ensures { result ≡ has_conn self.now.listing conn }
    {
        has_conn(self.listing.conns.as_slice(), conn)
    }

    fn dial_refusals(&self, peer: &PeerId) -> [(Refusal, bool); 7]
        ensures { result ≡ may_refuse self.now.config self.now.next self.now.listing (call.Dial (Some peer.now)) }
    {
        let rows = self.listing.conns.as_slice();
        let limits = &self.config.limits;
        [
            (Refusal::SelfPeer, is_same(&self.config.own, peer)),
            (Refusal::Blocked, self.is_blocked(peer)),
            (Refusal::Full, self.is_full()),
            (Refusal::PeerFull, limits.per_peer <= rows_of(rows, peer)),
            (Refusal::IdsExhausted, self.is_exhausted()),
            (
                Refusal::SideFull,
                limits.outbound <= rows_on(rows, ConnSide::Dialer),
            ),
            (Refusal::NotAllowed, self.is_kept_out(peer)),
        ]
    }

    fn unnamed_dial_refusals(&self) -> [(Refusal, bool); 3]
        ensures { result ≡ may_refuse self.now.config self.now.next self.now.listing (call.Dial None) }
    {
        let rows = self.listing.conns.as_slice();
        [
            (Refusal::Full, self.is_full()),
            (Refusal::IdsExhausted, self.is_exhausted()),
            (
                Refusal::SideFull,
                self.config.limits.outbound <= rows_on(rows, ConnSide::Dialer),
            ),
        ]
    }

    fn accept_refusals(&self) -> [(Refusal, bool); 3]
        ensures { result ≡ may_refuse self.now.config self.now.next self.now.listing call.Accept }
    {
        let rows = self.listing.conns.as_slice();
        [
            (Refusal::Full, self.is_full()),
            (Refusal::IdsExhausted, self.is_exhausted()),
            (
                Refusal::SideFull,
                self.config.limits.inbound <= rows_on(rows, ConnSide::Listener),
            ),
        ]
    }

    fn settle_refusals(&self, conn: u32, peer: &PeerId) -> [(Refusal, bool); 8]
        requires { has_conn self.now.listing conn ≡ true }
        ensures { result ≡ may_refuse self.now.config self.now.next self.now.listing (call.Settle conn peer.now) }
    {
        let rows = self.listing.conns.as_slice();
        [
            (Refusal::NoConn, false),
            (Refusal::Closing, has_phase(rows, conn, Phase::Closing)),
            (Refusal::NotPending, has_phase(rows, conn, Phase::Live)),
            (Refusal::SelfPeer, is_same(&self.config.own, peer)),
            (Refusal::Mismatch, expects_another(rows, conn, peer)),
            (Refusal::Blocked, self.is_blocked(peer)),
            (
                Refusal::PeerFull,
                self.config.limits.per_peer <= others_of(rows, conn, peer),
            ),
            (Refusal::NotAllowed, self.is_kept_out(peer)),
        ]
    }

    fn ask_refusals(&self, conn: u32, index: u8) -> [(Refusal, bool); 5]
        requires { has_conn self.now.listing conn ≡ true }
        ensures { result ≡ may_refuse self.now.config self.now.next self.now.listing (call.Ask conn index) }
    {
        let rows = self.listing.conns.as_slice();
        [
            (Refusal::NoConn, false),
            (Refusal::Closing, has_phase(rows, conn, Phase::Closing)),
            (Refusal::NotLive, has_phase(rows, conn, Phase::Pending)),
            (Refusal::BadProtocol, index >= 3),
            (
                Refusal::StreamsFull,
                is_busy(rows, conn, self.config.limits.streams),
            ),
        ]
    }

    fn done_refusals(&self, conn: u32, index: u8) -> [(Refusal, bool); 5]
        requires { has_conn self.now.listing conn ≡ true }
        ensures { result ≡ may_refuse self.now.config self.now.next self.now.listing (call.Done conn index) }
    {
        let rows = self.listing.conns.as_slice();
        [
            (Refusal::NoConn, false),
            (Refusal::Closing, has_phase(rows, conn, Phase::Closing)),
            (Refusal::NotLive, has_phase(rows, conn, Phase::Pending)),
            (Refusal::BadProtocol, index >= 3),
            (Refusal::NothingAsked, is_idle(rows, conn, index)),
        ]
    }

    fn note_refusals(&self, conn: u32) -> [(Refusal, bool); 3]
        requires { has_conn self.now.listing conn ≡ true }
        ensures { (agent : Agent) → result
            ≡ may_refuse self.now.config self.now.next self.now.listing (call.Note conn agent) }
    {
        let rows = self.listing.conns.as_slice();
        [
            (Refusal::NoConn, false),
            (Refusal::Closing, has_phase(rows, conn, Phase::Closing)),
            (Refusal::NotLive, has_phase(rows, conn, Phase::Pending)),
        ]
    }

    fn block_refusals(&self, peer: &PeerId) -> [(Refusal, bool); 2]
        ensures { result ≡ may_refuse self.now.config self.now.next self.now.listing (call.Block peer.now) }
    {
        let peers = self.listing.blocked.as_slice();
        [
            (Refusal::SelfPeer, is_same(&self.config.own, peer)),
            (
                Refusal::BlockFull,
                !has(peers, peer) && self.config.limits.blocked <= peers.len(),
            ),
        ]
    }

    fn allow_refusals(&self, peer: &PeerId) -> [(Refusal, bool); 2]
        ensures { result ≡ may_refuse self.now.config self.now.next self.now.listing (call.Allow peer.now) }
    {
        let peers = self.listing.allowed.as_slice();
        [
            (Refusal::SelfPeer, is_same(&self.config.own, peer)),
            (
                Refusal::AllowFull,
                !has(peers, peer) && self.config.limits.allowed <= peers.len(),
            ),
        ]
    }

    /// Why the call is refused: the first reason, in the order of their numbers.
    fn refusal(&self, call: &Call) -> Option<Refusal>
        ensures { result ≡ first_that_holds (may_refuse self.now.config self.now.next self.now.listing call.now) }
    {
        match call {
            Call::Dial(Some(peer)) => first_that_holds(&self.dial_refusals(peer)),
            Call::Dial(None) => first_that_holds(&self.unnamed_dial_refusals()),
            Call::Accept => first_that_holds(&self.accept_refusals()),
            Call::Settle(conn, peer) if self.stands(*conn) => {
                first_that_holds(&self.settle_refusals(*conn, peer))
            }
            Call::Ask(conn, index) if self.stands(*conn) => {
                first_that_holds(&self.ask_refusals(*conn, *index))
            }
            Call::Done(conn, index) if self.stands(*conn) => {
                first_that_holds(&self.done_refusals(*conn, *index))
            }
            Call::Note(conn, _) if self.stands(*conn) => {
                first_that_holds(&self.note_refusals(*conn))
            }
            Call::Gone(conn) if self.stands(*conn) => None,
            Call::Settle(..) | Call::Ask(..) | Call::Done(..) | Call::Note(..) | Call::Gone(_) => {
                Some(Refusal::NoConn)
            }
            Call::Block(peer) => first_that_holds(&self.block_refusals(peer)),
            Call::Allow(peer) => first_that_holds(&self.allow_refusals(peer)),
            Call::HangUp(peer) | Call::Unblock(peer) | Call::Disallow(peer) => {
                first_that_holds(&[(Refusal::SelfPeer, is_same(&self.config.own, peer))])
            }
        }
    }

    fn closable_of(&self, peer: &PeerId) -> u8
        ensures { closable self.now.listing.conns.items peer.now < 256
            → result ≡ closable self.now.listing.conns.items peer.now }
    {
        closable(self.listing.conns.as_slice(), peer).min(255) as u8
    }

    /// What the call is answered where nothing refuses it.
    fn answer(&self, call: &Call) -> Reply
        requires { first_that_holds (may_refuse self.now.config self.now.next self.now.listing call.now) ≡ None }
        ensures { ((p : List ℕ) → closable self.now.listing.conns.items p < 256)
            → result ≡ answer self.now.config self.now.next self.now.listing call.now }
    {
        match call {
            Call::Dial(_) => Reply::Conn(self.next as u32),
            Call::Accept => Reply::Conn(self.next as u32),
            Call::HangUp(peer) => Reply::Count(self.closable_of(peer)),
            Call::Block(peer) => Reply::Count(self.closable_of(peer)),
            Call::Unblock(peer) => Reply::Count(u8::from(self.is_blocked(peer))),
            Call::Allow(peer) => Reply::Count(u8::from(!has(
                self.listing.allowed.as_slice(),
                peer,
            ))),
            Call::Disallow(peer) if self.config.allow_only => {
                Reply::Count(self.closable_of(peer))
            }
            Call::Disallow(_) => Reply::Count(0),
            Call::Settle(..) | Call::Ask(..) | Call::Done(..) | Call::Gone(_) | Call::Note(..) => {
                Reply::Done
            }
        }
    }

    /// A pool without connections, blocked or allowed peers: it is at the empty history.
    pub fn new(config: Config) -> Pool
        ensures { Stands config [] result }
    {
        Pool {
            config,
            next: u64::from(config.first_conn),
            listing: Listing::new(config.first_front),
        }
    }

    /// What `apply` would answer.
    pub fn reply(&self, call: Call) -> Reply
        ensures { (config : Config) (history : List Entry) → Stands config history self.now
            → result ≡ reply_after config history call }
    {
        if self.listing.front == u64::MAX {
            return Reply::Refused(Refusal::Spent);
        }
        match self.refusal(&call) {
            Some(refusal) => Reply::Refused(refusal),
            None => self.answer(&call),
        }
    }

    /// Makes the call, refused or not, and moves the front by 1. A call that is answered `Spent` leaves the pool as it
    /// is.
    pub fn apply(&mut self, call: Call) -> Reply
        ensures reply { (config : Config) (history : List Entry) → Stands config history self.old
            → result ≡ reply_after config history call }
        ensures moved { (config : Config) (history : List Entry) (caller : ℕ) → Stands config history self.old
            → result ≢ Refused Spent
            → Stands config (history ++ entry caller call result ∷ []) self.new }
        ensures spent { result ≡ Refused Spent → self.new ≡ self.old }
    {
        let reply = self.reply(call);
        self.commit(&call, &reply);
        reply
    }

    /// Follows a call and its reply: what `apply` does once it knows the reply. Where it is the reply that `reply`
    /// gives, the pool has then made the call. A call that is answered `Spent` leaves the pool as it is.
    pub fn commit(&mut self, call: &Call, reply: &Reply)
        ensures moved { (config : Config) (history : List Entry) (caller : ℕ) → Stands config history self.old
            → reply.now ≡ reply_after config history call.now → reply.now ≢ Refused Spent
            → Stands config (history ++ entry caller call.now reply.now ∷ []) self.new }
        ensures followed { reply.now ≢ Refused Spent → self.new ≡ followed self.old call.now reply.now }
        ensures spent { reply.now ≡ Refused Spent → self.new ≡ self.old }
    {
        if *reply == Reply::Refused(Refusal::Spent) {
            return;
        }
        self.next = number_after(self.next, reply);
        self.listing.add_entry(call, reply);
    }

    /// What the pool shows. The pool stays borrowed while it is looked at.
    pub fn show(&self) -> &Listing
        ensures { (config : Config) (history : List Entry) → Stands config history self.now
            → result.now ≡ Shown config history }
    {
        &self.listing
    }

    /// What the pool shows: a copy of its listing.
    pub fn listing(&self) -> Listing
        ensures { (config : Config) (history : List Entry) → Stands config history self.now
            → result ≡ Shown config history }
    {
        self.listing.copied()
    }
}
