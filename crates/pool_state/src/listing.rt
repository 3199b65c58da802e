//! What a pool shows.

ghost use Rattle.std.specs.Prelude.{◌≡◌, ◌==◌, false, [], map};
ghost use Rattle.pool_state.specs.Parts.{listing, has};
ghost use Rattle.pool_state.specs.Added.{fresh, row_after, rows_after, with_peer, without_peer, added};
ghost use Rattle.pool_state.specs.declared.row.Row.{Row};

use crate::call::{Call, Reply};
use crate::row::{ConnSide, Row, is_same};
use arrayvec::ArrayVec;
use peer_ids::PeerId;

/// What a pool shows.
#[derive(Debug, PartialEq, Eq, Drop)]
pub struct Listing {
    /// How far the history goes.
    pub front: u64,
    /// A row for each standing connection, by rising number.
    pub conns: ArrayVec<Row, 256>,
    /// The blocked peers, in the order in which their blocks began.
    pub blocked: ArrayVec<PeerId, 64>,
    /// The allowed peers, in the order in which they came to be allowed.
    pub allowed: ArrayVec<PeerId, 64>,
}

pub(crate) fn has(peers: &[PeerId], peer: &PeerId) -> bool
    ensures { result ≡ has peers.now peer.now }
{
    peers.iter().any(|other| is_same(other, peer))
}

fn change(rows: &mut [Row], call: &Call, reply: &Reply)
    ensures { rows.new ≡ map (row_after call.now reply.now) rows.old }
{
    for row in rows.iter_mut() {
        row.follow(call, reply);
    }
}

/// The same of a call that leaves the rows of other numbers alone: these need not follow it.
fn change_one(rows: &mut [Row], conn: u32, call: &Call, reply: &Reply)
    requires { (row : Row) → (row.conn == conn) ≡ false → row_after call.now reply.now row ≡ row }
    ensures { rows.new ≡ map (row_after call.now reply.now) rows.old }
{
    for row in rows.iter_mut() {
        if row.conn == conn {
            row.follow(call, reply);
        }
    }
}

fn change_rows(rows: &mut ArrayVec<Row, 256>, call: &Call, reply: &Reply)
    ensures { rows.new.items ≡ rows_after call.now reply.now rows.old.items }
{
    if let Reply::Refused(_) = reply {
        return;
    }
    match (call, reply) {
        (Call::Dial(peer), Reply::Conn(conn)) => {
            let _full = rows.try_push(Row::fresh(*conn, ConnSide::Dialer, *peer));
        }
        (Call::Accept, Reply::Conn(conn)) => {
            let _full = rows.try_push(Row::fresh(*conn, ConnSide::Listener, None));
        }
        (Call::Gone(conn), Reply::Done) => rows.retain(|row| row.conn != *conn),
        (
            Call::Settle(conn, _) | Call::Ask(conn, _) | Call::Done(conn, _) | Call::Note(conn, _),
            Reply::Done,
        ) => change_one(rows.as_mut_slice(), *conn, call, reply),
        _ => change(rows.as_mut_slice(), call, reply),
    }
}

fn insert(peers: &mut ArrayVec<PeerId, 64>, peer: &PeerId)
    ensures { peers.new.items ≡ with_peer peers.old.items peer.now }
{
    if !has(peers.as_slice(), peer) && !peers.is_full() {
        peers.push(*peer);
    }
}

fn remove(peers: &mut ArrayVec<PeerId, 64>, peer: &PeerId)
    ensures { peers.new.items ≡ without_peer peers.old.items peer.now }
{
    peers.retain(|other| !is_same(peer, other));
}

impl Listing {
    /// Follows one more call and its reply. After a call that is legal there, a listing of the history so far is the
    /// listing of the longer history; any other listing becomes what `added` says.
    pub fn add(&mut self, call: Call, reply: Reply)
        ensures { self.new ≡ added self.old call reply }
    {
        self.add_entry(&call, &reply);
    }

    pub(crate) fn add_entry(&mut self, call: &Call, reply: &Reply)
        ensures { self.new ≡ added self.old call.now reply.now }
    {
        if self.front < u64::MAX {
            self.front += 1;
        }
        change_rows(&mut self.conns, call, reply);
        if let Reply::Count(_) = reply {
            match call {
                Call::Block(peer) => insert(&mut self.blocked, peer),
                Call::Unblock(peer) => remove(&mut self.blocked, peer),
                Call::Allow(peer) => insert(&mut self.allowed, peer),
                Call::Disallow(peer) => remove(&mut self.allowed, peer),
                _ => {}
            }
        }
    }

    pub(crate) fn new(front: u64) -> Listing
        ensures { result ≡ listing front [] [] [] }
    {
        Listing {
            front,
            conns: ArrayVec::new(),
            blocked: ArrayVec::new(),
            allowed: ArrayVec::new(),
        }
    }

    /// An equal listing. It takes no memory.
    pub fn copied(&self) -> Listing
        ensures { result ≡ self.now }
    {
        let mut copy = Listing::new(self.front);
        copy.copy_from(self);
        copy
    }

    /// Becomes equal to the other listing, in place: it costs what the other holds, not what a listing can hold. It
    /// takes no memory.
    pub fn copy_from(&mut self, other: &Listing)
        ensures { self.new ≡ other.now }
    {
        self.front = other.front;
        copy_rows(&mut self.conns, &other.conns);
        copy_peers(&mut self.blocked, &other.blocked);
        copy_peers(&mut self.allowed, &other.allowed);
    }
}

fn copy_rows(rows: &mut ArrayVec<Row, 256>, other: &ArrayVec<Row, 256>)
    ensures { rows.new.items ≡ other.now.items }
{
    rows.clear();
    let _fits = rows.try_extend_from_slice(other.as_slice());
}

fn copy_peers(peers: &mut ArrayVec<PeerId, 64>, other: &ArrayVec<PeerId, 64>)
    ensures { peers.new.items ≡ other.now.items }
{
    peers.clear();
    let _fits = peers.try_extend_from_slice(other.as_slice());
}
