//! The other side of the measuring: a body that writes each row anew for each call, answered or refused.

use crate::Body;
use peer_ids::PeerId;
use pool_state::{Call, Listing, Phase, Pool, Refusal, Reply, Row};

/// A pool that gives the replies and stays as it is, with a listing that follows the calls. So it is right for calls
/// whose replies none of them changes.
#[derive(Drop)]
pub struct Rewriting {
    pool: Pool,
    listing: Listing,
}

impl Rewriting {
    /// A body over this pool.
    pub fn of(pool: Pool) -> Rewriting {
        let listing = pool.listing();
        Rewriting { pool, listing }
    }
}

impl Body for Rewriting {
    fn make(&mut self, call: &Call) -> Reply {
        let reply = self.pool.reply(*call);
        if reply == Reply::Refused(Refusal::Spent) {
            return reply;
        }
        if self.listing.front < u64::MAX {
            self.listing.front += 1;
        }
        for row in self.listing.conns.as_mut_slice() {
            *row = after(*row, call, &reply);
        }
        reply
    }
}

fn is_of(row: &Row, peer: &PeerId) -> bool {
    match &row.peer {
        Some(known) => known.as_bytes() == peer.as_bytes(),
        None => false,
    }
}

fn one_more(counts: [u64; 3], index: u8) -> [u64; 3] {
    let mut counts = counts;
    let index = index as usize;
    if index < counts.len() && counts[index] < u64::MAX {
        counts[index] += 1;
    }
    counts
}

fn settled(phase: Phase) -> Phase {
    match phase {
        Phase::Closing => Phase::Closing,
        Phase::Pending | Phase::Live => Phase::Live,
    }
}

/// The row after one more call, but for those that add or remove rows.
fn after(row: Row, call: &Call, reply: &Reply) -> Row {
    match (call, reply) {
        (Call::Settle(conn, peer), Reply::Done) if row.conn == *conn => Row {
            phase: settled(row.phase),
            peer: Some(*peer),
            ..row
        },
        (Call::Ask(conn, index), Reply::Done) if row.conn == *conn => Row {
            asked: one_more(row.asked, *index),
            ..row
        },
        (Call::Done(conn, index), Reply::Done) if row.conn == *conn => Row {
            done: one_more(row.done, *index),
            ..row
        },
        (Call::Note(conn, agent), Reply::Done) if row.conn == *conn => Row {
            agent: Some(*agent),
            ..row
        },
        (Call::HangUp(peer) | Call::Block(peer), Reply::Count(_)) if is_of(&row, peer) => Row {
            phase: Phase::Closing,
            ..row
        },
        (Call::Disallow(peer), Reply::Count(count)) if *count > 0 && is_of(&row, peer) => Row {
            phase: Phase::Closing,
            ..row
        },
        _ => row,
    }
}
