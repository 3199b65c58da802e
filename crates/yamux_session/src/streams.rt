//! The live streams of a session, with their windows, and what acts of this end do to them.

ghost use Rattle.std.specs.Prelude.{◌≡◌, ◌<◌, ◌-◌, ◌+◌, List, ◌&&◌, Some, None, IfOk, OnErr, OnOk};
ghost use Rattle.std.specs.Prelude.{IfNone, is_some, ◌==◌, ◌^◌, false, if◌then◌else◌, nat_lt};
ghost use Rattle.std.specs.Prelude.{not};
ghost use Rattle.yamux_session.specs.History.{Item, is_own, is_remote};
ghost use Rattle.yamux_session.specs.Openings.{is_live};
ghost use Rattle.yamux_session.specs.Acts.{open_credit, start_refusal};
ghost use Rattle.yamux_session.specs.Keeps.{Keeps};
ghost use Rattle.yamux_session.specs.Windows.{initial_window};
ghost use Rattle.yamux_session.specs.Table.{table_of, row_at, is_taker, Rewrites, Forgets, Opens};

use crate::event::{ActRefused, Fault, Role};
use std::alloc::AllocError;
use std::collections::HashMap;
use yamux_frames::Header;

/// The window that each direction of a stream starts with.
pub const INITIAL_WINDOW: u32 = 262144;

/// How many streams of each end are live at most.
const LIVE_LIMIT: usize = 256;

/// The windows of a live stream, in bytes.
#[derive(Clone, Copy, Debug, Drop)]
pub struct Row {
    /// What may still be written.
    pub credit: u32,
    /// What the other end may still announce: a head spends all the data of its frame at once.
    pub window: u32,
    /// What was taken and not yet given back.
    pub owed: u32,
    /// The other end's direction has ended.
    pub finished: bool,
    /// This end's direction is closed.
    pub closed: bool,
    /// The other end has accepted it.
    pub accepted: bool,
}

/// A stream that was opened just now.
pub const OPENED: Row = Row {
    credit: INITIAL_WINDOW,
    window: INITIAL_WINDOW,
    owed: 0,
    finished: false,
    closed: false,
    accepted: false,
};

impl Row {
    /// What arrived and wasn't taken, where so much of a payload is still to come for the stream: what the first window
    /// has left beside the window, what is owed, and what is to come. It isn't counted, which spares each part of a
    /// payload a look at the table.
    pub fn untaken(&self, coming: u32) -> u32
        ensures { result ≡ initial_window - self.now.window - self.now.owed - coming }
    {
        INITIAL_WINDOW
            .saturating_sub(self.window)
            .saturating_sub(self.owed)
            .saturating_sub(coming)
    }
}

/// The live streams, by number.
#[derive(Debug, Drop)]
pub struct Streams {
    pub role: Role,
    /// Not in order, since nobody goes over them: a look costs as much whether one stream is live or all are.
    pub rows: HashMap<u32, Row>,
    /// How many of them this end has opened.
    pub own: usize,
    /// How many of them the other end has opened.
    pub remote: usize,
    /// The next number for a stream of this end.
    pub next: u64,
    /// The header of the frame that is being read, where it is for a live stream.
    pub reading: Option<Header>,
    /// The stream that takes the payload of that frame: it is live, and its other end's direction hasn't ended.
    pub taker: Option<u32>,
    /// This end has said that it goes away.
    pub local_go_away: bool,
    /// The other end has.
    pub remote_go_away: bool,
}

/// Whether a stream of this number is opened by this end.
pub fn is_own_number(role: Role, number: u32) -> bool
    ensures { result ≡ is_own role number }
{
    match role {
        Role::Client => number % 2 == 1,
        Role::Server => number != 0 && number % 2 == 0,
    }
}

/// Whether a stream of this number is opened by the other end.
pub fn is_remote_number(role: Role, number: u32) -> bool
    ensures { result ≡ is_remote role number }
{
    match role {
        Role::Client => is_own_number(Role::Server, number),
        Role::Server => is_own_number(Role::Client, number),
    }
}

/// One less, where the condition holds.
fn one_less_if(count: usize, condition: bool) -> usize
    ensures { result ≡ count - (if condition then 1 else 0) }
{
    if condition {
        return count.saturating_sub(1);
    }
    count
}

impl Streams {
    /// The windows of a stream, where it is live.
    pub fn row(&self, number: u32) -> Option<Row>
        ensures { result ≡ row_at self.now.rows.entries number }
    {
        self.rows.get(&number).copied()
    }

    /// Whether a stream is live.
    pub fn is_live(&self, number: u32) -> bool
        ensures { (role : Role) (past : List Item) → Keeps role past (table_of self.now)
            → result ≡ is_live role past number }
    {
        self.row(number).is_some()
    }

    /// Gives windows to a stream that becomes live.
    pub fn add(&mut self, number: u32, row: Row) -> Result<(), AllocError>
        ensures ok { OnOk result (Rewrites (table_of self.old) number (Some row) self.old.own self.old.remote
            (table_of self.new)) }
        ensures err { OnErr result (table_of self.new ≡ table_of self.old) }
    {
        match self.rows.insert(number, row) {
            Ok(_) => Ok(()),
            Err(_) => Err(AllocError),
        }
    }

    /// Forgets a stream, which is live no more.
    pub fn forget(&mut self, number: u32)
        ensures { Forgets (table_of self.old) number (table_of self.new) }
    {
        self.rows.remove(&number);
        // What is still to come of its payload is skipped.
        self.taker = self.other_taker(number);
        self.own = one_less_if(self.own, is_own_number(self.role, number));
        self.remote = one_less_if(self.remote, is_remote_number(self.role, number));
    }

    /// Whether the payload that is being read is the stream's.
    fn is_taker(&self, number: u32) -> bool
        ensures { result ≡ is_taker self.now.taker number }
    {
        match self.taker {
            Some(taker) => taker == number,
            None => false,
        }
    }

    /// The stream that takes the payload that is being read, unless it is this one.
    fn other_taker(&self, number: u32) -> Option<u32>
        ensures { result ≡ (if is_taker self.now.taker number then None else self.now.taker) }
    {
        if self.is_taker(number) {
            return None;
        }
        self.taker
    }

    /// What is still to come for a stream of the payload that is being read, of which so much is left.
    pub fn coming(&self, number: u32, left: u32) -> u32
        ensures { result ≡ (if is_taker self.now.taker number then left else 0) }
    {
        if self.is_taker(number) { left } else { 0 }
    }

    /// Whether the other end may open a stream: fewer than 256 of its streams are live, and this end hasn't gone away.
    pub fn has_room(&self) -> bool
        ensures { result ≡ (nat_lt self.now.remote 256 && not self.now.local_go_away) }
    {
        self.remote < LIVE_LIMIT && !self.local_go_away
    }

    /// Why this end may open no stream.
    pub fn start_refused(&self) -> Option<ActRefused>
        ensures why { (role : Role) (past : List Item) → Keeps role past (table_of self.now)
            → result ≡ start_refusal role past }
        ensures none { IfNone result (self.now.next < 2 ^ 32) }
        ensures room { IfNone result (self.now.own < 256) }
    {
        if self.remote_go_away {
            return Some(ActRefused::GoneAway);
        }
        if self.next > u32::MAX as u64 {
            return Some(ActRefused::StreamsExhausted);
        }
        if self.own >= LIVE_LIMIT {
            return Some(ActRefused::StreamsFull);
        }
        None
    }

    /// What may be written, unless the stream isn't live or is closed.
    pub fn credit(&self, number: u32) -> Option<u32>
        ensures { (role : Role) (past : List Item) → Keeps role past (table_of self.now)
            → result ≡ open_credit role past number }
    {
        match self.row(number) {
            Some(row) if !row.closed => Some(row.credit),
            _ => None,
        }
    }

    /// Opens a stream of this end.
    pub fn start(&mut self) -> Result<u32, AllocError>
        requires next { self.old.next < 2 ^ 32 }
        requires room { self.old.own < 256 }
        ensures number { IfOk result (λ number. number ≡ self.old.next) }
        ensures ok { OnOk result (Opens (table_of self.old) (table_of self.new)) }
        ensures err { OnErr result (table_of self.new ≡ table_of self.old) }
    {
        let number = self.next as u32;
        self.add(number, OPENED)?;
        self.own += 1;
        self.next += 2;
        Ok(number)
    }
}
