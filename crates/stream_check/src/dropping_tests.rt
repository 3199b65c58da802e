//! A handler isn't called where its stream is given up, or its connection ends. Its clauses bind the calls by which a
//! value that is held on came to be; of a value that is dropped they say nothing, so a handler counts its calls here.

use crate::asserts;
use crate::counting::{Counting, Countings, Counts, NONE};
use crate::greeting::{KEY, OTHER, ROOM};
use crate::lending::{came, holds, lend};
use crate::stopping::{Why, stop_for};
use conn_core::ConnCore;
use conn_log::{ConnEvent, ConnFault};
use ms_select::SelectFault;
use peer_ids::PublicKey;
use std::alloc::Global;
use std::cell::Cell;
use std::rc::Rc;
use std::test::*;
use streams::Stop;
use upgrade::ConnRole;

/// The other end opens the stream 1 for `/mute`, and sends three bytes on it.
const OPENS: &[u8] = b"\0\0\0\x01\0\0\0\x01\0\0\0\x1b\x13/multistream/1.0.0\n\x06/mute\n\
    \0\0\0\0\0\0\0\x01\0\0\0\x03abc";

/// What alone is told.
enum Told {
    Refused,
    Broken(Why),
    Fault(ConnFault),
    Shut,
}

/// So many calls more, of so many bytes, and so many ends.
type More = (u32, usize, u32);

const NO_MORE: More = (0, 0, 0);

/// What comes first; the bytes by which the handler is dropped then, or none: the input ends; what is told of it; and
/// what the handler sees of that.
type Row = (&'static [u8], Option<&'static [u8]>, Told, More);

/// The rows, and whose they are.
static TABLES: [(ConnRole, &[Row]); 3] = [
    // Of a handler whose ends have agreed.
    (
        ConnRole::Listener,
        &[
            // The input ends: between two frames, within a head, and within a payload.
            (b"", None, Told::Shut, NO_MORE),
            (
                b"\0\0\0\0\0\0",
                None,
                Told::Fault(ConnFault::EarlyEnd),
                NO_MORE,
            ),
            (
                b"\0\0\0\0\0\0\0\x01\0\0\0\x03de",
                None,
                Told::Fault(ConnFault::EarlyEnd),
                NO_MORE,
            ),
            // The other end resets the stream.
            (
                b"",
                Some(b"\0\x01\0\x08\0\0\0\x01\0\0\0\0"),
                Told::Broken(Why::Reset),
                NO_MORE,
            ),
            // A frame of another version, and one that is longer than the window.
            (
                b"",
                Some(b"\x01\0\0\0\0\0\0\x01\0\0\0\x03def"),
                Told::Fault(ConnFault::Mux),
                NO_MORE,
            ),
            (
                b"",
                Some(b"\0\0\0\0\0\0\0\x01\0\x10\0\0def"),
                Told::Fault(ConnFault::Mux),
                NO_MORE,
            ),
        ],
    ),
    // Of an eager handler, within its talk.
    (
        ConnRole::Dialer,
        &[
            // The other end ends the stream, or resets it.
            (
                b"",
                Some(b"\0\x01\0\x06\0\0\0\x01\0\0\0\0"),
                Told::Broken(Why::Ended),
                NO_MORE,
            ),
            (
                b"\0\0\0\x02\0\0\0\x01\0\0\0\x14\x13/multistream/1.0.0\n",
                Some(b"\0\x01\0\x04\0\0\0\x01\0\0\0\0"),
                Told::Broken(Why::Ended),
                NO_MORE,
            ),
            (
                b"",
                Some(b"\0\x01\0\x08\0\0\0\x01\0\0\0\0"),
                Told::Broken(Why::Reset),
                NO_MORE,
            ),
            // The talk is refused, or has a fault.
            (
                b"\0\0\0\x02\0\0\0\x01\0\0\0\x14\x13/multistream/1.0.0\n",
                Some(b"\0\0\0\0\0\0\0\x01\0\0\0\x04\x03na\n"),
                Told::Refused,
                NO_MORE,
            ),
            (
                b"",
                Some(b"\0\0\0\x02\0\0\0\x01\0\0\0\x02\x01x"),
                Told::Broken(Why::Select(SelectFault::NoNewline)),
                NO_MORE,
            ),
            // The input ends.
            (b"", None, Told::Shut, NO_MORE),
        ],
    ),
    // Of a handler that fails: where it is handed bytes, where it is asked to give then, and where it is told the end.
    (
        ConnRole::Listener,
        &[
            (
                b"",
                Some(b"\0\0\0\0\0\0\0\x01\0\0\0\x04take"),
                Told::Broken(Why::Handler(b't')),
                (1, 4, 0),
            ),
            (
                b"",
                Some(b"\0\0\0\0\0\0\0\x01\0\0\0\x04give"),
                Told::Broken(Why::Handler(b'g')),
                (2, 4, 0),
            ),
            (
                b"\0\0\0\0\0\0\0\x01\0\0\0\x03end",
                Some(b"\0\x01\0\x04\0\0\0\x01\0\0\0\0"),
                Told::Broken(Why::Handler(b'e')),
                (1, 0, 1),
            ),
        ],
    ),
];

fn is_told(event: &ConnEvent<Counting>, told: &Told) -> bool {
    match event {
        ConnEvent::Refused(number) => *number == 1 && matches!(told, Told::Refused),
        ConnEvent::Broken(number, cause) => match told {
            Told::Broken(why) => *number == 1 && Stop::Broken(*cause) == stop_for(why),
            _ => false,
        },
        ConnEvent::Fault(fault) => matches!(told, Told::Fault(other) if other == fault),
        ConnEvent::Shut => matches!(told, Told::Shut),
        _ => false,
    }
}

fn is_told_alone(events: &[ConnEvent<Counting>], told: &Told) -> bool {
    match events.first() {
        Some(event) => events.len() == 1 && is_told(event, told),
        None => false,
    }
}

/// Whether this alone is told of these bytes, or of the end of the input.
fn tells(core: &mut ConnCore<Countings>, last: Option<&[u8]>, told: &Told) -> bool {
    match last {
        Some(bytes) => holds(core.feed(bytes), |events| is_told_alone(events, told)),
        None => holds(core.ended(), |events| is_told_alone(events, told)),
    }
}

/// A connection is up, with one handler: a dialer's is eager, and its talk goes on; a listener's has agreed.
fn begins(core: &mut ConnCore<Countings>, role: ConnRole) -> bool {
    let is_up = came(core.feed(OTHER));
    match role {
        ConnRole::Dialer => is_up && core.ask(0).is_ok(),
        ConnRole::Listener => is_up && came(core.feed(OPENS)),
    }
}

/// Whether the handler sees those calls alone of what drops it, also where the connection ends behind that; and whether
/// it was asked if it is finished exactly where its talk agreed.
fn sees(core: &mut ConnCore<Countings>, role: ConnRole, counts: &Cell<Counts>, row: &Row) -> bool {
    let (first, last, told, more) = row;
    let is_fed = came(core.feed(*first));
    let before = counts.get();
    let is_told = tells(core, *last, told);
    let _is_over = came(core.ended());
    let after = counts.get();
    let was_served = before.made == 1 && before.room == ROOM;
    let is_same = after.made == before.made && after.room == before.room;
    let is_called = after.calls == before.calls.saturating_add(more.0);
    let is_handed = after.bytes == before.bytes.saturating_add(more.1);
    let is_ended = after.ends == before.ends.saturating_add(more.2);
    let is_asked = (after.asked > 0) == (role == ConnRole::Listener);
    is_fed && is_told && was_served && is_same && is_called && is_handed && is_ended && is_asked
}

fn connection(
    alloc: Global,
    role: ConnRole,
    counts: &Rc<Cell<Counts>>,
) -> Option<ConnCore<Countings>> {
    let key = PublicKey::read(alloc, KEY).ok()?;
    let protocols = Countings {
        alloc,
        counts: counts.clone().ok()?,
        is_known: true,
        is_eager: role == ConnRole::Dialer,
        closes: false,
        failing: 0,
    };
    ConnCore::new(alloc, role, key, protocols).ok()
}

fn holds_so(alloc: Global, role: ConnRole, counts: &Rc<Cell<Counts>>, row: &Row) -> bool {
    let core = connection(alloc, role, counts);
    lend(
        core,
        |core| begins(core, role) && sees(core, role, counts, row),
    ) == Some(true)
}

fn is_so(alloc: Global, role: ConnRole, row: &Row) -> bool {
    holds(Rc::new(alloc, Cell::new(NONE)), |counts| {
        holds_so(alloc, role, counts, row)
    })
}

#[test]
fn a_handler_that_is_dropped_sees_no_further_call(rt: HostRuntime) {
    for (table, (role, rows)) in TABLES.iter().enumerate() {
        for (number, row) in rows.iter().enumerate() {
            let held = is_so(rt.alloc(), *role, row);
            asserts::holds(&rt, ("table", table, "row", number), held);
        }
    }
}
