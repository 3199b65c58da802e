//! What the head of a frame does to the streams.

ghost use Rattle.std.specs.Prelude.{◌≡◌, List, Some, None, IfOk, IfErr, true, false, not, nat_lt, ◌&&◌, ◌||◌};
ghost use Rattle.std.specs.Prelude.{if◌then◌else◌};
ghost use Rattle.yamux_frames.specs.Frames.{bytes_left};
ghost use Rattle.yamux_session.specs.declared.event.Role.{Role};
ghost use Rattle.yamux_session.specs.History.{Item, arrivals, syn, ack, is_of_stream, is_data, is_update, is_own};
ghost use Rattle.yamux_session.specs.Acts.{AreAnswered};
ghost use Rattle.yamux_session.specs.Keeps.{Keeps};
ghost use Rattle.yamux_session.specs.Table.{table_of};
ghost use Rattle.yamux_session.specs.Heads.{charged, row_fault, HeadDone, IsHeadRefused};

use crate::event::{Fault, Role};
use crate::streams::{OPENED, Row, Streams, is_own_number, is_remote_number};
use yamux_frames::{FrameKind, Header};

/// What the head of a frame did to its stream.
#[derive(Clone, Copy, Debug, PartialEq, Eq)]
pub struct Effect {
    /// The stream was opened.
    pub opened: bool,
    /// The stream, one of this end, was accepted.
    pub accepted: bool,
    /// The stream got credit.
    pub credited: bool,
}

/// Of a head that does nothing to any stream.
const NO_EFFECT: Effect = Effect {
    opened: false,
    accepted: false,
    credited: false,
};

/// Why a head isn't taken.
#[derive(Clone, Copy, Debug, PartialEq, Eq)]
pub enum HeadRefused {
    /// It breaks the rules.
    Fault(Fault),
    /// The growth of the table of streams was refused.
    OutOfMemory,
}

/// The windows after a head that belongs to their stream.
fn charge(row: Row, header: Header) -> Result<Row, Fault>
    ensures good { IfOk result (λ new. row_fault row header ≡ None) }
    ensures windows { IfOk result (λ new. new ≡ charged row header) }
    ensures fault { IfErr result (λ fault. row_fault row header ≡ Some fault) }
{
    match header.kind {
        FrameKind::Payload => {
            if header.length > row.window {
                return Err(Fault::WindowExceeded);
            }
            let window = row.window - header.length;
            Ok(Row { window, ..row })
        }
        FrameKind::Window => {
            if header.length > u32::MAX - row.credit {
                return Err(Fault::WindowTooLarge);
            }
            let credit = row.credit + header.length;
            Ok(Row { credit, ..row })
        }
        FrameKind::Ping | FrameKind::GoAway => Ok(row),
    }
}

/// Whether a head without SYN is skipped with its payload: Data behind the end of the other end's direction.
fn is_skipped(row: Row, header: Header) -> bool
    ensures { result ≡ (is_data header.kind && row.finished) }
{
    header.kind == FrameKind::Payload && row.finished
}

/// The row with the first ACK.
fn acknowledged(row: Row, header: Header) -> Row
    ensures { result ≡ record row { accepted = ack header || row.accepted } }
{
    Row {
        accepted: header.flags & Header::ACK != 0 || row.accepted,
        ..row
    }
}

/// Whether a head accepts a stream of this end.
fn is_accepting(role: Role, row: Row, header: Header) -> bool
    ensures { result ≡ (ack header && is_own role header.stream && not row.accepted) }
{
    header.flags & Header::ACK != 0 && is_own_number(role, header.stream) && !row.accepted
}

/// Whether a head that belongs to its stream gives credit.
fn is_crediting(header: Header) -> bool
    ensures { result ≡ (is_update header.kind && nat_lt 0 header.length) }
{
    header.kind == FrameKind::Window && header.length > 0
}

/// The stream that takes the payload behind a head that belongs to it: none behind the other end's FIN, where only a
/// WindowUpdate belongs to it.
fn payload_taker(row: Row, header: Header) -> Option<u32>
    ensures { result ≡ (if row.finished then None else Some header.stream) }
{
    if row.finished {
        return None;
    }
    Some(header.stream)
}

impl Streams {
    /// The head of a frame arrives.
    pub fn head(&mut self, header: Header) -> Result<Effect, HeadRefused>
        ensures done { IfOk result (λ effect. (role : Role) (past : List Item) → AreAnswered role past
            → bytes_left (arrivals past) ≡ 0
            → Keeps role past (table_of self.old) → HeadDone role past header effect (table_of self.new)) }
        ensures refused { IfErr result (λ refused. (role : Role) (past : List Item) → AreAnswered role past
            → Keeps role past (table_of self.old) → IsHeadRefused role past header refused) }
    {
        match header.kind {
            FrameKind::Ping => {
                self.reading = None;
                self.taker = None;
                Ok(NO_EFFECT)
            }
            FrameKind::GoAway => {
                self.reading = None;
                self.taker = None;
                self.remote_go_away = true;
                Ok(NO_EFFECT)
            }
            FrameKind::Payload | FrameKind::Window => {
                if header.flags & Header::SYN == 0 {
                    self.plain_head(header)
                } else {
                    self.opening_head(header)
                }
            }
        }
    }

    /// The head of a Data or WindowUpdate frame without SYN: it is for a live stream, or skipped.
    fn plain_head(&mut self, header: Header) -> Result<Effect, HeadRefused>
        requires kind { is_of_stream header ≡ true }
        requires plain { syn header ≡ false }
        ensures done { IfOk result (λ effect. (role : Role) (past : List Item) → bytes_left (arrivals past) ≡ 0
            → Keeps role past (table_of self.old)
            → HeadDone role past header effect (table_of self.new)) }
        ensures refused { IfErr result (λ refused. (role : Role) (past : List Item)
            → Keeps role past (table_of self.old)
            → IsHeadRefused role past header refused) }
    {
        let Some(row) = self.rows.get_mut(&header.stream) else {
            self.reading = None;
            self.taker = None;
            return Ok(NO_EFFECT);
        };
        if is_skipped(*row, header) {
            self.reading = Some(header);
            self.taker = None;
            return Ok(NO_EFFECT);
        }
        let windows = match charge(*row, header) {
            Ok(windows) => windows,
            Err(fault) => return Err(HeadRefused::Fault(fault)),
        };
        let effect = Effect {
            opened: false,
            accepted: is_accepting(self.role, *row, header),
            credited: is_crediting(header),
        };
        self.taker = payload_taker(*row, header);
        *row = acknowledged(windows, header);
        self.reading = Some(header);
        Ok(effect)
    }

    /// The head of a Data or WindowUpdate frame with SYN: it opens a stream, or is answered by RST.
    fn opening_head(&mut self, header: Header) -> Result<Effect, HeadRefused>
        requires kind { is_of_stream header ≡ true }
        requires opening { syn header ≡ true }
        ensures done { IfOk result (λ effect. (role : Role) (past : List Item) → AreAnswered role past
            → bytes_left (arrivals past) ≡ 0
            → Keeps role past (table_of self.old) → HeadDone role past header effect (table_of self.new)) }
        ensures refused { IfErr result (λ refused. (role : Role) (past : List Item) → AreAnswered role past
            → Keeps role past (table_of self.old) → IsHeadRefused role past header refused) }
    {
        if !is_remote_number(self.role, header.stream) {
            return Err(HeadRefused::Fault(Fault::WrongParity));
        }
        if self.row(header.stream).is_some() {
            return Err(HeadRefused::Fault(Fault::DuplicateStream));
        }
        if !self.has_room() {
            self.reading = None;
            self.taker = None;
            return Ok(NO_EFFECT);
        }
        let windows = match charge(OPENED, header) {
            Ok(windows) => windows,
            Err(fault) => return Err(HeadRefused::Fault(fault)),
        };
        match self.add(header.stream, windows) {
            Ok(()) => {}
            Err(_) => return Err(HeadRefused::OutOfMemory),
        }
        self.remote += 1;
        self.reading = Some(header);
        self.taker = Some(header.stream);
        Ok(Effect {
            opened: true,
            accepted: false,
            credited: is_crediting(header),
        })
    }
}
