//! What a whole arrival does: to the streams, the events, and the output.

ghost use Rattle.std.specs.Prelude.{◌≡◌, ℕ, ◌<◌, ◌≤◌, ◌-◌, List, ◌∷◌, Some, None, OnOk, OnErr, IfOk, IfErr};
ghost use Rattle.std.specs.Prelude.{if◌then◌else◌, [], length, ◌||◌, ◌&&◌, take, drop, ◌++◌, true, not};
ghost use Rattle.yamux_frames.specs.Frames.{bytes_left};
ghost use Rattle.yamux_frames.specs.Frames.Arrival.{Head, Tail};
ghost use Rattle.yamux_session.specs.declared.event.Role.{Role};
ghost use Rattle.yamux_session.specs.History.{Item, arrivals, came_bytes, is_go_away, fin, rst};
ghost use Rattle.yamux_session.specs.History.Item.{Came};
ghost use Rattle.yamux_session.specs.Openings.{reading};
ghost use Rattle.yamux_session.specs.Faults.{HasNoFault};
ghost use Rattle.yamux_session.specs.Events.{tail_told, tail_events, TellsMore};
ghost use Rattle.yamux_session.specs.Output.{answer_to};
ghost use Rattle.yamux_session.specs.Acts.{AreAnswered};
ghost use Rattle.yamux_session.specs.Keeps.{Keeps};
ghost use Rattle.yamux_session.specs.Table.{table_of};
ghost use Rattle.yamux_session.specs.Heads.{IsNotTaken, told_of};
ghost use Rattle.yamux_session.specs.Arrives.{Arrives, Tells, AddsNoData, AddsDataFirst, telling};
ghost use Rattle.yamux_session.specs.Arrives.{told_of_tail, written_header, began, IsFaultOnly};
ghost use Rattle.yamux_session.specs.Naming.{IsNoData};

use crate::event::Event;
use crate::heads::{Effect, HeadRefused};
use crate::streams::{Row, Streams};
use bytes::Bytes;
use std::alloc::AllocError;
use yamux_frames::{FrameKind, Header};

/// What the tail of a frame did to its stream.
#[derive(Clone, Copy, Debug, PartialEq, Eq)]
pub enum TailEffect {
    Nothing,
    /// The other end's direction has ended.
    Ended(u32),
    /// Both directions have ended.
    Reset(u32),
}

/// Whether the tail of a frame does nothing to its stream.
fn ends_nothing(header: Header) -> bool
    ensures { result ≡ not (rst header || fin header) }
{
    header.flags & Header::RST == 0 && header.flags & Header::FIN == 0
}

/// Whether the tail of a frame ends its stream.
fn ends_stream(row: Row, header: Header) -> bool
    ensures { result ≡ (rst header || fin header && row.closed) }
{
    header.flags & Header::RST != 0 || header.flags & Header::FIN != 0 && row.closed
}

/// The row after the tail of a frame that doesn't end its stream.
fn finished(row: Row, header: Header) -> Row
    ensures { result ≡ record row { finished = fin header || row.finished } }
{
    Row {
        finished: header.flags & Header::FIN != 0 || row.finished,
        ..row
    }
}

/// What the tail of a frame does to a live stream.
fn tail_effect(row: Row, header: Header) -> TailEffect
    ensures { told_of_tail result ≡ tail_told header row.finished }
{
    if header.flags & Header::RST != 0 {
        TailEffect::Reset(header.stream)
    } else if header.flags & Header::FIN != 0 && !row.finished {
        TailEffect::Ended(header.stream)
    } else {
        TailEffect::Nothing
    }
}

impl Streams {
    /// The frame that is being read is whole.
    pub fn tail(&mut self) -> TailEffect
        ensures keeps { (role : Role) (past : List Item) → AreAnswered role past
            → bytes_left (arrivals past) ≡ 0
            → Keeps role past (table_of self.old)
            → Keeps role (Came Tail ∷ past) (table_of self.new) }
        ensures told { (role : Role) (past : List Item) → Keeps role past (table_of self.old)
            → told_of_tail result ≡ tail_events role past (reading role past) }
    {
        let Some(header) = self.reading else {
            return TailEffect::Nothing;
        };
        self.reading = None;
        self.taker = None;
        if ends_nothing(header) {
            return TailEffect::Nothing;
        }
        let Some(row) = self.rows.get_mut(&header.stream) else {
            return TailEffect::Nothing;
        };
        let effect = tail_effect(*row, header);
        if ends_stream(*row, header) {
            self.forget(header.stream);
            return effect;
        }
        *row = finished(*row, header);
        effect
    }
}

/// Tells an event where the condition holds.
fn tell_if(told: &mut Vec<Event>, condition: bool, event: Event) -> Result<(), AllocError>
    requires { IsNoData event }
    ensures ok { OnOk result (Tells told.old.items told.new.items (if condition then telling event else [])) }
    ensures no_data { AddsNoData told.old.items told.new.items }
    ensures memory { OnErr result (condition ≡ true) }
{
    if condition {
        told.push(event)?;
    }
    Ok(())
}

/// Whether a head is that of a GoAway.
fn is_leaving(header: Header) -> bool
    ensures { result ≡ is_go_away header.kind }
{
    header.kind == FrameKind::GoAway
}

/// Tells what a head did.
fn tell_head(told: &mut Vec<Event>, header: Header, effect: Effect) -> Result<(), AllocError>
    ensures ok { OnOk result (Tells told.old.items told.new.items (told_of header effect)) }
    ensures no_data { AddsNoData told.old.items told.new.items }
    ensures memory { OnErr result (0 < length (told_of header effect)) }
{
    tell_if(told, is_leaving(header), Event::GoAway(header.length))?;
    tell_if(told, effect.opened, Event::Opened(header.stream))?;
    tell_if(told, effect.accepted, Event::Accepted(header.stream))?;
    tell_if(told, effect.credited, Event::Credit(header.stream))?;
    Ok(())
}

/// The header that answers a head which has no fault: a Ping is answered, a SYN accepted or refused.
fn answer(header: Header, opened: bool) -> Option<Header>
    ensures { written_header result ≡ answer_to header opened }
{
    if header.flags & Header::SYN == 0 {
        return None;
    }
    match header.kind {
        FrameKind::Ping => Some(Header {
            kind: FrameKind::Ping,
            flags: Header::ACK,
            stream: 0,
            length: header.length,
        }),
        FrameKind::GoAway => None,
        FrameKind::Payload | FrameKind::Window => Some(Header {
            kind: FrameKind::Window,
            flags: if opened { Header::ACK } else { Header::RST },
            stream: header.stream,
            length: 0,
        }),
    }
}

/// Appends a header, if there is one.
pub fn append_header(output: &mut Vec<u8>, header: Option<Header>) -> Result<(), AllocError>
    ensures ok { OnOk result (output.new.items ≡ output.old.items ++ written_header header) }
    ensures err { OnErr result (output.new.items ≡ output.old.items) }
    ensures memory { OnErr result (0 < length (written_header header)) }
{
    match header {
        None => Ok(()),
        Some(header) => output.extend_from_slice(&header.write()),
    }
}

/// Takes the head of a frame, and gives the header that answers it, if one does.
fn take_head(
    streams: &mut Streams,
    told: &mut Vec<Event>,
    header: Header,
) -> Result<Option<Header>, HeadRefused>
    ensures done { IfOk result (λ answer. (role : Role) (past : List Item) (output : List ℕ)
        → AreAnswered role past
        → bytes_left (arrivals past) ≡ 0
        → Keeps role past (table_of streams.old)
        → Arrives role past (Came (Head header) ∷ past) (table_of streams.new)
        told.old.items told.new.items output (output ++ written_header answer)) }
    ensures refused { IfErr result (λ refused. (role : Role) (past : List Item) → AreAnswered role past
        → bytes_left (arrivals past) ≡ 0
        → Keeps role past (table_of streams.old)
        → IsNotTaken role past header (Came (Head header) ∷ past) refused) }
    ensures told { IfErr result (λ refused. IsFaultOnly refused (told.new.items ≡ told.old.items)) }
    ensures no_data { AddsNoData told.old.items told.new.items }
{
    let effect = match streams.head(header) {
        Ok(effect) => effect,
        Err(refused) => return Err(refused),
    };
    match tell_head(told, header, effect) {
        Ok(()) => Ok(answer(header, effect.opened)),
        Err(_) => Err(HeadRefused::OutOfMemory),
    }
}

/// Takes bytes of a payload, which stand in the piece. An event holds a slice of the piece, not a copy. Of the streams
/// nothing changes: the window has paid for the bytes at the head of their frame.
pub fn take_payload(
    streams: &Streams,
    told: &mut Vec<Event>,
    piece: &Bytes,
    from: usize,
    to: usize,
) -> Result<(), AllocError>
    requires some { from < to }
    requires within { to ≤ length piece.now }
    ensures ok { OnOk result ((role : Role) (past : List Item) (output : List ℕ)
        → Keeps role past (table_of streams.now)
        → to - from ≤ bytes_left (arrivals past)
        → Arrives role past (came_bytes (take (to - from) (drop from piece.now)) past) (table_of streams.now)
        told.old.items told.new.items output output) }
    ensures data_first { AddsDataFirst told.old.items told.new.items }
    ensures memory { OnErr result ((role : Role) (past : List Item) → Keeps role past (table_of streams.now)
        → TellsMore role past (came_bytes (take (to - from) (drop from piece.now)) past)) }
{
    let Some(stream) = streams.taker else {
        return Ok(());
    };
    let bytes = piece.slice(from..to)?;
    told.push(Event::Payload(stream, bytes))?;
    Ok(())
}

/// Takes the tail of a frame.
pub fn take_tail(streams: &mut Streams, told: &mut Vec<Event>) -> Result<(), AllocError>
    ensures ok { OnOk result ((role : Role) (past : List Item) (output : List ℕ) → AreAnswered role past
        → bytes_left (arrivals past) ≡ 0
        → Keeps role past (table_of streams.old)
        → Arrives role past (Came Tail ∷ past) (table_of streams.new) told.old.items told.new.items output output) }
    ensures no_data { AddsNoData told.old.items told.new.items }
    ensures memory { OnErr result ((role : Role) (past : List Item) → Keeps role past (table_of streams.old)
        → TellsMore role past (Came Tail ∷ past)) }
{
    match streams.tail() {
        TailEffect::Nothing => Ok(()),
        TailEffect::Ended(stream) => tell_if(told, true, Event::Ended(stream)),
        TailEffect::Reset(stream) => tell_if(told, true, Event::Reset(stream)),
    }
}

/// Takes the head of a frame, and its tail where it has no payload. Gives the header that answers it, if one does.
pub fn take_frame(
    streams: &mut Streams,
    told: &mut Vec<Event>,
    header: Header,
) -> Result<Option<Header>, HeadRefused>
    ensures done { IfOk result (λ answer. (role : Role) (past : List Item) (output : List ℕ)
        → AreAnswered role past
        → bytes_left (arrivals past) ≡ 0
        → Keeps role past (table_of streams.old)
        → Arrives role past (began header past) (table_of streams.new)
        told.old.items told.new.items output (output ++ written_header answer)) }
    ensures refused { IfErr result (λ refused. (role : Role) (past : List Item) → HasNoFault role past
        → AreAnswered role past
        → bytes_left (arrivals past) ≡ 0
        → Keeps role past (table_of streams.old) → IsNotTaken role past header (began header past) refused) }
    ensures told { IfErr result (λ refused. IsFaultOnly refused (told.new.items ≡ told.old.items)) }
    ensures no_data { AddsNoData told.old.items told.new.items }
{
    let answer = match take_head(streams, told, header) {
        Ok(answer) => answer,
        Err(refused) => return Err(refused),
    };
    if header.payload_length() > 0 {
        return Ok(answer);
    }
    match take_tail(streams, told) {
        Ok(()) => Ok(answer),
        Err(_) => Err(HeadRefused::OutOfMemory),
    }
}
