//! One end of a connection.

ghost use Rattle.std.specs.Prelude.{◌≡◌, ◌≢◌, ℕ, ◌++◌, ◌∷◌, [], List, Some, None, Ok, Err, IfOk, IfErr, OnErr, OnOk};
ghost use Rattle.std.specs.Prelude.{true, false, length, take, ◌<◌, ◌≤◌, ◌-◌, ◌↔◌, drop, min, IsTrue};
ghost use Rattle.std.specs.List.{AllByRecursion};
ghost use Rattle.yamux_session.specs.History.{Item, Act};
ghost use Rattle.yamux_session.specs.History.Item.{Did};
ghost use Rattle.yamux_session.specs.History.Act.{Start, Taken, Close, Reset};
ghost use Rattle.yamux_session.specs.Openings.{is_live};
ghost use Rattle.yamux_session.specs.Acts.{open_credit, start_refusal, stream_refusal, direction_refusal, IsRefusedFor};
ghost use Rattle.yamux_session.specs.Acts.{frames_length};
ghost use Rattle.yamux_session.specs.Windows.{credit, given_back, untaken};
ghost use Rattle.yamux_session.specs.Output.{frame};
ghost use Rattle.yamux_frames.specs.Frames.{EndsWithin};
ghost use Rattle.yamux_session.specs.Arrives.{Tells, HasData, AddsNoData, AddsDataFirst, added};
ghost use Rattle.yamux_session.specs.Naming.{NamesOne, IsNoData};
ghost use Rattle.yamux_session.specs.Events.{Told};
ghost use Rattle.yamux_session.specs.State.{Stands, Whenever, Adds, AddsWrite, Steps, Feeds, FeedsFrame, RunsOut};
ghost use Rattle.yamux_session.specs.State.{BringsMore};
ghost use Rattle.yamux_session.specs.State.{room_of};

use crate::arrivals::{append_header, take_frame, take_payload, take_tail};
use crate::event::{ActRefused, Event, Fault, Role};
use crate::heads::HeadRefused;
use crate::sending::{append_data, append_frame, put_frame};
use crate::streams::Streams;
use bytes::Bytes;
use std::alloc::{AllocError, Global};
use std::collections::HashMap;
use std::marker::Model;
use yamux_frames::{Cut, Cutter, FrameKind, Header};

/// From so much on what was taken is given back.
const GIVE_BACK_FROM: u32 = 131072;

/// A session of one end: the streams that are live with their windows, the output that waits, and where in a frame the
/// input ends. Contracts see these three, how much output finds room without more memory, and whether the session has
/// failed; `Stands` relates them to the history.
#[derive(Debug)]
pub struct Session {
    streams: Streams,
    cutter: Cutter,
    output: Vec<u8>,
    alloc: Global,
    failed: bool,
}

// By hand, so that the proof of who lets go of it is that of a call, and not of all that it holds.
impl Drop for Session {
    fn drop(self) {
        let Self {
            streams: _streams,
            cutter: _,
            output: _output,
            alloc: _,
            failed: _,
        } = self;
    }
}

impl Model for Session {
    ghost use Rattle.yamux_session.specs.State.{State, room_of};
    ghost use Rattle.yamux_session.specs.Table.{table_of};

    ghost Value = { State };

    ghost view = { λ s. record {
      table = table_of s.streams;
      place = s.cutter;
      pending = s.output.items;
      room = room_of s.output;
      failed = s.failed;
    } };
}

impl Session {
    /// A session at the empty history: no stream is open and nothing waits to be sent. It takes no memory.
    pub fn new(alloc: Global, role: Role) -> Session
        ensures stands { Stands role [] [] [] result }
    {
        Session {
            streams: Streams {
                role,
                rows: HashMap::new(alloc),
                own: 0,
                remote: 0,
                next: if role == Role::Client { 1 } else { 2 },
                reading: None,
                taker: None,
                local_go_away: false,
                remote_go_away: false,
            },
            cutter: Cutter::new(),
            output: Vec::new(alloc),
            alloc,
            failed: false,
        }
    }

    /// How many bytes may be written on a stream, or `None` where it isn't live, this end has closed it, or the session
    /// has failed.
    pub fn credit(&self, stream: u32) -> Option<u32>
        ensures live { Whenever self.now (λ role past. result ≡ open_credit role past stream) }
        ensures failed { self.now.failed ≡ true → result ≡ None }
    {
        if self.failed {
            return None;
        }
        self.streams.credit(stream)
    }

    /// Whether a stream is live. Once the session has failed none is.
    pub fn is_live(&self, stream: u32) -> bool
        ensures live { Whenever self.now (λ role past. result ≡ is_live role past stream) }
        ensures failed { self.now.failed ≡ true → result ≡ false }
    {
        !self.failed && self.streams.is_live(stream)
    }

    /// Whether the session has failed: at a fault of the other end, or for want of memory within a feed.
    pub fn has_failed(&self) -> bool
        ensures { result ≡ self.now.failed }
    {
        self.failed
    }

    /// Whether the bytes that came end within a frame: after a part of a header, or with an unfinished payload. Once
    /// the session has failed they don't.
    pub fn mid_frame(&self) -> bool
        ensures live { (role : Role) (past : List Item) (fed sent : List ℕ) → Stands role past fed sent self.now
            → IsTrue result ↔ EndsWithin fed }
        ensures failed { self.now.failed ≡ true → result ≡ false }
    {
        if self.failed {
            return false;
        }
        self.cutter.is_mid_frame()
    }

    /// The bytes to send that were not taken yet; afterwards none wait. It takes no memory.
    pub fn take_output(&mut self) -> Vec<u8>
        ensures output { result.items ≡ self.old.pending }
        ensures rest { self.new ≡ record self.old { pending = []; room = 0 } }
        ensures stands { (role : Role) (past : List Item) (fed sent : List ℕ) → Stands role past fed sent self.old
            → Stands role past fed (sent ++ result.items) self.new }
    {
        std::mem::replace(&mut self.output, Vec::new(self.alloc))
    }

    /// Opens a stream of this end with the next number of its parity, and tells the number. What is sent is an empty
    /// WindowUpdate with SYN.
    ///
    /// An [`Event::Accepted`] of it may never come: a peer need not send ACK for a stream that it ends at once.
    ///
    /// It is refused by the first that holds of [`ActRefused::Failed`], [`ActRefused::GoneAway`],
    /// [`ActRefused::StreamsExhausted`] and [`ActRefused::StreamsFull`], or for want of memory, and opens nothing then.
    pub fn open_stream(&mut self) -> Result<u32, ActRefused>
        ensures ok { IfOk result (λ number. Adds self.old self.new (λ role past. Start number)) }
        ensures going { OnOk result (self.new.failed ≡ false) }
        ensures refused { IfErr result (λ refused.
            Whenever self.old (λ role past. IsRefusedFor (start_refusal role past) refused)) }
        // Want of memory may have left more room for output: the table of streams grows behind the output.
        ensures err { OnErr result (self.new ≡ record self.old { room = self.new.room }) }
        ensures room { OnErr result (self.old.room ≤ self.new.room) }
        ensures kept { IfErr result (λ refused. refused ≢ ActRefused.OutOfMemory → self.new ≡ self.old) }
        ensures failed { self.old.failed ≡ true → (result ≡ Err ActRefused.Failed) × (self.new ≡ self.old) }
    {
        if self.failed {
            return Err(ActRefused::Failed);
        }
        if let Some(refused) = self.streams.start_refused() {
            return Err(refused);
        }
        if self.output.reserve(12).is_err() {
            return Err(ActRefused::OutOfMemory);
        }
        match self.streams.start() {
            Ok(number) => {
                put_frame(&mut self.output, FrameKind::Window, Header::SYN, number, 0);
                Ok(number)
            }
            Err(_) => Err(ActRefused::OutOfMemory),
        }
    }

    /// Writes on a stream, and tells how many of the bytes the window let through.
    ///
    /// It is refused by the first that holds of [`ActRefused::Failed`], [`ActRefused::NoStream`] and
    /// [`ActRefused::Ended`], or for want of memory, and changes nothing then.
    pub fn write(&mut self, stream: u32, bytes: &[u8]) -> Result<usize, ActRefused>
        ensures ok { IfOk result (λ count. AddsWrite self.old self.new stream (take count bytes.now)) }
        ensures going { OnOk result (self.new.failed ≡ false) }
        ensures count { IfOk result (λ count. Whenever self.old (λ role past.
            count ≡ min (length bytes.now) (credit role past stream))) }
        ensures refused { IfErr result (λ refused.
            Whenever self.old (λ role past. IsRefusedFor (direction_refusal role past stream) refused)) }
        // Memory is asked for only where bytes go through, and only where their frames find no room.
        ensures memory { IfErr result (λ refused. refused ≡ ActRefused.OutOfMemory
            → Whenever self.old (λ role past. 0 < min (length bytes.now) (credit role past stream))) }
        ensures room { IfErr result (λ refused. refused ≡ ActRefused.OutOfMemory → Whenever self.old (λ role past.
            self.old.room < frames_length (min (length bytes.now) (credit role past stream)))) }
        ensures err { OnErr result (self.new ≡ self.old) }
        ensures failed { self.old.failed ≡ true → (result ≡ Err ActRefused.Failed) × (self.new ≡ self.old) }
    {
        if self.failed {
            return Err(ActRefused::Failed);
        }
        let Some(row) = self.streams.rows.get_mut(&stream) else {
            return Err(ActRefused::NoStream);
        };
        if row.closed {
            return Err(ActRefused::Ended);
        }
        let count = bytes.len().min(row.credit as usize);
        if append_data(&mut self.output, stream, &bytes[..count]).is_err() {
            return Err(ActRefused::OutOfMemory);
        }
        row.credit -= count as u32;
        Ok(count)
    }

    /// Bytes of a stream were taken: at most those that arrived and weren't taken yet.
    ///
    /// Behind the end of a stream that isn't live any more it answers [`ActRefused::NoStream`] and changes nothing:
    /// there is no window left to open, so a caller may take what it holds without asking first. A session that has
    /// failed answers [`ActRefused::Failed`], and want of memory for the frame that opens the window changes nothing.
    pub fn taken(&mut self, stream: u32, count: usize) -> Result<(), ActRefused>
        ensures ok { OnOk result (Adds self.old self.new (λ role past.
            Taken stream (min count (untaken role past stream)))) }
        ensures going { OnOk result (self.new.failed ≡ false) }
        ensures refused { IfErr result (λ refused.
            Whenever self.old (λ role past. IsRefusedFor (stream_refusal role past stream) refused)) }
        // Memory is asked for only where something is given back, and only where its frame finds no room.
        ensures memory { IfErr result (λ refused. refused ≡ ActRefused.OutOfMemory
            → Whenever self.old (λ role past.
            0 < given_back role stream past (Did (Taken stream (min count (untaken role past stream)))))) }
        ensures room { IfErr result (λ refused. refused ≡ ActRefused.OutOfMemory → self.old.room < 12) }
        ensures err { OnErr result (self.new ≡ self.old) }
        ensures failed { self.old.failed ≡ true → (result ≡ Err ActRefused.Failed) × (self.new ≡ self.old) }
    {
        if self.failed {
            return Err(ActRefused::Failed);
        }
        let coming = self.streams.coming(stream, self.cutter.bytes_left());
        let Some(row) = self.streams.rows.get_mut(&stream) else {
            return Err(ActRefused::NoStream);
        };
        let count = count.min(row.untaken(coming) as usize) as u32;
        let owed = row.owed.saturating_add(count);
        if row.finished || owed < GIVE_BACK_FROM {
            row.owed = owed;
            return Ok(());
        }
        if append_frame(&mut self.output, FrameKind::Window, 0, stream, owed).is_err() {
            return Err(ActRefused::OutOfMemory);
        }
        row.window = row.window.saturating_add(owed);
        row.owed = 0;
        Ok(())
    }

    /// Closes this end's direction of a stream. It is refused as `write` is, and changes nothing then.
    pub fn close(&mut self, stream: u32) -> Result<(), ActRefused>
        ensures ok { OnOk result (Adds self.old self.new (λ role past. Close stream)) }
        ensures going { OnOk result (self.new.failed ≡ false) }
        ensures refused { IfErr result (λ refused.
            Whenever self.old (λ role past. IsRefusedFor (direction_refusal role past stream) refused)) }
        ensures memory { IfErr result (λ refused. refused ≡ ActRefused.OutOfMemory → self.old.room < 12) }
        ensures err { OnErr result (self.new ≡ self.old) }
        ensures failed { self.old.failed ≡ true → (result ≡ Err ActRefused.Failed) × (self.new ≡ self.old) }
    {
        if self.failed {
            return Err(ActRefused::Failed);
        }
        let Some(row) = self.streams.rows.get_mut(&stream) else {
            return Err(ActRefused::NoStream);
        };
        if row.closed {
            return Err(ActRefused::Ended);
        }
        if append_frame(&mut self.output, FrameKind::Window, Header::FIN, stream, 0).is_err() {
            return Err(ActRefused::OutOfMemory);
        }
        if row.finished {
            self.streams.forget(stream);
        } else {
            row.closed = true;
        }
        Ok(())
    }

    /// Ends both directions of a stream. It is refused with [`ActRefused::Failed`] or [`ActRefused::NoStream`], or for
    /// want of memory, and changes nothing then.
    pub fn reset(&mut self, stream: u32) -> Result<(), ActRefused>
        ensures ok { OnOk result (Adds self.old self.new (λ role past. Reset stream)) }
        ensures going { OnOk result (self.new.failed ≡ false) }
        ensures refused { IfErr result (λ refused.
            Whenever self.old (λ role past. IsRefusedFor (stream_refusal role past stream) refused)) }
        ensures memory { IfErr result (λ refused. refused ≡ ActRefused.OutOfMemory → self.old.room < 12) }
        ensures err { OnErr result (self.new ≡ self.old) }
        ensures failed { self.old.failed ≡ true → (result ≡ Err ActRefused.Failed) × (self.new ≡ self.old) }
    {
        if self.failed {
            return Err(ActRefused::Failed);
        }
        if self.streams.row(stream).is_none() {
            return Err(ActRefused::NoStream);
        }
        if append_frame(&mut self.output, FrameKind::Window, Header::RST, stream, 0).is_err() {
            return Err(ActRefused::OutOfMemory);
        }
        self.streams.forget(stream);
        Ok(())
    }

    /// Says that this end goes away: it opens no stream of the other end any more. The specification knows the codes
    /// [`Header::NORMAL_TERMINATION`], [`Header::PROTOCOL_ERROR`] and [`Header::INTERNAL_ERROR`]; a code above makes
    /// some peers end the session. It is refused with [`ActRefused::Failed`], or for want of memory, and says nothing
    /// then.
    pub fn go_away(&mut self, code: u32) -> Result<(), ActRefused>
        ensures ok { OnOk result (Adds self.old self.new (λ role past. Act.GoAway code)) }
        ensures going { OnOk result (self.new.failed ≡ false) }
        ensures refused { IfErr result (λ refused. self.old.failed ≡ false → refused ≡ ActRefused.OutOfMemory) }
        ensures memory { IfErr result (λ refused. refused ≡ ActRefused.OutOfMemory → self.old.room < 12) }
        ensures err { OnErr result (self.new ≡ self.old) }
        ensures failed { self.old.failed ≡ true → (result ≡ Err ActRefused.Failed) × (self.new ≡ self.old) }
    {
        if self.failed {
            return Err(ActRefused::Failed);
        }
        if append_frame(&mut self.output, FrameKind::GoAway, 0, 0, code).is_err() {
            return Err(ActRefused::OutOfMemory);
        }
        self.streams.local_go_away = true;
        Ok(())
    }

    /// Takes the bytes that came, and tells what the other end did. The bytes are copied once.
    ///
    /// A fault is the last event, and behind the output stands a GoAway with code 1. Where memory was refused, the
    /// events are lost, and the output is that of the frames of a first part of the bytes. After either every call
    /// answers [`ActRefused::Failed`].
    pub fn feed(&mut self, bytes: &[u8]) -> Result<Vec<Event>, ActRefused>
        ensures fed { IfOk result (λ told. Feeds self.old bytes.now told.items self.new) }
        ensures filled { IfOk result (λ told. Whenever self.old (λ role past. AllByRecursion HasData told.items)) }
        ensures refused { IfErr result (λ refused. self.old.failed ≡ false
            → (refused ≡ ActRefused.OutOfMemory) × (self.new.failed ≡ true)
            × RunsOut self.old bytes.now self.new) }
        ensures memory { OnErr result (self.old.failed ≡ false → 0 < length bytes.now) }
        ensures failed { self.old.failed ≡ true → (result ≡ Err ActRefused.Failed) × (self.new ≡ self.old) }
    {
        if self.failed {
            return Err(ActRefused::Failed);
        }
        if bytes.is_empty() {
            return self.feed_shared(Bytes::new());
        }
        match Bytes::copy_from_slice(self.alloc, bytes) {
            Ok(piece) => self.feed_shared(piece),
            Err(_) => Err(self.run_out()),
        }
    }

    /// Takes the bytes that came, as `feed` does, and copies none of them: each Payload event holds a slice of the
    /// piece, and so keeps the whole piece alive as long as it is kept.
    pub fn feed_shared(&mut self, piece: Bytes) -> Result<Vec<Event>, ActRefused>
        ensures fed { IfOk result (λ told. Feeds self.old piece told.items self.new) }
        ensures filled { IfOk result (λ told. Whenever self.old (λ role past. AllByRecursion HasData told.items)) }
        ensures refused { IfErr result (λ refused. self.old.failed ≡ false
            → (refused ≡ ActRefused.OutOfMemory) × (self.new.failed ≡ true) × RunsOut self.old piece self.new) }
        // Memory is asked for only where there is an event to tell or something to send.
        ensures memory { OnErr result (BringsMore self.old piece) }
        ensures empty { OnErr result (self.old.failed ≡ false → 0 < length piece) }
        ensures failed { self.old.failed ≡ true → (result ≡ Err ActRefused.Failed) × (self.new ≡ self.old) }
    {
        if self.failed {
            return Err(ActRefused::Failed);
        }
        let mut told = Vec::new(self.alloc);
        let mut at = 0;
        while at < piece.len() && !self.failed {
            match self.feed_frame(&piece, at, &mut told) {
                Ok(used) => at += used,
                Err(refused) => return Err(refused),
            }
        }
        Ok(told)
    }

    /// Takes the bytes that came from `at` on, as `feed_shared` does, but at most one header, or one part of a payload,
    /// with the end of its frame. The events are put behind those that were told, and the answer is how many bytes were
    /// used: none where none are left.
    ///
    /// What one call tells names one stream at most, and opens it, if at all, with its first event. So an act behind
    /// each call is about the very stream that the events named: behind a whole piece a stream of the same number may
    /// have been opened since. Data is told, if at all, by the first event alone.
    ///
    /// Where memory was refused, the call has told and sent nothing.
    pub fn feed_frame(
        &mut self,
        piece: &Bytes,
        at: usize,
        told: &mut Vec<Event>,
    ) -> Result<usize, ActRefused>
        ensures kept { OnOk result (told.new.items ≡ told.old.items ++ added told.old.items told.new.items) }
        ensures fed { IfOk result (λ used.
            FeedsFrame self.old (take used (drop at piece.now)) (added told.old.items told.new.items) self.new) }
        ensures filled { OnOk result (Whenever self.old (λ role past.
            AllByRecursion HasData (added told.old.items told.new.items))) }
        ensures one_stream { OnOk result (Whenever self.old (λ role past.
            NamesOne (added told.old.items told.new.items))) }
        // Data is told by one event, and by the first.
        ensures data_first { OnOk result (AllByRecursion IsNoData (drop 1 (added told.old.items told.new.items))) }
        // A fault is all that its call tells.
        ensures fault_alone { OnOk result (self.old.failed ≡ false → self.new.failed ≡ true
            → (fault : Fault) × (added told.old.items told.new.items ≡ Event.Fault fault ∷ [])) }
        ensures within { IfOk result (λ used. used ≤ length piece.now - at) }
        ensures goes_on { IfOk result (λ used. at < length piece.now → 0 < used) }
        ensures nothing_left { length piece.now ≤ at → self.old.failed ≡ false
            → (result ≡ Ok 0) × (self.new ≡ self.old) × (told.new ≡ told.old) }
        ensures refused { IfErr result (λ refused. self.old.failed ≡ false
            → (refused ≡ ActRefused.OutOfMemory) × (self.new.failed ≡ true)
            × (self.new.pending ≡ self.old.pending)) }
        ensures untold { OnErr result (told.new.items ≡ told.old.items) }
        ensures memory { OnErr result (BringsMore self.old (drop at piece.now)) }
        ensures failed { self.old.failed ≡ true
            → (result ≡ Err ActRefused.Failed) × (self.new ≡ self.old) × (told.new ≡ told.old) }
    {
        if self.failed {
            return Err(ActRefused::Failed);
        }
        if at >= piece.len() {
            return Ok(0);
        }
        let before = told.len();
        match self.step(piece, at, told) {
            Ok(used) => Ok(used),
            Err(_) => {
                told.truncate(before);
                Err(self.run_out())
            }
        }
    }

    /// Ends the session, since memory was refused within a piece.
    fn run_out(&mut self) -> ActRefused
        ensures why { result ≡ ActRefused.OutOfMemory }
        ensures failed { self.new ≡ record self.old { failed = true } }
    {
        self.failed = true;
        ActRefused::OutOfMemory
    }

    /// Takes one answer of the cutter to the rest of the piece, and tells how many bytes it used.
    fn step(&mut self, piece: &Bytes, at: usize, told: &mut Vec<Event>) -> Result<usize, AllocError>
        requires going { self.old.failed ≡ false }
        requires some { at < length piece.now }
        ensures used { IfOk result (λ used. (0 < used) × (used ≤ length piece.now - at)) }
        ensures led { IfOk result (λ used. (role : Role) (past : List Item) (fed sent : List ℕ)
            → Stands role past fed sent self.old
            → Steps role past fed (take used (drop at piece.now)) sent told.old.items told.new.items self.new) }
        ensures fault_alone { OnOk result (self.new.failed ≡ true
            → (fault : Fault) × (told.new.items ≡ told.old.items ++ Event.Fault fault ∷ [])) }
        ensures data_first { AddsDataFirst told.old.items told.new.items }
        ensures kept { OnErr result (self.new.pending ≡ self.old.pending) }
        ensures memory { OnErr result (BringsMore self.old (drop at piece.now)) }
    {
        match self.cutter.feed(&piece[at..]) {
            Ok((used, Cut::More)) => Ok(used),
            Ok((used, Cut::Head(header))) => {
                let answer = match take_frame(&mut self.streams, told, header) {
                    Ok(answer) => answer,
                    Err(HeadRefused::Fault(fault)) => {
                        self.fail(fault, told)?;
                        return Ok(used);
                    }
                    Err(HeadRefused::OutOfMemory) => return Err(AllocError),
                };
                append_header(&mut self.output, answer)?;
                Ok(used)
            }
            Ok((used, Cut::Part { last, .. })) => {
                take_payload(&self.streams, told, piece, at, at + used)?;
                if last {
                    take_tail(&mut self.streams, told)?;
                }
                Ok(used)
            }
            Err(_) => {
                self.fail(Fault::BadFrame, told)?;
                Ok(piece.len() - at)
            }
        }
    }

    /// Ends the session with a fault.
    fn fail(&mut self, fault: Fault, told: &mut Vec<Event>) -> Result<(), AllocError>
        ensures failed { OnOk result (self.new ≡ record self.old {
          pending = self.old.pending ++ frame FrameKind.GoAway 0 0 1;
          room = self.new.room;
          failed = true;
        }) }
        ensures told { OnOk result (Tells told.old.items told.new.items (Told.Fault fault ∷ [])) }
        ensures event { OnOk result (told.new.items ≡ told.old.items ++ Event.Fault fault ∷ []) }
        ensures no_data { AddsNoData told.old.items told.new.items }
        ensures kept { OnErr result (self.new ≡ self.old) }
    {
        told.push(Event::Fault(fault))?;
        append_frame(
            &mut self.output,
            FrameKind::GoAway,
            0,
            0,
            Header::PROTOCOL_ERROR,
        )?;
        self.failed = true;
        Ok(())
    }
}
