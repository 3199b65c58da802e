//! A stream of bytes, cut into headers and parts of payloads.

ghost use Rattle.std.specs.Prelude.{◌≡◌, ◌+◌, ◌≤◌, ◌<◌, ◌++◌, ◌↔◌, [], length, take, false, IsTrue, IsSome, None, Some};
ghost use Rattle.std.specs.Prelude.{Err, IfOk, IfErr, List, ℕ};
ghost use Rattle.yamux_frames.specs.Cuts.{Cuts, Answers};
ghost use Rattle.yamux_frames.specs.Place.{is_within};
ghost use Rattle.yamux_frames.specs.Frames.{Arrival, Stands, StopsIn, Uses, IsLongest, EndsExactly, IsOfLast};
ghost use Rattle.yamux_frames.specs.Frames.{EndsWithin, bytes_left, with_cut};

use crate::header::{FrameFault, Header};
use std::marker::Model;

/// What a cutter finds at the prefix of a piece.
#[derive(Clone, Copy, Debug, PartialEq, Eq)]
pub enum Cut {
    /// The whole piece is used, and more bytes are needed.
    More,
    /// A header is whole. Where it announces no payload, its frame is whole too.
    Head(Header),
    /// Payload of the last header.
    Part {
        /// The stream that the header names.
        stream: u32,
        /// Where the part begins in the piece.
        from: usize,
        /// Where it ends there, the end left out.
        to: usize,
        /// Whether the payload, and so the frame, ends with this part.
        last: bool,
    },
}

/// Cuts a stream of bytes into headers and parts of payloads, however the bytes come. It takes no memory.
#[derive(Debug, Drop)]
pub struct Cutter {
    /// The bytes of a header that isn't whole yet stand at the prefix.
    buffer: [u8; 12],
    filled: usize,
    stream: u32,
    /// How many bytes of a payload are still to come.
    left: u32,
    fault: Option<FrameFault>,
}

impl Model for Cutter {
    ghost use Rattle.std.specs.Prelude.{◌≡◌, ◌<◌, take};
    ghost use Rattle.yamux_frames.specs.Place.{Place};

    ghost Value = { Place };

    ghost view = { λ c. record { part = take c.filled c.buffer; stream = c.stream; left = c.left; fault = c.fault } };

    ghost invariant = { λ c. (c.filled < 12) × (0 < c.left → c.filled ≡ 0) };
}

/// Puts bytes from the prefix of the piece behind the `filled` first bytes of the buffer, as many as fit, and tells how
/// many.
fn fill(buffer: &mut [u8; 12], filled: usize, piece: &[u8]) -> usize
    requires { filled < 12 }
    ensures room { filled + result ≤ 12 }
    ensures within { result ≤ length piece.now }
    ensures all { result < length piece.now → filled + result ≡ 12 }
    ensures bytes { take (filled + result) buffer.new ≡ take filled buffer.old ++ take result piece.now }
{
    let count = piece.len().min(12 - filled);
    buffer[filled..filled + count].copy_from_slice(&piece[..count]);
    count
}

impl Cutter {
    /// A cutter before the first byte.
    pub fn new() -> Cutter
        ensures frames { Stands [] [] result }
    {
        Cutter {
            buffer: [0; 12],
            filled: 0,
            stream: 0,
            left: 0,
            fault: None,
        }
    }

    /// Takes bytes from the prefix of the piece: how many, and what they are. Call it again with the rest of the piece.
    ///
    /// A fault is the last answer: every later call gives it again.
    pub fn feed(&mut self, piece: &[u8]) -> Result<(usize, Cut), FrameFault>
        ensures uses { IfOk result (λ answer. Uses piece.now answer.0 answer.1) }

        // However the bytes were cut into pieces, the answers are the frames of all of them.
        ensures frames { IfOk result (λ answer. (bytes : List ℕ) (past : List Arrival) → Stands bytes past self.old
            → Stands (bytes ++ take answer.0 piece.now) (with_cut (take answer.0 piece.now) answer.1 past) self.new) }
        ensures longest { IfOk result (λ answer. IsLongest piece.now answer.1) }
        ensures exact { IfOk result (λ answer. EndsExactly answer.1 self.new) }
        ensures stream { IfOk result (λ answer. (bytes : List ℕ) (past : List Arrival) → Stands bytes past self.old
            → IsOfLast past answer.1) }

        ensures garbled { IfErr result (λ fault. (bytes : List ℕ) (past : List Arrival)
            → Stands bytes past self.old
            → StopsIn bytes past piece.now fault) }
        ensures fault { IfErr result (λ fault. self.new.fault ≡ Some fault) }
        ensures again { (fault : FrameFault) → self.old.fault ≡ Some fault
            → (result ≡ Err fault) × (self.new ≡ self.old) }
    {
        self.cut(piece)
    }

    /// Whether the bytes so far end within a frame: after a part of a header, or with an unfinished payload. After a
    /// fault they don't.
    pub fn is_mid_frame(&self) -> bool
        ensures within { (bytes : List ℕ) (past : List Arrival) → Stands bytes past self.now
            → IsTrue result ↔ EndsWithin bytes }
        ensures failed { IsSome self.now.fault → result ≡ false }
    {
        self.is_within()
    }

    /// How many bytes of the last payload are still to come.
    pub fn bytes_left(&self) -> u32
        ensures { (bytes : List ℕ) (past : List Arrival) → Stands bytes past self.now → result ≡ bytes_left past }
    {
        self.left
    }

    fn is_within(&self) -> bool
        ensures { result ≡ is_within self.now }
    {
        self.fault.is_none() && (self.left > 0 || self.filled > 0)
    }

    fn cut(&mut self, piece: &[u8]) -> Result<(usize, Cut), FrameFault>
        ensures { Cuts self.old piece.now result self.new }
    {
        if let Some(fault) = self.fault {
            return Err(fault);
        }
        if self.left > 0 {
            return Ok(self.cut_payload(piece));
        }
        let count = fill(&mut self.buffer, self.filled, piece);
        if self.filled + count < 12 {
            self.filled += count;
            return Ok((count, Cut::More));
        }
        self.filled = 0;
        match Header::read(&self.buffer) {
            Ok(header) => {
                self.stream = header.stream;
                self.left = header.payload_length();
                Ok((count, Cut::Head(header)))
            }
            Err(fault) => {
                self.fault = Some(fault);
                Err(fault)
            }
        }
    }

    fn cut_payload(&mut self, piece: &[u8]) -> (usize, Cut)
        requires going { self.old.fault ≡ None }
        requires some { 0 < self.old.left }
        ensures { Answers self.old piece.now result.0 result.1 self.new }
    {
        let left = self.left as usize;
        if piece.is_empty() {
            return (0, Cut::More);
        }
        let count = piece.len().min(left);
        self.left -= count as u32;
        let part = Cut::Part {
            stream: self.stream,
            from: 0,
            to: count,
            last: count == left,
        };
        (count, part)
    }
}
