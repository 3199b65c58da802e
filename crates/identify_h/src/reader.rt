//! The end that reads a stream of messages.

ghost use Rattle.std.specs.Prelude.{◌≡◌, ◌≢◌, ◌↔◌, ◌++◌, ◌+◌, ◌-◌, ◌≤◌, ◌<◌, ℕ, List, take, length, vec_len, IsOk};
ghost use Rattle.std.specs.Prelude.{IsErr, IsSome, IfOk, IfErr, OnOk, OnErr, true, false, Some, None, is_some};
ghost use Rattle.std.specs.Vec.{vec_capacity};
ghost use Rattle.handlers.specs.Calls.{Take, Give, End, ToTake, ToGive, ToEnd};
ghost use Rattle.identify_h.specs.Streams.{most_messages, TakeFails};
ghost use Rattle.varint_proto.specs.Incoming.{IsWhole};
ghost use Rattle.identify_h.specs.Reading.{Reader, Stands, Whenever, IsFresh, ReadStep, ReadFails, is_over};
ghost use Rattle.identify_h.specs.Room.{Holds, waiting};

use crate::fault::{IdentifyFault, failing};
use crate::identify::Identify;
use crate::writer::MOST_BYTES;
use handlers::{Handler, HandlerFault};
use peer_ids::PeerId;
use std::alloc::{AllocError, Global};
use std::marker::Model;
use varint_proto::Incoming;

/// How many messages a stream has at most.
const MOST_MESSAGES: usize = 10;

/// Reads the messages of a stream up to its end: 1 to 10, whose bodies have at most 16384 bytes together, and say one
/// [`Identify`]. It gives nothing, and is closed from the start; once the end has come and all was read it is finished.
pub struct IdentifyIn {
    alloc: Global,
    peer: PeerId,
    count: usize,
    /// The bodies that are whole. Once the length of the next is known there is room for it.
    joined: Vec<u8>,
    next: Incoming,
    message: Option<Identify>,
    failed: bool,
}

// By hand, so that the proof of who lets go of it is that of a call, and not of all that it holds.
impl Drop for IdentifyIn {
    fn drop(self) {
        let Self {
            alloc: _,
            peer: _,
            count: _,
            joined: _joined,
            next: _next,
            message: _message,
            failed: _,
        } = self;
    }
}

impl Model for IdentifyIn {
    ghost use Rattle.std.specs.Prelude.{vec_len};
    ghost use Rattle.std.specs.Vec.{vec_capacity};
    ghost use Rattle.identify_h.specs.Reading.{Reader};
    ghost use Rattle.identify_h.specs.Room.{HasRoom};

    ghost Value = { Reader };

    ghost view = { λ i. record {
      peer = i.peer;
      count = i.count;
      joined = i.joined.items;
      next = i.next;
      message = i.message;
      failed = i.failed;
    } };

    ghost invariant = { λ i. HasRoom i.failed i.count (vec_len i.joined) (vec_capacity i.joined) i.next };
}

/// Makes room for the next body, where its length is known.
fn make_room(joined: &mut Vec<u8>, next: &Incoming) -> Result<(), AllocError>
    ensures items { joined.new.items ≡ joined.old.items }
    ensures len { vec_len joined.new ≡ vec_len joined.old }
    ensures room { OnOk result ((n : ℕ) → next.now.expected ≡ Some n
        → vec_len joined.new + n ≤ vec_capacity joined.new) }
    ensures memory { OnErr result ((n : ℕ) × (next.now.expected ≡ Some n)
        × (vec_capacity joined.old < vec_len joined.old + n)) }
{
    match next.announced() {
        None => Ok(()),
        Some(len) => joined.reserve(len),
    }
}

impl IdentifyIn {
    /// A reader of what this peer says of itself, which was handed nothing. It takes no memory.
    pub fn new(alloc: Global, peer: PeerId) -> IdentifyIn
        ensures { IsFresh peer result }
    {
        IdentifyIn {
            alloc,
            peer,
            count: 0,
            joined: Vec::new(alloc),
            next: Incoming::new(alloc, MOST_BYTES),
            message: None,
            failed: false,
        }
    }

    /// Takes the bytes of a length, where that of the next message isn't known yet: how many. Once it is known there is
    /// room for the body.
    fn take_length(&mut self, bytes: &[u8]) -> Result<usize, IdentifyFault>
        requires some { 0 < length bytes.now }
        requires going { is_over self.old ≡ false }
        ensures rest { self.new ≡ record self.old { next = self.new.next; failed = self.new.failed } }
        ensures going { OnOk result (self.new.failed ≡ false) }
        ensures few { OnOk result (self.new.count < most_messages) }
        ensures fails { OnErr result (self.new.failed ≡ true) }
        ensures within { IfOk result (λ digits. digits ≤ length bytes.now) }
        ensures all_used { IfOk result (λ digits. self.new.next.expected ≡ None → digits ≡ length bytes.now) }
        ensures known { IfOk result (λ digits. digits ≡ 0 → self.new.next ≡ self.old.next) }
        ensures holds { Whenever self.old (λ input. IfOk result (λ digits.
            Holds (input ++ take digits bytes.now) self.new)) }
        ensures fault { Whenever self.old (λ input. IfErr result (TakeFails input bytes.now)) }
    {
        self.failed = true;
        if self.count == MOST_MESSAGES {
            return Err(IdentifyFault::TooMany);
        }
        let digits = self.next.feed_length(bytes)?;
        make_room(&mut self.joined, &self.next)?;
        self.failed = false;
        Ok(digits)
    }

    /// Takes the bytes of the body, whose length is known: how many.
    fn take_body(&mut self, bytes: &[u8]) -> usize
        requires going { self.old.failed ≡ false }
        requires known { self.old.next.expected ≢ None }
        requires few { self.old.count < most_messages }
        ensures rest { self.new ≡ record self.old {
          count = self.new.count;
          joined = self.new.joined;
          next = self.new.next;
        } }
        ensures within { result ≤ length bytes.now }
        ensures some { waiting self.old.next ≡ 0 → 0 < length bytes.now → 0 < result }
        ensures kept { waiting self.new.next ≡ 0 }
        ensures stands { (input : List ℕ) → Holds input self.old → Stands (input ++ take result bytes.now) self.new }
    {
        let Ok((used, whole)) = self.next.feed(bytes) else {
            unreachable!()
        };
        if whole {
            self.keep_body();
        }
        used
    }

    /// Puts a body that is whole behind those before it, and begins the next message.
    fn keep_body(&mut self)
        requires going { self.old.failed ≡ false }
        requires whole { IsWhole self.old.next }
        requires few { self.old.count < most_messages }
        ensures rest { self.new ≡ record self.old {
          count = self.new.count;
          joined = self.new.joined;
          next = self.new.next;
        } }
        ensures kept { waiting self.new.next ≡ 0 }
        ensures stands { (input : List ℕ) → Holds input self.old → Stands input self.new }
    {
        match self.joined.extend_from_slice(self.next.body()) {
            Ok(()) => {}
            Err(_) => unreachable!(),
        }
        self.count += 1;
        self.next.begin_next(MOST_BYTES - self.joined.len());
    }

    /// Takes bytes of one message, of which there are some: how many.
    fn take_some(&mut self, bytes: &[u8]) -> Result<usize, IdentifyFault>
        requires some { 0 < length bytes.now }
        requires going { is_over self.old ≡ false }
        ensures peer { self.new.peer ≡ self.old.peer }
        ensures message { self.new.message ≡ None }
        ensures within { IfOk result (λ used. used ≤ length bytes.now) }
        ensures some { waiting self.old.next ≡ 0 → IfOk result (λ used. 0 < used) }
        ensures kept { OnOk result (waiting self.new.next ≡ 0) }
        ensures going { OnOk result (self.new.failed ≡ false) }
        ensures fails { OnErr result (self.new.failed ≡ true) }
        ensures stands { Whenever self.old (λ input. IfOk result (λ used.
            Stands (input ++ take used bytes.now) self.new)) }
        ensures fault { Whenever self.old (λ input. IfErr result (TakeFails input bytes.now)) }
    {
        let digits = self.take_length(bytes)?;
        if self.next.announced().is_none() {
            return Ok(digits);
        }
        Ok(digits + self.take_body(&bytes[digits..]))
    }

    /// What was read, or the reader itself before the end and after a fault. Takes no memory.
    pub fn into_message(self) -> Result<Identify, IdentifyIn>
        ensures message { IfOk result (λ message. self.message ≡ Some message) }
        ensures back { IfErr result (λ reader. reader ≡ self) }
        ensures when { IsOk result ↔ IsSome self.message }
    {
        let IdentifyIn {
            alloc,
            peer,
            count,
            joined,
            next,
            message,
            failed,
        } = self;
        match message {
            Some(message) => Ok(message),
            None => Err(IdentifyIn {
                alloc,
                peer,
                count,
                joined,
                next,
                message: None,
                failed,
            }),
        }
    }
}

impl Handler for IdentifyIn {
    ghost steps = { ReadStep };

    ghost fails = { ReadFails };

    ghost is_closed = { λ r. true };

    ghost is_finished = { λ r. is_some r.message };

    fn take(&mut self, bytes: &[u8]) -> Result<(), HandlerFault>
        ensures step { OnOk result (ReadStep self.old (Take bytes.now) self.new) }
        ensures fault { IfErr result (λ fault. ReadFails self.old (ToTake bytes.now) fault.number) }
        ensures over { is_over self.old ≡ true → IsErr result × (self.new ≡ self.old) }
        ensures fails { OnErr result (is_over self.old ≡ false
            → (self.new.failed ≡ true) × (self.new.message ≡ None)) }
    {
        if self.failed || self.message.is_some() {
            return Err(failing(IdentifyFault::Failed));
        }
        let mut at = 0;
        while at < bytes.len() {
            match self.take_some(&bytes[at..]) {
                Ok(used) => at += used,
                Err(fault) => return Err(failing(fault)),
            }
        }
        Ok(())
    }

    fn end(&mut self) -> Result<(), HandlerFault>
        ensures step { OnOk result (ReadStep self.old End self.new) }
        ensures fault { IfErr result (λ fault. ReadFails self.old ToEnd fault.number) }
        ensures over { is_over self.old ≡ true → IsErr result × (self.new ≡ self.old) }
        ensures fails { OnErr result (is_over self.old ≡ false
            → (self.new.failed ≡ true) × (self.new.message ≡ None)) }
    {
        if self.failed || self.message.is_some() {
            return Err(failing(IdentifyFault::Failed));
        }
        if self.count == 0 || !self.next.is_at_start() {
            self.failed = true;
            return Err(failing(IdentifyFault::Cut));
        }
        match Identify::read(self.alloc, &self.joined, self.peer) {
            Ok(message) => {
                self.message = Some(message);
                Ok(())
            }
            Err(fault) => {
                self.failed = true;
                Err(failing(fault))
            }
        }
    }

    fn give(&mut self, room: usize) -> Result<Vec<u8>, HandlerFault>
        ensures room { IfOk result (λ bytes. length bytes.items ≤ room) }
        ensures step { IfOk result (λ bytes. ReadStep self.old (Give room bytes.items) self.new) }
        ensures fault { IfErr result (λ fault. ReadFails self.old (ToGive room) fault.number) }
        ensures kept { self.new ≡ self.old }
    {
        if self.failed {
            return Err(failing(IdentifyFault::Failed));
        }
        let _ = room;
        Ok(Vec::new(self.alloc))
    }

    fn closed(&self) -> bool {
        true
    }

    fn finished(&self) -> bool {
        self.message.is_some()
    }
}
