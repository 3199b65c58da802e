//! A message behind its length, that comes in any pieces.

ghost use Rattle.std.specs.Prelude.{◌≡◌, ◌≢◌, ◌↔◌, ℕ, ◌+◌, ◌-◌, ◌<◌, ◌≤◌, [], ◌∷◌, ◌++◌, length, take, drop, min};
ghost use Rattle.std.specs.Prelude.{true, false, Some, None, Ok, Err, IsTrue, IsOk, IfOk, IfErr, OnOk, OnErr, IfSome};
ghost use Rattle.std.specs.Prelude.{IfNone};
ghost use Rattle.varint_proto.specs.Varint.{ReadsShortest};
ghost use Rattle.varint_proto.specs.Incoming.{ReadsFramed, AsksMemory, RefusesRoom, Stands, Whenever, IsWhole};
ghost use Rattle.varint_proto.specs.Incoming.{whole_at};

use crate::fault::IncomingRefused;
use crate::message::append;
use crate::varint::read_varint;
use arrayvec::ArrayVec;
use std::alloc::Global;
use std::marker::Model;

/// The length at the front, where it is whole and within the limit.
fn read_length(bytes: &[u8], limit: usize) -> Result<Option<usize>, IncomingRefused>
    ensures found { IfOk result (λ read. IfSome read (λ len.
        (size : ℕ) × ReadsShortest bytes.now (Ok (Some (len, size))) × (len ≤ limit))) }
    ensures more { IfOk result (λ read. IfNone read (ReadsShortest bytes.now (Ok None))) }
    ensures fault { IfErr result (λ fault.
        (fault ≢ IncomingRefused.OutOfMemory) × ReadsFramed limit bytes.now (Err fault)) }
{
    match read_varint(bytes) {
        Ok(None) => Ok(None),
        Ok(Some((len, _))) if len <= limit as u64 => Ok(Some(len as usize)),
        Ok(Some(_)) => Err(IncomingRefused::TooLong),
        Err(_) => Err(IncomingRefused::BadLength),
    }
}

/// One message that comes in behind its length, which has a limit. Room for the whole body is asked for once, where the
/// last byte of the length comes.
#[derive(Debug)]
pub struct Incoming {
    limit: usize,
    /// Of the length, until it is whole.
    spelling: ArrayVec<u8, 9>,
    /// The length of the body, once it is known. Then there is room for all of it.
    expected: Option<usize>,
    body: Vec<u8>,
    failed: bool,
}

// By hand, so that the proof of who lets go of it is that of a call, and not of all that it holds.
impl Drop for Incoming {
    fn drop(self) {
        let Self {
            limit: _,
            spelling: _spelling,
            expected: _,
            body: _body,
            failed: _,
        } = self;
    }
}

impl Model for Incoming {
    ghost use Rattle.std.specs.Prelude.{vec_len, vec_capacity};
    ghost use Rattle.varint_proto.specs.Incoming.{Arriving};
    ghost use Rattle.varint_proto.specs.Room.{HasRoom};
    ghost use Rattle.arrayvec.specs.ArrayVec.{array_vec_len};

    ghost Value = { Arriving };

    ghost view = { λ a. record {
      limit = a.limit;
      spelling = a.spelling.items;
      expected = a.expected;
      body = a.body.items;
      room = vec_capacity a.body;
      failed = a.failed;
    } };

    ghost invariant = { λ a.
        HasRoom a.failed a.expected (array_vec_len a.spelling) (vec_len a.body) (vec_capacity a.body) };
}

impl Incoming {
    /// Nothing has come yet of a message whose body may have up to `limit` bytes. Takes no memory.
    pub fn new(alloc: Global, limit: usize) -> Incoming
        ensures fresh { Stands [] result }
        ensures unknown { result.expected ≡ None }
        ensures limit { result.limit ≡ limit }
    {
        Incoming {
            limit,
            spelling: ArrayVec::new(),
            expected: None,
            body: Vec::new(alloc),
            failed: false,
        }
    }

    /// Takes one byte of a length that isn't whole. Whether it is whole then.
    fn take_digit(&mut self, byte: u8) -> Result<bool, IncomingRefused>
        requires going { self.old.failed ≡ false }
        requires unknown { self.old.expected ≡ None }
        ensures limit { self.new.limit ≡ self.old.limit }
        ensures room { self.old.room ≤ self.new.room }
        ensures going { OnOk result (self.new.failed ≡ false) }
        ensures more { result ≡ Ok false → (self.new.expected ≡ None) × (self.new.room ≡ self.old.room) }
        ensures known { result ≡ Ok true → self.new.expected ≢ None }
        ensures allowed { IfSome self.new.expected (λ len. len ≤ self.new.limit) }
        ensures empty { OnOk result (self.new.body ≡ []) }
        ensures fails { OnErr result (self.new.failed ≡ true) }
        ensures stands { Whenever self.old (λ input. OnOk result (Stands (input ++ byte ∷ []) self.new)) }
        ensures fault { Whenever self.old (λ input. IfErr result (λ fault. fault ≢ IncomingRefused.OutOfMemory
            → ReadsFramed self.old.limit (input ++ byte ∷ []) (Err fault))) }
        ensures memory { Whenever self.old (λ input. result ≡ Err IncomingRefused.OutOfMemory
            → AsksMemory self.old.limit self.old.room (input ++ byte ∷ [])) }
    {
        self.failed = true;
        self.spelling.push(byte);
        let Some(len) = read_length(self.spelling.as_slice(), self.limit)? else {
            self.failed = false;
            return Ok(false);
        };
        self.body.reserve(len)?;
        self.expected = Some(len);
        self.failed = false;
        Ok(true)
    }

    /// Takes the bytes of the length at the front of the piece, where it isn't known yet: how many these are. So the
    /// caller can make room of its own where the length becomes known.
    pub fn feed_length(&mut self, piece: &[u8]) -> Result<usize, IncomingRefused>
        ensures limit { self.new.limit ≡ self.old.limit }
        ensures room { self.old.room ≤ self.new.room }
        // After a fault, and once the length is known.
        ensures failed { self.old.failed ≡ true → (result ≡ Err IncomingRefused.Failed)
            × (self.new ≡ self.old) }
        ensures known { self.old.failed ≡ false → self.old.expected ≢ None
            → (result ≡ Ok 0) × (self.new ≡ self.old) }
        ensures going { OnOk result (self.new.failed ≡ false) }
        ensures fails { OnErr result (self.new.failed ≡ true) }
        ensures within { IfOk result (λ used. used ≤ length piece.now) }
        ensures some { self.old.failed ≡ false → self.old.expected ≡ None → 0 < length piece.now
            → IfOk result (λ used. 0 < used) }
        ensures all_used { IfOk result (λ used. self.new.expected ≡ None → used ≡ length piece.now) }
        ensures allowed { self.old.expected ≡ None → IfSome self.new.expected (λ len. len ≤ self.new.limit) }
        ensures length_alone { self.old.failed ≡ false → self.old.expected ≡ None
            → OnOk result (self.new.body ≡ []) }

        // What it comes to is that of the whole input so far, however it was cut.
        ensures stands { Whenever self.old (λ input. IfOk result (λ used.
            Stands (input ++ take used piece.now) self.new)) }
        ensures fault { Whenever self.old (λ input. IfErr result (λ fault. fault ≢ IncomingRefused.OutOfMemory
            → ReadsFramed self.old.limit (input ++ piece.now) (Err fault))) }
        ensures memory { Whenever self.old (λ input. result ≡ Err IncomingRefused.OutOfMemory
            → RefusesRoom self.old.limit self.old.room input piece.now) }
    {
        if self.failed {
            return Err(IncomingRefused::Failed);
        }
        if self.expected.is_some() {
            return Ok(0);
        }
        for (index, byte) in piece.iter().enumerate() {
            if self.take_digit(*byte)? {
                return Ok(index + 1);
            }
        }
        Ok(piece.len())
    }

    /// Takes the bytes of the body at the front of the piece, once its length is known: how many these are, and whether
    /// it is whole.
    fn take_body(&mut self, piece: &[u8]) -> (usize, bool)
        requires { self.old.failed ≡ false }
        ensures limit { self.new.limit ≡ self.old.limit }
        ensures room { self.old.room ≤ self.new.room }
        ensures going { self.new.failed ≡ false }
        ensures expected { self.new.expected ≡ self.old.expected }
        ensures within { result.0 ≤ length piece.now }
        ensures whole { IsTrue result.1 ↔ IsWhole self.new }
        ensures some { self.old.expected ≢ None → ¬ IsWhole self.old → 0 < length piece.now → 0 < result.0 }
        ensures all_used { self.old.expected ≢ None → ¬ IsWhole self.new → result.0 ≡ length piece.now }
        ensures stands { Whenever self.old (λ input. Stands (input ++ take result.0 piece.now) self.new) }
    {
        let Some(len) = self.expected else {
            return (0, false);
        };
        let count = piece.len().min(len - self.body.len());
        append(&mut self.body, &piece[..count]);
        (count, self.body.len() == len)
    }

    /// Takes the next piece of the input: how many of its bytes belong to the message, and whether its body is whole.
    /// Nothing behind the message is used.
    pub fn feed(&mut self, piece: &[u8]) -> Result<(usize, bool), IncomingRefused>
        ensures limit { self.new.limit ≡ self.old.limit }
        ensures room { self.old.room ≤ self.new.room }
        // After a fault, once the body is whole, and once the length is known.
        ensures failed { self.old.failed ≡ true → (result ≡ Err IncomingRefused.Failed)
            × (self.new ≡ self.old) }
        ensures done { self.old.failed ≡ false → IsWhole self.old
            → (result ≡ Ok (0, true)) × (self.new ≡ self.old) }
        ensures known { self.old.failed ≡ false → self.old.expected ≢ None
            → IsOk result × (self.new.expected ≡ self.old.expected) }
        ensures going { OnOk result (self.new.failed ≡ false) }
        ensures fails { OnErr result (self.new.failed ≡ true) }
        ensures within { IfOk result (λ step. step.0 ≤ length piece.now) }
        ensures whole { IfOk result (λ step. IsTrue step.1 ↔ IsWhole self.new) }
        ensures some { self.old.failed ≡ false → ¬ IsWhole self.old → 0 < length piece.now
            → IfOk result (λ step. 0 < step.0) }
        ensures all_used { IfOk result (λ step. step.1 ≡ false → step.0 ≡ length piece.now) }

        // What it comes to is that of the whole input so far, however it was cut.
        ensures stands { Whenever self.old (λ input. IfOk result (λ step.
            Stands (input ++ take step.0 piece.now) self.new)) }
        ensures reads { Whenever self.old (λ input. IfOk result (λ step.
            ReadsFramed self.old.limit (input ++ piece.now)
            (Ok (whole_at step.1 self.new.body (drop step.0 piece.now))))) }
        ensures fault { Whenever self.old (λ input. IfErr result (λ fault. fault ≢ IncomingRefused.OutOfMemory
            → ReadsFramed self.old.limit (input ++ piece.now) (Err fault))) }
        ensures memory { Whenever self.old (λ input. result ≡ Err IncomingRefused.OutOfMemory
            → RefusesRoom self.old.limit self.old.room input piece.now) }
    {
        if self.is_whole() {
            return Ok((0, true));
        }
        let digits = self.feed_length(piece)?;
        let (bytes, whole) = self.take_body(&piece[digits..]);
        Ok((digits + bytes, whole))
    }

    /// Whether all of the body has come, without a fault.
    pub fn is_whole(&self) -> bool
        ensures { IsTrue result ↔ ((self.now.failed ≡ false) × IsWhole self.now) }
    {
        !self.failed && self.expected == Some(self.body.len())
    }

    /// The length of the body, once it is known.
    pub fn announced(&self) -> Option<usize>
        ensures { result ≡ self.now.expected }
    {
        self.expected
    }

    /// What has come of the body. Takes no memory.
    pub fn body(&self) -> &[u8]
        ensures { result.now ≡ self.now.body }
    {
        &self.body
    }

    /// Whether nothing has come yet of a message.
    pub fn is_at_start(&self) -> bool
        ensures { Whenever self.now (λ input. IsTrue result ↔ (input ≡ [])) }
    {
        self.expected.is_none() && self.spelling.is_empty()
    }

    /// Begins the next message, whose body may have up to `limit` bytes, and keeps the room. After a fault nothing
    /// changes. Takes no memory.
    pub fn begin_next(&mut self, limit: usize)
        ensures room { self.new.room ≡ self.old.room }
        ensures failed { self.old.failed ≡ true → self.new ≡ self.old }
        ensures fresh { self.old.failed ≡ false → Stands [] self.new × (self.new.limit ≡ limit)
            × (self.new.expected ≡ None) }
    {
        if self.failed {
            return;
        }
        self.limit = limit;
        self.spelling.clear();
        self.expected = None;
        self.body.clear();
    }
}
