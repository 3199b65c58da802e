//! What a side writes.

ghost use Rattle.std.specs.Prelude.{◌≡◌, ◌+◌, ◌<◌, ◌≤◌, [], ◌++◌, length, vec_len, vec_capacity, OnOk, OnErr};
ghost use Rattle.std.specs.Option.{ForSome, option_copied};
ghost use Rattle.ms_select.specs.Messages.{message};
ghost use Rattle.ms_select.specs.Verdicts.{said};

use std::alloc::{AllocError, Global};
use std::marker::Model;
use std::mem;
use varint_proto::spell;

/// What a side has written and what was not yet taken. The room for an answer lies in a vector of its own, so that it
/// stays where the output is taken.
#[derive(Debug, Drop)]
pub(crate) struct Output {
    written: Vec<u8>,
    /// Empty, with room for what is written and an answer.
    spare: Vec<u8>,
    alloc: Global,
}

impl Model for Output {
    ghost use Rattle.std.specs.Prelude.{◌≡◌, ◌-◌, vec_len, vec_capacity};
    ghost use Rattle.ms_select.specs.Output.{Written};

    ghost Value = { Written };

    ghost view = { λ a. record { pending = a.written.items; room = vec_capacity a.spare - vec_len a.written } };

    ghost invariant = { λ a. vec_len a.spare ≡ 0 };
}

/// Appends a piece for which there is room.
fn append(out: &mut Vec<u8>, piece: &[u8])
    requires { vec_len out.old + length piece.now ≤ vec_capacity out.old }
    ensures items { out.new.items ≡ out.old.items ++ piece.now }
    ensures room { vec_capacity out.old ≤ vec_capacity out.new }
{
    match out.extend_from_slice(piece) {
        Ok(()) => {}
        Err(_) => unreachable!(),
    }
}

impl Output {
    pub(crate) fn new(alloc: Global) -> Output
        ensures { result.pending ≡ [] }
    {
        Output {
            written: Vec::new(alloc),
            spare: Vec::new(alloc),
            alloc,
        }
    }

    /// Makes room for an answer of so many bytes.
    pub(crate) fn reserve(&mut self, answer: usize) -> Result<(), AllocError>
        requires { answer < 65536 }
        ensures pending { self.new.pending ≡ self.old.pending }
        ensures room { OnOk result (answer ≤ self.new.room) }
    {
        self.spare.reserve(self.written.len() + answer)
    }

    /// Appends the message of a text. No memory is asked for where there is room.
    #[tactic(auto, unfolding(crate::specs::Messages::message))]
    pub(crate) fn append_message(&mut self, text: &[u8]) -> Result<(), AllocError>
        requires { length text.now < 1024 }
        ensures written { OnOk result (self.new.pending ≡ self.old.pending ++ message text.now) }
        ensures unchanged { OnErr result (self.new.pending ≡ self.old.pending) }
        ensures full { OnErr result (self.old.room < length (message text.now)) }
    {
        let (spelling, len) = spell(text.len() as u64 + 1);
        self.spare
            .reserve(self.written.len() + len + text.len() + 1)?;
        append(&mut self.spare, &self.written);
        append(&mut self.spare, &spelling[..len]);
        append(&mut self.spare, text);
        append(&mut self.spare, b"\n");
        mem::swap(&mut self.spare, &mut self.written);
        self.spare.clear();
        Ok(())
    }

    /// Appends the message of a reply, where there is one.
    pub(crate) fn append_reply(&mut self, reply: Option<&[u8]>) -> Result<(), AllocError>
        requires { ForSome reply (λ text. length text.now < 1024) }
        ensures written { OnOk result (self.new.pending ≡ self.old.pending ++ said (option_copied reply.entry)) }
        ensures unchanged { OnErr result (self.new.pending ≡ self.old.pending) }
        ensures full { OnErr result (self.old.room < length (said (option_copied reply.entry))) }
    {
        match reply {
            Some(text) => self.append_message(text),
            None => Ok(()),
        }
    }

    /// What was not yet taken. Takes no memory.
    pub(crate) fn take(&mut self) -> Vec<u8>
        ensures output { result.items ≡ self.old.pending }
        ensures taken { self.new.pending ≡ [] }
        ensures room { self.old.room ≤ self.new.room }
    {
        mem::replace(&mut self.written, Vec::new(self.alloc))
    }
}
