//! What serves one stream.

ghost use Rattle.std.specs.Prelude.{◌≡◌, ℕ, Bool, length, ◌≤◌, OnOk, IfOk, IfErr};
ghost use Rattle.handlers.specs.Calls.{HandlerCall, Take, Give, End, Asked, ToTake, ToGive, ToEnd};

use std::marker::Model;
use thiserror::Error;

/// Why a handler gave up: a number of the handler's own table of faults.
#[derive(Clone, Copy, Debug, PartialEq, Eq, Error)]
#[error("the handler of the stream gave up: fault {number}")]
pub struct HandlerFault {
    /// The number in that table.
    pub number: u8,
}

impl Model for HandlerFault {
    ghost use Rattle.handlers.specs.Numbered.{Numbered};

    ghost Value = { Numbered };

    ghost view = { λ f. record { number = f.number } };

    ghost inverse = { λ v. record { number = v.number } };
}

/// What serves one stream of a connection: it is handed what comes on the stream, and gives what is to be sent.
///
/// A connection says the end at most once, and hands nothing over behind it. A handler that needs memory keeps the
/// allocator that it was made with; `closed` and `finished` need none.
pub trait Handler: Drop {
    /// The call, answered so, leads from the first value to the second.
    ghost steps: { Self → HandlerCall → Self → Type 0 };

    /// The call may fail with this number.
    ghost fails: { Self → Asked → ℕ → Type 0 };

    /// It is asked to give no more.
    ghost is_closed: { Self → Bool };

    /// Its work is done.
    ghost is_finished: { Self → Bool };

    /// Hands over the next bytes of the stream.
    fn take(&mut self, bytes: &[u8]) -> Result<(), HandlerFault>
        ensures step { OnOk result (steps self.old (Take bytes.now) self.new) }
        ensures fault { IfErr result (λ fault. fails self.old (ToTake bytes.now) fault.number) };

    /// Says that no more bytes come.
    fn end(&mut self) -> Result<(), HandlerFault>
        ensures step { OnOk result (steps self.old End self.new) }
        ensures fault { IfErr result (λ fault. fails self.old ToEnd fault.number) };

    /// Asks for bytes to send, at most `room`.
    fn give(&mut self, room: usize) -> Result<Vec<u8>, HandlerFault>
        ensures room { IfOk result (λ bytes. length bytes.items ≤ room) }
        ensures step { IfOk result (λ bytes. steps self.old (Give room bytes.items) self.new) }
        ensures fault { IfErr result (λ fault. fails self.old (ToGive room) fault.number) };

    /// Whether it is asked to give no more: then this end's direction of the stream is closed.
    fn closed(&self) -> bool
        ensures { result ≡ is_closed self.now };

    /// Whether its work is done: then it is handed out.
    fn finished(&self) -> bool
        ensures { result ≡ is_finished self.now };
}
