//! The end that answers.

ghost use Rattle.std.specs.Prelude.{◌≡◌, ◌<◌, ◌≤◌, length, IsErr, IfOk, IfErr, OnOk, OnErr, true, false, ◌&&◌, ◌==◌};
ghost use Rattle.handlers.specs.Calls.{Take, Give, End, ToTake, ToGive, ToEnd};
ghost use Rattle.ping_h.specs.Echoes.{Echo, EchoStep, EchoFails, fresh, is_over};

use crate::fault::{PingFault, failing};
use handlers::{Handler, HandlerFault};
use std::alloc::Global;
use std::marker::Model;

/// How many bytes a round has.
pub(crate) const ROUND: usize = 32;

/// Gives each round of 32 bytes back once it is whole, as often as the other end wishes. Once the other end has ended
/// between rounds, and all was given back, it is closed and finished.
#[derive(Drop)]
pub struct PingEcho {
    alloc: Global,
    owed: Vec<u8>,
    begun: usize,
    ended: bool,
    failed: bool,
}

impl Model for PingEcho {
    ghost Value = { Echo };

    ghost view = { λ p. record { owed = p.owed.items; begun = p.begun; ended = p.ended; failed = p.failed } };

    ghost invariant = { λ p. (p.begun < 32) × (p.begun ≤ length p.owed.items) };
}

impl PingEcho {
    /// An echo that was handed nothing. It takes no memory.
    pub fn new(alloc: Global) -> PingEcho
        ensures { result ≡ fresh }
    {
        PingEcho {
            alloc,
            owed: Vec::new(alloc),
            begun: 0,
            ended: false,
            failed: false,
        }
    }
}

impl Handler for PingEcho {
    ghost steps = { EchoStep };

    ghost fails = { EchoFails };

    ghost is_closed = { λ e. e.ended && (length e.owed == 0) };

    ghost is_finished = { λ e. e.ended && (length e.owed == 0) };

    fn take(&mut self, bytes: &[u8]) -> Result<(), HandlerFault>
        ensures step { OnOk result (EchoStep self.old (Take bytes.now) self.new) }
        ensures fault { IfErr result (λ fault. EchoFails self.old (ToTake bytes.now) fault.number) }
        ensures over { is_over self.old ≡ true → IsErr result × (self.new ≡ self.old) }
        ensures fails { OnErr result (is_over self.old ≡ false → self.new ≡ record self.old { failed = true }) }
    {
        if self.failed || self.ended {
            return Err(failing(PingFault::Failed));
        }
        if self.owed.extend_from_slice(bytes).is_err() {
            self.failed = true;
            return Err(failing(PingFault::OutOfMemory));
        }
        self.begun = (self.begun + bytes.len() % ROUND) % ROUND;
        Ok(())
    }

    fn end(&mut self) -> Result<(), HandlerFault>
        ensures step { OnOk result (EchoStep self.old End self.new) }
        ensures fault { IfErr result (λ fault. EchoFails self.old ToEnd fault.number) }
        ensures over { is_over self.old ≡ true → IsErr result × (self.new ≡ self.old) }
        ensures fails { OnErr result (is_over self.old ≡ false → self.new ≡ record self.old { failed = true }) }
    {
        if self.failed || self.ended {
            return Err(failing(PingFault::Failed));
        }
        if self.begun != 0 {
            self.failed = true;
            return Err(failing(PingFault::Cut));
        }
        self.ended = true;
        Ok(())
    }

    fn give(&mut self, room: usize) -> Result<Vec<u8>, HandlerFault>
        ensures room { IfOk result (λ bytes. length bytes.items ≤ room) }
        ensures step { IfOk result (λ bytes. EchoStep self.old (Give room bytes.items) self.new) }
        ensures fault { IfErr result (λ fault. EchoFails self.old (ToGive room) fault.number) }
        ensures over { self.old.failed ≡ true → IsErr result × (self.new ≡ self.old) }
        ensures fails { OnErr result (self.old.failed ≡ false → self.new ≡ record self.old { failed = true }) }
    {
        if self.failed {
            return Err(failing(PingFault::Failed));
        }
        let count = room.min(self.owed.len() - self.begun);
        let mut bytes = Vec::new(self.alloc);
        if bytes.extend_from_slice(&self.owed[..count]).is_err() {
            self.failed = true;
            return Err(failing(PingFault::OutOfMemory));
        }
        self.owed.drain(..count);
        Ok(bytes)
    }

    fn closed(&self) -> bool {
        self.ended && self.owed.is_empty()
    }

    fn finished(&self) -> bool {
        self.ended && self.owed.is_empty()
    }
}
