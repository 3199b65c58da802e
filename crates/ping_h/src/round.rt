//! The end that asks, for one round.

ghost use Rattle.std.specs.Prelude.{◌≡◌, ◌↔◌, ◌≤◌, drop, length, IsErr, IsTrue, IfOk, IfErr, OnOk, OnErr, true, false};
ghost use Rattle.std.specs.Prelude.{◌&&◌, ◌==◌};
ghost use mathlib.Core.List.{IsPrefix};
ghost use Rattle.handlers.specs.Calls.{Take, Give, End, ToTake, ToGive, ToEnd};
ghost use Rattle.ping_h.specs.Rounds.{Round, RoundStep, RoundFails, is_over, round};

use crate::echo::ROUND;
use crate::fault::{PingFault, failing};
use handlers::{Handler, HandlerFault};
use std::alloc::Global;
use std::marker::Model;

/// Sends one ping of 32 bytes and awaits its echo. Once the echo is whole it is closed; once the other end has ended
/// then, it is finished.
#[derive(Drop)]
pub struct PingOut {
    alloc: Global,
    ping: [u8; 32],
    sent: usize,
    echoed: usize,
    ended: bool,
    failed: bool,
}

impl Model for PingOut {
    ghost Value = { Round };

    ghost view = { λ p. record {
      unsent = drop p.sent p.ping;
      awaited = drop p.echoed p.ping;
      ended = p.ended;
      failed =
          p.failed;
    } };

    ghost invariant = { λ p. (p.sent ≤ 32) × (p.echoed ≤ 32) };
}

impl PingOut {
    /// A round with these bytes, of which none was sent. It takes no memory.
    pub fn new(alloc: Global, ping: [u8; 32]) -> PingOut
        ensures { result ≡ round ping }
    {
        PingOut {
            alloc,
            ping,
            sent: 0,
            echoed: 0,
            ended: false,
            failed: false,
        }
    }

    fn awaited(&self) -> &[u8]
        ensures { result.now ≡ self.now.awaited }
    {
        &self.ping[self.echoed..]
    }

    /// Whether these bytes are awaited next.
    fn awaits(&self, bytes: &[u8]) -> bool
        ensures next { IsTrue result ↔ IsPrefix bytes.now self.now.awaited }
        ensures within { IsTrue result → length bytes.now ≤ length self.now.awaited }
    {
        self.awaited().starts_with(bytes)
    }
}

impl Handler for PingOut {
    ghost steps = { RoundStep };

    ghost fails = { RoundFails };

    ghost is_closed = { λ r. length r.awaited == 0 };

    ghost is_finished = { λ r. (length r.awaited == 0) && r.ended };

    fn take(&mut self, bytes: &[u8]) -> Result<(), HandlerFault>
        ensures step { OnOk result (RoundStep self.old (Take bytes.now) self.new) }
        ensures fault { IfErr result (λ fault. RoundFails self.old (ToTake bytes.now) fault.number) }
        ensures over { is_over self.old ≡ true → IsErr result × (self.new ≡ self.old) }
        ensures fails { OnErr result (is_over self.old ≡ false → self.new ≡ record self.old { failed = true }) }
    {
        if self.failed || self.ended {
            return Err(failing(PingFault::Failed));
        }
        if !self.awaits(bytes) {
            self.failed = true;
            return Err(failing(PingFault::WrongEcho));
        }
        self.echoed += bytes.len();
        Ok(())
    }

    fn end(&mut self) -> Result<(), HandlerFault>
        ensures step { OnOk result (RoundStep self.old End self.new) }
        ensures fault { IfErr result (λ fault. RoundFails self.old ToEnd fault.number) }
        ensures over { is_over self.old ≡ true → IsErr result × (self.new ≡ self.old) }
        ensures fails { OnErr result (is_over self.old ≡ false → self.new ≡ record self.old { failed = true }) }
    {
        if self.failed || self.ended {
            return Err(failing(PingFault::Failed));
        }
        if self.echoed != ROUND {
            self.failed = true;
            return Err(failing(PingFault::Cut));
        }
        self.ended = true;
        Ok(())
    }

    fn give(&mut self, room: usize) -> Result<Vec<u8>, HandlerFault>
        ensures room { IfOk result (λ bytes. length bytes.items ≤ room) }
        ensures step { IfOk result (λ bytes. RoundStep self.old (Give room bytes.items) self.new) }
        ensures fault { IfErr result (λ fault. RoundFails self.old (ToGive room) fault.number) }
        ensures over { self.old.failed ≡ true → IsErr result × (self.new ≡ self.old) }
        ensures fails { OnErr result (self.old.failed ≡ false → self.new ≡ record self.old { failed = true }) }
    {
        if self.failed {
            return Err(failing(PingFault::Failed));
        }
        let count = room.min(ROUND - self.sent);
        let mut bytes = Vec::new(self.alloc);
        if bytes
            .extend_from_slice(&self.ping[self.sent..self.sent + count])
            .is_err()
        {
            self.failed = true;
            return Err(failing(PingFault::OutOfMemory));
        }
        self.sent += count;
        Ok(bytes)
    }

    fn closed(&self) -> bool {
        self.echoed == ROUND
    }

    fn finished(&self) -> bool {
        self.echoed == ROUND && self.ended
    }
}
