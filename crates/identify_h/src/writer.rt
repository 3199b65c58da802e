//! The end that sends one message.

ghost use Rattle.std.specs.Prelude.{◌≡◌, ◌⊎◌, ◌≤◌, ◌<◌, drop, length, IsErr, IfOk, IfErr, OnOk, OnErr, true, false};
ghost use Rattle.std.specs.Prelude.{Err, ◌==◌};
ghost use Rattle.handlers.specs.Calls.{Take, Give, End, ToTake, ToGive, ToEnd};
ghost use Rattle.identify_h.specs.Messages.{written};
ghost use Rattle.identify_h.specs.Sending.{most_bytes, framed, sending, SendStep, SendFails};

use crate::fault::{IdentifyFault, failing};
use crate::identify::Identify;
use handlers::{Handler, HandlerFault};
use std::alloc::Global;
use std::marker::Model;
use varint_proto::spell;

/// How many bytes the bodies of a stream have together at most.
pub const MOST_BYTES: usize = 16384;

/// Sends one message, behind its length, and drops what it is handed. Once all was given it is closed and finished.
pub struct IdentifyOut {
    alloc: Global,
    message: Vec<u8>,
    sent: usize,
    ended: bool,
    failed: bool,
}

// By hand, so that the proof of who lets go of it is that of a call, and not of all that it holds.
impl Drop for IdentifyOut {
    fn drop(self) {
        let Self {
            alloc: _,
            message: _message,
            sent: _,
            ended: _,
            failed: _,
        } = self;
    }
}

impl Model for IdentifyOut {
    ghost use Rattle.std.specs.Prelude.{◌≤◌, drop, length};
    ghost use Rattle.identify_h.specs.Sending.{Sending};

    ghost Value = { Sending };

    ghost view = { λ o. record { unsent = drop o.sent o.message.items; ended = o.ended; failed = o.failed } };

    ghost invariant = { λ o. o.sent ≤ length o.message.items };
}

impl IdentifyOut {
    /// The message that says this, of which nothing was sent. A body above 16384 bytes is
    /// [`IdentifyFault::TooLong`].
    pub fn new(alloc: Global, identify: &Identify) -> Result<IdentifyOut, IdentifyFault>
        ensures made { IfOk result (λ out. out ≡ sending (framed (written identify.now))) }
        ensures fits { OnOk result (length (written identify.now) ≤ most_bytes) }
        ensures refused { IfErr result (λ fault. (fault ≡ IdentifyFault.TooLong)
            ⊎ (fault ≡ IdentifyFault.OutOfMemory)) }
        ensures too_long { result ≡ Err IdentifyFault.TooLong → most_bytes < length (written identify.now) }
        ensures memory { result ≡ Err IdentifyFault.OutOfMemory → length (written identify.now) ≤ most_bytes }
    {
        // The length is known before memory is asked for, so want of memory never stands for TooLong.
        let body_len = identify.written_len();
        if body_len > MOST_BYTES {
            return Err(IdentifyFault::TooLong);
        }
        let (spelling, len) = spell(body_len as u64);
        let mut message = Vec::with_capacity(alloc, len + body_len)?;
        message.extend_from_slice(&spelling[..len])?;
        identify.append_to(&mut message)?;
        Ok(IdentifyOut {
            alloc,
            message,
            sent: 0,
            ended: false,
            failed: false,
        })
    }
}

impl Handler for IdentifyOut {
    ghost steps = { SendStep };

    ghost fails = { SendFails };

    ghost is_closed = { λ s. length s.unsent == 0 };

    ghost is_finished = { λ s. length s.unsent == 0 };

    fn take(&mut self, bytes: &[u8]) -> Result<(), HandlerFault>
        ensures step { OnOk result (SendStep self.old (Take bytes.now) self.new) }
        ensures fault { IfErr result (λ fault. SendFails self.old (ToTake bytes.now) fault.number) }
        ensures kept { self.new ≡ self.old }
    {
        if self.failed || self.ended {
            return Err(failing(IdentifyFault::Failed));
        }
        let _ = bytes;
        Ok(())
    }

    fn end(&mut self) -> Result<(), HandlerFault>
        ensures step { OnOk result (SendStep self.old End self.new) }
        ensures fault { IfErr result (λ fault. SendFails self.old ToEnd fault.number) }
        ensures kept { OnErr result (self.new ≡ self.old) }
    {
        if self.failed || self.ended {
            return Err(failing(IdentifyFault::Failed));
        }
        self.ended = true;
        Ok(())
    }

    fn give(&mut self, room: usize) -> Result<Vec<u8>, HandlerFault>
        ensures room { IfOk result (λ bytes. length bytes.items ≤ room) }
        ensures step { IfOk result (λ bytes. SendStep self.old (Give room bytes.items) self.new) }
        ensures fault { IfErr result (λ fault. SendFails self.old (ToGive room) fault.number) }
        ensures over { self.old.failed ≡ true → IsErr result × (self.new ≡ self.old) }
        ensures fails { OnErr result (self.old.failed ≡ false → self.new ≡ record self.old { failed = true }) }
    {
        if self.failed {
            return Err(failing(IdentifyFault::Failed));
        }
        let count = room.min(self.message.len() - self.sent);
        let mut bytes = Vec::new(self.alloc);
        if bytes
            .extend_from_slice(&self.message[self.sent..self.sent + count])
            .is_err()
        {
            self.failed = true;
            return Err(failing(IdentifyFault::OutOfMemory));
        }
        self.sent += count;
        Ok(bytes)
    }

    fn closed(&self) -> bool {
        self.sent == self.message.len()
    }

    fn finished(&self) -> bool {
        self.sent == self.message.len()
    }
}
