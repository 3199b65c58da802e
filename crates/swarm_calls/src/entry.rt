//! The entries of the history.

ghost use Rattle.std.specs.Prelude.{◌≡◌};
ghost use Rattle.pool_state.specs.History.{entry};

use pool_state::{Call, Refusal, Reply};
use std::marker::Model;

/// A pool call with its caller and its reply. Contracts see it as an entry of a pool's history.
#[derive(Drop)]
pub struct Entry {
    caller: usize,
    call: Call,
    reply: Reply,
}

impl Model for Entry {
    ghost use Rattle.pool_state.specs.History as pool;

    ghost Value = { pool.Entry };

    ghost view = { λ e. pool.entry e.caller e.call e.reply };
}

impl Entry {
    /// The call of a caller, with its reply.
    pub fn new(caller: usize, call: Call, reply: Reply) -> Entry
        ensures { result ≡ entry caller call reply }
    {
        Entry {
            caller,
            call,
            reply,
        }
    }

    /// An entry that enters no history.
    pub fn blank() -> Entry {
        Entry {
            caller: 0,
            call: Call::Accept,
            reply: Reply::Refused(Refusal::OutOfMemory),
        }
    }

    /// The number of the caller, from 1 on.
    pub fn caller(&self) -> usize
        ensures { result ≡ self.now.caller }
    {
        self.caller
    }

    /// The call.
    pub fn call(&self) -> Call
        ensures { result ≡ self.now.call }
    {
        self.call
    }

    /// Its reply.
    pub fn reply(&self) -> Reply
        ensures { result ≡ self.now.reply }
    {
        self.reply
    }

    /// An equal entry.
    pub fn copied(&self) -> Entry
        ensures { result ≡ self.now }
    {
        Entry::new(self.caller, self.call, self.reply)
    }
}
