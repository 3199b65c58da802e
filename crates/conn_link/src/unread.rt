//! An input that is read from its front.

ghost use Rattle.std.specs.Prelude.{◌≡◌, ◌≤◌, ℕ, List, drop, take, length};

use std::marker::Model;

/// The bytes that no read has given yet.
#[derive(Debug, Drop)]
pub(crate) struct Unread {
    bytes: Vec<u8>,
    read: usize,
}

impl Model for Unread {
    ghost Value = { List ℕ };

    ghost view = { λ a. drop a.read a.bytes.items };

    ghost invariant = { λ a. a.read ≤ length a.bytes.items };
}

impl Unread {
    pub(crate) fn new(bytes: Vec<u8>) -> Unread
        ensures { result ≡ bytes.items }
    {
        Unread { bytes, read: 0 }
    }

    pub(crate) fn len(&self) -> usize
        ensures { result ≡ length self.now }
    {
        self.bytes.len() - self.read
    }

    // Fills the buffer from the front.
    pub(crate) fn fill(&mut self, buffer: &mut [u8])
        requires { length buffer.old ≤ length self.old }
        ensures filled { buffer.new ≡ take (length buffer.old) self.old }
        ensures left { self.new ≡ drop (length buffer.old) self.old }
    {
        let end = self.read + buffer.len();
        buffer.copy_from_slice(&self.bytes[self.read..end]);
        self.read = end;
    }
}
