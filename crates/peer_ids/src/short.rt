//! At most 44 bytes, with no memory of their own.

ghost use Rattle.std.specs.Prelude.{◌≡◌, ℕ, ◌+◌, ◌≤◌, List, [], ◌++◌, length};

use std::marker::Model;

/// At most 44 bytes. Zeros follow them in the array.
#[derive(Clone, Copy, Debug, PartialEq, Eq, Hash)]
pub(crate) struct Short {
    bytes: [u8; 44],
    len: u8,
}

impl Model for Short {
    ghost use Rattle.std.specs.Prelude.{List, ℕ};

    ghost Value = { List ℕ };

    ghost use Rattle.peer_ids.specs.Short.{bytes_in, IsShort, inside_of, inside_again};

    ghost view = { bytes_in };

    ghost invariant = { IsShort };

    ghost inverse = { inside_of };

    ghost inverse_ok = { inside_again };
}

impl Short {
    pub(crate) fn new() -> Self
        ensures { result ≡ [] }
    {
        Short {
            bytes: [0; 44],
            len: 0,
        }
    }

    pub(crate) fn push(&mut self, piece: &[u8])
        requires { length self.old + length piece.now ≤ 44 }
        ensures { self.new ≡ self.old ++ piece.now }
    {
        let end = self.len as usize + piece.len();
        self.bytes[self.len as usize..end].copy_from_slice(piece);
        self.len = end as u8;
    }

    pub(crate) fn as_slice(&self) -> &[u8]
        ensures { result.now ≡ self.now }
    {
        &self.bytes[..self.len as usize]
    }
}
