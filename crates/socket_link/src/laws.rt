//! What the definitions come to.

ghost use Rattle.socket_link.specs.Kept.{KeepsFields};

use crate::socket::Socket;

/// A link keeps its fields from one call to the next, and nothing else: so no bytes that were read.
pub fn keeps_its_fields<S: Socket>()
    ensures { KeepsFields S }
{}
