//! What callers see of the bound.

ghost use Rattle.std.specs.Prelude.{◌≡◌};
ghost use Rattle.bounded_conn.specs.Bounds.{most};
ghost use Rattle.bounded_conn.specs.Kept.{KeepsFields};

use crate::MOST_WAITING;
use conn_link::Link;
use handlers::Protocols;

/// The bound, as callers see it, is that of the definitions.
pub fn most_is_public()
    ensures { MOST_WAITING ≡ most }
{}

/// It keeps the connection from one call to the next, unless that was dropped, and nothing else.
pub fn keeps_its_fields<L: Link, P: Protocols>()
    ensures { KeepsFields L.Link P.Protocols P.H.Handler }
{}
