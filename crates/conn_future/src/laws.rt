//! What holds of a connection over a link wherever it is.

ghost use Rattle.conn_future.specs.Follows.{EndsBehind, CarriesInTurn, UpOverLink};

use conn_link::Link;
use handlers::{Handler, Protocols};

/// Behind a Fault or Shut it is over, and no event is held: it gives none more, and makes no call of the link.
pub fn ends_behind<L: Link, P: Protocols>()
    ensures { EndsBehind L.Link P.Protocols P.H.Handler }
{}

/// What calls in turn carry on they carry on together: the events of all are given, in order.
pub fn carries_in_turn<L: Link, P: Protocols>()
    ensures { CarriesInTurn L.Link P.Protocols P.H.Handler }
{}

/// While it is up the link's input is the upgrade's, and then the session's; so are the events, and what the link took
/// and is still to take.
pub fn up_over_link<L: Link, P: Protocols>()
    ensures { UpOverLink L.Link P.Protocols P.H.Handler }
{}
