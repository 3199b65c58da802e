//! What holds of an end wherever it is, and what a whole run comes to.

ghost use Rattle.peer_ids.specs.Key.{Key};
ghost use Rattle.upgrade.specs.declared.role.ConnRole.{ConnRole};
ghost use Rattle.conn_core.specs.Promises.{AreServing, AreEarly, LiveAreHeld, UpIsSplit};
ghost use Rattle.conn_core.specs.Promises.{ListedAreHeld, EachIsAnswered, AllIsCounted, PastStays, ComesInTurn};

use handlers::{Handler, Protocols};

/// A handler that serves its stream was handed exactly the data behind the talk that agrees on the protocol that was
/// told, and the end where the other end has ended its direction. While its stream is live it was asked for bytes last,
/// and left no credit unasked.
pub fn handed<P: Protocols>()
    ensures { (start : P) (role : ConnRole) (own : Key)
        → AreServing P.H.steps P.H.fails P.H.is_closed P.H.is_finished P.makes_inbound P.makes_outbound P.listed
        P.is_eager P.leads_inbound P.leads_outbound start role own }
{}

/// The handler of an eager protocol was handed nothing before the talk agrees, and was asked for bytes.
pub fn early<P: Protocols>()
    ensures { (start : P) (role : ConnRole) (own : Key)
        → AreEarly P.H.steps P.H.fails P.H.is_closed P.H.is_finished P.makes_inbound P.makes_outbound P.listed
        P.is_eager P.leads_inbound P.leads_outbound start role own }
{}

/// Each live stream is held, and none was refused or given up.
pub fn live_are_held<P: Protocols>()
    ensures { (start : P) (role : ConnRole) (own : Key)
        → LiveAreHeld P.H.steps P.H.fails P.H.is_closed P.H.is_finished P.makes_inbound P.makes_outbound P.listed
        P.is_eager P.leads_inbound P.leads_outbound start role own }
{}

/// The input is the upgrade's, and then the session's; so are what was told and what was written.
pub fn split<P: Protocols>()
    ensures { (start : P) (role : ConnRole) (own : Key)
        → UpIsSplit P.H.steps P.H.fails P.H.is_closed P.H.is_finished P.makes_inbound P.makes_outbound P.listed
        P.is_eager P.leads_inbound P.leads_outbound start role own }
{}

/// Each call of a run has one answer.
pub fn each_is_answered<P: Protocols>()
    ensures { (start : P) (role : ConnRole) (own : Key)
        → EachIsAnswered P.H.steps P.H.fails P.H.is_closed P.H.is_finished P.makes_inbound P.makes_outbound P.listed
        P.is_eager P.leads_inbound P.leads_outbound start role own }
{}

/// Where memory was not refused, a run is behind all bytes of its feeds, all events of its answers, and all streams
/// that it opened.
pub fn counted<P: Protocols>()
    ensures { (start : P) (role : ConnRole) (own : Key)
        → AllIsCounted P.H.steps P.H.fails P.H.is_closed P.H.is_finished P.makes_inbound P.makes_outbound P.listed
        P.is_eager P.leads_inbound P.leads_outbound start role own }
{}

/// No call changes what the list said before it: at each later point of a run it says that still, and what came, was
/// asked for, done and told since stands behind it.
pub fn past_stays<P: Protocols>()
    ensures { (start : P) (role : ConnRole) (own : Key)
        → PastStays P.H.steps P.H.fails P.H.is_closed P.H.is_finished P.makes_inbound P.makes_outbound P.listed
        P.is_eager P.leads_inbound P.leads_outbound start role own }
{}

/// What comes stands in the list behind what came before: the key that was proven, and which part of the input is the
/// upgrade's, stays, and the frames in what the list has grown by are those of what came since.
pub fn comes_in_turn<P: Protocols>()
    ensures { (start : P) (role : ConnRole) (own : Key)
        → ComesInTurn P.H.steps P.H.fails P.H.is_closed P.H.is_finished P.makes_inbound P.makes_outbound P.listed
        P.is_eager P.leads_inbound P.leads_outbound start role own }
{}

/// What a run hands back is each handler that is held, with its stream's number, and no other.
pub fn listed_are_held<H: Handler>()
    ensures { ListedAreHeld H }
{}
