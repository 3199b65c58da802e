//! What the definitions come to.

ghost use Rattle.held_order.specs.Laws.{LetsGo, Arranges};
ghost use Rattle.held_order.specs.HeldLaws.{NamesEachHeld, DueIsOnce};

use handlers::{Handler, Protocols};

/// Where a stream is told to be over, the newest of its handlers goes, and no other.
pub fn newest_goes()
    ensures { LetsGo }
{}

/// The order names the stream of each handler that is held, and nothing else: each number as often as it was opened
/// anew while its handler was still held, and once more where the handler of its newest opening is held. So it is
/// where each handler was made, and each last event told, once.
pub fn names_each_held<H: Handler>()
    ensures { NamesEachHeld H }
{}

/// Each list that a connection keeps is one in which each handler was made, and each last event told, once: it is
/// enough that its entries are due where they stand, and that this end might do what it did.
pub fn each_told_once<P: Protocols>()
    ensures { DueIsOnce P.H.steps P.H.fails P.H.is_closed P.H.is_finished P.makes_inbound P.makes_outbound }
{}

/// What [`crate::HeldOrder::arrange`] puts in order is all that it was given, each stream's handlers in their order.
/// It is the order in which they were made, where each stream was made as often as it is held; and it is the one such
/// list.
pub fn all_in_order<H: Handler>()
    ensures { Arranges H }
{}
