//! Why a stream stops, as the tables of the tests have it: a table can't hold a handler's fault.

use handlers::HandlerFault;
use ms_select::SelectFault;
use streams::{Cause, Stop};

/// Why a stream stops; of a handler's fault the number.
pub(crate) enum Why {
    Select(SelectFault),
    Handler(u8),
    Reset,
    Ended,
    OutOfMemory,
}

/// What a table says, as a stream says it.
pub(crate) fn stop_for(why: &Why) -> Stop {
    match why {
        Why::Select(fault) => Stop::Broken(Cause::Select(*fault)),
        Why::Handler(number) => Stop::Broken(Cause::Handler(HandlerFault { number: *number })),
        Why::Reset => Stop::Broken(Cause::Reset),
        Why::Ended => Stop::Broken(Cause::Ended),
        Why::OutOfMemory => Stop::OutOfMemory,
    }
}
