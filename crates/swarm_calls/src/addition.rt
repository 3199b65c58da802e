//! What is added to the history.

ghost use Rattle.std.specs.Prelude.{◌≤◌};

use crate::entry::Entry;
use crate::history::Beginning;

/// An entry that joins the history, with the history that it makes.
#[derive(Drop)]
pub struct Addition {
    pub entry: Entry,
    pub after: Beginning,
    pub ghost caller: { (1 ≤ entry.caller) × (entry.caller ≤ 8) },
}
