//! Laws of keys, ids and texts. Each is a function with an empty body, whose contract is the law.

ghost use Rattle.std.specs.Prelude.{◌≡◌, ℕ, List, Result};
ghost use Rattle.peer_ids.specs.declared.fault.IdFault.{IdFault};
ghost use Rattle.peer_ids.specs.ReadsText.{ReadsId};
ghost use Rattle.peer_ids.specs.Laws.{OneKey, SomeKey, CanonicalIsRead, IdsAreMultihashes, OneText};
ghost use Rattle.peer_ids.specs.Rows.{WorkedRows};

/// Bytes spell at most one key, and are refused by at most one fault.
pub fn one_key()
    ensures { OneKey }
{}

/// All bytes spell a key or are refused.
pub fn some_key()
    ensures { SomeKey }
{}

/// The canonical message of a key is read as that key.
pub fn canonical_is_read()
    ensures { CanonicalIsRead }
{}

/// The id of a key is a multihash that a peer id may be.
pub fn ids_are_multihashes()
    ensures { IdsAreMultihashes }
{}

/// An id has one text, and two different ids have different texts.
pub fn one_text()
    ensures { OneText }
{}

/// A text is read in one way: as one id, or with one fault.
pub fn one_reading()
    ensures { (text : List ℕ) (some other : Result (List ℕ) IdFault) → ReadsId text some → ReadsId text other
        → some ≡ other }
{}

/// The definitions give what the standards give, for worked keys, ids and texts.
pub fn worked_rows()
    ensures { WorkedRows }
{}
