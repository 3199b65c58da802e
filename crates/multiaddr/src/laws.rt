//! Laws of addresses and their texts. Each is a function with an empty body, whose contract is the law.

ghost use Rattle.multiaddr.specs.Laws.{OneReading, OneTextReading, Printing};
ghost use Rattle.multiaddr.specs.Rows.{WorkedRows};

/// Bytes are at most one address, have at most one fault, and not both.
pub fn one_reading()
    ensures { OneReading }
{}

/// A text is read as at most one list of parts, has at most one fault, and not both.
pub fn one_text_reading()
    ensures { OneTextReading }
{}

/// Parts are printed as one text, which is read as them.
pub fn printing()
    ensures { Printing }
{}

/// The definitions give what the standards give, for worked addresses and texts.
pub fn worked_rows()
    ensures { WorkedRows }
{}
