//! Laws of varints and messages. Each is a function with an empty body, whose contract is the law.

ghost use Rattle.varint_proto.specs.Varint.{NoSpellingBeginsAnother, ShortestSpells, NoneIsShorter, Takes, Again};
ghost use Rattle.varint_proto.specs.Varint.{Stays, Inside, EndsAt, OneOutcome, SomeOutcome};
ghost use Rattle.varint_proto.specs.Message.{OneReading, SomeReading, WrittenIsRead};
ghost use Rattle.varint_proto.specs.Incoming.{OneFramed, SomeFramed, FramedStays, FramedEnds, FramedIsRead, StandsRead};
ghost use Rattle.varint_proto.specs.Rows.{WorkedRows};

/// The definitions give what the standards give, at worked bytes.
pub fn worked_rows()
    ensures { WorkedRows }
{}

/// No spelling of a varint begins another.
pub fn no_spelling_begins_another()
    ensures { NoSpellingBeginsAnother }
{}

/// The shortest spelling spells its number.
pub fn shortest_spells()
    ensures { ShortestSpells }
{}

/// No spelling of a number is shorter than its shortest one.
pub fn none_is_shorter()
    ensures { NoneIsShorter }
{}

/// What is read stands at the front.
pub fn takes()
    ensures { Takes }
{}

/// What stands at the front is read, whatever follows it.
pub fn again()
    ensures { Again }
{}

/// An outcome that asks for no more bytes stays when bytes are added.
pub fn stays()
    ensures { Stays }
{}

/// What is read lies within the bytes.
pub fn inside()
    ensures { Inside }
{}

/// A varint becomes whole at its last byte.
pub fn ends_at()
    ensures { EndsAt }
{}

/// Reading has one outcome.
pub fn one_outcome()
    ensures { OneOutcome }
{}

/// Reading has an outcome.
pub fn some_outcome()
    ensures { SomeOutcome }
{}

/// All bytes are a message or have a fault.
pub fn some_reading()
    ensures { SomeReading }
{}

/// Bytes have at most one reading as a message.
pub fn one_reading()
    ensures { OneReading }
{}

/// Written fields are read back.
pub fn written_is_read()
    ensures { WrittenIsRead }
{}

/// Reading a message behind its length has one outcome.
pub fn one_framed()
    ensures { OneFramed }
{}

/// Reading a message behind its length has an outcome.
pub fn some_framed()
    ensures { SomeFramed }
{}

/// What is whole and what is refused of a message behind its length stays so when bytes are added.
pub fn framed_stays()
    ensures { FramedStays }
{}

/// A message becomes whole at its last byte.
pub fn framed_ends()
    ensures { FramedEnds }
{}

/// A body behind the shortest spelling of its length is read back.
pub fn framed_is_read()
    ensures { FramedIsRead }
{}

/// Where a message that comes in stands is what is read of its input.
pub fn stands_read()
    ensures { StandsRead }
{}
