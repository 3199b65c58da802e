//! What the frames of a whole input are, said of every list of bytes, and the bits of the flags.

ghost use Rattle.std.specs.Prelude.{◌≡◌};
ghost use Rattle.yamux_frames.specs.Frames.{OneReading, SomeReading};
ghost use Rattle.yamux_frames.specs.OneAnswer.{AreAllowed, OneAnswer, AnswerOrFault, OneFault};
ghost use Rattle.yamux_frames.specs.Rows.{WorkedRows};

use crate::header::Header;

/// The definitions give what the specification gives, at worked bytes.
pub fn worked_rows()
    ensures { WorkedRows }
{}

/// No bytes are read in two ways: their frames, the fault among them, and what is left over are determined.
pub fn one_reading()
    ensures { OneReading }
{}

/// Every list of bytes is read: as frames, and then as too little for the next, or as what is no header.
pub fn some_reading()
    ensures { SomeReading }
{}

/// The clauses of `Cutter::feed` determine its answer: from where a cutter stands, no two answers to a piece are
/// allowed, no two faults, and not both an answer and a fault.
pub fn one_answer()
    ensures allowed { AreAllowed }
    ensures answer { OneAnswer }
    ensures either { AnswerOrFault }
    ensures fault { OneFault }
{}

/// The bits of the flags (hashicorp yamux specification, "Flag Field").
pub fn flags()
    ensures syn { Header.SYN ≡ 1 }
    ensures ack { Header.ACK ≡ 2 }
    ensures fin { Header.FIN ≡ 4 }
    ensures rst { Header.RST ≡ 8 }
{}
