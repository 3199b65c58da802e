//! What the definitions of a stream come to.

ghost use Rattle.streams.specs.Streams.{Past};
ghost use Rattle.streams.specs.Laws.{OneAnswer, AnswerStays, CutAnywhere, OneSplit};

use handlers::Handler;

/// The data determines what is answered while a stream talks, and what its talk has written.
pub fn one_answer()
    ensures { OneAnswer }
{}

/// What is decided stays so when more data comes with it.
pub fn answer_stays()
    ensures { AnswerStays }
{}

/// Where the data is cut changes nothing.
pub fn cut_anywhere()
    ensures { CutAnywhere }
{}

/// The data determines on which protocol both ends agree, and which data is the handler's.
pub fn one_split<H: Handler>()
    ensures { (past : Past H) → OneSplit past }
{}
