//! What the definitions of a talk come to.

ghost use Rattle.talks.specs.Laws.{OneOutcome, SomeOutcome, DecisionStays, FaultStays, NothingBehind};
ghost use Rattle.talks.specs.Laws.{AnswersAsDefined, AskedAll, OneName, BothAgree, NoneAgrees};

/// Which bytes are a talk's, where it stands and what it has written depend on its side and its input alone.
pub fn one_outcome()
    ensures { OneOutcome }
{}

/// A talk comes to something by each input.
pub fn some_outcome()
    ensures { SomeOutcome }
{}

/// What is decided stays so when bytes are added, and none of them is the talk's.
pub fn decision_stays()
    ensures { DecisionStays }
{}

/// A fault stays when bytes are added.
pub fn fault_stays()
    ensures { FaultStays }
{}

/// No byte behind a decision is the talk's.
pub fn nothing_behind()
    ensures { NothingBehind }
{}

/// Where a talk stands is what its definition says of the input.
pub fn answers_as_defined()
    ensures { AnswersAsDefined }
{}

/// An end that asks has written all that it ever writes, whatever has come.
pub fn asked_all()
    ensures { AskedAll }
{}

/// Two ends that both agree in one talk name the same protocol.
pub fn one_name()
    ensures { OneName }
{}

/// Where the other end supports the name that is asked for, both agree, each by all that the other writes.
pub fn both_agree()
    ensures { BothAgree }
{}

/// Where the other end doesn't support it, the end that asks is turned down, and the other goes on.
pub fn none_agrees()
    ensures { NoneAgrees }
{}
