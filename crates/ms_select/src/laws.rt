//! What the definitions of messages and of a talk come to.

ghost use Rattle.ms_select.specs.Messages.{OneMessage, SomeMessage};
ghost use Rattle.ms_select.specs.Listening.{OneListener, SomeListener};
ghost use Rattle.ms_select.specs.Dialing.{OneDialer, SomeDialer};
ghost use Rattle.ms_select.specs.Joined.{OneName};
ghost use Rattle.ms_select.specs.Sides.{AnswersAsDefined};
ghost use Rattle.ms_select.specs.Laws.{DecisionStays, FaultStays, NothingBehind, AskedAll};
ghost use Rattle.ms_select.specs.Rows.{WorkedRows};

/// The definitions give what the standard and this project's profile give, at worked bytes.
pub fn worked_rows()
    ensures { WorkedRows }
{}

/// Two ends that both agree in one talk name the same protocol.
pub fn one_name()
    ensures { OneName }
{}

/// Where a listener stands, what it has used and what it has written depend on its names and its input alone.
pub fn one_listener()
    ensures { OneListener }
{}

/// Where a dialer stands, what it has used and what it has written depend on its names and its input alone.
pub fn one_dialer()
    ensures { OneDialer }
{}

/// The message at the front has one reading.
pub fn one_message()
    ensures { OneMessage }
{}

/// Bytes have a reading of the message at their front.
pub fn some_message()
    ensures { SomeMessage }
{}

/// A listener comes to something by each input.
pub fn some_listener()
    ensures { SomeListener }
{}

/// A dialer comes to something by each input.
pub fn some_dialer()
    ensures { SomeDialer }
{}

/// What is decided stays so when bytes are added, and none of them is used.
pub fn decision_stays()
    ensures { DecisionStays }
{}

/// A fault stays when bytes are added.
pub fn fault_stays()
    ensures { FaultStays }
{}

/// Where a side stands is decided by the bytes that it used, whatever stands behind them.
pub fn nothing_behind()
    ensures { NothingBehind }
{}

/// Where a side stands is what its definition says of the whole input, also while nothing is decided.
pub fn answers_as_defined()
    ensures { AnswersAsDefined }
{}

/// A dialer of one name has written everything before the answer.
pub fn asked_all()
    ensures { AskedAll }
{}
