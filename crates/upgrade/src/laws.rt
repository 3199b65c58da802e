//! What the definitions of an upgrade come to.

ghost use Rattle.upgrade.specs.Laws.{OneOutcome, SomeOutcome, UpStays, FaultStays, FaultsOfParts};
ghost use Rattle.upgrade.specs.Laws.{GoesOn, BothUp};
ghost use Rattle.upgrade.specs.Rows.{WorkedRows};

/// The definitions give what the standards and this project's profile give, at worked bytes.
pub fn worked_rows()
    ensures { WorkedRows }
{}

/// Which bytes are an upgrade's, what it comes to and what it has written depend on its role, its key and its input
/// alone.
pub fn one_outcome()
    ensures { OneOutcome }
{}

/// An upgrade comes to something by each input.
pub fn some_outcome()
    ensures { SomeOutcome }
{}

/// A connection that is up stays so when bytes are added, and none of them is the upgrade's.
pub fn up_stays()
    ensures { UpStays }
{}

/// A fault stays when bytes are added.
pub fn fault_stays()
    ensures { FaultStays }
{}

/// Each fault of a part is the fault of the upgrade, by its own name.
pub fn faults_of_parts()
    ensures { FaultsOfParts }
{}

/// Where an upgrade stands is what its definition says of the input.
pub fn goes_on()
    ensures { GoesOn }
{}

/// Two joined ends are both up, each with the other's key, by exactly what the other one writes.
pub fn both_up()
    ensures { BothUp }
{}
