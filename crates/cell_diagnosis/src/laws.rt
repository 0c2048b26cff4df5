//! Laws of the two verdicts, for every list of readings. The calls do nothing: their contracts are the laws.
ghost use Rattle.cell_diagnosis.specs.Laws.{VerdictStays, RestVerdictStays, FirstDecides, RestFirstDecides};
ghost use Rattle.cell_diagnosis.specs.Laws.{PendingWhereNoneDecides, RestPendingWhereNoneDecides, SomeFirstDecides};
ghost use Rattle.cell_diagnosis.specs.Laws.{RestSomeFirstDecides, LastingFaultIsFound};

/// A verdict other than Pending stays, whatever readings come after.
pub fn verdict_stays()
    ensures axis { VerdictStays }
    ensures rest { RestVerdictStays }
{}

/// The verdict is what the rules say at the first reading at which one applies.
pub fn first_decides()
    ensures axis { FirstDecides }
    ensures rest { RestFirstDecides }
{}

/// The verdict is Pending where no rule applies at any reading, and nowhere else.
pub fn pending_where_none_decides()
    ensures axis { PendingWhereNoneDecides }
    ensures rest { RestPendingWhereNoneDecides }
    ensures axis_only { SomeFirstDecides }
    ensures rest_only { RestSomeFirstDecides }
{}

/// A motion whose end no reading shows alone is declared faulty at the latest at the reading that its limit names, and
/// stays so, whatever keeps the axis from showing its end, by switches or by a belt's sensors: be the readings missing,
/// contradictory or those of where it began. Of fewer readings than the limit the law says nothing.
pub fn lasting_faults_are_found()
    ensures { LastingFaultIsFound }
{}
