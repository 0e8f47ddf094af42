// Worked examples.
ghost use Rattle.source_language.specs.Worked.{RoundsTowardZero, WorksOnBits, Shifts, Compares, StopsEarly, LeavesLoops};

/// What the definitions give for a few expressions, conditions and jumps. It does nothing: its
/// contract says it.
pub fn worked_examples()
    ensures rounding { RoundsTowardZero }
    ensures bits { WorksOnBits }
    ensures shifts { Shifts }
    ensures comparing { Compares }
    ensures early { StopsEarly }
    ensures loops { LeavesLoops }
{}
