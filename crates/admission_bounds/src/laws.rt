ghost use Rattle.admission_bounds.specs.Bounds.{SlotsAreFew, VariablesAreFew};

/// A request that is admitted has at most 65,536 variables in its canonical text: no more than its text has bytes.
pub fn few_variables()
    ensures few { VariablesAreFew }
{}

/// A selection has at most 4,294,967,296 slots of session variables, so that 32 bits number them: a slot is a name of
/// the role's, of which there are at most 268,435,456, with one of five kinds.
pub fn few_slots()
    ensures few { SlotsAreFew }
{}
