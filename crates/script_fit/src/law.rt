ghost use Rattle.script_fit.specs.Laws.{StayFit};
ghost use Rattle.script_fit.specs.OfProgram.{FittingIsTested};

/// Objects that fit a program still do after an operation that fits it.
pub fn objects_stay_fit()
    ensures { StayFit }
{}

/// An operation fits a program exactly where the tests say that it is of the program, and its values are
/// within the limits.
pub fn fitting_is_tested()
    ensures { FittingIsTested }
{}
