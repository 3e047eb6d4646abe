ghost use Rattle.replayer.specs.Laws.{AgreesExactly};

/// No schedule that explains a trace is refused, and none is let through that doesn't.
pub fn agreement()
    ensures { AgreesExactly }
{}
