ghost use Rattle.report_format.specs.Limits.{AreWithinLimits};

/// The values of a report that a file spells are within the limits of a value.
pub fn values_are_within_limits()
    ensures { AreWithinLimits }
{}
