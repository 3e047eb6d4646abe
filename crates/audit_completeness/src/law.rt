ghost use Rattle.audit_completeness.specs.Completeness.{RecordedIsAccepted};
ghost use Rattle.audit_completeness.specs.Fits.{ScheduleFits};

/// The trace and the report of a history that a valid program allows are accepted.
pub fn recorded_is_accepted()
    ensures { RecordedIsAccepted }
{}

/// The schedule of an accepted report is no longer than a schedule may be.
pub fn schedule_fits()
    ensures { ScheduleFits }
{}
