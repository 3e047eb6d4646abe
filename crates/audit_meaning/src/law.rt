ghost use Rattle.audit_meaning.specs.EdgesAre.{EdgesAreThese};
ghost use Rattle.audit_meaning.specs.Placed.{OrderIsPlaced};
ghost use Rattle.audit_meaning.specs.Soundness.{AcceptedExplains};
ghost use Rattle.audit_meaning.specs.Walked.{CycleIsWalked};

/// Where a report is accepted, whatever it says, its schedule explains the trace.
pub fn accepted_explains()
    ensures { AcceptedExplains }
{}

/// A list in which each next event is the least that may come is the order of events.
pub fn order_is_placed()
    ensures { OrderIsPlaced }
{}

/// A cycle that the walk finds among the events that are left is the one that the verdict names.
pub fn cycle_is_walked()
    ensures { CycleIsWalked }
{}

/// Which events are to come before which, by what stands in the trace and in the report.
pub fn edges_are_these()
    ensures { EdgesAreThese }
{}
