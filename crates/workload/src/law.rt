ghost use Rattle.workload.specs.Files.{AreRequests, HasRequestsFault, AreTurns, HasTurnsFault};
ghost use Rattle.workload.specs.Files.{IsReadOneWay};

/// No bytes spell two lists, have two least faults, or spell a list and have a fault.
pub fn one_way()
    ensures requests { IsReadOneWay AreRequests HasRequestsFault }
    ensures turns { IsReadOneWay AreTurns HasTurnsFault }
{}
