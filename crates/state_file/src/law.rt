ghost use Rattle.state_file.specs.States.{IsReadOneWay};

/// No bytes spell two states, have two least faults, or spell a state and have a fault.
pub fn one_way()
    ensures { IsReadOneWay }
{}
