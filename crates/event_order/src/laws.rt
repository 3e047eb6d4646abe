ghost use Rattle.event_order.specs.Laws.{Unique, Proper, NoCycleNoneLeft, CyclesRun};

/// A graph has one order.
pub fn one_order()
    ensures { Unique }
{}

/// An order has each node once, after all that precede it.
pub fn order_is_proper()
    ensures { Proper }
{}

/// Where a walk ends without a cycle, each node is placed.
pub fn no_cycle_none_left()
    ensures { NoCycleNoneLeft }
{}

/// Each node of a cycle has an edge to the next, and the last to the first.
pub fn cycles_run()
    ensures { CyclesRun }
{}
