ghost use Rattle.precedence_graph.specs.Paths.{EdgesAreOne, PathsArePrecedence};
ghost use Rattle.precedence_graph.specs.Since.{DirectFromSince, SinceCutsIndirect};
ghost use Rattle.precedence_graph.specs.Since.{SinceIsOne, SinceRises};

/// A whole request lies between two places exactly where the first is smaller than the greatest
/// place of a request that is answered before the second.
pub fn since_cuts_indirect()
    ensures { SinceCutsIndirect }
{}

/// A request departs directly before a place exactly where it departs from that greatest place on.
pub fn direct_from_since()
    ensures { DirectFromSince }
{}

/// The greatest place of a request that is answered before a place rises with the place.
pub fn since_rises()
    ensures { SinceRises }
{}

/// There is one such greatest place.
pub fn since_is_one()
    ensures { SinceIsOne }
{}

/// A path leads from one request to another exactly where the first precedes the second in time.
pub fn paths_are_precedence()
    ensures { PathsArePrecedence }
{}

/// A trace has one list of edges.
pub fn edges_are_one()
    ensures { EdgesAreOne }
{}
