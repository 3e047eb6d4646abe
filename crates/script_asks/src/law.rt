ghost use Rattle.script_tree.specs.declared.limits.TheConstants.{MOST_OPERATIONS};
ghost use Rattle.script_asks.specs.Asks.{AsksForWhatFits};
ghost use Rattle.script_asks.specs.Counted.{AsksForAtMost};
ghost use Rattle.script_asks.specs.Further.{IsAnsweredInTurn};

/// A page asks only for operations that fit its program.
pub fn asks_for_what_fits()
    ensures { AsksForWhatFits }
{}

/// A run takes an answer to each operation that it wants, one after the other.
pub fn answers_are_taken_in_turn()
    ensures { IsAnsweredInTurn }
{}

/// A run wants no operation after the last that it may issue.
pub fn operations_are_counted()
    ensures { AsksForAtMost MOST_OPERATIONS }
{}
