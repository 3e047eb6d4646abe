ghost use Rattle.multi_state.specs.Totals.{TotalIsGroupCost};

/// What the steps of a group cost is the cost of what its members' steps were spent on.
pub fn total_is_group_cost()
    ensures { TotalIsGroupCost }
{}
