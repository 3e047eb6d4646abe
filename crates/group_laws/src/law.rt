ghost use Rattle.group_laws.specs.Agree.{SoundMembersAgree, SoundMembersShowAlike};
ghost use Rattle.group_laws.specs.EqualMembers.{EqualMembersCostOne};
ghost use Rattle.group_laws.specs.Evaluations.{EvaluatedIsAtMostPlain, OneMemberCostsItsSteps};
ghost use Rattle.group_laws.specs.Keeping.{KeepingChangesNothing};
ghost use Rattle.group_laws.specs.Nodes.{NodesShow};
ghost use Rattle.group_laws.specs.Sharing.{EqualMembersShare};
ghost use Rattle.group_laws.specs.Shown.{PartingShows};
ghost use Rattle.group_laws.specs.Steady.{CodeIsSteady};

/// Code never goes back, and fails only after it spent a step, or for want of steps.
pub fn code_is_steady()
    ensures { CodeIsSteady }
{}

/// Where one of two runs fails and the other goes on, or they fail or decide otherwise, it shows.
pub fn parting_shows()
    ensures { PartingShows }
{}

/// Of two nodes of which one fails otherwise, or one alone, that shows.
pub fn nodes_show()
    ensures { NodesShow }
{}

/// All members of a group with which nothing is wrong leave the same marks.
pub fn sound_members_agree()
    ensures { SoundMembersAgree }
{}

/// Of the runs of all members of such a group the same shows.
pub fn sound_members_show_alike()
    ensures { SoundMembersShowAlike }
{}

/// A run that keeps its costs goes as one that doesn't.
pub fn keeping_costs_changes_nothing()
    ensures { KeepingChangesNothing }
{}

/// A group of members that are charged alike costs one member's steps, and for each operation the
/// number of other members.
pub fn equal_members_share()
    ensures { EqualMembersShare }
{}

/// An accepted report evaluates at most as many nodes as its requests spend steps.
pub fn evaluated_is_at_most_plain()
    ensures { EvaluatedIsAtMostPlain }
{
    keeping_costs_changes_nothing();
}

/// A group of one member with which nothing is wrong costs the steps that the member spends.
pub fn one_member_costs_its_steps()
    ensures { OneMemberCostsItsSteps }
{
    keeping_costs_changes_nothing();
}

/// A group whose members have equal requests and equal answers, and whose runs end, costs one
/// member's steps, and one more for each operation of each other member.
pub fn equal_members_cost_one()
    ensures { EqualMembersCostOne }
{
    keeping_costs_changes_nothing();
    equal_members_share();
}
