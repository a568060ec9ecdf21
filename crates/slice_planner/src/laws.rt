// Laws of plans by groups.
ghost use Rattle.slice_planner.specs.GroupPlans.{ColumnIsPushed, FirstGroups, GroupIsPushed, GroupsFinish};
ghost use Rattle.slice_planner.specs.GroupPlans.{ListedGroupsServe, NextGroupFollows, PlainGroupsServe};
ghost use Rattle.slice_planner.specs.SlicePlan.{SlicePlanServes};

/// No step at first.
pub fn first_groups()
    ensures { FirstGroups }
{}

/// One more column.
pub fn column_is_pushed()
    ensures { ColumnIsPushed }
{}

/// One more group, where its gates can be eliminated one after the other.
pub fn group_is_pushed()
    ensures { GroupIsPushed }
{}

/// With all columns, the first group that is left can be eliminated.
pub fn next_group_follows()
    ensures { NextGroupFollows }
{}

/// With all columns and all groups the steps are a plan.
pub fn groups_finish()
    ensures { GroupsFinish }
{}

/// Where each gate is listed after those that it reads, the groups of the list serve.
pub fn listed_groups_serve()
    ensures { ListedGroupsServe }
{}

/// The gates in the plain order, each alone, serve for every graph.
pub fn plain_groups_serve()
    ensures { PlainGroupsServe }
{}

/// The slice plan over groups is a plan, goes by groups, and adds the columns from the last down.
pub fn slice_plan_serves()
    ensures { SlicePlanServes }
{}
