// Laws of plans over made graphs.
ghost use Rattle.enough_budget.specs.Budgets.{MadeBudgetIsEnough};
ghost use Rattle.enough_budget.specs.FewVariables.{FewVariablesAreSmall};
ghost use Rattle.enough_budget.specs.MadeGroups.{MadeGatesAreInOrder, MadeGroupsAreAdders};
ghost use Rattle.enough_budget.specs.MadeSlices.{MadeRestIsZero, MadeSlicesAreSmall, SlicePlansAreSmall};

/// A function of so many variables has at most two to that power monomials.
pub fn few_variables_are_small()
    ensures { FewVariablesAreSmall }
{}

/// A made graph's gates are listed so.
pub fn made_gates_are_in_order()
    ensures { MadeGatesAreInOrder }
{}

/// The groups of a made graph are half and full adders and products of inputs.
pub fn made_groups_are_adders()
    ensures { MadeGroupsAreAdders }
{}

/// While steps over a made graph with a ripple-carry adder go by its groups, each frontier has at most 8 * n * n + 64
/// monomials.
pub fn made_slices_are_small()
    ensures { MadeSlicesAreSmall }
{}

/// So of every slice plan.
pub fn slice_plans_are_small()
    ensures { SlicePlansAreSmall }
{}

/// So a budget of that many monomials is enough.
pub fn made_budget_is_enough()
    ensures { MadeBudgetIsEnough }
{}

/// Over a made graph with a ripple-carry adder the last frontier of every plan is 0.
pub fn made_rest_is_zero()
    ensures { MadeRestIsZero }
{}
