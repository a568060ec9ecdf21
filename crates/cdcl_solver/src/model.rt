// The values of a model.
ghost use Rattle.std.specs.Prelude.{◌≡◌, ◌<◌, ◌^◌, IfOk};
ghost use Rattle.unit_prop.specs.Standing.{Standing, IsSound};
ghost use Rattle.cdcl_solver.specs.Models.{AreModelValues};

use crate::decision::value_of;
use graph_core::Memory;
use std::alloc::Global;
use unit_prop::Propagator;

/// The values of all variables.
pub(crate) fn values(alloc: Global, propagator: &Propagator, max: u32) -> Result<Vec<bool>, Memory>
    requires max { propagator.now.trail.greatest ≡ max }
    requires signed { max < 2 ^ 31 }
    requires sound { IsSound propagator.now }
    ensures { IfOk result (λ values. AreModelValues propagator.now.trail.literals max values.items) }
{
    let mut values = Vec::with_capacity(alloc, max as usize)?;
    for var in 1..max + 1 {
        let value = value_of(propagator, var).unwrap_or(false);
        values.push(value)?;
    }
    Ok(values)
}
