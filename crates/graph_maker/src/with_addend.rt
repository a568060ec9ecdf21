// A product and an addend.
use crate::building::Building;
use crate::literals::{Literals, variables};
use graph_core::Lit;
use std::alloc::{AllocError, Global};

impl Building {
    ghost use Rattle.std.specs.Prelude.{◌≡◌, ◌+◌, ◌*◌, ◌<◌, ◌≤◌, ◌^◌, IfOk, length};
    ghost use Rattle.graph_maker.specs.Builder.{HasRoom};
    ghost use Rattle.graph_maker.specs.WithAddend.{with_addend};

    // The sums of a product's outputs and the addend, which is in the variables after those of the operands.
    pub fn add_addend(
        &mut self,
        alloc: Global,
        bits: u32,
        product: &Literals,
    ) -> Result<Literals, AllocError>
        requires few { bits ≤ 64 }
        requires room { HasRoom self.old 1024 }
        ensures { IfOk result (λ sums.
            with_addend bits (record { builder = self.old; outputs = product.now }) ≡
            record { builder = self.new; outputs = sums }) }
    {
        let addend = variables(alloc, 2 * bits + 1, 2 * bits)?;
        self.add_words(alloc, product.as_slice(), addend.as_slice(), Lit(0))
    }
}
