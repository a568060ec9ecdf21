// The array for signed operands.
use crate::building::Building;
use crate::literals::{Literals, inverted_variables, plain_of, variables};
use graph_core::Lit;
use std::alloc::{AllocError, Global};

impl Building {
    ghost use Rattle.std.specs.Prelude.{◌≡◌, ◌+◌, ◌*◌, ◌<◌, ◌≤◌, ◌^◌, IfOk, OnOk, length};
    ghost use Rattle.graph_maker.specs.Builder.{HasRoom, with_gates};
    ghost use Rattle.graph_maker.specs.Corrected.{corrected, masked_gates, take_away};

    // The outputs of an array, whose upper half is less b where a's highest bit is 1, and less a where b's is.
    pub fn correct(
        &mut self,
        alloc: Global,
        bits: u32,
        outputs: &Literals,
    ) -> Result<Literals, AllocError>
        requires some { 1 ≤ bits }
        requires few { bits ≤ 64 }
        requires whole { length outputs.now ≡ 2 * bits }
        requires room { HasRoom self.old 1024 }
        ensures { IfOk result (λ all.
            corrected bits (record { builder = self.old; outputs = outputs.now }) ≡
            record { builder = self.new; outputs = all }) }
    {
        let a = variables(alloc, 1, bits)?;
        let b = variables(alloc, bits + 1, bits)?;
        let (lower, upper) = outputs.as_slice().split_at(bits as usize);
        let first = self.take_away(alloc, upper, plain_of(bits), b.as_slice())?;
        let second = self.take_away(alloc, first.as_slice(), plain_of(2 * bits), a.as_slice())?;
        let mut all = Literals::new(alloc);
        all.extend(lower)?;
        all.extend(second.as_slice())?;
        Ok(all)
    }

    // The word of x & y taken away from that of as many literals, without the last carry.
    fn take_away(
        &mut self,
        alloc: Global,
        xs: &[Lit],
        x: Lit,
        ys: &[Lit],
    ) -> Result<Literals, AllocError>
        requires some { 1 ≤ length ys.now }
        requires few { length ys.now ≤ 64 }
        requires room { HasRoom self.old (8 * length ys.now) }
        ensures value { IfOk result (λ sums. take_away self.old xs.now x ys.now ≡
            record { builder = self.new; outputs = sums }) }
        ensures few { OnOk result (self.new.last ≤ self.old.last + 8 * length ys.now) }
        ensures long { IfOk result (λ sums. length sums ≡ length ys.now) }
    {
        let first = self.last() + 1;
        self.mask(x, ys)?;
        let inverted = inverted_variables(alloc, first, ys.len() as u32)?;
        self.add_words(alloc, xs, inverted.as_slice(), Lit(1))
    }

    // The gates x & y for each y.
    fn mask(&mut self, x: Lit, ys: &[Lit]) -> Result<(), AllocError>
        requires room { HasRoom self.old (length ys.now) }
        ensures gates { OnOk result
            (self.new ≡ with_gates self.old (masked_gates self.old.last x ys.now)) }
        ensures last { OnOk result (self.new.last ≡ self.old.last + length ys.now) }
    {
        for y in ys {
            self.and(x, *y)?;
        }
        Ok(())
    }
}
