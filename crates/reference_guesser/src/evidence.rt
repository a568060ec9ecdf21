// The merges of a column's members that signals tell of.
use crate::merge::Merge;
use crate::pool::Pool;
use graph_core::Memory;
use std::alloc::Global;

// No more merges are kept for a state.
const MOST: usize = 512;

/// A merge with its points.
#[derive(Clone, Copy, Debug)]
pub(crate) struct Found {
    pub(crate) points: i32,
    pub(crate) merge: Merge,
}

/// Merges with evidence: of a full adder the sum or the carry is known, and a half adder has points.
#[derive(Debug, Drop)]
pub(crate) struct Evidence {
    pub(crate) found: Vec<Found>,
}

impl Evidence {
    /// None.
    pub(crate) fn new(alloc: Global) -> Evidence {
        Evidence {
            found: Vec::new(alloc),
        }
    }

    /// Those that are left after a merge.
    pub(crate) fn after(&self, alloc: Global, merge: &Merge) -> Result<Evidence, Memory> {
        let mut left = Evidence::new(alloc);
        for found in self.found.iter() {
            if !found.merge.meets(merge) {
                left.found.push(*found)?;
            }
        }
        Ok(left)
    }

    /// Adds those of the member at a place and earlier ones; `left` is how many full adders may yet be judged.
    pub(crate) fn judge(
        &mut self,
        pool: &Pool<'_>,
        members: &[u32],
        place: usize,
        left: &mut u64,
    ) -> Result<(), Memory> {
        let cost = (place as u64).saturating_mul(place as u64) / 2;
        let Some(z) = members.get(place).copied() else {
            return Ok(());
        };
        if *left < cost {
            return Ok(());
        }
        *left -= cost;
        for (second, y) in members.iter().enumerate().take(place) {
            self.offer_half(pool, *y, z)?;
            let pair = pool.pair(*y, z);
            for x in members.iter().take(second) {
                if pool.tells(&pair, *x) {
                    self.offer_full(pool, *x, *y, z)?;
                }
            }
        }
        Ok(())
    }

    /// Adds all full adders, and the half adders that have points, or all.
    pub(crate) fn push_all(
        &mut self,
        pool: &Pool<'_>,
        members: &[u32],
        with_all: bool,
    ) -> Result<(), Memory> {
        for (third, z) in members.iter().enumerate() {
            for (second, y) in members.iter().enumerate().take(third) {
                let half = Merge::half(*y, *z);
                let points = pool.points(&half);
                if with_all || points > 0 {
                    self.push(points, half)?;
                }
                for x in members.iter().take(second) {
                    let full = Merge::full(*x, *y, *z);
                    self.push(pool.points(&full), full)?;
                }
            }
        }
        Ok(())
    }

    fn offer_half(&mut self, pool: &Pool<'_>, x: u32, y: u32) -> Result<(), Memory> {
        let merge = Merge::half(x, y);
        let points = pool.points(&merge);
        if points > 0 {
            self.push(points, merge)?;
        }
        Ok(())
    }

    fn offer_full(&mut self, pool: &Pool<'_>, x: u32, y: u32, z: u32) -> Result<(), Memory> {
        if pool.has_sum(x, y, z) || pool.has_carry(x, y, z) {
            let merge = Merge::full(x, y, z);
            self.push(pool.points(&merge), merge)?;
        }
        Ok(())
    }

    // One more, if there is room.
    fn push(&mut self, points: i32, merge: Merge) -> Result<(), Memory> {
        if self.found.len() < MOST {
            self.found.push(Found { points, merge })?;
        }
        Ok(())
    }

    /// The best ones, each once: those with most points, and of these the lowest.
    pub(crate) fn best(
        &self,
        alloc: Global,
        pool: &Pool<'_>,
        most: usize,
    ) -> Result<Vec<Found>, Memory> {
        let mut order = Vec::new(alloc);
        for found in self.found.iter() {
            let (_, levels) = pool.levels(&found.merge);
            order.push((0i32.wrapping_sub(found.points), levels, found.merge))?;
        }
        order.sort_unstable();
        let mut best: Vec<Found> = Vec::new(alloc);
        for (cost, _, merge) in order {
            if best.len() < most && !is_last(&best, &merge) {
                best.push(Found {
                    points: 0i32.wrapping_sub(cost),
                    merge,
                })?;
            }
        }
        Ok(best)
    }
}

fn is_last(best: &[Found], merge: &Merge) -> bool {
    match best.last() {
        Some(last) => last.merge == *merge,
        None => false,
    }
}
