// The addends of a column and the sums of merges, and what the graph's signals tell of merges.
use crate::known::Known;
use crate::merge::Merge;
use crate::row::{Head, Row};
use graph_core::Memory;
use indexmap::IndexMap;
use std::alloc::Global;

// What a merge gains by a known carry and a known sum, and by a gate within it.
const CARRY: i32 = 6;

const SUM: i32 = 4;

const INNER: i32 = 2;

// What it costs that a sum isn't known.
const NO_SUM: i32 = 2;

// What a half adder costs that is never needed: its carry is 0 on all patterns.
const IDLE: i32 = -4;

/// An addend or a sum.
#[derive(Clone, Copy, Debug)]
pub(crate) struct Member {
    pub(crate) row: Row,
    pub(crate) key: u64,
    pub(crate) level: u32,
}

// Of a row what full adders are tried by first.
#[derive(Clone, Copy, Debug)]
struct Probe {
    key: u64,
    head: Head,
}

/// Two members, to be tried with thirds.
#[derive(Clone, Copy, Debug)]
pub(crate) struct Pair {
    key: u64,
    first: Head,
    second: Head,
}

/// A column while its merges are looked for.
#[derive(Drop)]
pub(crate) struct Pool<'a> {
    pub(crate) known: &'a Known,
    /// what a full adder costs whose carry isn't known
    lost: i32,
    /// whether carries don't count
    is_last: bool,
    members: Vec<Member>,
    probes: Vec<Probe>,
    /// by a merge's addends the number of its sum; a half adder has its second one twice
    sums: IndexMap<(u32, u32, u32), u32>,
}

impl<'a> Pool<'a> {
    /// No addend.
    pub(crate) fn new(alloc: Global, known: &'a Known, lost: i32, is_last: bool) -> Pool<'a> {
        Pool {
            known,
            lost,
            is_last,
            members: Vec::new(alloc),
            probes: Vec::new(alloc),
            sums: IndexMap::new(alloc),
        }
    }

    /// One more, and its number.
    pub(crate) fn push(&mut self, row: Row, level: u32) -> Result<u32, Memory> {
        let number = (self.members.len() as u64 % (1 << 32)) as u32;
        let key = row.key();
        self.members.push(Member { row, key, level })?;
        let head = row.head();
        self.probes.push(Probe { key, head })?;
        Ok(number)
    }

    pub(crate) fn member(&self, number: u32) -> Member {
        match self.members.get(number as usize) {
            Some(member) => *member,
            None => Member {
                row: Row::zero(),
                key: 0,
                level: 0,
            },
        }
    }

    pub(crate) fn level(&self, number: u32) -> u32 {
        match self.members.get(number as usize) {
            Some(member) => member.level,
            None => 0,
        }
    }

    /// The greatest level of a merge's addends, and the sum of all.
    pub(crate) fn levels(&self, merge: &Merge) -> (u32, u32) {
        let (x, y) = (self.level(merge.x), self.level(merge.y));
        match merge.z {
            None => (x.max(y), x.wrapping_add(y)),
            Some(z) => {
                let z = self.level(z);
                (x.max(y).max(z), x.wrapping_add(y).wrapping_add(z))
            }
        }
    }

    /// The number of a merge's sum, which becomes a member where it is none.
    pub(crate) fn sum(&mut self, merge: &Merge) -> Result<u32, Memory> {
        let place = (merge.x, merge.y, third_or(merge, merge.y));
        if let Some(number) = self.sums.get(&place) {
            return Ok(*number);
        }
        let (top, _) = self.levels(merge);
        let mut row = self.member(merge.x).row.xor(&self.member(merge.y).row);
        if let Some(z) = merge.z {
            row = row.xor(&self.member(z).row);
        }
        let number = self.push(row, top.wrapping_add(2))?;
        self.sums.insert(place, number)?;
        Ok(number)
    }

    /// How many points a merge has.
    pub(crate) fn points(&self, merge: &Merge) -> i32 {
        let x = self.member(merge.x);
        let y = self.member(merge.y);
        match merge.z {
            None => self.half_points(&x, &y),
            Some(z) => self.full_points(&x, &y, &self.member(z)),
        }
    }

    fn half_points(&self, x: &Member, y: &Member) -> i32 {
        let carry = x.row.and(&y.row);
        if carry.is_zero() && !self.is_last {
            return IDLE;
        }
        let carry = if self.is_last || self.known.has(carry.key()) {
            2
        } else {
            -4
        };
        let sum = if self.known.has(x.key ^ y.key) { 2 } else { -2 };
        carry + sum - 1
    }

    fn full_points(&self, x: &Member, y: &Member, z: &Member) -> i32 {
        let has_sum = self.known.has(x.key ^ y.key ^ z.key);
        let has_carry = self.is_last || self.known.has_majority(&x.row, &y.row, &z.row);
        let sum = if has_sum { SUM } else { -NO_SUM };
        let carry = match (has_carry, self.is_last) {
            (_, true) => 0,
            (true, false) => CARRY,
            (false, false) => 0i32.wrapping_sub(self.lost),
        };
        let outer = carry.wrapping_add(sum);
        if has_sum || has_carry {
            outer.wrapping_add(self.inner_points(x, y, z))
        } else {
            outer
        }
    }

    // What is known within a full adder: at best by the choice of the first two.
    fn inner_points(&self, x: &Member, y: &Member, z: &Member) -> i32 {
        let first = self.paired_points(x, y, z);
        let second = self.paired_points(x, z, y);
        let third = self.paired_points(y, z, x);
        first.max(second).max(third)
    }

    fn paired_points(&self, x: &Member, y: &Member, z: &Member) -> i32 {
        let sum = x.row.xor(&y.row);
        let both = x.row.and(&y.row);
        let mut points = 0;
        if self.known.has(x.key ^ y.key) {
            points += INNER;
        }
        if both.is_zero() || self.known.has(both.key()) {
            points += INNER;
        }
        if self.known.has_and(&sum, &z.row) {
            points += INNER;
        }
        points
    }

    /// Whether what a merge gives is known: its sum, and its carry where carries count.
    pub(crate) fn is_whole(&self, merge: &Merge) -> bool {
        let (x, y) = (self.member(merge.x), self.member(merge.y));
        let (sum, carry) = match merge.z {
            None => (x.key ^ y.key, x.row.and(&y.row)),
            Some(z) => {
                let z = self.member(z);
                (x.key ^ y.key ^ z.key, x.row.majority(&y.row, &z.row))
            }
        };
        self.known.has(sum) && (self.is_last || self.known.has(carry.key()))
    }

    /// Whether the sum of a full adder is known.
    pub(crate) fn has_sum(&self, x: u32, y: u32, z: u32) -> bool {
        self.known.has(self.key(x) ^ self.key(y) ^ self.key(z))
    }

    /// Whether its carry is.
    pub(crate) fn has_carry(&self, x: u32, y: u32, z: u32) -> bool {
        let (Some(x), Some(y), Some(z)) = (self.get(x), self.get(y), self.get(z)) else {
            return false;
        };
        self.known.has_majority(&x.row, &y.row, &z.row)
    }

    /// Two members, for `tells`.
    pub(crate) fn pair(&self, y: u32, z: u32) -> Pair {
        let (y, z) = (self.probe(y), self.probe(z));
        Pair {
            key: y.key ^ z.key,
            first: y.head,
            second: z.head,
        }
    }

    /// Whether the sum of a pair and a third member, or its carry, may be known.
    pub(crate) fn tells(&self, pair: &Pair, x: u32) -> bool {
        let x = self.probe(x);
        let carry = x.head.majority(&pair.first, &pair.second);
        self.known.may_have(pair.key ^ x.key) || self.known.may_begin(carry.key())
    }

    fn get(&self, number: u32) -> Option<&Member> {
        self.members.get(number as usize)
    }

    fn probe(&self, number: u32) -> Probe {
        match self.probes.get(number as usize) {
            Some(probe) => *probe,
            None => Probe {
                key: 0,
                head: Row::zero().head(),
            },
        }
    }

    fn key(&self, number: u32) -> u64 {
        self.probe(number).key
    }
}

fn third_or(merge: &Merge, other: u32) -> u32 {
    match merge.z {
        Some(z) => z,
        None => other,
    }
}
