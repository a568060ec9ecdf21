// Which calls of a desk in memory fail, and how its reads and writes are cut.
ghost use Rattle.std.specs.Prelude.{◌≡◌, []};

use super::cuts::Cuts;
use std::alloc::Global;
use std::marker::Model;

/// Which calls fail, and how reads and writes are cut.
#[derive(Drop)]
pub struct Script {
    reads: Cuts,
    writes: Cuts,
    fails: Vec<u64>,
    calls: u64,
}

impl Model for Script {
    ghost use Rattle.mv_desk.specs.Script.{Plan};

    ghost Value = { Plan };

    ghost view = { λ s. record { reads = s.reads; writes = s.writes; fails = s.fails.items; calls = s.calls } };
}

impl Script {
    ghost use Rattle.mv_desk.specs.Script.{after_call, is_next_failing, later, next};

    pub fn new(alloc: Global, reads: Vec<usize>, fails: Vec<u64>) -> Script
        ensures { result ≡ record { reads = reads.items; writes = []; fails = fails.items; calls = 0 } }
    {
        Script {
            reads: Cuts::new(reads),
            writes: Cuts::new(Vec::new(alloc)),
            fails,
            calls: 0,
        }
    }

    /// Counts a call, and says whether it is one that fails.
    pub fn fails_now(&mut self) -> bool
        ensures fails { result ≡ is_next_failing self.old }
        ensures counted { self.new ≡ after_call self.old }
    {
        self.calls = self.calls.saturating_add(1);
        self.fails.contains(&self.calls)
    }

    /// From now on writes are cut so.
    pub fn cut_writes(&mut self, lengths: Vec<usize>)
        ensures { self.new ≡ record self.old { writes = lengths.items } }
    {
        self.writes = Cuts::new(lengths);
    }

    /// The most bytes that a read gives.
    pub fn take_read(&mut self) -> usize
        ensures most { result ≡ next self.old.reads }
        ensures later { self.new ≡ record self.old { reads = later self.old.reads } }
    {
        let most = self.reads.next();
        self.reads.pass();
        most
    }

    /// The most bytes that the next write takes.
    pub fn next_write(&self) -> usize
        ensures { result ≡ next self.now.writes }
    {
        self.writes.next()
    }

    /// A write took bytes.
    pub fn pass_write(&mut self)
        ensures { self.new ≡ record self.old { writes = later self.old.writes } }
    {
        self.writes.pass();
    }
}
