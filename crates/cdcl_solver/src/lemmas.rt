// Which lemmas are worth keeping, and how long a search goes on. No answer depends on it.
use graph_core::Memory;
use std::alloc::Global;
use unit_prop::Ref;

// How many lemmas are kept: at most, and of fewer all.
const MOST: usize = 800;

const FEW: usize = 300;

// How many literals a lemma that is never deleted has.
const SHORT: usize = 2;

// After how many lemmas a search begins anew: at first, and once it has learnt many.
const OFTEN: u64 = 4;

const SELDOM: u64 = 50;

const MANY: u64 = 20_000;

/// A lemma: its clause, the place of its line in the log, and how many literals it has.
#[derive(Clone, Copy, Debug)]
pub(crate) struct Learnt {
    pub clause: Ref,
    pub line: usize,
    pub len: usize,
}

/// The lemmas that may be deleted, and how many were learnt since a clause was added from outside.
#[derive(Debug, Drop)]
pub(crate) struct Lemmas {
    learnt: Vec<Learnt>,
    since: u64,
}

impl Lemmas {
    pub(crate) fn new(alloc: Global) -> Lemmas {
        Lemmas {
            learnt: Vec::new(alloc),
            since: 0,
        }
    }

    /// Counts from now on.
    pub(crate) fn begin(&mut self) {
        self.since = 0;
    }

    /// Keeps a lemma in mind, unless it is short. One of a search that may be given up doesn't count.
    pub(crate) fn push(
        &mut self,
        clause: Ref,
        line: usize,
        len: usize,
        few: bool,
    ) -> Result<(), Memory> {
        if !few {
            self.since = self.since.saturating_add(1);
        }
        if len > SHORT {
            self.learnt.push(Learnt { clause, line, len })?;
        }
        Ok(())
    }

    /// Whether a search begins anew with this turn.
    pub(crate) fn is_new(&self, turn: u64, few: bool) -> bool {
        let every = if few || self.since < MANY {
            OFTEN
        } else {
            SELDOM
        };
        turn % every == 0
    }

    /// Takes out those that are to be deleted: the longest ones, and of these the oldest.
    pub(crate) fn take_useless(&mut self, alloc: Global) -> Result<Vec<Learnt>, Memory> {
        let mut useless = Vec::new(alloc);
        let kept = FEW.max((self.learnt.len() / 2).min(MOST));
        if self.learnt.len() <= kept {
            return Ok(useless);
        }
        let by_length = |lemma: &Learnt| (lemma.len, usize::MAX - lemma.line);
        self.learnt.as_mut_slice().sort_unstable_by_key(by_length);
        while self.learnt.len() > kept {
            match self.learnt.pop() {
                Some(lemma) => useless.push(lemma)?,
                None => return Ok(useless),
            }
        }
        Ok(useless)
    }
}
