// Works that are lent a table to make it grow.
use crate::Fact;

/// A work that is lent the table of facts and may make it grow, as a reader that puts what it reads into the table.
/// The table's owner keeps it and its facts; `did` says what the work has done, to whoever lends the table.
///
/// ```text
/// struct ReadWord;                                   // a work is named by its verb
///
/// impl<S: Source> Grow<Entry> for ReadWord<S> {
///     type Out = Option<Entry>;                      // what the work answers
///     type On = S;                                   // what it works on beside the table; () where there is nothing
///     ghost did = { λ work on table out work' on' table'. IsRead on on' out };
///     fn grow(&mut self, on: &mut S, table: &mut Table) -> Option<Entry> {
///         table.push(on.word()?)                     // the table grows
///     }
/// }
/// let entry = live.grow(&mut ReadWord, &mut source); // all that was live still is, and holds
/// ```
pub trait Grow<F: Fact> {
    type Out;

    type On;

    /// What the work asks for.
    ghost can_grow: { Self → Self.On → F.Table → Type 0 } = { λ _ _ _. Unit {0} };

    /// What the work has done: itself, what it works on and the table before, its answer, and the three after.
    ghost did: { Self → Self.On → F.Table → Self.Out → Self → Self.On → F.Table → Type 0 };

    fn grow(&mut self, on: &mut Self::On, table: &mut F::Table) -> Self::Out
        requires { can_grow self.old on.old table.old }
        ensures extends { F.extends table.new table.old }
        ensures did { did self.old on.old table.old result self.new on.new table.new };
}

/// A work that is lent one fact beside its table, as a product with a live polynomial.
pub trait GrowFrom<F: Fact> {
    type Out;

    type On;

    /// What the work asks for, beside that the fact belongs to the table.
    ghost can_grow: { Self → Self.On → F.Table → Type 0 } = { λ _ _ _. Unit {0} };

    /// What the work has done: itself, what it works on, the fact and the table before, its answer, and the three after
    /// but the fact.
    ghost did: { Self → Self.On → F → F.Table → Self.Out → Self → Self.On → F.Table → Type 0 };

    fn grow(&mut self, on: &mut Self::On, fact: &F, table: &mut F::Table) -> Self::Out
        requires asks { can_grow self.old on.old table.old }
        requires belongs { F.belongs fact.now table.old }
        ensures extends { F.extends table.new table.old }
        ensures did { did self.old on.old fact.now table.old result self.new on.new table.new };
}
