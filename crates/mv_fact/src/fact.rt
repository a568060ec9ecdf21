// Statements on assignments, over a table that only grows.
ghost use Rattle.graph_core.specs.Graph.Assignments.{Assignment};

/// A statement on assignments, which may cite a table that only grows.
pub trait Fact: Drop {
    type Table: Drop;

    /// The table has what the fact cites.
    ghost belongs: { Self → Self.Table → Type 0 };

    /// The fact holds at this assignment.
    ghost holds: { Self → Self.Table → Assignment → Type 0 };

    /// The first table is the second one, or it has grown out of it.
    ghost extends: { Self.Table → Self.Table → Type 0 };

    /// A fact of a table is one of each table that extends it.
    ghost stays: { (f : Self) (new old : Self.Table) → extends new old → belongs f old → belongs f new };

    /// A fact that holds still holds as its table grows.
    ghost keeps: { (f : Self) (new old : Self.Table) (σ : Assignment) →
        extends new old → belongs f old → holds f old σ → holds f new σ };

    /// A table extends itself.
    ghost same: { (t : Self.Table) → extends t t };

    /// What extends an extension extends the table.
    ghost joins: { (a b c : Self.Table) → extends a b → extends b c → extends a c };
}
