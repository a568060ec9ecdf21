// Laws of the ledger of an algebra certificate: which ledgers and which lines say the same.
ghost use Rattle.algebra_core.specs.Agreement.{AgreementIsEquivalence, AgreementIsKept, PremisesAreKept};
ghost use Rattle.algebra_core.specs.Ledgers.{LedgerIsMap, LiveLinesVanish};
ghost use Rattle.algebra_core.specs.Likeness.{LikenessIsKept};

/// Live lines are a map from ids.
pub fn ledger_is_map()
    ensures { LedgerIsMap }
{}

/// Every live line is 0 on each evaluation that meets the premises.
pub fn live_lines_vanish()
    ensures { LiveLinesVanish }
{}

/// Agreeing of ledgers is an equivalence.
pub fn agreement_is_equivalence()
    ensures { AgreementIsEquivalence }
{}

/// Ledgers that agree take and refuse the same lines, agree after them, and close alike.
pub fn agreement_is_kept()
    ensures { AgreementIsKept }
{}

/// Lines that are alike name the same operands, are lawful or refused together, and the same ledger follows.
pub fn likeness_is_kept()
    ensures { LikenessIsKept }
{}

/// Over premises that say the same the same files are lawful, and refused for the same causes.
pub fn premises_are_kept()
    ensures { PremisesAreKept }
{}
