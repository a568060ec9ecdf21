// Laws of what is kept of a pair, and of what is held once it was trimmed.
ghost use Rattle.pair_trim.specs.KeptLines.{KeptLinesAreLawful};
ghost use Rattle.pair_trim.specs.Trimmed.{KeptClausesAreTrimmed, KeptImportsAreThere, KeptLinesAreWritable, KeptPairIsLawful, RenumberedLinesServe};
ghost use Rattle.pair_trim.specs.Trimming.{TrimmedPairsAreHeld};

/// What is kept of a lawful algebra certificate is lawful.
pub fn kept_lines_are_lawful()
    ensures { KeptLinesAreLawful }
{}

/// What is kept of clauses with tight chains is lawful, and each of them is used.
pub fn kept_clauses_are_trimmed()
    ensures { KeptClausesAreTrimmed }
{}

/// What kept lines of lawful ones import is there.
pub fn kept_imports_are_there()
    ensures { KeptImportsAreThere }
{}

/// What is kept of lawful lines of an algebra certificate is lawful over what is kept of the clauses.
pub fn kept_pair_is_lawful()
    ensures { KeptPairIsLawful }
{}

/// What is kept of lines that can be written can be written.
pub fn kept_lines_are_writable()
    ensures { KeptLinesAreWritable }
{}

/// Each kept line is used, and says what it said, but for the numbers of imports.
pub fn renumbered_lines_serve()
    ensures { RenumberedLinesServe }
{}

/// Where a desk tells its files and the new names are new, it holds the new pair.
pub fn trimmed_pairs_are_held()
    ensures { TrimmedPairsAreHeld }
{}
