// Laws of merged gates, of certificates, and of what `check_same` answers.
ghost use Rattle.same_core.specs.Certificates.{CertificatesAreExact, LawfulGraphsAgree};
ghost use Rattle.same_core.specs.Deciding.{EqualPairsAreHeld, PairAnswersAreExact, PairsAreDecided, WrittenIsLawful};
ghost use Rattle.same_core.specs.Merged.{MergedIsPair, MergedOutputsAgree};
ghost use Rattle.same_core.specs.Outcome.{OnePairAnswerIsDue, PairOutcomesAreExact};

/// An evaluation of the merged gates is a pair of evaluations with equal inputs.
pub fn merged_is_pair()
    ensures { MergedIsPair }
{}

/// Two graphs agree on all inputs where their outputs are equal on every evaluation of the merged gates.
pub fn merged_outputs_agree()
    ensures { MergedOutputsAgree }
{}

/// A file is lawful over merged gates, or it has one first refusal.
pub fn certificates_are_exact()
    ensures { CertificatesAreExact }
{}

/// Two graphs with a lawful certificate agree on all inputs.
pub fn lawful_graphs_agree()
    ensures { LawfulGraphsAgree }
{}

/// What is written for graphs that are called equal is lawful.
pub fn written_is_lawful()
    ensures { WrittenIsLawful }
{}

/// Two graphs that are called equal and their certificate are what the files are then.
pub fn equal_pairs_are_held()
    ensures { EqualPairsAreHeld }
{}

/// Two graphs of one shape are called equal, or differ, or the conflicts are spent; but for a fault or out of memory.
pub fn pairs_are_decided()
    ensures { PairsAreDecided }
{}

/// Where no pair of graphs is spelled, the answer of a check is given; but for a fault or out of memory.
pub fn pair_answers_are_exact()
    ensures { PairAnswersAreExact }
{}

/// Of three files that are told just one answer is due.
pub fn one_answer_is_due()
    ensures { OnePairAnswerIsDue }
{}

/// An answer that has its cause is the one that is due, or a failed read or out of memory.
pub fn outcomes_are_exact()
    ensures { PairOutcomesAreExact }
{}
