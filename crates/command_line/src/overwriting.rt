// Names that ask for a file to be written over another file of the same command.
ghost use Rattle.std.specs.Prelude.{◌≡◌};
ghost use Rattle.command_line.specs.Asked.{are_reused, are_shared, is_file_read, is_overwriting};

use command_core::{FileName, Names, SameNames, TrimNames};

/// Whether two of the names are equal.
pub(crate) fn are_shared(names: &Names<FileName>) -> bool
    ensures { result ≡ are_shared names.now }
{
    let graph = names.graph.as_str();
    let clauses = names.clauses.as_str();
    let algebra = names.algebra.as_str();
    graph == clauses || graph == algebra || clauses == algebra
}

/// Whether the certificate has the name of a graph.
pub(crate) fn is_overwriting(names: &SameNames<FileName>) -> bool
    ensures { result ≡ is_overwriting names.now }
{
    let clauses = names.clauses.as_str();
    clauses == names.graph.as_str() || clauses == names.other.as_str()
}

/// Whether a certificate that is written has the name of another file.
pub(crate) fn are_reused(names: &TrimNames<FileName>) -> bool
    ensures { result ≡ are_reused names.now }
{
    let to_clauses = names.to_clauses.as_str();
    let to_algebra = names.to_algebra.as_str();
    is_read(&names.old, to_clauses) || is_read(&names.old, to_algebra) || to_clauses == to_algebra
}

// Whether a file of this name is read.
fn is_read(names: &Names<FileName>, name: &str) -> bool
    ensures { result ≡ is_file_read names.now name.now }
{
    name == names.graph.as_str() || name == names.clauses.as_str() || name == names.algebra.as_str()
}
