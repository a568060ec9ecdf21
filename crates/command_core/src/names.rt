// The names of the files of a command, as texts that are lent or as names that are owned.
ghost use Rattle.std.specs.Prelude.{◌≡◌};
ghost use Rattle.command_core.specs.Files.{compared_files_of, files_of, trimmed_files_of};

use crate::file_name::FileName;

/// The names of a graph and of a pair of certificates.
#[derive(Debug, Drop)]
pub struct Names<T> {
    pub graph: T,
    pub clauses: T,
    pub algebra: T,
}

/// The names of two graphs and of their certificate.
#[derive(Debug, Drop)]
pub struct SameNames<T> {
    pub graph: T,
    pub other: T,
    pub clauses: T,
}

/// The names of a graph and a pair that are read, and of the pair that is written.
#[derive(Debug, Drop)]
pub struct TrimNames<T> {
    pub old: Names<T>,
    pub to_clauses: T,
    pub to_algebra: T,
}

impl Names<FileName> {
    /// The names, lent.
    pub fn lent(&self) -> Names<&str>
        ensures { files_of result ≡ self.now }
    {
        Names {
            graph: self.graph.as_str(),
            clauses: self.clauses.as_str(),
            algebra: self.algebra.as_str(),
        }
    }
}

impl SameNames<FileName> {
    /// The names, lent.
    pub fn lent(&self) -> SameNames<&str>
        ensures { compared_files_of result ≡ self.now }
    {
        SameNames {
            graph: self.graph.as_str(),
            other: self.other.as_str(),
            clauses: self.clauses.as_str(),
        }
    }
}

impl TrimNames<FileName> {
    /// The names, lent.
    pub fn lent(&self) -> TrimNames<&str>
        ensures { trimmed_files_of result ≡ self.now }
    {
        TrimNames {
            old: self.old.lent(),
            to_clauses: self.to_clauses.as_str(),
            to_algebra: self.to_algebra.as_str(),
        }
    }
}
