// What trimming ends with.
use command_core::Stop;
use drup_checker::Numbers;
use joint_checker::Refusal;
use pair_core::Pair;

/// What is kept of a pair of certificates.
#[derive(Drop)]
pub struct Trimmed {
    /// the certificates: each line of the first adds a clause
    pub pair: Pair,
    /// for each kept clause the kept ones, by number from 1, in a tight chain for it
    pub uses: Vec<Numbers>,
    /// how many lines stood after the header of the clause certificate
    pub of_clauses: u64,
    /// how many lines stood before the closing one
    pub of_algebra: u64,
}

/// What `trim` says of a graph and its certificates. Files are created only with `Trimmed` and a `WriteFault`.
#[derive(Drop)]
pub enum TrimAnswer {
    /// The pair is accepted, and what is kept of it was written.
    Trimmed(Trimmed),
    /// A certificate is refused, as `check` says.
    Refused(Refusal),
    /// There is no such answer.
    Stopped(Stop),
}
