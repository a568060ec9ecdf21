// The commands, each with what its words say.
use crate::making::Making;
use crate::point::Point;
use command_core::{FileName, Names, SameNames, Task, TrimNames};
use graph_core::Claim;

/// What a command line asks for.
#[derive(Debug, Drop)]
pub enum Command {
    /// To judge a pair of certificates for what is claimed of a graph.
    Check {
        names: Names<FileName>,
        claim: Claim,
    },
    /// To give a verdict on what is claimed of a graph, and to write both certificates where it holds. No two of the
    /// names are equal. The budget is from 1 to 2^32 - 1, and the conflicts are below 2^32.
    Verify {
        names: Names<FileName>,
        task: Task,
    },
    /// To evaluate a graph at two operands and perhaps an addend.
    Eval {
        graph: FileName,
        point: Point,
    },
    /// To make the graph of a design, and to write it to a file.
    Make {
        making: Making,
        out: FileName,
    },
    /// To make a multiplier from a number, to give a verdict on it and to judge the certificates, in memory.
    Trial {
        /// below 2^32
        number: u64,
    },
    /// To say whether two graphs are the same, and to write the certificate where they are. Its name is that of
    /// neither graph.
    Same {
        names: SameNames<FileName>,
        /// the most conflicts of the solver, below 2^32
        conflicts: u64,
    },
    /// To judge a certificate for two graphs.
    CheckSame {
        names: SameNames<FileName>,
    },
    /// To judge a pair of certificates as `check` does, and where it is accepted to write it without the lines that
    /// nothing uses. Neither of the two names that are written to is another of the five.
    Trim {
        names: TrimNames<FileName>,
        claim: Claim,
    },
}
