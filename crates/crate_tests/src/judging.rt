// joint_checker: lengths, over files in memory.
use aiger_reader::ReadFail;
use command_core::{Names, Stop};
use graph_core::{Claim, Field, Order, Sign, Widths};
use joint_checker::{AlgebraWhy, Checked, Refusal, check};
use mv_desk::{Limits, MemoryDesk, Slot};
use std::alloc::{AllocError, Global};

const NAMES: Names<&'static str> = Names {
    graph: "g",
    clauses: "c",
    algebra: "a",
};

// A file under a name.
fn file(alloc: Global, name: &str, text: &str) -> Result<(String, Vec<u8>), AllocError> {
    Ok((
        String::from_str(alloc, name)?,
        Vec::from_slice(alloc, text.as_bytes())?,
    ))
}

// A desk with a graph, clauses and algebra that are read in pieces.
fn desk_of(alloc: Global, texts: (&str, &str, &str)) -> Result<MemoryDesk, AllocError> {
    let files = vec![in alloc;
        file(alloc, "g", texts.0)?,
        file(alloc, "c", texts.1)?,
        file(alloc, "a", texts.2)?,
    ]?;
    let pieces = Vec::from_slice(alloc, &[1, 7, 4096, 5, 2])?;
    Ok(MemoryDesk::new(alloc, files, pieces, Vec::new(alloc)))
}

const GRAPH: &str = "aag 3 2 0 2 1\n2\n4\n6\n0\n6 4 2\n";

const NO_CUT: &str = "joined 1\nnone\n";

// 35 bytes, of which the second line has 23 before its line feed
const ALGEBRA: &str = "pac 1\n6 % 3 * (-1), x3-x1*x2;\nq 6;\n";

const BAD_SECOND_LINE: &str = "pac 1\nx\nq 3;q 3;q 3;\n";

const BAD_THIRD_LINE: &str = "pac 1\n6 % 3 * (-1), x3-x1*x2;\nx\n";

// 26 bytes, of which the clause has 11 before its line feed
const CLAUSE: &str = "joined 1\nnone\n-3 1 1 -3 0\n";

const ONE_BIT: (&str, &str, &str) = (GRAPH, NO_CUT, ALGEBRA);

const WITH_CLAUSE: (&str, &str, &str) = (GRAPH, CLAUSE, BAD_SECOND_LINE);

const REFUSED_2: Checked = Checked::Refused(Refusal::Algebra {
    line: 2,
    why: AlgebraWhy::Text,
});

const REFUSED_3: Checked = Checked::Refused(Refusal::Algebra {
    line: 3,
    why: AlgebraWhy::Text,
});

const BAD_BYTE: Checked = Checked::Stopped(Stop::Graph {
    slot: Slot::Graph,
    why: ReadFail::Text(18),
});

const BAD_FIELD: Checked = Checked::Stopped(Stop::Graph {
    slot: Slot::Graph,
    why: ReadFail::Header(Field::L),
});

// What a row shows, the files, the greatest lengths of a graph, a certificate and a line, and what is said.
const LENGTHS: &[(&str, (&str, &str, &str), (u64, u64, u64), Checked)] = &[
    (
        "each length is enough",
        ONE_BIT,
        (28, 35, 23),
        Checked::Accepted,
    ),
    (
        "a line of the algebra",
        ONE_BIT,
        (28, 35, 22),
        Checked::Stopped(Stop::TooLong(Slot::Algebra)),
    ),
    (
        "the graph",
        ONE_BIT,
        (27, 35, 23),
        Checked::Stopped(Stop::TooLong(Slot::Graph)),
    ),
    (
        "the algebra",
        ONE_BIT,
        (28, 34, 23),
        Checked::Stopped(Stop::TooLong(Slot::Algebra)),
    ),
    (
        "the clauses",
        ONE_BIT,
        (28, 13, 23),
        Checked::Stopped(Stop::TooLong(Slot::Clauses)),
    ),
    (
        "a line of the clauses' header",
        ONE_BIT,
        (28, 35, 7),
        Checked::Stopped(Stop::TooLong(Slot::Clauses)),
    ),
    ("a clause is enough", WITH_CLAUSE, (28, 26, 11), REFUSED_2),
    (
        "clauses with a clause",
        WITH_CLAUSE,
        (28, 25, 11),
        Checked::Stopped(Stop::TooLong(Slot::Clauses)),
    ),
    (
        "a clause",
        WITH_CLAUSE,
        (28, 26, 10),
        Checked::Stopped(Stop::TooLong(Slot::Clauses)),
    ),
    (
        "the limit behind a bad line",
        (GRAPH, NO_CUT, BAD_SECOND_LINE),
        (28, 14, 23),
        REFUSED_2,
    ),
    (
        "the limit before a bad line",
        (GRAPH, NO_CUT, BAD_THIRD_LINE),
        (28, 29, 23),
        Checked::Stopped(Stop::TooLong(Slot::Algebra)),
    ),
    (
        "the limit within a bad line",
        (GRAPH, NO_CUT, BAD_THIRD_LINE),
        (28, 31, 23),
        Checked::Stopped(Stop::TooLong(Slot::Algebra)),
    ),
    (
        "the limit at the end of a bad line",
        (GRAPH, NO_CUT, BAD_THIRD_LINE),
        (28, 32, 23),
        REFUSED_3,
    ),
    (
        "a bad byte before the limit",
        ("aag 3 2 0 2 1\n2\n4\nx", "", ""),
        (19, 99, 99),
        BAD_BYTE,
    ),
    (
        "a bad byte behind the limit",
        ("aag 3 2 0 2 1\n2\n4\nx", "", ""),
        (18, 99, 99),
        Checked::Stopped(Stop::TooLong(Slot::Graph)),
    ),
    (
        "a field before the limit",
        ("aag 3 2 1 2 1\n2\n", "", ""),
        (14, 99, 99),
        BAD_FIELD,
    ),
    (
        "a fault of meaning in a graph that is too long",
        ("aag 3 2 0 2 1\n2\n2\n6\n0\n6 4 2\nc", "", ""),
        (28, 99, 99),
        Checked::Stopped(Stop::TooLong(Slot::Graph)),
    ),
];

// Whether that is said of the files with these lengths of a graph, a certificate and a line as limits.
fn is_said(
    alloc: Global,
    texts: (&str, &str, &str),
    (graph, certificate, line): (u64, u64, u64),
    said: &Checked,
) -> Result<bool, AllocError> {
    let limits = Limits {
        graph,
        certificate,
        line,
    };
    let mut desk = desk_of(alloc, texts)?;
    let claim = Claim {
        order: Order::Separate,
        sign: Sign::Unsigned,
        widths: Widths::Equal { add: false },
    };
    Ok(check(alloc, &mut desk, claim, &limits, &NAMES) == *said)
}

#[test]
fn lengths_are_met_at_their_places(rt: HostRuntime) -> Result<(), AllocError> {
    for (shows, texts, lengths, said) in LENGTHS {
        assert!(rt; is_said(rt.alloc(), *texts, *lengths, said)?, "{shows}");
    }
    Ok(())
}
