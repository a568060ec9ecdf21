/// How long files and lines may be, in bytes. One byte more is too long.
#[derive(Clone, Copy, Debug, PartialEq, Eq)]
pub struct Limits {
    /// a graph file
    pub graph: u64,
    /// each certificate file
    pub certificate: u64,
    /// a line of a certificate, without its line feed
    pub line: u64,
}

impl Limits {
    /// 256 MiB for a graph, 64 GiB for a certificate, 16 MiB for a line.
    pub const STANDARD: Limits = Limits {
        graph: 268435456,
        certificate: 68719476736,
        line: 16777216,
    };
}
