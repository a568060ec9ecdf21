// What the header of a certificate names.
use ripple_graft::{Beside, BlockList};

/// The version of a certificate, 1 to 3, and what it adds to a graph: in version 1 the block of one cut, or none, in
/// version 2 blocks, and in version 3 what stands beside the graph.
#[derive(Debug, Drop)]
pub struct Header {
    pub version: u8,
    pub blocks: BlockList,
    pub beside: Beside,
}
