// A cut among others, which need not end at the last column; and blocks in order.
use crate::cut::Cut;
use std::marker::Model;

/// A cut, and whether its last carry replaces the column after its sums.
#[derive(Debug, Drop)]
pub struct Block {
    pub cut: Cut,
    pub carry: bool,
}

/// Blocks in order.
#[derive(Debug, Drop)]
pub struct BlockList {
    items: Vec<Block>,
}

impl Model for BlockList {
    ghost use Rattle.std.specs.Prelude.{List};
    ghost use Rattle.ripple_graft.specs.declared.block.Block.{Block as BlockValue};

    ghost Value = { List BlockValue };

    ghost view = { λ b. b.items.items };
}

impl BlockList {
    ghost use Rattle.std.specs.Prelude.{◌≡◌};

    pub fn from_vec(items: Vec<Block>) -> BlockList
        ensures { result ≡ items.items }
    {
        BlockList { items }
    }

    pub fn as_slice(&self) -> &[Block]
        ensures { result.now ≡ self.now }
    {
        &self.items
    }
}
