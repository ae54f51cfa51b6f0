// The blocks of the versions in bytes that may hold a store.
ghost use Rattle.std.specs.Prelude.{◌≡◌, ◌<◌, ◌≤◌, length};
ghost use Rattle.buffer.specs.Field.{word_at};
ghost use Rattle.board.specs.Board.{board_size};
ghost use Rattle.room.specs.Sound.{max_capacity};
ghost use Rattle.store.specs.Layout.{row_size, block_at, node_base_at, node_in};
ghost use Rattle.store.specs.Check.{row_part, board_part};

use crate::nodes::{read_base, read_node};
use crate::places::{board_part, row_part};
use graph::{Node, Version};

/// Bytes in which the blocks of so many versions lie, whatever stands in them.
#[derive(Clone, Copy)]
pub struct Blocks<'a> {
    pub bytes: &'a [u8],
    pub count: usize,
    ghost count_in_range: { count ≤ max_capacity },
    ghost blocks_in_bounds: { block_at count ≤ length bytes.now },
}

impl<'a> Blocks<'a> {
    /// What made a version other than 0.
    pub fn node(&self, v: Version) -> Node
        requires { v.0 < self.now.count }
        ensures { result ≡ node_in self.now.bytes.now v.0 }
    {
        read_node(self.bytes, v)
    }

    /// The base in the node of a merge.
    pub fn base(&self, v: Version) -> Version
        requires { v.0 < self.now.count }
        ensures { result.0 ≡ word_at self.now.bytes.now (node_base_at v.0) }
    {
        read_base(self.bytes, v)
    }

    /// The row of a version.
    pub fn row(&self, v: Version) -> &'a [u8]
        requires { v.0 < self.now.count }
        ensures { (result.now ≡ row_part self.now.bytes.now v.0) × (length result.now ≡ row_size) }
    {
        row_part(self.bytes, v)
    }

    /// The board of a version.
    pub fn board(&self, v: Version) -> &'a [u8]
        requires { v.0 < self.now.count }
        ensures { (result.now ≡ board_part self.now.bytes.now v.0) × (length result.now ≡ board_size) }
    {
        board_part(self.bytes, v)
    }
}
