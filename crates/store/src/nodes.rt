// The node of a version: what made it, read off its block.
ghost use Rattle.std.specs.Prelude.{◌≡◌, suc, ◌<◌, ◌≤◌, length};
ghost use Rattle.buffer.specs.Field.{word_at};
ghost use Rattle.room.specs.Sound.{max_capacity};
ghost use Rattle.store.specs.Layout.{block_at, node_base_at, node_in};

use crate::places::block_at;
use buffer::word_at;
use graph::{Node, Strip, Version};

// Places in a node, which has its code at its front, and its spare bytes at the end. The parent of a merge is the receiver's version.
pub const NODE_STRIP: usize = 1;

pub const NODE_OPERAND: usize = 2;

pub const NODE_PARENT: usize = 4;

pub const NODE_GIVER: usize = 6;

pub const NODE_BASE: usize = 8;

pub const NODE_SPARE: usize = 10;

// The code in the node of a merge; no entry has it.
pub const MERGE_NODE: usize = 0x09;

// What made a version other than 0.
#[tactic(auto, unfolding(crate::specs::Layout::node_in))]
pub fn read_node(s: &[u8], v: Version) -> Node
    requires { (v.0 < max_capacity) × (block_at (suc v.0) ≤ length s.now) }
    ensures { result ≡ node_in s.now v.0 }
{
    let at = block_at(v);
    let code = usize::from(s[at]);
    let parent = Version(word_at(s, at + NODE_PARENT));
    if code == MERGE_NODE {
        return Node::Merge {
            receiver: parent,
            giver: Version(word_at(s, at + NODE_GIVER)),
        };
    }
    Node::Entry {
        parent,
        code,
        strip: Strip(usize::from(s[at + NODE_STRIP])),
        operand: word_at(s, at + NODE_OPERAND),
    }
}

// The base in the node of a merge.
pub fn read_base(s: &[u8], v: Version) -> Version
    requires { (v.0 < max_capacity) × (block_at (suc v.0) ≤ length s.now) }
    ensures { result.0 ≡ word_at s.now (node_base_at v.0) }
{
    Version(word_at(s, block_at(v) + NODE_BASE))
}
