// The test of the versions of a store: each version's block against the blocks of its parents and its base.
ghost use Rattle.std.specs.Prelude.{◌≡◌, true, ◌+◌, ◌<◌, ◌≤◌, length};
ghost use Rattle.buffer.specs.Field.{part, same, all_zero, zeros};
ghost use Rattle.buffer.specs.Row.{with_member};
ghost use Rattle.board.specs.Board.{strip_count, enter};
ghost use Rattle.graph.specs.declared.Node.TheVariants.{Merge};
ghost use Rattle.store.specs.Layout.{row_size};
ghost use Rattle.store.specs.Rules.{node_in_range};
ghost use Rattle.store.specs.Check.{row_part, board_part, merge_of_boards, root_right, entry_parts, merge_rows, merge_parts, node_parts, version_right, versions_right};

use crate::block_parts::Blocks;
use crate::nodes::{NODE_GIVER, NODE_PARENT, NODE_SPARE, NODE_STRIP};
use crate::places::{BOARD, NODE, ROW, block_at, board_at, entries_part};
use crate::rules::{is_base, node_in_range};
use board::{is_entered, is_merged};
use buffer::{has_member, is_extended, is_extended_union, is_zero, part_of};
use graph::{Node, Strip, Version};

// Whether the n bytes from a place on are 0.
fn zero_part(s: &[u8], at: usize, n: usize) -> bool
    requires { at + n ≤ length s.now }
    ensures { result ≡ all_zero (part s.now at n) }
{
    is_zero(part_of(s, at, n))
}

// Whether a version's row is its parent's with the version besides.
fn entry_rows_right(blocks: &Blocks, v: Version, p: Version) -> bool
    requires { (p.0 < v.0) × (v.0 < blocks.now.count) }
    ensures { result ≡ same (row_part blocks.now.bytes.now v.0) (with_member (row_part blocks.now.bytes.now p.0) v.0) }
{
    is_extended(blocks.row(v), blocks.row(p), v.0)
}

// Whether a version's board is its parent's after an entry.
fn entry_board_right(
    blocks: &Blocks,
    v: Version,
    p: Version,
    code: usize,
    strip: Strip,
    operand: usize,
) -> bool
    requires { (p.0 < v.0) × (v.0 < blocks.now.count) × (strip.0 < strip_count) }
    ensures { result ≡ same (board_part blocks.now.bytes.now v.0) (enter code strip.0 operand (board_part blocks.now.bytes.now p.0)) }
{
    is_entered(blocks.board(v), blocks.board(p), code, strip, operand)
}

// Whether the parts of an entry's block are right, its numbers being in their ranges.
#[tactic(auto, unfolding(crate::specs::Check::entry_parts))]
fn entry_parts(
    blocks: &Blocks,
    v: Version,
    p: Version,
    code: usize,
    strip: Strip,
    operand: usize,
) -> bool
    requires { (p.0 < v.0) × (v.0 < blocks.now.count) × (strip.0 < strip_count) }
    ensures { result ≡ entry_parts blocks.now.bytes.now v.0 p.0 code strip.0 operand }
{
    let at = block_at(v) + NODE_GIVER;
    zero_part(blocks.bytes, at, NODE - NODE_GIVER)
        & entry_rows_right(blocks, v, p)
        & entry_board_right(blocks, v, p, code, strip, operand)
        & has_member(entries_part(blocks.bytes), v.0)
}

// Whether the base is that of the parents, and the version's row the union of theirs with the version besides.
fn merge_rows_right(blocks: &Blocks, v: Version, p: Version, q: Version, l: Version) -> bool
    requires { (p.0 < v.0) × (q.0 < v.0) × (l.0 < v.0) × (v.0 < blocks.now.count) }
    ensures { result ≡ merge_rows blocks.now.bytes.now v.0 p.0 q.0 l.0 }
{
    let mine = blocks.row(p);
    let given = blocks.row(q);
    is_base(l, p, q, blocks.row(l), mine, given)
        & is_extended_union(blocks.row(v), mine, given, v.0)
}

// Whether a version's board is the merge of its parents' over the base's.
fn merge_board_right(blocks: &Blocks, v: Version, p: Version, q: Version, l: Version) -> bool
    requires { (p.0 < v.0) × (q.0 < v.0) × (l.0 < v.0) × (v.0 < blocks.now.count) }
    ensures { result ≡ same (board_part blocks.now.bytes.now v.0) (merge_of_boards blocks.now.bytes.now p.0 q.0 l.0).bytes }
{
    is_merged(
        blocks.board(v),
        blocks.board(l),
        blocks.board(p),
        blocks.board(q),
    )
}

// Whether the parts of a merge's block are right, its parents and base being below it.
fn merge_parts(blocks: &Blocks, v: Version, p: Version, q: Version, l: Version) -> bool
    requires { (p.0 < v.0) × (q.0 < v.0) × (l.0 < v.0) × (v.0 < blocks.now.count) }
    ensures { result ≡ merge_parts blocks.now.bytes.now v.0 p.0 q.0 l.0 }
{
    let at = block_at(v);
    let strip = at + NODE_STRIP;
    let rest = at + NODE_SPARE;
    zero_part(blocks.bytes, strip, NODE_PARENT - NODE_STRIP)
        & zero_part(blocks.bytes, rest, NODE - NODE_SPARE)
        & merge_rows_right(blocks, v, p, q, l)
        & merge_board_right(blocks, v, p, q, l)
        & !has_member(entries_part(blocks.bytes), v.0)
}

// Whether the parts of a merge's block are right, its parents being below it.
fn based_parts(blocks: &Blocks, v: Version, p: Version, q: Version) -> bool
    requires { (p.0 < v.0) × (q.0 < v.0) × (v.0 < blocks.now.count) }
    ensures { result ≡ node_parts blocks.now.bytes.now v.0 (Merge p q) }
{
    let l = blocks.base(v);
    l < v && merge_parts(blocks, v, p, q, l)
}

// Whether the parts of a version's block are right, as its node says, whose numbers are in their ranges.
fn node_parts(blocks: &Blocks, v: Version, node: Node) -> bool
    requires { (node_in_range v.0 node ≡ true) × (v.0 < blocks.now.count) }
    ensures { result ≡ node_parts blocks.now.bytes.now v.0 node }
{
    match node {
        Node::Entry {
            parent,
            code,
            strip,
            operand,
        } => entry_parts(blocks, v, parent, code, strip, operand),
        Node::Merge { receiver, giver } => based_parts(blocks, v, receiver, giver),
    }
}

// Whether the block of a version other than 0 is right.
#[tactic(auto, unfolding(crate::specs::Check::version_right))]
fn version_right(blocks: &Blocks, v: Version) -> bool
    requires { v.0 < blocks.now.count }
    ensures { result ≡ version_right blocks.now.bytes.now v.0 }
{
    let node = blocks.node(v);
    node_in_range(v, node) && node_parts(blocks, v, node)
}

// Whether version 0 is its own only ancestor.
fn root_row_right(blocks: &Blocks) -> bool
    requires { 0 < blocks.now.count }
    ensures { result ≡ same (row_part blocks.now.bytes.now 0) (with_member (zeros row_size) 0) }
{
    let none = [0u8; ROW];
    is_extended(blocks.row(Version(0)), &none, 0)
}

// Whether the block of version 0 is right.
fn root_right(blocks: &Blocks) -> bool
    requires { 0 < blocks.now.count }
    ensures { result ≡ root_right blocks.now.bytes.now }
{
    zero_part(blocks.bytes, block_at(Version(0)), NODE)
        & root_row_right(blocks)
        & zero_part(blocks.bytes, board_at(Version(0)), BOARD)
        & !has_member(entries_part(blocks.bytes), 0)
}

// Whether the blocks of the versions 0 to n are right.
pub fn versions_right(blocks: &Blocks, n: usize) -> bool
    requires { n < blocks.now.count }
    ensures { result ≡ versions_right blocks.now.bytes.now n }
{
    if !root_right(blocks) {
        return false;
    }
    for k in 0..n {
        if !version_right(blocks, Version(k + 1)) {
            return false;
        }
    }
    true
}
