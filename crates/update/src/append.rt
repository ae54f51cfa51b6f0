// Appends a version to a store in place: its node, its row and its board, into the block behind the last one. Only the header and the
// blocks up to the new one need to be there, whatever stands in the new one.
ghost use Rattle.std.specs.Prelude.{◌≡◌, true, suc, ◌<◌, ◌≤◌, length, set};
ghost use Rattle.buffer.specs.Field.{byte, with_part};
ghost use Rattle.buffer.specs.Row.{with_member, union};
ghost use Rattle.board.specs.Board.{board_size, strip_count, enter};
ghost use Rattle.room.specs.Sound.{max_capacity};
ghost use Rattle.store.specs.Layout.{header_size, node_size, entries_at, block_at, row_at, board_at, entry_node_bytes, merge_node_bytes};
ghost use Rattle.store.specs.Rules.{node_in_range};
ghost use Rattle.store.specs.Check.{row_part, board_part, merge_of_boards, entries_part};
ghost use Rattle.update.specs.Append.{with_entry, with_merge, appended, node_with};

use board::{enter_board, merge_board};
use buffer::{add_member, clear, copy_within, put_extended, put_extended_union, put_word};
use graph::{Node, Strip, Version};
use store::nodes::{MERGE_NODE, NODE_BASE, NODE_GIVER, NODE_OPERAND, NODE_PARENT, NODE_STRIP};
use store::places::{BOARD, ENTRIES, NODE, ROW, block_at, board_at, board_part, row_at};

// Writes the lowest 8 bits of a number at a place.
fn put_byte(s: &mut [u8], at: usize, x: usize)
    requires { at < length s.old }
    ensures { s.new ≡ set s.old at (byte x) }
{
    s[at] = (x % 256) as u8;
}

// Writes the node of an entry, all of its bytes.
fn write_entry(node: &mut [u8], p: Version, code: usize, strip: Strip, operand: usize)
    requires { length node.old ≡ node_size }
    ensures { node.new ≡ entry_node_bytes p.0 code strip.0 operand }
{
    clear(node);
    put_byte(node, 0, code);
    put_byte(node, NODE_STRIP, strip.0);
    put_word(node, NODE_OPERAND, operand);
    put_word(node, NODE_PARENT, p.0);
}

// Writes the node of a merge, all of its bytes.
fn write_merge(node: &mut [u8], p: Version, q: Version, l: Version)
    requires { length node.old ≡ node_size }
    ensures { node.new ≡ merge_node_bytes p.0 q.0 l.0 }
{
    clear(node);
    put_byte(node, 0, MERGE_NODE);
    put_word(node, NODE_PARENT, p.0);
    put_word(node, NODE_GIVER, q.0);
    put_word(node, NODE_BASE, l.0);
}

// Writes the node of a version, all of its bytes; of a merge with its base.
fn write_node(bytes: &mut [u8], node: Node, base: Version)
    requires { length bytes.old ≡ node_size }
    ensures { bytes.new ≡ node_with node base.0 }
{
    match node {
        Node::Entry {
            parent,
            code,
            strip,
            operand,
        } => write_entry(bytes, parent, code, strip, operand),
        Node::Merge { receiver, giver } => write_merge(bytes, receiver, giver, base),
    }
}

// Puts the node of version n into its block, which is behind those that `Blocks` would count.
fn put_node(s: &mut [u8], n: Version, node: Node, base: Version)
    requires { (n.0 < max_capacity) × (block_at (suc n.0) ≤ length s.old) }
    ensures { s.new ≡ with_part s.old (block_at n.0) (node_with node base.0) }
{
    let at = block_at(n);
    let end = at + NODE;
    write_node(&mut s[at..end], node, base);
}

// Puts the row of an entry: its parent's, with the version besides.
fn put_entry_row(s: &mut [u8], n: Version, p: Version)
    requires { (p.0 < n.0) × (n.0 < max_capacity) × (block_at (suc n.0) ≤ length s.old) }
    ensures { s.new ≡ with_part s.old (row_at n.0) (with_member (row_part s.old p.0) n.0) }
{
    put_extended(s, row_at(p), row_at(n), n.0);
}

// Writes the board of version p into the part of version n, which is then that board, whatever stood there.
fn put_parent_board(s: &mut [u8], n: Version, p: Version)
    requires { (p.0 < n.0) × (n.0 < max_capacity) × (block_at (suc n.0) ≤ length s.old) }
    ensures { (s.new ≡ with_part s.old (board_at n.0) (board_part s.old p.0)) × (board_part s.new n.0 ≡ board_part s.old p.0) }
{
    copy_within(s, board_at(p), board_at(n), BOARD);
}

// Puts the board of an entry: its parent's, written once, and the entry made on it there.
fn put_entry_board(s: &mut [u8], n: Version, p: Version, code: usize, strip: Strip, operand: usize)
    requires p_lt_n { (p.0 < n.0) × (n.0 < max_capacity) × (block_at (suc n.0) ≤ length s.old) }
    requires strip_lt_strip_count { strip.0 < strip_count }
    ensures { s.new ≡ with_part s.old (board_at n.0) (enter code strip.0 operand (board_part s.old p.0)) }
{
    put_parent_board(s, n, p);
    let at = board_at(n);
    let end = at + BOARD;
    enter_board(&mut s[at..end], code, strip, operand);
}

// Puts version n among the entries.
fn list_entry(s: &mut [u8], n: Version)
    requires { (n.0 < max_capacity) × (header_size ≤ length s.old) }
    ensures { s.new ≡ with_part s.old entries_at (with_member (entries_part s.old) n.0) }
{
    let at = ENTRIES;
    let end = at + ROW;
    add_member(&mut s[at..end], n.0);
}

// Writes version n, an entry on version p.
pub fn append_entry(s: &mut [u8], n: Version, p: Version, code: usize, strip: Strip, operand: usize)
    requires p_lt_n { (p.0 < n.0) × (n.0 < max_capacity) × (block_at (suc n.0) ≤ length s.old) }
    requires strip_lt_strip_count { strip.0 < strip_count }
    ensures { s.new ≡ with_entry s.old n.0 p.0 code strip.0 operand }
{
    let node = Node::Entry {
        parent: p,
        code,
        strip,
        operand,
    };
    put_node(s, n, node, n);
    put_entry_row(s, n, p);
    put_entry_board(s, n, p, code, strip, operand);
    list_entry(s, n);
}

// Puts the row of a merge: its parents', with the version besides.
fn put_merge_row(s: &mut [u8], n: Version, p: Version, q: Version)
    requires { (p.0 < n.0) × (q.0 < n.0) × (n.0 < max_capacity) × (block_at (suc n.0) ≤ length s.old) }
    ensures { s.new ≡ with_part s.old (row_at n.0) (with_member (union (row_part s.old p.0) (row_part s.old q.0)) n.0) }
{
    put_extended_union(s, row_at(p), row_at(q), row_at(n), n.0);
}

// Puts the board of a merge of q into p over the base l, and counts its clashes. The slice is split where the new board begins, so that none
// of the three is copied first.
fn put_merge_board(s: &mut [u8], n: Version, p: Version, q: Version, l: Version) -> usize
    requires { (p.0 < n.0) × (q.0 < n.0) × (l.0 < n.0) × (n.0 < max_capacity) × (block_at (suc n.0) ≤ length s.old) }
    ensures { (s.new ≡ with_part s.old (board_at n.0) (merge_of_boards s.old p.0 q.0 l.0).bytes) × (result ≡ (merge_of_boards s.old p.0 q.0 l.0).clashes) }
{
    let (before, after) = s.split_at_mut(board_at(n));
    let base = board_part(before, l);
    let mine = board_part(before, p);
    let given = board_part(before, q);
    merge_board(&mut after[..BOARD], base, mine, given)
}

/// Writes version n, a merge of version q into version p with the base l, and counts its clashes.
pub fn append_merge(s: &mut [u8], n: Version, p: Version, q: Version, l: Version) -> usize
    requires { (p.0 < n.0) × (q.0 < n.0) × (l.0 < n.0) × (n.0 < max_capacity) × (block_at (suc n.0) ≤ length s.old) }
    ensures { (s.new ≡ with_merge s.old n.0 p.0 q.0 l.0) × (result ≡ (merge_of_boards s.old p.0 q.0 l.0).clashes) }
{
    let node = Node::Merge {
        receiver: p,
        giver: q,
    };
    put_node(s, n, node, l);
    put_merge_row(s, n, p, q);
    put_merge_board(s, n, p, q, l)
}

// Writes version n, whatever made it; of a merge, with its base. The clashes of a merge are let go.
pub fn append_version(s: &mut [u8], n: Version, node: Node, base: Version)
    requires n_lt_max_capacity { (n.0 < max_capacity) × (block_at (suc n.0) ≤ length s.old) }
    requires node_value { (node_in_range n.0 node ≡ true) × (base.0 < n.0) }
    ensures { s.new ≡ appended s.old n.0 node base.0 }
{
    match node {
        Node::Entry {
            parent,
            code,
            strip,
            operand,
        } => append_entry(s, n, parent, code, strip, operand),
        Node::Merge { receiver, giver } => {
            put_node(s, n, node, base);
            put_merge_row(s, n, receiver, giver);
            put_merge_board(s, n, receiver, giver, base);
        }
    }
}
