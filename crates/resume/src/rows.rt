// The ancestry rows of a tape's versions in an array of their own, one behind the other, and what they have in common.
ghost use Rattle.std.specs.Prelude.{◌≡◌, true, ◌*◌, ◌/◌, ◌^◌, ◌<◌, ◌≤◌, length};
ghost use Rattle.std.specs.Int.Bits.{bit_and};
ghost use Rattle.buffer.specs.Field.{zeros, with_part};
ghost use Rattle.buffer.specs.Row.{with_member, union};
ghost use Rattle.buffer.specs.Word.{long_word};
ghost use Rattle.graph.specs.Graph.{serves_as_base};
ghost use Rattle.room.specs.Sound.{max_capacity};
ghost use Rattle.store.specs.Layout.{row_size, head_from};
ghost use Rattle.store.specs.Rules.{node_in_range};
ghost use Rattle.store.specs.Check.{field_number};
ghost use Rattle.resume.specs.Rows.{highest_common, rows_size, own_row, meet_field};
ghost use Rattle.resume.specs.Versions.{rows_with, base_found, base_in};

use buffer::{add_member, clear, is_intersection, put_extended, put_extended_union};
use graph::{Node, Version};
use store::places::{MAX_CAPACITY, ROW};
use store::rows::row_in_sequence;
use store::rules::is_base;

// The bytes of the rows of all the versions that a store can hold.
const ROWS: usize = ROW * MAX_CAPACITY;

// The highest bit of a word that is not 0.
fn top_bit(x: u64) -> usize
    requires { 0 < x }
    ensures { (result < 64) × (x / 2 ^ result ≡ 1) }
{
    x.ilog2() as usize
}

// The members that two rows of eight bytes have in common, as the bits of a word.
fn common_word(p: &[u8; 8], q: &[u8; 8]) -> u64
    ensures { result ≡ bit_and (long_word p.now) (long_word q.now) }
{
    u64::from_le_bytes(*p) & u64::from_le_bytes(*q)
}

// The highest version that two rows have in common; 0 where there is none, as the definition says, which a base is made by.
// A word of 64 versions at a time: where a tape has 16 heads, 120 pairs of rows are gone through, most of them from the top down to the few
// versions that there are.
fn highest_common(p: &[u8], q: &[u8]) -> Version
    requires p_len { length p.now ≡ row_size }
    requires q_len { length q.now ≡ row_size }
    ensures { (result.0 ≡ highest_common p.now q.now) × (result.0 < max_capacity) }
{
    let (words, _) = p.as_chunks::<8>();
    let (others, _) = q.as_chunks::<8>();
    for k in (0..ROW / 8).rev() {
        let x = common_word(&words[k], &others[k]);
        if x != 0 {
            return Version(64 * k + top_bit(x));
        }
    }
    Version(0)
}

// Makes a row that has version 0 alone.
fn make_root(row: &mut [u8])
    requires { length row.old ≡ row_size }
    ensures { row.new ≡ with_member (zeros row_size) 0 }
{
    clear(row);
    add_member(row, 0);
}

/// The rows of all the versions that a store can hold, one behind the other. No part of them is hidden, as any bytes will do.
#[derive(Drop)]
pub struct AncestryRows(pub [u8; ROWS]);

impl AncestryRows {
    /// Rows without a member.
    #[inline(always)]
    pub fn new() -> AncestryRows
        ensures { result.0 ≡ zeros rows_size }
    {
        AncestryRows([0u8; ROWS])
    }

    // The row of a version.
    fn row(&self, v: Version) -> &[u8]
        requires { v.0 < max_capacity }
        ensures { (result.now ≡ own_row self.now.0 v.0) × (length result.now ≡ row_size) }
    {
        row_in_sequence(&self.0, v)
    }

    /// Writes the row of version 0.
    pub fn put_root(&mut self)
        ensures { self.new.0 ≡ with_part self.old.0 0 (with_member (zeros row_size) 0) }
    {
        make_root(&mut self.0[..ROW]);
    }

    /// Writes the row of version v, whose parents are below it.
    pub fn put_row(&mut self, v: Version, node: Node)
        requires { (v.0 < max_capacity) × (node_in_range v.0 node ≡ true) }
        ensures { self.new.0 ≡ rows_with self.old.0 v.0 node }
    {
        match node {
            Node::Entry { parent, .. } => self.put_extended_row(v, parent),
            Node::Merge { receiver, giver } => self.put_joined_row(v, receiver, giver),
        }
    }

    // Writes the row of version v, an entry on p.
    fn put_extended_row(&mut self, v: Version, p: Version)
        requires { (p.0 < v.0) × (v.0 < max_capacity) }
        ensures { self.new.0 ≡ with_part self.old.0 (row_size * v.0) (with_member (own_row self.old.0 p.0) v.0) }
    {
        put_extended(&mut self.0, ROW * p.0, ROW * v.0, v.0);
    }

    // Writes the row of version v, a merge of q into p.
    fn put_joined_row(&mut self, v: Version, p: Version, q: Version)
        requires { (p.0 < v.0) × (q.0 < v.0) × (v.0 < max_capacity) }
        ensures { self.new.0 ≡ with_part self.old.0 (row_size * v.0) (with_member (union (own_row self.old.0 p.0) (own_row self.old.0 q.0)) v.0) }
    {
        put_extended_union(&mut self.0, ROW * p.0, ROW * q.0, ROW * v.0, v.0);
    }

    // The highest version that the rows of two versions have in common: their meet, where they have one.
    fn common_below(&self, p: Version, q: Version) -> Version
        requires { (p.0 < max_capacity) × (q.0 < max_capacity) }
        ensures { (result.0 ≡ highest_common (own_row self.now.0 p.0) (own_row self.now.0 q.0)) × (result.0 < max_capacity) }
    {
        highest_common(self.row(p), self.row(q))
    }

    /// The meet of two versions, where they have one.
    #[tactic(auto, unfolding(crate::specs::Rows::meet_field))]
    pub fn meet(&self, u: Version, v: Version) -> Option<Version>
        requires { (u.0 < max_capacity) × (v.0 < max_capacity) }
        ensures { (field_number result ≡ meet_field self.now.0 u.0 v.0) × (field_number result ≤ max_capacity) }
    {
        let h = self.common_below(u, v);
        is_intersection(self.row(h), self.row(u), self.row(v)).then_some(h)
    }

    // Whether two versions have a meet that is neither of them.
    #[tactic(auto, using(crate::proofs::Meets::serves_when), unfolding(crate::specs::Rows::meet_field))]
    fn has_base(&self, p: Version, q: Version) -> bool
        requires { (p.0 < max_capacity) × (q.0 < max_capacity) }
        ensures { result ≡ serves_as_base p.0 q.0 (head_from (meet_field self.now.0 p.0 q.0)) }
    {
        let h = self.common_below(p, q);
        is_base(h, p, q, self.row(h), self.row(p), self.row(q))
    }

    /// Whether the parents of version v, if it is a merge, have a base; they are below it.
    pub fn base_found(&self, v: Version, node: Node) -> bool
        requires { (v.0 < max_capacity) × (node_in_range v.0 node ≡ true) }
        ensures { result ≡ base_found self.now.0 node }
    {
        match node {
            Node::Entry { .. } => true,
            Node::Merge { receiver, giver } => self.has_base(receiver, giver),
        }
    }

    /// The base of version v, whose parents are below it; version 0 for an entry, which has none: what appends a version takes one.
    pub fn base_in(&self, v: Version, node: Node) -> Version
        requires { (v.0 < max_capacity) × (node_in_range v.0 node ≡ true) }
        ensures { result.0 ≡ base_in self.now.0 node }
    {
        match node {
            Node::Entry { .. } => Version(0),
            Node::Merge { receiver, giver } => self.common_below(receiver, giver),
        }
    }
}
