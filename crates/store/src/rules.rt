// The rules of one version, of its numbers and rows wherever they stand: in a store, or on a tape and in rows of its own.
ghost use Rattle.std.specs.Prelude.{◌≡◌, length};
ghost use Rattle.store.specs.Layout.{row_size};
ghost use Rattle.store.specs.Rules.{entry_ranges, both_below, node_in_range, is_base};

use buffer::is_intersection;
use command::numbers::{is_entry_code, is_operand, is_strip};
use graph::{Node, Strip, Version};

// Whether the numbers of version v, an entry on p, are in their ranges.
fn entry_in_range(v: Version, p: Version, code: usize, strip: Strip, operand: usize) -> bool
    ensures { result ≡ entry_ranges v.0 p.0 code strip.0 operand }
{
    is_entry_code(code) & is_strip(strip.0) & is_operand(code, operand) & (p < v)
}

// Whether both parents of version v, a merge of q into p, are below it.
fn both_below(v: Version, p: Version, q: Version) -> bool
    ensures { result ≡ both_below v.0 p.0 q.0 }
{
    (p < v) & (q < v)
}

// Whether the numbers of version v are in their ranges, whatever made it.
pub fn node_in_range(v: Version, node: Node) -> bool
    ensures { result ≡ node_in_range v.0 node }
{
    match node {
        Node::Entry {
            parent,
            code,
            strip,
            operand,
        } => entry_in_range(v, parent, code, strip, operand),
        Node::Merge { receiver, giver } => both_below(v, receiver, giver),
    }
}

// Whether l is the base of a merge of q into p, by the rows of the three.
pub fn is_base(l: Version, p: Version, q: Version, base: &[u8], mine: &[u8], given: &[u8]) -> bool
    requires base_len { length base.now ≡ row_size }
    requires mine_len { length mine.now ≡ row_size }
    requires given_len { length given.now ≡ row_size }
    ensures { result ≡ is_base l.0 p.0 q.0 base.now mine.now given.now }
{
    (l != p) & (l != q) & is_intersection(base, mine, given)
}
