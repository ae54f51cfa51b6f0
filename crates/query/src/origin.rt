// Where a level or heading comes from: the walk from a version of a sound store down to the entry that wrote the value.
ghost use Rattle.std.specs.Prelude.{◌≡◌, true, ◌<◌, ◌≤◌};
ghost use Rattle.std.proofs.Math.Option.{some};
ghost use Rattle.board.specs.Board.{strip_count};
ghost use Rattle.graph.specs.Graph.{version_count, node_of, merge};
ghost use Rattle.room.specs.Origin.{writes_cell, value_of, leads_to_giver, leads_to, origin_of};

use crate::Store;
use board::Cell;
use board::values::follows_giver;
use graph::{Node, Strip, Version};
use store::nodes::{read_base, read_node};

// Whether a version is an entry that writes a cell.
fn writes_cell(node: Node, strip: Strip, cell: Cell) -> bool
    ensures { result ≡ writes_cell cell strip.0 node }
{
    match node {
        Node::Entry {
            code,
            strip: entered,
            ..
        } => (code == cell.writing_code()) & (strip == entered),
        Node::Merge { .. } => false,
    }
}

impl<'a> Store<'a> {
    // The value of a cell that a version shows.
    fn value_of(&self, v: Version, strip: Strip, cell: Cell) -> usize
        requires { (v.0 < version_count self.now.versions) × (strip.0 < strip_count) }
        ensures { result ≡ value_of cell strip.0 self.now.versions v.0 }
    {
        cell.value_in(self.board_of(v), strip)
    }

    // Whether a version, a merge of these two, leads to the giver's: of the two sides' values the giver's alone differs from the base's.
    #[tactic(auto, using(crate::proofs::Answers::answers, crate::proofs::Origins::merges))]
    fn leads_to_giver(
        &self,
        v: Version,
        receiver: Version,
        giver: Version,
        strip: Strip,
        cell: Cell,
    ) -> bool
        requires { (node_of self.now.versions v.0 ≡ some (merge receiver.0 giver.0)) × (strip.0 < strip_count) }
        ensures { result ≡ leads_to_giver cell strip.0 self.now.versions receiver.0 giver.0 }
    {
        let base = self.value_of(read_base(self.bytes, v), strip, cell);
        let mine = self.value_of(receiver, strip, cell);
        let given = self.value_of(giver, strip, cell);
        follows_giver(base, mine, given)
    }

    // The version that a version leads to where it is not an entry that writes the cell.
    fn leads_to(&self, v: Version, node: Node, strip: Strip, cell: Cell) -> Version
        requires { (node_of self.now.versions v.0 ≡ some node) × (strip.0 < strip_count) }
        ensures { result.0 ≡ leads_to cell strip.0 self.now.versions node }
    {
        match node {
            Node::Entry { parent, .. } => parent,
            Node::Merge { receiver, giver } => {
                if self.leads_to_giver(v, receiver, giver, strip, cell) {
                    return giver;
                }
                receiver
            }
        }
    }

    // The version itself, or its parent where it is an entry that does not write the cell: the origin is the same. A walk that passes an entry
    // with each call makes half as many calls, on half the stack.
    fn past_entry(&self, u: Version, strip: Strip, cell: Cell) -> Version
        requires { u.0 < version_count self.now.versions }
        ensures { (origin_of cell strip.0 self.now.versions result.0 ≡ origin_of cell strip.0 self.now.versions u.0) × (result.0 ≤ u.0) }
    {
        if u.0 == 0 {
            return u;
        }
        let node = read_node(self.bytes, u);
        if writes_cell(node, strip, cell) {
            return u;
        }
        let Node::Entry { parent, .. } = node else {
            return u;
        };
        parent
    }

    /// The origin of a cell of a version's board: the entry that wrote it, or version 0 where none is met. The version falls at every call.
    // 0 is compared as a number: that the version falls is arithmetic, which does not read what a derived `==` says.
    #[tactic(auto, using(crate::proofs::Origins::walk))]
    pub fn origin_of(&self, v: Version, strip: Strip, cell: Cell) -> Version
        requires { (v.0 < version_count self.now.versions) × (strip.0 < strip_count) }
        ensures { result.0 ≡ origin_of cell strip.0 self.now.versions v.0 }
    {
        if v.0 == 0 {
            return Version(0);
        }
        let node = read_node(self.bytes, v);
        if writes_cell(node, strip, cell) {
            return v;
        }
        let next = self.leads_to(v, node, strip, cell);
        self.origin_of(self.past_entry(next, strip, cell), strip, cell)
    }
}
