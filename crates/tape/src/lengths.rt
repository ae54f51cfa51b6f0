// How many bytes each record takes, its code included. The widths of what follows a code stand in `command` alone.
ghost use Rattle.std.specs.Prelude.{◌≡◌, ◌≤◌, length};
ghost use Rattle.command.specs.Code.{shape_of, length_of};
ghost use Rattle.tape.specs.Record.{version_bytes, longest_record};

use command::codes::{ENTRY_RECORD, MERGE_RECORD};
use command::decoder::{length_of, widths_of};
use graph::Node;

/// How many bytes a code and what follows it take; 0 for an unknown code.
#[tactic(auto, using(command::proofs::Shapes::narrow_shape))]
pub fn coded_length(code: usize) -> usize
    ensures { result ≡ length_of (shape_of code) }
{
    length_of(widths_of(code))
}

/// The length of the record of a version.
#[tactic(auto, unfolding(command::specs::Code::shape_of, command::specs::Code::length_of))]
pub fn version_length(node: Node) -> usize
    ensures { (result ≡ length (version_bytes node)) × (result ≤ longest_record) }
{
    match node {
        Node::Entry { .. } => coded_length(ENTRY_RECORD),
        Node::Merge { .. } => coded_length(MERGE_RECORD),
    }
}
