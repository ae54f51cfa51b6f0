// The pause tape: its records, one after the other, and the room that they give. Other crates read and write versions and heads, and write the
// hub; no other matches a record.
#![tactic(auto)]

use graph::{Console, Node, Version};
use room::Settings;

pub mod lengths;
mod place;
pub mod reader;
pub mod scan;
pub mod whole;
pub mod writer;

/// A record of the tape; Hub says that console 0 is the room's hub. A code that is no record's, or too few bytes, is none, and is refused
/// with 7.
#[derive(Clone, Copy, Debug, PartialEq, Eq)]
pub enum Record {
    Start { settings: Settings },
    Version { node: Node },
    Head { console: Console, version: Version },
    Hub,
    End,
}

/// What was read of a tape, and the place past it.
#[derive(Clone, Copy, Debug, PartialEq, Eq)]
pub struct Read<T> {
    pub value: T,
    pub next: usize,
}
