// The reader for other crates: the version or the head that the record at a place says, and the place past it.
ghost use Rattle.std.specs.Prelude.{◌≡◌, ◌≤◌, length, drop};
ghost use Rattle.tape.specs.Record.{record_in};
ghost use Rattle.tape.specs.Reader.{place_after, node_on, head_on};

use crate::place::read_at;
use crate::{Read, Record};
use graph::{Console, Node, Version};

/// A head that a tape says: a console, and the version that it is on.
#[derive(Clone, Copy, Debug, PartialEq, Eq)]
pub struct Head {
    pub console: Console,
    pub version: Version,
}

/// Reads the version whose record stands at a place. A caller knows that a version's does.
pub fn read_version(tape: &[u8], at: usize) -> Read<Node>
    requires { at ≤ length tape.now }
    ensures { (result.value ≡ node_on (record_in (drop at tape.now))) × (result.next ≡ place_after tape.now at) × (result.next ≤ length tape.now) }
{
    let read = read_at(tape, at);
    let found = read.value;
    let value = match found {
        Some(Record::Version { node }) => node,
        _ => Node::Merge {
            receiver: Version(0),
            giver: Version(0),
        },
    };
    Read {
        value,
        next: read.next,
    }
}

/// Reads the head whose record stands at a place. A caller knows that a head's does.
pub fn read_head(tape: &[u8], at: usize) -> Read<Head>
    requires { at ≤ length tape.now }
    ensures { (result.value.console.0 ≡ (head_on (record_in (drop at tape.now))).0) × (result.value.version.0 ≡ (head_on (record_in (drop at tape.now))).1) × (result.next ≡ place_after tape.now at) × (result.next ≤ length tape.now) }
{
    let read = read_at(tape, at);
    let found = read.value;
    let value = match found {
        Some(Record::Head { console, version }) => Head { console, version },
        _ => Head {
            console: Console(0),
            version: Version(0),
        },
    };
    Read {
        value,
        next: read.next,
    }
}
