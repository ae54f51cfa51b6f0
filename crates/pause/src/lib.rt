// Pause: the tape of a store, its length and its bytes. A store is read version by version and console by console, and each record is
// written behind the one before.
#![tactic(auto)]

mod measure;
mod write;

ghost use Rattle.std.specs.Prelude.{◌≡◌, ◌≤◌, length};
ghost use Rattle.buffer.specs.Field.{overwrite};
ghost use Rattle.tape.specs.Tape.{tape_of};
ghost use Rattle.pause.specs.Pieces.{longest_tape};

use command::codes::{END_RECORD, START_RECORD};
use query::Store;
use tape::lengths::coded_length;
use tape::writer::{put_end_record, put_start_record};

/// How many bytes the tape of a store takes.
#[tactic(auto, unfolding(command::specs::Code::shape_of, command::specs::Code::length_of), using(crate::proofs::Tapes::blocks_lie, crate::proofs::Tapes::tape_size))]
pub fn tape_length(store: &Store) -> usize
    ensures { (result ≡ length (tape_of store.now)) × (result ≤ longest_tape) }
{
    coded_length(START_RECORD)
        + measure::versions_length(store.bytes(), store.version_count() - 1)
        + measure::heads_length(store)
        + measure::hub_records_length(store)
        + coded_length(END_RECORD)
}

/// Writes the tape of a store over the front of an output buffer.
#[tactic(auto, using(crate::proofs::Tapes::blocks_lie, crate::proofs::Tapes::tape_size))]
pub fn write_tape(store: &Store, tape: &mut [u8])
    requires { length (tape_of store.now) ≤ length tape.old }
    ensures { tape.new ≡ overwrite (tape_of store.now) tape.old }
{
    let bytes = store.bytes();
    let last = store.version_count() - 1;
    let versions = put_start_record(tape, store.settings());
    let heads = write::put_version_records(bytes, last, tape, versions);
    let hub = write::put_head_records(store, tape, heads);
    let end = write::put_hub_records(store, tape, hub);
    put_end_record(tape, end);
}
