// The records of a store's versions, heads and hub, written one behind the other.
ghost use Rattle.std.specs.Prelude.{◌≡◌, suc, ◌+◌, ◌<◌, ◌≤◌, length};
ghost use Rattle.buffer.specs.Field.{with_part};
ghost use Rattle.command.specs.Code.{console_count};
ghost use Rattle.room.specs.Sound.{max_capacity};
ghost use Rattle.store.specs.Layout.{block_at};
ghost use Rattle.tape.specs.Tape.{hub_records};
ghost use Rattle.pause.specs.Pieces.{version_pieces, head_piece, head_pieces};

use command::numbers::CONSOLES;
use graph::{Console, Version};
use query::Store;
use store::nodes::read_node;
use tape::writer::{put_head_record, put_hub_record, put_version_record};

// Writes the records of versions 1 to n from a place on, and says where they end. A loop: each record begins where the one before ends, in a tape that
// is lent to each.
#[tactic(auto, using(crate::proofs::Piled::piled_all))]
pub fn put_version_records(s: &[u8], n: usize, tape: &mut [u8], from: usize) -> usize
    requires n_lt_max_capacity { (n < max_capacity) × (block_at (suc n) ≤ length s.now) }
    requires n_in_bounds { from + length (version_pieces s.now n) ≤ length tape.old }
    ensures { (result ≡ from + length (version_pieces s.now n)) × (tape.new ≡ with_part tape.old from (version_pieces s.now n)) }
{
    let mut at = from;
    for k in 1..n + 1 {
        at = put_version_record(tape, at, read_node(s, Version(k)));
    }
    at
}

// Writes the head record of a console at a place, nothing where it is absent, and says where it ends.
fn put_console_record(store: &Store, c: Console, tape: &mut [u8], at: usize) -> usize
    requires in_range { c.0 < console_count }
    requires in_bounds { at + length (head_piece store.now c.0) ≤ length tape.old }
    ensures { (result ≡ at + length (head_piece store.now c.0)) × (tape.new ≡ with_part tape.old at (head_piece store.now c.0)) }
{
    if store.is_present(c) {
        return put_head_record(tape, at, c, store.head_of(c));
    }
    at
}

// Writes the head records from a place on, and says where they end.
#[tactic(auto, using(crate::proofs::Piled::piled_all))]
pub fn put_head_records(store: &Store, tape: &mut [u8], from: usize) -> usize
    requires { from + length (head_pieces store.now console_count) ≤ length tape.old }
    ensures { (result ≡ from + length (head_pieces store.now console_count)) × (tape.new ≡ with_part tape.old from (head_pieces store.now console_count)) }
{
    let mut at = from;
    for c in 0..CONSOLES {
        at = put_console_record(store, Console(c), tape, at);
    }
    at
}

// Writes the record of a hub at a place, nothing where there is none, and says where it ends.
pub fn put_hub_records(store: &Store, tape: &mut [u8], at: usize) -> usize
    requires { at + length (hub_records store.now.settings) ≤ length tape.old }
    ensures { (result ≡ at + length (hub_records store.now.settings)) × (tape.new ≡ with_part tape.old at (hub_records store.now.settings)) }
{
    if store.settings().hub {
        return put_hub_record(tape, at);
    }
    at
}
