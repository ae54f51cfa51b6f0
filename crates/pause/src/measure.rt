// How many bytes the records of a store's versions, heads and hub take.
ghost use Rattle.std.specs.Prelude.{◌≡◌, suc, ◌*◌, ◌<◌, ◌≤◌, length};
ghost use Rattle.command.specs.Code.{console_count};
ghost use Rattle.room.specs.Sound.{max_capacity};
ghost use Rattle.store.specs.Layout.{block_at};
ghost use Rattle.tape.specs.Record.{longest_record};
ghost use Rattle.tape.specs.Tape.{hub_records};
ghost use Rattle.tape.specs.Reader.{hub_length};
ghost use Rattle.pause.specs.Pieces.{version_pieces, head_piece, head_pieces};

use command::codes::{HEAD_RECORD, HUB_RECORD};
use command::numbers::CONSOLES;
use graph::{Console, Version};
use query::Store;
use store::nodes::read_node;
use tape::lengths::{coded_length, version_length};

// The length of the records of versions 1 to n.
pub fn versions_length(s: &[u8], n: usize) -> usize
    requires { (n < max_capacity) × (block_at (suc n) ≤ length s.now) }
    ensures { (result ≡ length (version_pieces s.now n)) × (result ≤ longest_record * n) }
{
    (1..n + 1)
        .map(|k| version_length(read_node(s, Version(k))))
        .sum()
}

// The length of the head record of a console; 0 where it is absent.
#[tactic(auto, using(crate::proofs::Pieces::present_piece, crate::proofs::Pieces::absent_piece))]
fn console_length(store: &Store, c: Console) -> usize
    requires { c.0 < console_count }
    ensures { result ≡ length (head_piece store.now c.0) }
{
    if store.is_present(c) {
        return coded_length(HEAD_RECORD);
    }
    0
}

// The length of the head records.
pub fn heads_length(store: &Store) -> usize
    ensures { (result ≡ length (head_pieces store.now console_count)) × (result ≤ longest_record * console_count) }
{
    (0..CONSOLES)
        .map(|c| console_length(store, Console(c)))
        .sum()
}

// The length of the record of a hub; 0 where there is none.
#[tactic(auto, unfolding(command::specs::Code::shape_of, command::specs::Code::length_of), using(crate::proofs::Pieces::hub_piece, crate::proofs::Pieces::no_hub_piece))]
pub fn hub_records_length(store: &Store) -> usize
    ensures { (result ≡ length (hub_records store.now.settings)) × (result ≤ hub_length) }
{
    if store.settings().hub {
        return coded_length(HUB_RECORD);
    }
    0
}
