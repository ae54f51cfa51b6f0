// Where the parts of a store stand in its bytes.
ghost use Rattle.std.specs.Prelude.{◌≡◌, ◌+◌, suc, ◌%◌, ◌^◌, ◌<◌, ◌≤◌, length};
ghost use Rattle.buffer.specs.Field.{put_word};
ghost use Rattle.board.specs.Board.{board_size};
ghost use Rattle.command.specs.Code.{console_count};
ghost use Rattle.store.specs.Layout.{header_size, row_size, store_size, block_at, row_at, board_at, common_at};
ghost use Rattle.store.specs.Check.{row_part, board_part, entries_part, field_number, common_in};

use board::BOARD_SIZE;
use buffer::{part_of, put_word, word_at};
use command::numbers::CONSOLES;
use graph::{Console, Version};

// The most versions that a store can hold.
pub const MAX_CAPACITY: usize = 1024;

// Sizes in bytes. A row has a bit for each version that a store can hold, a block is a node, a row and a board.
pub const HEADER: usize = 4096;

pub const NODE: usize = 32;

pub const ROW: usize = MAX_CAPACITY / 8;

pub const BOARD: usize = BOARD_SIZE;

pub const BLOCK: usize = NODE + ROW + BOARD;

// Places in the header: what the room is set to, the number of versions, the spare bytes behind them, the row of entries, the table of
// commons and its end.
pub const CAPACITY: usize = 0;

pub const HUB: usize = CAPACITY + 2;

const SETTINGS_END: usize = HUB + 2;

pub const COUNT: usize = SETTINGS_END;

pub const SPARE: usize = COUNT + 2;

pub const ENTRIES: usize = 128;

pub const COMMONS: usize = ENTRIES + ROW;

pub const COMMONS_END: usize = COMMONS + 2 * CONSOLES * CONSOLES;

// How many bytes a store of a capacity takes.
pub fn store_size(capacity: usize) -> usize
    requires { store_size capacity < 2 ^ 64 }
    ensures { result ≡ store_size capacity }
{
    HEADER + BLOCK * capacity
}

// The place of the block of a version.
pub fn block_at(v: Version) -> usize
    requires { block_at v.0 < 2 ^ 64 }
    ensures { result ≡ block_at v.0 }
{
    HEADER + BLOCK * v.0
}

// The place of the row of a version.
pub fn row_at(v: Version) -> usize
    requires { row_at v.0 < 2 ^ 64 }
    ensures { result ≡ row_at v.0 }
{
    block_at(v) + NODE
}

// The place of the board of a version.
pub fn board_at(v: Version) -> usize
    requires { board_at v.0 < 2 ^ 64 }
    ensures { result ≡ board_at v.0 }
{
    row_at(v) + ROW
}

// The place of the field of two consoles in the table of commons.
pub fn common_at(c: Console, d: Console) -> usize
    requires { (c.0 < console_count) × (d.0 < console_count) }
    ensures { result ≡ common_at c.0 d.0 }
{
    COMMONS + 2 * (CONSOLES * c.0 + d.0)
}

// The version that a field of the table of commons stands for.
fn version_of(field: usize) -> Option<Version>
    ensures { field_number result ≡ field }
{
    field.checked_sub(1).map(Version)
}

// The field that stands for a version: 1 more, or 0 for none. A field keeps 16 bits of it, so the highest number of all may wrap.
fn field_of(version: Option<Version>) -> usize
    ensures { result ≡ field_number version % 2 ^ 64 }
{
    version.map_or(0, |v| v.0.wrapping_add(1))
}

/// The common version of two consoles, where both are present; of a console with itself, its head.
pub fn common_in(s: &[u8], c: Console, d: Console) -> Option<Version>
    requires header_size_in_bounds { header_size ≤ length s.now }
    requires c_lt_console_count { (c.0 < console_count) × (d.0 < console_count) }
    ensures { (field_number result ≡ common_in s.now c.0 d.0) × (field_number result < 65536) }
{
    version_of(word_at(s, common_at(c, d)))
}

/// Writes the common version of two consoles, or that they have none, at the first of its two places; of a console with itself, its head.
pub fn put_field(s: &mut [u8], c: Console, d: Console, version: Option<Version>)
    requires header_size_in_bounds { header_size ≤ length s.old }
    requires c_lt_console_count { (c.0 < console_count) × (d.0 < console_count) }
    ensures { s.new ≡ put_word s.old (common_at c.0 d.0) (field_number version) }
{
    put_word(s, common_at(c, d), field_of(version));
}

// The row of a version in the blocks of a store, where the row lies in the bytes.
pub(crate) fn row_in_blocks(store: &[u8], v: Version) -> &[u8]
    requires { row_at v.0 + row_size ≤ length store.now }
    ensures { (result.now ≡ row_part store.now v.0) × (length result.now ≡ row_size) }
{
    part_of(store, row_at(v), ROW)
}

// The row of a version whose block lies in the bytes.
pub fn row_part(s: &[u8], v: Version) -> &[u8]
    requires { block_at (suc v.0) ≤ length s.now }
    ensures { (result.now ≡ row_part s.now v.0) × (length result.now ≡ row_size) }
{
    row_in_blocks(s, v)
}

// The board of a version whose block lies in the bytes.
pub fn board_part(s: &[u8], v: Version) -> &[u8]
    requires { block_at (suc v.0) ≤ length s.now }
    ensures { (result.now ≡ board_part s.now v.0) × (length result.now ≡ board_size) }
{
    part_of(s, board_at(v), BOARD)
}

// The row of the entry versions.
pub fn entries_part(s: &[u8]) -> &[u8]
    requires { header_size ≤ length s.now }
    ensures { (result.now ≡ entries_part s.now) × (length result.now ≡ row_size) }
{
    part_of(s, ENTRIES, ROW)
}
