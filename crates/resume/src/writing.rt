// The store of a tape's room, written over the front of a buffer: a fresh store, then version by version, then the fields of the header.
ghost use Rattle.std.specs.Prelude.{◌≡◌, true, ◌≤◌, length};
ghost use Rattle.buffer.specs.Field.{part, overwrite};
ghost use Rattle.command.specs.Code.{console_count};
ghost use Rattle.room.specs.Sound.{sound_room};
ghost use Rattle.store.specs.Layout.{header_size, store_size, commons_at, commons_size, common_table, encode};
ghost use Rattle.tape.specs.Tape.{room_of};
ghost use Rattle.resume.specs.Rows.{RowsOf};
ghost use Rattle.resume.specs.Writing.{with_header};

use crate::rows::AncestryRows;
use buffer::put_word;
use command::codes::START_RECORD;
use graph::Version;
use store::places::{COMMONS, COMMONS_END, COUNT, HEADER};
use tape::lengths::coded_length;
use tape::reader::read_version;
use tape::whole::WholeTape;
use update::append::append_version;
use update::open::open;

// Writes the number of versions and the table of commons of a header.
fn put_header(store: &mut [u8], count: usize, header: &[u8; HEADER])
    requires { header_size ≤ length store.old }
    ensures { store.new ≡ with_header store.old count header.now }
{
    put_word(store, COUNT, count);
    store[COMMONS..COMMONS_END].copy_from_slice(&header[COMMONS..COMMONS_END]);
}

/// Writes the store of a whole tape's room over the front of a buffer.
pub fn write_store(
    store: &mut [u8],
    tape: &WholeTape<'_>,
    rows: &AncestryRows,
    header: &[u8; HEADER],
)
    requires tape_value { (sound_room (room_of tape.now) ≡ true) × RowsOf rows.now.0 tape.now.versions }
    requires header_value { part header.now commons_at commons_size ≡ common_table (room_of tape.now) 0 console_count }
    requires capacity_in_bounds { store_size tape.now.settings.capacity ≤ length store.old }
    ensures { store.new ≡ overwrite (encode (room_of tape.now)) store.old }
{
    let settings = tape.settings();
    let bytes = tape.bytes();
    let versions = tape.versions();
    open(store, settings);
    let mut at = coded_length(START_RECORD);
    for k in 0..versions {
        let read = read_version(bytes, at);
        let node = read.value;
        let v = Version(k + 1);
        append_version(store, v, node, rows.base_in(v, node));
        at = read.next;
    }
    put_header(store, versions + 1, header);
}
