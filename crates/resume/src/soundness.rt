// Refusal 10: whether the versions and heads of a tape in range give a sound room. Nothing is written but rows and a header of its own.
ghost use Rattle.std.specs.Prelude.{◌≡◌, true, ◌<◌, length};
ghost use Rattle.buffer.specs.Field.{zeros, part};
ghost use Rattle.graph.specs.Graph.{every_version, merge_has_base};
ghost use Rattle.command.specs.Code.{console_count};
ghost use Rattle.room.specs.Sound.{max_capacity, settings_in_range, sound_room};
ghost use Rattle.store.specs.Layout.{header_size, commons_at, commons_size, common_table};
ghost use Rattle.store.specs.Rules.{node_in_range};
ghost use Rattle.tape.specs.Tape.{room_of, in_range};
ghost use Rattle.tape.specs.Reader.{head_place};
ghost use Rattle.resume.specs.Ranges.{versions_in_range};
ghost use Rattle.resume.specs.Rows.{RowsOf};
ghost use Rattle.resume.specs.Versions.{rows_with, base_found};

use crate::commons::build_commons;
use crate::ranges::RangedTape;
use crate::rows::AncestryRows;
use command::codes::START_RECORD;
use graph::{Node, Version};
use store::consoles::heads_reach_all;
use store::hub::hub_right;
use store::places::HEADER;
use store::rows::Rows;
use tape::lengths::coded_length;
use tape::reader::read_version;
use tape::whole::WholeTape;

// Writes the row of version v, and says whether the parents of a merge have a base.
fn build_row(rows: &mut AncestryRows, v: Version, node: Node) -> bool
    requires { (v.0 < max_capacity) × (node_in_range v.0 node ≡ true) }
    ensures { (result ≡ base_found rows.old.0 node) × (rows.new.0 ≡ rows_with rows.old.0 v.0 node) }
{
    let based = rows.base_found(v, node);
    rows.put_row(v, node);
    based
}

// Writes the rows of a whole tape's versions, and says whether the parents of each merge have a base. The loop counts, as a tape is read by
// places and has no iterator.
fn build_rows(tape: &WholeTape<'_>, rows: &mut AncestryRows) -> bool
    requires tape_value { versions_in_range tape.now.versions ≡ true }
    requires versions_value { length tape.now.versions < max_capacity }
    ensures { (result ≡ every_version merge_has_base tape.now.versions) × RowsOf rows.new.0 tape.now.versions }
{
    rows.put_root();
    let bytes = tape.bytes();
    let versions = tape.versions();
    let mut at = coded_length(START_RECORD);
    let mut based = true;
    for k in 0..versions {
        let read = read_version(bytes, at);
        let here = build_row(rows, Version(k + 1), read.value);
        based = here & based;
        at = read.next;
    }
    based
}

/// Whether the room of a whole tape in range is sound. The rows of its versions are left in rows, and of a sound room the table of common
/// versions in header. Left free: the rows past the last version's, the header outside the table, and all of it where the room is not sound.
/// Both are lent and not returned, as rows are 128 KiB, which would be moved.
pub fn gives_sound_room(
    tape: &RangedTape<'_>,
    rows: &mut AncestryRows,
    header: &mut [u8; HEADER],
) -> bool
    requires header_value { header.old ≡ zeros header_size }
    ensures { (result ≡ sound_room (room_of tape.now)) × RowsOf rows.new.0 tape.now.versions × (result ≡ true → part header.new commons_at commons_size ≡ common_table (room_of tape.now) 0 console_count) }
{
    let whole = tape.whole();
    if !build_rows(whole, rows) {
        return false;
    }
    if !build_commons(tape, rows, header) {
        return false;
    }
    let versions = whole.versions();
    let hub = whole.settings().hub;
    let rows = Rows::InSequence(&rows.0);
    heads_reach_all(header, &rows, versions + 1) & hub_right(header, &rows, hub)
}
