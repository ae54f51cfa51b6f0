// The table of common versions of a tape's heads, in a header of its own: each head on its diagonal, each pair's meet by the rows of the versions.
ghost use Rattle.std.specs.Prelude.{◌≡◌, true, ℕ, ◌<◌, ◌≤◌};
ghost use Rattle.buffer.specs.Field.{zeros, part};
ghost use Rattle.graph.specs.Graph.{version_count};
ghost use Rattle.command.specs.Code.{console_count};
ghost use Rattle.room.specs.Sound.{max_capacity, heads_meet};
ghost use Rattle.store.specs.Layout.{header_size, commons_at, commons_size, common_table};
ghost use Rattle.store.specs.Check.{field_number, common_in};
ghost use Rattle.update.specs.Commons.{put_common};
ghost use Rattle.tape.specs.Tape.{room_of, consoles_rise, heads_named};
ghost use Rattle.tape.specs.Reader.{head_place};
ghost use Rattle.resume.specs.Rows.{RowsOf};
ghost use Rattle.resume.specs.Heads.{head_table, pair_field, pair_meets, with_pairs, console_meets, with_consoles, table_meets};

use crate::ranges::RangedTape;
use crate::rows::AncestryRows;
use command::numbers::CONSOLES;
use graph::{Console, Version};
use store::places::{HEADER, common_in};
use tape::reader::read_head;
use tape::whole::WholeTape;
use update::commons::{put_common, put_head};

// The common version of two consoles whose heads are x and y, where both are present and their heads have a meet.
fn pair_common(rows: &AncestryRows, x: Option<Version>, y: Option<Version>) -> Option<Version>
    requires { (field_number x ≤ max_capacity) × (field_number y ≤ max_capacity) }
    ensures { field_number result ≡ pair_field rows.now.0 (field_number x) (field_number y) }
{
    rows.meet(x?, y?)
}

// Writes the common version of two consoles, and says whether their heads, if both are present, have a meet.
fn build_pair(rows: &AncestryRows, header: &mut [u8; HEADER], c: Console, d: Console) -> bool
    requires c_lt_console_count { (c.0 < console_count) × (d.0 < console_count) }
    requires by_index { (common_in header.old c.0 c.0 ≤ max_capacity) × (common_in header.old d.0 d.0 ≤ max_capacity) }
    ensures { (result ≡ pair_meets rows.now.0 (common_in header.old c.0 c.0) (common_in header.old d.0 d.0)) × (header.new ≡ put_common header.old c.0 d.0 (pair_field rows.now.0 (common_in header.old c.0 c.0) (common_in header.old d.0 d.0))) }
{
    let x = common_in(header, c, c);
    let y = common_in(header, d, d);
    let common = pair_common(rows, x, y);
    put_common(header, c, d, common);
    x.is_none() | y.is_none() | common.is_some()
}

// Writes the fields of console c against the consoles below it, and says whether each two that are present have a common version.
fn build_console(rows: &AncestryRows, header: &mut [u8; HEADER], c: Console) -> bool
    requires c_lt_console_count { c.0 < console_count }
    requires by_index { (k : ℕ) → k < console_count → common_in header.old k k ≤ max_capacity }
    ensures { (result ≡ console_meets rows.now.0 header.old c.0 c.0) × (header.new ≡ with_pairs rows.now.0 header.old c.0 c.0) }
{
    let mut ok = true;
    for k in 0..c.0 {
        let met = build_pair(rows, header, c, Console(k));
        ok &= met;
    }
    ok
}

// Writes the fields of all pairs of consoles, and says whether each two that are present have a common version.
fn build_pairs(rows: &AncestryRows, header: &mut [u8; HEADER]) -> bool
    requires by_index { (k : ℕ) → k < console_count → common_in header.old k k ≤ max_capacity }
    ensures { (result ≡ table_meets rows.now.0 header.old console_count) × (header.new ≡ with_consoles rows.now.0 header.old console_count) }
{
    let mut ok = true;
    for c in 0..CONSOLES {
        let met = build_console(rows, header, Console(c));
        ok &= met;
    }
    ok
}

// Puts the heads of a whole tape, from the place of the first head record on, onto the diagonal of an empty header's table. It takes no
// tape in range: what that says of its tape is not at hand within the loop, and would be carried over in each step of the proof.
fn put_heads(tape: &WholeTape<'_>, from: usize, header: &mut [u8; HEADER])
    requires tape_value { (consoles_rise tape.now.heads ≡ true) × (heads_named tape.now.versions tape.now.heads ≡ true) }
    requires tape_bound { (version_count tape.now.versions ≤ max_capacity) × (from ≡ head_place tape.now 0) }
    requires header_value { header.old ≡ zeros header_size }
    ensures { header.new ≡ head_table tape.now.heads }
{
    let bytes = tape.bytes();
    let heads = tape.heads();
    let mut at = from;
    for j in 0..heads {
        let read = read_head(bytes, at);
        let head = read.value;
        put_head(header, head.console, Some(head.version));
        at = read.next;
    }
}

// Writes the table of common versions of a whole tape's heads into an empty header, and says whether every two heads have one. Left free:
// the header outside the table, and all of it where two heads have none.
pub fn build_commons(tape: &RangedTape<'_>, rows: &AncestryRows, header: &mut [u8; HEADER]) -> bool
    requires rows_of { RowsOf rows.now.0 tape.now.versions }
    requires header_value { header.old ≡ zeros header_size }
    ensures { (result ≡ heads_meet (room_of tape.now)) × (result ≡ true → part header.new commons_at commons_size ≡ common_table (room_of tape.now) 0 console_count) }
{
    let whole = tape.whole();
    put_heads(whole, tape.first_head(), header);
    build_pairs(rows, header)
}
