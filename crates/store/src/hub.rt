// Whether console 0 can be the hub of a room: what every two consoles have in common is behind its head.
ghost use Rattle.std.specs.Prelude.{◌≡◌, not, ◌||◌, ℕ, pred, ◌<◌, ◌≤◌, length};
ghost use Rattle.graph.specs.Below.{every_below};
ghost use Rattle.command.specs.Code.{console_count};
ghost use Rattle.room.specs.Sound.{max_capacity};
ghost use Rattle.store.specs.Layout.{header_size, row_size};
ghost use Rattle.store.specs.Check.{common_in, common_in_row, commons_in_row};
ghost use Rattle.store.specs.Rows.{row_of, HasRow};

use crate::places::common_in;
use crate::rows::Rows;
use buffer::has_member;
use command::numbers::CONSOLES;
use graph::{Console, Version};

// Whether the common version of two consoles, where both are present, is a member of a row.
fn common_in_row(header: &[u8], members: &[u8], c: Console, d: Console) -> bool
    requires header_size_in_bounds { (header_size ≤ length header.now) × (length members.now ≡ row_size) }
    requires c_lt_console_count { (c.0 < console_count) × (d.0 < console_count) × (common_in header.now c.0 d.0 ≤ max_capacity) }
    ensures { result ≡ common_in_row header.now members.now c.0 d.0 }
{
    let Some(v) = common_in(header, c, d) else {
        return true;
    };
    has_member(members, v.0)
}

// Whether those of a console and each one below it are. (By `all` the calls were proved, but not what they say together.)
fn console_in_row(header: &[u8], members: &[u8], c: Console) -> bool
    requires header_size_in_bounds { (header_size ≤ length header.now) × (length members.now ≡ row_size) }
    requires c_lt_console_count { c.0 < console_count }
    requires by_index { (d : ℕ) → d < c.0 → common_in header.now c.0 d ≤ max_capacity }
    ensures { result ≡ every_below c.0 (common_in_row header.now members.now c.0) }
{
    for d in 0..c.0 {
        if !common_in_row(header, members, c, Console(d)) {
            return false;
        }
    }
    true
}

// Whether those of every two consoles are.
fn commons_in_row(header: &[u8], members: &[u8]) -> bool
    requires header_size_in_bounds { (header_size ≤ length header.now) × (length members.now ≡ row_size) }
    requires by_index { (c d : ℕ) → c < console_count → d < c → common_in header.now c d ≤ max_capacity }
    ensures { result ≡ commons_in_row header.now members.now }
{
    for c in 0..CONSOLES {
        if !console_in_row(header, members, Console(c)) {
            return false;
        }
    }
    true
}

/// Whether those of every two consoles are in the row of console 0's head, where the room has a hub. The table of commons is that of a header.
pub fn hub_right(header: &[u8], rows: &Rows, hub: bool) -> bool
    requires header_size_in_bounds { header_size ≤ length header.now }
    requires row_size_in_bounds { HasRow rows.now (pred (common_in header.now 0 0)) }
    requires by_index { (c d : ℕ) → c < console_count → d < c → common_in header.now c d ≤ max_capacity }
    ensures { result ≡ (not hub || commons_in_row header.now (row_of rows.now (pred (common_in header.now 0 0)))) }
{
    if !hub {
        return true;
    }
    let head = common_in(header, Console(0), Console(0));
    commons_in_row(header, rows.of(head.unwrap_or(Version(0))))
}
