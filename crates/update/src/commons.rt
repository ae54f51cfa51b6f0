// The table of common versions changed in place for one console.
ghost use Rattle.std.specs.Prelude.{◌≡◌, true, false, ◌&&◌, ◌<◌, ◌≤◌, length};
ghost use Rattle.std.proofs.Math.Option.{none};
ghost use Rattle.buffer.specs.Field.{put_word, overwrite};
ghost use Rattle.graph.specs.Graph.{ancestor};
ghost use Rattle.command.specs.Code.{console_count};
ghost use Rattle.room.specs.Room.{head_of, present, head};
ghost use Rattle.room.specs.Step.{beside_hub, some_other_descends, moved};
ghost use Rattle.store.specs.Layout.{header_size, common_at, encode, room_in, holds_store};
ghost use Rattle.store.specs.Check.{field_number};
ghost use Rattle.update.specs.Commons.{put_common, put_other, put_others, joined_field};

use command::numbers::CONSOLES;
use graph::{Console, Version};
use store::places::{common_in, put_field};

/// Writes the common version of two consoles, or that they have none, at both of its places.
pub fn put_common(s: &mut [u8], c: Console, k: Console, common: Option<Version>)
    requires header_size_in_bounds { header_size ≤ length s.old }
    requires c_lt_console_count { (c.0 < console_count) × (k.0 < console_count) }
    ensures { s.new ≡ put_common s.old c.0 k.0 (field_number common) }
{
    put_field(s, c, k, common);
    put_field(s, k, c, common);
}

// Writes what console c has in common with another one; with itself it is its head, and stays.
#[tactic(auto, unfolding(crate::specs::Commons::put_other))]
fn put_other(s: &mut [u8], c: Console, k: Console, common: Option<Version>)
    requires header_size_in_bounds { header_size ≤ length s.old }
    requires c_lt_console_count { (c.0 < console_count) × (k.0 < console_count) }
    ensures { s.new ≡ put_other s.old c.0 k.0 (field_number common) }
{
    if k != c {
        put_common(s, c, k, common);
    }
}

// The later of what c and d have in common with k.
fn joined_field(s: &[u8], c: Console, d: Console, k: Console) -> Option<Version>
    requires header_size_in_bounds { header_size ≤ length s.now }
    requires c_lt_console_count { (c.0 < console_count) × (d.0 < console_count) × (k.0 < console_count) }
    ensures { field_number result ≡ joined_field s.now c.0 d.0 k.0 }
{
    common_in(s, c, k).max(common_in(s, d, k))
}

// Gives console c, at each other console, the later of its own common version and that of d.
pub fn join_commons(s: &mut [u8], c: Console, d: Console)
    requires header_size_in_bounds { header_size ≤ length s.old }
    requires c_lt_console_count { (c.0 < console_count) × (d.0 < console_count) }
    ensures { s.new ≡ put_others s.old c.0 (joined_field s.old c.0 d.0) console_count }
{
    for k in 0..CONSOLES {
        let common = joined_field(s, c, d, Console(k));
        put_other(s, c, Console(k), common);
    }
}

// Clears what console c has in common with each other one.
fn clear_commons(s: &mut [u8], c: Console)
    requires header_size_in_bounds { header_size ≤ length s.old }
    requires c_lt_console_count { c.0 < console_count }
    ensures { s.new ≡ put_others s.old c.0 (λ k. 0) console_count }
{
    for k in 0..CONSOLES {
        put_other(s, c, Console(k), None);
    }
}

/// Writes the head of a console, or that it is absent.
pub fn put_head(s: &mut [u8], c: Console, head: Option<Version>)
    requires header_size_in_bounds { header_size ≤ length s.old }
    requires c_lt_console_count { c.0 < console_count }
    ensures { s.new ≡ put_word s.old (common_at c.0 c.0) (field_number head) }
{
    put_field(s, c, c, head);
}

// Gives console c the head of console d: a fork or a fast-forward.
#[tactic(auto, using(store::proofs::Whole::whole_header))]
pub fn move_console(s: &mut [u8], c: Console, d: Console)
    requires s_value { holds_store s.old ≡ true }
    requires c_lt_console_count { (c.0 < console_count) × (d.0 < console_count) }
    requires d_value { present (room_in s.old) d.0 ≡ true }
    requires d_value_2 { present (room_in s.old) c.0 ≡ true → ancestor (room_in s.old).versions (head (room_in s.old) c.0) (head (room_in s.old) d.0) ≡ true }
    requires d_value_3 { beside_hub (room_in s.old) c.0 && beside_hub (room_in s.old) d.0 ≡ false }
    ensures { s.new ≡ overwrite (encode (moved (room_in s.old) c.0 (head_of (room_in s.old) d.0))) s.old }
{
    let head = common_in(s, d, d);
    join_commons(s, c, d);
    put_head(s, c, head);
}

// Takes console c, which is not console 0, out of the room: a leave.
#[tactic(auto, using(store::proofs::Whole::whole_header))]
pub fn remove_console(s: &mut [u8], c: Console)
    requires s_value { holds_store s.old ≡ true }
    requires c_lt_console_count { (c.0 < console_count) × (0 < c.0) }
    requires c_value { some_other_descends (room_in s.old) c.0 ≡ true }
    ensures { s.new ≡ overwrite (encode (moved (room_in s.old) c.0 none)) s.old }
{
    clear_commons(s, c);
    put_head(s, c, None);
}
