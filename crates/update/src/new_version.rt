// The commands that make a version: an entry on a console's head, and a merge of one console into another.
#![tactic(auto, using(store::proofs::Whole::whole_header, crate::proofs::GrownStore::free_small, crate::proofs::GrownStore::free_fits))]

ghost use Rattle.std.specs.Prelude.{◌≡◌, true, false, ◌&&◌, ◌<◌};
ghost use Rattle.buffer.specs.Field.{overwrite};
ghost use Rattle.board.specs.Board.{strip_count};
ghost use Rattle.graph.specs.Graph.{entry, merge, version_count};
ghost use Rattle.command.specs.declared.Command.TheVariants.{Merge};
ghost use Rattle.command.specs.Code.{console_count, is_entry_code, is_operand};
ghost use Rattle.room.specs.Room.{present, head};
ghost use Rattle.room.specs.Step.{behind, beside_hub, some_third_splits, grown, clash_count};
ghost use Rattle.store.specs.Layout.{encode, room_in, holds_store};

use crate::append::{append_entry, append_merge};
use crate::commons::{join_commons, put_head};
use buffer::put_word;
use graph::{Console, Strip, Version};
use query::Store;
use store::places::COUNT;

// Makes an entry on a console's head.
pub fn enter(s: &mut [u8], c: Console, code: usize, strip: Strip, operand: usize)
    requires s_value { holds_store s.old ≡ true }
    requires c_lt_console_count { (c.0 < console_count) × (strip.0 < strip_count) }
    requires code_value { (is_entry_code code ≡ true) × (is_operand code operand ≡ true) }
    requires c_value { present (room_in s.old) c.0 ≡ true }
    requires s_bound { version_count (room_in s.old).versions < (room_in s.old).settings.capacity }
    ensures { s.new ≡ overwrite (encode (grown (room_in s.old) c.0 (entry (head (room_in s.old) c.0) code strip.0 operand))) s.old }
{
    let store = Store::new(s);
    let n = Version(store.version_count());
    let parent = store.head_of(c);
    append_entry(s, n, parent, code, strip, operand);
    put_word(s, COUNT, n.0 + 1);
    put_head(s, c, Some(n));
}

// Merges console d into console c, and counts the clashes.
pub fn merge(s: &mut [u8], c: Console, d: Console) -> usize
    requires s_value { holds_store s.old ≡ true }
    requires c_lt_console_count { (c.0 < console_count) × (d.0 < console_count) }
    requires c_value { (present (room_in s.old) c.0 ≡ true) × (present (room_in s.old) d.0 ≡ true) }
    requires c_value_2 { (behind (room_in s.old) d.0 c.0 ≡ false) × (behind (room_in s.old) c.0 d.0 ≡ false) }
    requires d_value { (some_third_splits (room_in s.old) c.0 d.0 ≡ false) × (beside_hub (room_in s.old) c.0 && beside_hub (room_in s.old) d.0 ≡ false) }
    requires s_bound { version_count (room_in s.old).versions < (room_in s.old).settings.capacity }
    ensures { (s.new ≡ overwrite (encode (grown (room_in s.old) c.0 (merge (head (room_in s.old) c.0) (head (room_in s.old) d.0)))) s.old) × (result ≡ clash_count (room_in s.old) (Merge c d)) }
{
    let store = Store::new(s);
    let next = Version(store.version_count());
    let receiver = store.head_of(c);
    let giver = store.head_of(d);
    let base = store.common_of(c, d);
    let clashes = append_merge(s, next, receiver, giver, base);
    put_word(s, COUNT, next.0 + 1);
    join_commons(s, c, d);
    put_head(s, c, Some(next));
    clashes
}
