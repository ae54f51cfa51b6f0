// A store whose room gets its hub.
ghost use Rattle.std.specs.Prelude.{◌≡◌, true};
ghost use Rattle.buffer.specs.Field.{overwrite};
ghost use Rattle.room.specs.Sound.{can_make_hub};
ghost use Rattle.room.specs.Step.{hub_made};
ghost use Rattle.store.specs.Layout.{encode, room_in, holds_store};

use buffer::put_word;
use store::places::HUB;

// Makes console 0 the hub of the room. Where it is, nothing changes.
#[tactic(auto, using(store::proofs::Whole::whole_header, crate::proofs::HubStore::hub_store))]
pub fn make_hub(s: &mut [u8])
    requires s_value { holds_store s.old ≡ true }
    requires s_value_2 { can_make_hub (room_in s.old) ≡ true }
    ensures { s.new ≡ overwrite (encode (hub_made (room_in s.old))) s.old }
{
    put_word(s, HUB, 1);
}
