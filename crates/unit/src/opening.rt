// The call that opens a room.
ghost use Rattle.std.specs.Prelude.{◌≡◌};
ghost use Rattle.room.specs.Room.{open_settings};
ghost use Rattle.unit.specs.Answers.{reply_of};
ghost use Rattle.unit.specs.Calls.{open_outcome};

use crate::Reply;
use refusal::{Refusal, refuse_if};
use room::Settings;
use store::places::store_size;
use store::settings::settings_in_range;
use update::open::open;

// What opening with this capacity sets a room to.
fn settings_for(capacity: u32) -> Settings
    ensures { result ≡ open_settings capacity }
{
    Settings {
        capacity: capacity as usize,
        hub: false,
    }
}

// Opens a room of this capacity in the buffer, or says why not and writes nothing.
#[tactic(auto, unfolding(crate::specs::Calls::open_outcome, refusal::specs::Refusal::first_refusal))]
fn open_room(capacity: u32, store: &mut [u8]) -> Result<u32, Refusal>
    ensures { (reply_of result ≡ (open_outcome capacity store.old).reply) × (store.new ≡ (open_outcome capacity store.old).buffer) }
{
    let settings = settings_for(capacity);
    refuse_if(Refusal::BadCapacity, !settings_in_range(settings))?;
    let too_short = store.len() < store_size(settings.capacity);
    refuse_if(Refusal::BufferTooShort, too_short)?;
    open(store, settings);
    Ok(0)
}

/// Opens a room: a store of version 0 with console 0 on it, at the front of the lent buffer.
pub fn room_open(capacity: u32, store: &mut [u8]) -> Reply
    ensures { (result ≡ (open_outcome capacity store.old).reply) × (store.new ≡ (open_outcome capacity store.old).buffer) }
{
    Reply::from(open_room(capacity, store))
}
