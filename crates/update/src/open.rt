// A fresh store: version 0, and console 0 on it.
ghost use Rattle.std.specs.Prelude.{◌≡◌, ◌≤◌, length, true};
ghost use Rattle.buffer.specs.Field.{overwrite};
ghost use Rattle.room.specs.Room.{fresh_room};
ghost use Rattle.room.specs.Sound.{settings_in_range};
ghost use Rattle.store.specs.Layout.{store_size, encode};

use crate::commons::put_head;
use buffer::{clear, put_word};
use graph::{Console, Version};
use room::Settings;
use store::places::{COUNT, row_at, store_size};
use store::settings::put_settings;

// Writes the store of a fresh room over the front of a buffer.
pub fn open(s: &mut [u8], settings: Settings)
    requires settings_value { settings_in_range settings ≡ true }
    requires capacity_in_bounds { store_size settings.capacity ≤ length s.old }
    ensures { s.new ≡ overwrite (encode (fresh_room settings)) s.old }
{
    let end = store_size(settings.capacity);
    let row = row_at(Version(0));
    clear(&mut s[..end]);
    put_settings(s, settings);
    put_word(s, COUNT, 1);
    put_head(s, Console(0), Some(Version(0)));
    // version 0 is its own only ancestor
    s[row] = 1;
}
