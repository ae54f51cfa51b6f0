// What a room is set to, in the header of its store.
ghost use Rattle.std.specs.Prelude.{◌≡◌, ◌&&◌, ◌<◌, ◌≤◌, leb, length};
ghost use Rattle.buffer.specs.Field.{word_at, with_part};
ghost use Rattle.room.specs.Sound.{settings_in_range};
ghost use Rattle.store.specs.Layout.{header_size, settings_at, hub_at, hub_number, settings_bytes, settings_in};

use crate::places::{CAPACITY, HUB, MAX_CAPACITY};
use buffer::{put_word, word_at};
use room::Settings;

// Whether a room can be set to these.
pub fn settings_in_range(settings: Settings) -> bool
    ensures { result ≡ settings_in_range settings }
{
    (1 <= settings.capacity) & (settings.capacity <= MAX_CAPACITY)
}

// What the room in these bytes is set to.
pub fn read_settings(s: &[u8]) -> Settings
    requires { header_size ≤ length s.now }
    ensures { (result ≡ settings_in s.now) × (result.capacity < 65536) }
{
    Settings {
        capacity: word_at(s, CAPACITY),
        hub: word_at(s, HUB) == 1,
    }
}

// Whether the room in these bytes can be set to what was read, and its hub's field is 0 or 1.
pub fn settings_right(s: &[u8], settings: Settings) -> bool
    requires { header_size ≤ length s.now }
    ensures { result ≡ (settings_in_range settings && leb (word_at s.now hub_at) 1) }
{
    settings_in_range(settings) & (word_at(s, HUB) <= 1)
}

// Writes what a room is set to into its header.
pub fn put_settings(s: &mut [u8], settings: Settings)
    requires { header_size ≤ length s.old }
    ensures { s.new ≡ with_part s.old settings_at (settings_bytes settings) }
{
    put_word(s, CAPACITY, settings.capacity);
    put_word(s, HUB, usize::from(settings.hub));
}
