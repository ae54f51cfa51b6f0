// Whether lent bytes hold a sound store: the tests of the header, of the versions, of the consoles and of the hub, together.
ghost use Rattle.std.specs.Prelude.{◌≡◌, ◌&&◌, ℕ, ◌≤◌, ◌<◌, length};
ghost use Rattle.buffer.specs.Field.{word_at};
ghost use Rattle.command.specs.Code.{console_count};
ghost use Rattle.room.specs.Sound.{max_capacity};
ghost use Rattle.store.specs.Layout.{header_size, store_size, count_at, block_at, settings_in, holds_store};
ghost use Rattle.store.specs.Check.{common_in, spare_zero, rest_zero, consoles_right, heads_cover, contents_right, hub_right};

use crate::block_parts::Blocks;
use crate::consoles::{consoles_right, heads_reach_all};
use crate::hub::hub_right;
use crate::places::{COMMONS, COMMONS_END, COUNT, ENTRIES, HEADER, SPARE, store_size};
use crate::rows::Rows;
use crate::settings::{read_settings, settings_right};
use crate::version::versions_right;
use buffer::{is_zero, none_from, word_at};
use room::Settings;

// The spare bytes of the header are zero.
fn spare_right(s: &[u8]) -> bool
    requires { header_size ≤ length s.now }
    ensures { result ≡ spare_zero s.now }
{
    is_zero(&s[SPARE..ENTRIES]) & is_zero(&s[COMMONS_END..HEADER])
}

// Nothing stands past the last of n versions: no bit of the entry row, and no byte of the blocks that are free.
fn rest_right(s: &[u8], capacity: usize, n: usize) -> bool
    requires { (capacity ≤ max_capacity) × (n ≤ capacity) × (store_size capacity ≤ length s.now) }
    ensures { result ≡ rest_zero s.now capacity n }
{
    let from = store_size(n);
    let to = store_size(capacity);
    none_from(&s[ENTRIES..COMMONS], n) & is_zero(&s[from..to])
}

// Console 0 is present, and every version is an ancestor of a head.
fn heads_right(s: &[u8], n: usize) -> bool
    requires n_in_bounds { block_at n ≤ length s.now }
    requires by_index { (c : ℕ) → c < console_count → common_in s.now c c ≤ n }
    ensures { result ≡ heads_cover s.now n }
{
    (0 < word_at(s, COMMONS)) & heads_reach_all(s, &Rows::InBlocks(s), n)
}

// The table of commons is right, and its heads reach all of n versions.
fn table_right(s: &[u8], n: usize) -> bool
    requires { block_at n ≤ length s.now }
    ensures { result ≡ (consoles_right s.now n && heads_cover s.now n) }
{
    consoles_right(s, n) && heads_right(s, n)
}

// A store of this capacity with n versions.
#[tactic(auto, using(crate::proofs::Judged::grouped, crate::proofs::Judged::too_few, crate::proofs::Judged::too_many))]
fn contents_right(s: &[u8], capacity: usize, n: usize) -> bool
    requires { (capacity ≤ max_capacity) × (store_size capacity ≤ length s.now) }
    ensures { result ≡ contents_right s.now capacity n }
{
    if n < 1 || capacity < n {
        return false;
    }
    let blocks = Blocks { bytes: s, count: n };
    spare_right(s)
        && versions_right(&blocks, n - 1)
        && rest_right(s, capacity, n)
        && table_right(s, n)
}

// The versions, the consoles and the hub of a room that is set to what was read.
fn room_right(s: &[u8], settings: Settings) -> bool
    requires { (settings ≡ settings_in s.now) × (settings.capacity ≤ max_capacity) × (store_size settings.capacity ≤ length s.now) }
    ensures { result ≡ (contents_right s.now settings.capacity (word_at s.now count_at) && hub_right s.now) }
{
    contents_right(s, settings.capacity, word_at(s, COUNT))
        && hub_right(s, &Rows::InBlocks(s), settings.hub)
}

/// Whether lent bytes hold a sound store at their front.
#[tactic(auto, using(crate::proofs::Judged::too_short_lem, crate::proofs::Judged::out_of_range, crate::proofs::Judged::no_room, crate::proofs::Judged::contents_decide))]
pub fn holds(s: &[u8]) -> bool
    ensures { result ≡ holds_store s.now }
{
    if s.len() < HEADER {
        return false;
    }
    let settings = read_settings(s);
    settings_right(s, settings)
        && store_size(settings.capacity) <= s.len()
        && room_right(s, settings)
}
