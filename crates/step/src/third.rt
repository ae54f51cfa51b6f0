// Refusal 17: whether a third console stands between two that are to be merged.
ghost use Rattle.std.specs.Prelude.{◌≡◌, true, ◌<◌};
ghost use Rattle.graph.specs.Graph.{version_count};
ghost use Rattle.command.specs.Code.{console_count};
ghost use Rattle.room.specs.Room.{present, common};
ghost use Rattle.room.specs.Step.{apart, splits, some_third_splits};

use command::numbers::CONSOLES;
use graph::{Console, Version};
use query::Store;

// Whether neither of two versions is an ancestor of the other. Only the lower can be one, so that one row is looked up.
#[tactic(auto, using(crate::proofs::Thirds::lower_apart, crate::proofs::Thirds::higher_apart))]
fn are_apart(store: &Store, u: Version, v: Version) -> bool
    requires { (u.0 < version_count store.now.versions) × (v.0 < version_count store.now.versions) }
    ensures { result ≡ apart store.now u.0 v.0 }
{
    if u < v {
        return !store.is_ancestor(u, v);
    }
    !store.is_ancestor(v, u)
}

// Whether the common versions of console k with two others are apart.
fn commons_apart(store: &Store, c: Console, d: Console, k: Console) -> bool
    requires in_range { (c.0 < console_count) × (d.0 < console_count) × (k.0 < console_count) }
    requires are_present { (present store.now c.0 ≡ true) × (present store.now d.0 ≡ true) × (present store.now k.0 ≡ true) }
    ensures { result ≡ apart store.now (common store.now k.0 c.0) (common store.now k.0 d.0) }
{
    are_apart(store, store.common_of(k, c), store.common_of(k, d))
}

// Whether console k is a third one whose common versions with the two are apart.
fn splits_at(store: &Store, c: Console, d: Console, k: Console) -> bool
    requires in_range { (c.0 < console_count) × (d.0 < console_count) × (k.0 < console_count) }
    requires are_present { (present store.now c.0 ≡ true) × (present store.now d.0 ≡ true) }
    ensures { result ≡ splits store.now c.0 d.0 k.0 }
{
    store.is_present(k) && k != c && k != d && commons_apart(store, c, d, k)
}

// Whether some third console splits two present ones.
pub fn some_third_splits(store: &Store, c: Console, d: Console) -> bool
    requires in_range { (c.0 < console_count) × (d.0 < console_count) }
    requires are_present { (present store.now c.0 ≡ true) × (present store.now d.0 ≡ true) }
    ensures { result ≡ some_third_splits store.now c.0 d.0 }
{
    (0..CONSOLES).any(|k| splits_at(store, c, d, Console(k)))
}
