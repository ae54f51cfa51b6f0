// Whether the head of a console is behind that of another one: of a certain one, and of any (refusal 21).
ghost use Rattle.std.specs.Prelude.{◌≡◌, ◌<◌};
ghost use Rattle.command.specs.Code.{console_count};
ghost use Rattle.room.specs.Step.{behind, other_descends, some_other_descends};

use command::numbers::CONSOLES;
use graph::Console;
use query::Store;

// Whether the head of c is an ancestor of the head of d, itself included.
pub fn is_behind(store: &Store, c: Console, d: Console) -> bool
    requires { (c.0 < console_count) × (d.0 < console_count) }
    ensures { result ≡ behind store.now c.0 d.0 }
{
    let own = store.head_of(c);
    let other = store.head_of(d);
    store.is_ancestor(own, other)
}

// Whether console d is another present one, and its head descends from the head of c, or is the same.
fn other_descends(store: &Store, c: Console, d: Console) -> bool
    requires { (c.0 < console_count) × (d.0 < console_count) }
    ensures { result ≡ other_descends store.now c.0 d.0 }
{
    store.is_present(d) & (d != c) & is_behind(store, c, d)
}

// Whether the head of some other console descends from that of c.
pub fn some_other_descends(store: &Store, c: Console) -> bool
    requires { c.0 < console_count }
    ensures { result ≡ some_other_descends store.now c.0 }
{
    (0..CONSOLES).any(|d| other_descends(store, c, Console(d)))
}
