// Which two consoles can merge or fast-forward.
ghost use Rattle.std.specs.Prelude.{◌≡◌, ℕ, ◌<◌};
ghost use Rattle.command.specs.Code.{console_count};
ghost use Rattle.command.specs.Decoding.{InRange};
ghost use Rattle.room.specs.Mergeable.{accepted_if_free, pair_number, first_with_receiver, first_pair, agrees, heads_agree, without_pair, mergeable};
ghost use Rattle.step.specs.Verdict.{number_of_found, number_of_verdict};

use crate::refusals::refusal_of;
use crate::verdict::{Pair, Verdict, Way};
use command::Command;
use command::numbers::CONSOLES;
use graph::Console;
use query::Store;

// Whether a command would be accepted if versions were free.
fn accepted_if_free(store: &Store, c: Command) -> bool
    requires { InRange c }
    ensures { result ≡ accepted_if_free store.now c }
{
    refusal_of(store, true, c).is_ok()
}

// The pair of these two, where a merge or a fast-forward would be accepted if versions were free. Where the receiver is the higher of the two a merge is
// not tried: two consoles can merge either way round, and the other way round they are no pair.
#[tactic(auto, using(crate::proofs::Verdicts::pair_numbers))]
fn pair_of(store: &Store, receiver: Console, giver: Console) -> Option<Pair>
    requires in_range { (receiver.0 < console_count) × (giver.0 < console_count) }
    requires not_the_other_way { giver.0 < receiver.0 → pair_number store.now giver.0 receiver.0 ≡ 0 }
    ensures { number_of_found result ≡ pair_number store.now receiver.0 giver.0 }
{
    if receiver == giver {
        return None;
    }
    let way = if accepted_if_free(store, Command::FastForward { receiver, giver }) {
        Way::FastForward
    } else if receiver < giver && accepted_if_free(store, Command::Merge { receiver, giver }) {
        Way::Merge
    } else {
        return None;
    };
    Some(Pair {
        receiver,
        giver,
        way,
    })
}

// The first pair with this receiver, where there is none with a lower one. A loop, as in `first_pair`, with whose proof it shares all.
#[tactic(auto, using(crate::proofs::Search::none_so_far))]
fn first_with_receiver(store: &Store, receiver: Console) -> Option<Pair>
    requires in_range { receiver.0 < console_count }
    requires no_lower { (lower : ℕ) → lower < receiver.0 → first_with_receiver store.now lower ≡ 0 }
    ensures { number_of_found result ≡ first_with_receiver store.now receiver.0 }
{
    for giver in 0..CONSOLES {
        let pair = pair_of(store, receiver, Console(giver));
        if pair.is_some() {
            return pair;
        }
    }
    None
}

// The first pair. A loop and no `find_map`: that no lower receiver has a pair is known where the one before was looked at, and in no closure.
#[tactic(auto, unfolding(room::specs::Mergeable::first_pair), using(crate::proofs::Search::none_so_far))]
fn first_pair(store: &Store) -> Option<Pair>
    ensures { number_of_found result ≡ first_pair store.now }
{
    for receiver in 0..CONSOLES {
        let pair = first_with_receiver(store, Console(receiver));
        if pair.is_some() {
            return pair;
        }
    }
    None
}

// Whether a console is absent or on the version that console 0 is on.
fn agrees(store: &Store, c: Console) -> bool
    requires { c.0 < console_count }
    ensures { result ≡ agrees store.now c.0 }
{
    !store.is_present(c) | (store.head_of(c) == store.head_of(Console(0)))
}

// Whether every head is one version.
fn heads_agree(store: &Store) -> bool
    ensures { result ≡ heads_agree store.now }
{
    (0..CONSOLES).all(|c| agrees(store, Console(c)))
}

// What is answered where there is no pair.
fn without_pair(store: &Store) -> Verdict
    ensures { number_of_verdict result ≡ without_pair store.now }
{
    if heads_agree(store) {
        return Verdict::AllAgree;
    }
    Verdict::Stuck
}

/// The first pair, or why there is none.
#[tactic(auto, using(room::proofs::Mergeable::pair_answered, room::proofs::Mergeable::none_answered))]
pub fn mergeable_pair(store: &Store) -> Verdict
    ensures { number_of_verdict result ≡ mergeable store.now }
{
    match first_pair(store) {
        Some(pair) => Verdict::First(pair),
        None => without_pair(store),
    }
}
