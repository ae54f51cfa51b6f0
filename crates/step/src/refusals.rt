// The refusals of each command by the state of the room: a function for each group of tests, which answers with the first that applies.
#![tactic(auto, unfolding(refusal::specs::Refusal::first_refusal, room::specs::Step::state_tests))]

ghost use Rattle.std.specs.Prelude.{◌≡◌, ◌||◌, ◌<◌};
ghost use Rattle.refusal.specs.Refusal.{first_refusal};
ghost use Rattle.refusal.specs.Answer.{answer_of};
ghost use Rattle.command.specs.Code.{console_count};
ghost use Rattle.command.specs.Decoding.{InRange};
ghost use Rattle.room.specs.Step.{absent, beside_hub, version_free, receiver_giver_tests, fork_tests, entry_tests, merge_tests, fast_forward_tests, leave_tests, hub_tests, state_tests};

use crate::descends::{is_behind, some_other_descends};
use crate::third::some_third_splits;
use command::Command;
use graph::Console;
use query::Store;
use refusal::{Refusal, refuse_if};
use store::hub::hub_right;
use store::rows::Rows;

// Whether one of two consoles is absent.
fn one_is_absent(store: &Store, c: Console, d: Console) -> bool
    requires { (c.0 < console_count) × (d.0 < console_count) }
    ensures { result ≡ (absent store.now c.0 || absent store.now d.0) }
{
    !store.is_present(c) | !store.is_present(d)
}

// Whether the room has a hub, and a console is not it.
fn beside_hub(store: &Store, c: Console) -> bool
    ensures { result ≡ beside_hub store.now c.0 }
{
    store.settings().hub & (c != Console(0))
}

/// Whether a version is free.
pub fn version_free(store: &Store) -> bool
    ensures { result ≡ version_free store.now }
{
    store.version_count() < store.settings().capacity
}

// What refuses a merge and a fast-forward alike.
fn receiver_giver_refusal(store: &Store, receiver: Console, giver: Console) -> Result<(), Refusal>
    requires { (receiver.0 < console_count) × (giver.0 < console_count) }
    ensures { answer_of result ≡ first_refusal (receiver_giver_tests store.now receiver.0 giver.0) }
{
    refuse_if(
        Refusal::ConsoleAbsent,
        one_is_absent(store, receiver, giver),
    )?;
    refuse_if(
        Refusal::NotThroughHub,
        beside_hub(store, receiver) & beside_hub(store, giver),
    )?;
    refuse_if(Refusal::GiverBehind, is_behind(store, giver, receiver))
}

// What refuses a fork.
fn fork_refusal(store: &Store, new: Console, old: Console) -> Result<(), Refusal>
    requires { (new.0 < console_count) × (old.0 < console_count) }
    ensures { answer_of result ≡ first_refusal (fork_tests store.now new.0 old.0) }
{
    refuse_if(Refusal::ConsoleAbsent, !store.is_present(old))?;
    refuse_if(Refusal::ConsolePresent, store.is_present(new))?;
    refuse_if(Refusal::NotThroughHub, beside_hub(store, old))
}

// What refuses an entry, given whether a version is free.
fn entry_refusal(store: &Store, free: bool, console: Console) -> Result<(), Refusal>
    requires { console.0 < console_count }
    ensures { answer_of result ≡ first_refusal (entry_tests store.now free console.0) }
{
    refuse_if(Refusal::ConsoleAbsent, !store.is_present(console))?;
    refuse_if(Refusal::Full, !free)
}

// What refuses a merge, given whether a version is free. A third console is asked about only where both are present.
fn merge_refusal(
    store: &Store,
    free: bool,
    receiver: Console,
    giver: Console,
) -> Result<(), Refusal>
    requires { (receiver.0 < console_count) × (giver.0 < console_count) }
    ensures { answer_of result ≡ first_refusal (merge_tests store.now free receiver.0 giver.0) }
{
    receiver_giver_refusal(store, receiver, giver)?;
    refuse_if(Refusal::ReceiverBehind, is_behind(store, receiver, giver))?;
    refuse_if(
        Refusal::ThirdConsole,
        some_third_splits(store, receiver, giver),
    )?;
    refuse_if(Refusal::Full, !free)
}

// What refuses a fast-forward.
fn forward_refusal(store: &Store, receiver: Console, giver: Console) -> Result<(), Refusal>
    requires { (receiver.0 < console_count) × (giver.0 < console_count) }
    ensures { answer_of result ≡ first_refusal (fast_forward_tests store.now receiver.0 giver.0) }
{
    receiver_giver_refusal(store, receiver, giver)?;
    refuse_if(Refusal::NotBehind, !is_behind(store, receiver, giver))
}

// What refuses a leave.
fn leave_refusal(store: &Store, console: Console) -> Result<(), Refusal>
    requires { console.0 < console_count }
    ensures { answer_of result ≡ first_refusal (leave_tests store.now console.0) }
{
    refuse_if(Refusal::ConsoleAbsent, !store.is_present(console))?;
    refuse_if(Refusal::BehindNoOther, !some_other_descends(store, console))
}

// What refuses that console 0 is made the hub.
#[tactic(auto, unfolding(refusal::specs::Refusal::first_refusal), using(crate::proofs::Hub::hub_asks))]
fn hub_refusal(store: &Store) -> Result<(), Refusal>
    ensures { answer_of result ≡ first_refusal (hub_tests store.now) }
{
    let bytes = store.bytes();
    let can_be = hub_right(bytes, &Rows::InBlocks(bytes), true);
    refuse_if(Refusal::HubLacksCommon, !can_be)
}

/// The first refusal of a command by the state of the room, given whether a version is free.
pub fn refusal_of(store: &Store, free: bool, c: Command) -> Result<(), Refusal>
    requires { InRange c }
    ensures { answer_of result ≡ first_refusal (state_tests store.now free c) }
{
    match c {
        Command::Fork { new, old } => fork_refusal(store, new, old),
        Command::Entry { console, .. } => entry_refusal(store, free, console),
        Command::Merge { receiver, giver } => merge_refusal(store, free, receiver, giver),
        Command::FastForward { receiver, giver } => forward_refusal(store, receiver, giver),
        Command::Leave { console } => leave_refusal(store, console),
        Command::MakeHub => hub_refusal(store),
    }
}
