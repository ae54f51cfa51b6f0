// The calls that ask a store for a number: a console's heard count, the common version of two consoles, where a level or heading comes from, and which
// two consoles can merge or fast-forward.
ghost use Rattle.std.specs.Prelude.{◌≡◌};
ghost use Rattle.unit.specs.Answers.{reply_of};
ghost use Rattle.unit.specs.Calls.{heard_reply, common_reply, origin_reply, mergeable_reply};

use crate::Reply;
use crate::named::{named_cell, named_console, named_strip};
use query::Store;
use refusal::{Refusal, refuse_if};
use step::mergeable::mergeable_pair;

// How many entries a console has heard, or why it cannot be asked.
#[tactic(auto, unfolding(crate::specs::Calls::heard_reply, refusal::specs::Refusal::first_refusal))]
fn heard(bytes: &[u8], console: u32) -> Result<u32, Refusal>
    ensures { reply_of result ≡ heard_reply bytes.now console }
{
    let c = named_console(console)?;
    let store = Store::read(bytes)?;
    refuse_if(Refusal::ConsoleAbsent, !store.is_present(c))?;
    Ok(store.heard_count(c) as u32)
}

// The common version of two consoles, or why they cannot be asked about.
#[tactic(auto, unfolding(crate::specs::Calls::common_reply, refusal::specs::Refusal::first_refusal), using(store::proofs::Whole::whole_small))]
fn common(bytes: &[u8], first: u32, second: u32) -> Result<u32, Refusal>
    ensures { reply_of result ≡ common_reply bytes.now first second }
{
    let c = named_console(first)?;
    let d = named_console(second)?;
    let store = Store::read(bytes)?;
    refuse_if(Refusal::ConsoleAbsent, !store.is_present(c))?;
    refuse_if(Refusal::ConsoleAbsent, !store.is_present(d))?;
    Ok(store.common_of(c, d).0 as u32)
}

// The entry behind a level or heading of a console's board, or why it cannot be asked about.
#[tactic(auto, unfolding(crate::specs::Calls::origin_reply, refusal::specs::Refusal::first_refusal, room::specs::Origin::origin), using(store::proofs::Whole::whole_small, room::proofs::Origins::origin_below))]
fn origin(bytes: &[u8], console: u32, strip: u32, cell: u32) -> Result<u32, Refusal>
    ensures { reply_of result ≡ origin_reply bytes.now console strip cell }
{
    let c = named_console(console)?;
    let strip = named_strip(strip)?;
    let cell = named_cell(cell)?;
    let store = Store::read(bytes)?;
    let head = store.head(c).ok_or(Refusal::ConsoleAbsent)?;
    let origin = store.origin_of(head, strip, cell);
    Ok(origin.0 as u32)
}

// The number of the first two that can merge or fast-forward, or of there being none.
#[tactic(auto, unfolding(crate::specs::Calls::mergeable_reply, refusal::specs::Refusal::first_refusal))]
fn mergeable(bytes: &[u8]) -> Result<u32, Refusal>
    ensures { reply_of result ≡ mergeable_reply bytes.now }
{
    Ok(usize::from(mergeable_pair(&Store::read(bytes)?)) as u32)
}

/// How many entries a console has heard.
pub fn room_heard(store: &[u8], console: u32) -> Reply
    ensures { result ≡ heard_reply store.now console }
{
    Reply::from(heard(store, console))
}

/// The common version of two consoles; of a console with itself, its head.
pub fn room_common(store: &[u8], first: u32, second: u32) -> Reply
    ensures { result ≡ common_reply store.now first second }
{
    Reply::from(common(store, first, second))
}

/// The entry behind a level or heading of a console's board, or version 0 where none is met.
pub fn room_origin(store: &[u8], console: u32, strip: u32, cell: u32) -> Reply
    ensures { result ≡ origin_reply store.now console strip cell }
{
    Reply::from(origin(store, console, strip, cell))
}

/// The first two consoles of which one can merge or fast-forward to the other if versions are free; where there are none, whether all agree.
pub fn room_mergeable(store: &[u8]) -> Reply
    ensures { result ≡ mergeable_reply store.now }
{
    Reply::from(mergeable(store))
}
