// The wall's view: a console's board as a part of the live store or of a frozen one beside it, where it lies and with no copy.
ghost use Rattle.std.specs.Prelude.{◌≡◌};
ghost use Rattle.unit.specs.Answers.{reply_of};
ghost use Rattle.unit.specs.Calls.{chosen, view_part, view_at_reply, view_address, view_refusal_reply};

use crate::Reply;
use crate::named::named_console;
use buffer::part_of;
use query::Store;
use refusal::{Refusal, refuse_if};
use store::places::{BOARD, board_at};

// The number of stores that a choice can name. It stays a number: one that names none still chooses where the part of length 0 lies
// (`view_address`).
const CHOICES: u32 = 2;

// The store that the choice names.
fn chosen_store<'a>(live: &'a [u8], frozen: &'a [u8], choice: u32) -> &'a [u8]
    ensures { (result.now ≡ chosen choice live.now frozen.now) × (result.ref_ptr ≡ chosen choice live.entry.ref_ptr frozen.entry.ref_ptr) }
{
    if choice == 0 {
        return live;
    }
    frozen
}

// Where in the store chosen the view begins, or why there is none.
#[tactic(auto, unfolding(crate::specs::Calls::view_at_reply, refusal::specs::Refusal::first_refusal), using(store::proofs::Whole::whole_small))]
fn view_at<'a>(live: &'a [u8], frozen: &'a [u8], console: u32, choice: u32) -> Result<u32, Refusal>
    ensures { reply_of result ≡ view_at_reply live.now frozen.now console choice }
{
    let c = named_console(console)?;
    refuse_if(Refusal::OperandTooHigh, CHOICES <= choice)?;
    let held = Store::read(chosen_store(live, frozen, choice))?;
    let head = held.head(c).ok_or(Refusal::ConsoleAbsent)?;
    Ok(board_at(head) as u32)
}

/// Where in the store chosen the view begins.
pub fn room_view_at<'a>(live: &'a [u8], frozen: &'a [u8], console: u32, choice: u32) -> Reply
    ensures { result ≡ view_at_reply live.now frozen.now console choice }
{
    Reply::from(view_at(live, frozen, console, choice))
}

/// The number with which the view is refused, or 0.
#[tactic(auto, unfolding(crate::specs::Calls::view_at_reply, crate::specs::Calls::view_refusal_reply, refusal::specs::Refusal::first_refusal))]
pub fn room_view_refusal<'a>(live: &'a [u8], frozen: &'a [u8], console: u32, choice: u32) -> Reply
    ensures { result ≡ view_refusal_reply live.now frozen.now console choice }
{
    Reply::from(view_at(live, frozen, console, choice).and(Ok(0)))
}

/// The view: a console's board, as a part of the store chosen; none of it where it is refused.
#[tactic(auto, unfolding(crate::specs::Calls::view_at_reply, crate::specs::Calls::view_part, refusal::specs::Refusal::first_refusal))]
pub fn room_view<'a>(live: &'a [u8], frozen: &'a [u8], console: u32, choice: u32) -> &'a [u8]
    ensures { (result.now ≡ view_part live.now frozen.now console choice) × (result.ref_ptr ≡ view_address live.entry.ref_ptr frozen.entry.ref_ptr live.now frozen.now console choice) }
{
    let store = chosen_store(live, frozen, choice);
    let Ok(at) = view_at(live, frozen, console, choice) else {
        return &store[..0];
    };
    part_of(store, at as usize, BOARD)
}
