// What an accepted command does to a store.
ghost use Rattle.std.specs.Prelude.{◌≡◌, true};
ghost use Rattle.buffer.specs.Field.{overwrite};
ghost use Rattle.command.specs.Decoding.{InRange};
ghost use Rattle.room.specs.Step.{step_refusal, step, clash_count};
ghost use Rattle.store.specs.Layout.{encode, room_in, holds_store};

use command::Command;
use update::commons::{move_console, remove_console};
use update::hub::make_hub;
use update::new_version::{enter, merge};

/// Makes the change of a command that is not refused, and counts the clashes of a merge.
// It takes the bytes and no `Store`: between its writes they hold none.
#[tactic(auto, unfolding(room::specs::Step::step, room::specs::Step::clash_count, room::specs::Step::step_refusal, room::specs::Step::state_tests, refusal::specs::Refusal::first_refusal))]
pub fn change(s: &mut [u8], c: Command) -> usize
    requires s_value { holds_store s.old ≡ true }
    requires in_range { InRange c }
    requires c_value { step_refusal (room_in s.old) c ≡ 0 }
    ensures { (s.new ≡ overwrite (encode (step (room_in s.old) c)) s.old) × (result ≡ clash_count (room_in s.old) c) }
{
    match c {
        Command::Fork { new, old } => move_console(s, new, old),
        Command::Entry {
            console,
            code,
            strip,
            operand,
        } => enter(s, console, code, strip, operand),
        Command::Merge { receiver, giver } => return merge(s, receiver, giver),
        Command::FastForward { receiver, giver } => move_console(s, receiver, giver),
        Command::Leave { console } => remove_console(s, console),
        Command::MakeHub => make_hub(s),
    }
    0
}
