// The call that executes a command.
ghost use Rattle.std.specs.Prelude.{◌≡◌, Ok};
ghost use Rattle.command.specs.Decoding.{InRange};
ghost use Rattle.unit.specs.Answers.{reply_of};
ghost use Rattle.unit.specs.Calls.{step_outcome, command_outcome};

use crate::Reply;
use command::Command;
use command::decoder::decode_command;
use query::Store;
use refusal::Refusal;
use step::changes::change;
use step::refusals::{refusal_of, version_free};

// Executes a command on the store in these bytes and counts the clashes of a merge, or says why not and changes nothing.
#[tactic(auto, unfolding(crate::specs::Calls::step_outcome, refusal::specs::Refusal::first_refusal, room::specs::Step::step_refusal), using(room::proofs::Clashes::few_counted))]
fn execute(bytes: &mut [u8], c: Command) -> Result<u32, Refusal>
    requires { InRange c }
    ensures { (reply_of result ≡ (step_outcome bytes.old (Ok c)).reply) × (bytes.new ≡ (step_outcome bytes.old (Ok c)).buffer) }
{
    let store = Store::read(bytes)?;
    refusal_of(&store, version_free(&store), c)?;
    Ok(change(bytes, c) as u32)
}

// Decodes a command whole and executes it.
#[tactic(auto, unfolding(crate::specs::Calls::command_outcome, crate::specs::Calls::step_outcome), using(command::proofs::Ranges::decode_range))]
fn decode_and_execute(bytes: &mut [u8], command: &[u8]) -> Result<u32, Refusal>
    ensures { (reply_of result ≡ (command_outcome bytes.old command.now).reply) × (bytes.new ≡ (command_outcome bytes.old command.now).buffer) }
{
    let decoded = decode_command(command);
    let Ok(c) = decoded else {
        return Err(decoded.unwrap_err());
    };
    execute(bytes, c)
}

/// Executes a command on a store, or answers with its refusal and changes nothing.
pub fn room_command(store: &mut [u8], command: &[u8]) -> Reply
    ensures { (result ≡ (command_outcome store.old command.now).reply) × (store.new ≡ (command_outcome store.old command.now).buffer) }
{
    Reply::from(decode_and_execute(store, command))
}
