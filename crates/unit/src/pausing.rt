// The call that writes the pause tape of a store.
ghost use Rattle.std.specs.Prelude.{◌≡◌};
ghost use Rattle.unit.specs.Answers.{reply_of};
ghost use Rattle.unit.specs.Calls.{pause_outcome};

use crate::Reply;
use pause::{tape_length, write_tape};
use query::Store;
use refusal::{Refusal, refuse_if};

// Writes the tape of a store over the front of the output and answers its length, or says why not and writes nothing.
#[tactic(auto, unfolding(crate::specs::Calls::pause_outcome, refusal::specs::Refusal::first_refusal))]
fn pause(bytes: &[u8], tape: &mut [u8]) -> Result<u32, Refusal>
    ensures { (reply_of result ≡ (pause_outcome bytes.now tape.old).reply) × (tape.new ≡ (pause_outcome bytes.now tape.old).buffer) }
{
    let store = Store::read(bytes)?;
    let length = tape_length(&store);
    refuse_if(Refusal::BufferTooShort, tape.len() < length)?;
    write_tape(&store, tape);
    Ok(length as u32)
}

/// Writes the tape of a store over the front of the lent output; the count is the tape's length.
pub fn room_pause(store: &[u8], tape: &mut [u8]) -> Reply
    ensures { (result ≡ (pause_outcome store.now tape.old).reply) × (tape.new ≡ (pause_outcome store.now tape.old).buffer) }
{
    Reply::from(pause(store, tape))
}
