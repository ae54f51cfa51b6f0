// The call that resumes a pause tape.
ghost use Rattle.std.specs.Prelude.{◌≡◌};
ghost use Rattle.unit.specs.Calls.{resume_outcome};

use crate::Reply;
use resume::resuming::resume_tape;

/// Writes the store of a tape's room over the front of the lent buffer, where the tape and the buffer are not refused.
pub fn room_resume(tape: &[u8], store: &mut [u8]) -> Reply
    ensures { (result ≡ (resume_outcome tape.now store.old).reply) × (store.new ≡ (resume_outcome tape.now store.old).buffer) }
{
    Reply::from(resume_tape(tape, store).and(Ok(0)))
}
