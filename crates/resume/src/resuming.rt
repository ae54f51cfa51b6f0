// Resume of a tape: the refusals 7 to 10 and 19 in their order, all judged before a byte of the lent buffer is written.
#![tactic(auto, unfolding(refusal::specs::Refusal::first_refusal, crate::specs::Resumed::resumed_store))]

ghost use Rattle.std.specs.Prelude.{◌≡◌};
ghost use Rattle.std.proofs.Math.Option.{some};
ghost use Rattle.refusal.specs.Answer.{answer_of};
ghost use Rattle.tape.specs.Tape.{content_of};
ghost use Rattle.resume.specs.Resumed.{resume_refusal, resumed_store};

use crate::ranges::RangedTape;
use crate::rows::AncestryRows;
use crate::soundness::gives_sound_room;
use crate::writing::write_store;
use refusal::{Refusal, refuse_if};
use store::places::{HEADER, store_size};
use tape::scan::scan;
use tape::whole::WholeTape;

// Resumes a whole tape in range.
fn resume_ranged(tape: &RangedTape<'_>, store: &mut [u8]) -> Result<(), Refusal>
    ensures { (answer_of result ≡ resume_refusal (some tape.now) store.old) × (store.new ≡ resumed_store (some tape.now) store.old) }
{
    let mut rows = AncestryRows::new();
    let mut header = [0u8; HEADER];
    let sound = gives_sound_room(tape, &mut rows, &mut header);
    let whole = tape.whole();
    let short = store.len() < store_size(whole.settings().capacity);
    refuse_if(Refusal::TapeNotSound, !sound)?;
    refuse_if(Refusal::BufferTooShort, short)?;
    write_store(store, whole, &rows, &header);
    Ok(())
}

// Resumes a whole tape.
fn resume_whole(tape: WholeTape<'_>, store: &mut [u8]) -> Result<(), Refusal>
    ensures { (answer_of result ≡ resume_refusal (some tape.entry) store.old) × (store.new ≡ resumed_store (some tape.entry) store.old) }
{
    let ranged = RangedTape::of(tape)?;
    resume_ranged(&ranged, store)
}

/// Resumes the room of a tape, or says which refusal applies; the buffer is written only where none does.
pub fn resume_tape(tape: &[u8], store: &mut [u8]) -> Result<(), Refusal>
    ensures { (answer_of result ≡ resume_refusal (content_of tape.now) store.old) × (store.new ≡ resumed_store (content_of tape.now) store.old) }
{
    let whole = scan(tape)?;
    resume_whole(whole, store)
}
