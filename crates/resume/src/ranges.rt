// Refusals 8 and 9: whether what the room is set to and the numbers on a whole tape are in range, these version by version and then head by head.
ghost use Rattle.std.specs.Prelude.{◌≡◌, ◌&&◌, cond, true, Ok, Err};
ghost use Rattle.refusal.specs.declared.Refusal.TheVariants.{BadCapacity, TapeOutOfRange};
ghost use Rattle.graph.specs.Graph.{version_count};
ghost use Rattle.room.specs.Sound.{settings_in_range};
ghost use Rattle.tape.specs.Tape.{consoles_rise, heads_named, in_range};
ghost use Rattle.tape.specs.Reader.{head_place};
ghost use Rattle.resume.specs.Ranges.{versions_in_range, console_follows, head_in_range};

use command::codes::START_RECORD;
use command::numbers::is_console;
use graph::{Console, Version};
use refusal::{Refusal, refuse_if};
use std::marker::Model;
use store::rules::node_in_range;
use store::settings::settings_in_range;
use tape::lengths::coded_length;
use tape::reader::{Head, read_head, read_version};
use tape::whole::WholeTape;

// Whether a console may be that of the next head record, after that of the last one, if there was one.
fn console_follows(last: Option<Console>, c: Console) -> bool
    ensures { result ≡ console_follows last c.0 }
{
    match last {
        None => c == Console(0),
        Some(last) => (last < c) & is_console(c.0),
    }
}

// Whether a head may be that of the next head record.
fn head_in_range(last: Option<Console>, count: usize, head: Head) -> bool
    ensures { result ≡ head_in_range last count head.console.0 head.version.0 }
{
    console_follows(last, head.console) & (head.version.0 < count)
}

// Where the first head record of a whole tape stands, if its versions are in range.
fn past_versions(tape: &WholeTape<'_>) -> Result<usize, Refusal>
    ensures { result ≡ cond (versions_in_range tape.now.versions) (Ok (head_place tape.now 0)) (Err TapeOutOfRange) }
{
    let bytes = tape.bytes();
    let versions = tape.versions();
    let mut at = coded_length(START_RECORD);
    for k in 0..versions {
        let read = read_version(bytes, at);
        let in_range = node_in_range(Version(k + 1), read.value);
        refuse_if(Refusal::TapeOutOfRange, !in_range)?;
        at = read.next;
    }
    Ok(at)
}

// Refuses a whole tape whose heads are out of range. The first of them stands at `from`, and `count` versions before them.
fn heads_in_range(tape: &WholeTape<'_>, from: usize, count: usize) -> Result<(), Refusal>
    requires { (from ≡ head_place tape.now 0) × (count ≡ version_count tape.now.versions) }
    ensures { result ≡ cond (consoles_rise tape.now.heads && heads_named tape.now.versions tape.now.heads) (Ok tt) (Err TapeOutOfRange) }
{
    let bytes = tape.bytes();
    let heads = tape.heads();
    refuse_if(Refusal::TapeOutOfRange, heads == 0)?;
    let mut at = from;
    let mut last = None;
    for j in 0..heads {
        let read = read_head(bytes, at);
        let head = read.value;
        let in_range = head_in_range(last, count, head);
        refuse_if(Refusal::TapeOutOfRange, !in_range)?;
        last = Some(head.console);
        at = read.next;
    }
    Ok(())
}

// Where the first head record of a whole tape stands, if what it says is in range. Refusal 9 is for one that is not.
fn tape_in_range(tape: &WholeTape<'_>) -> Result<usize, Refusal>
    ensures { result ≡ cond (in_range tape.now) (Ok (head_place tape.now 0)) (Err TapeOutOfRange) }
{
    let versions = tape.versions();
    refuse_if(
        Refusal::TapeOutOfRange,
        tape.settings().capacity <= versions,
    )?;
    let first_head = past_versions(tape)?;
    heads_in_range(tape, first_head, versions + 1)?;
    Ok(first_head)
}

/// A whole tape in range, with the place of its first head record; its value is what the tape says.
#[derive(Drop)]
pub struct RangedTape<'a> {
    whole: WholeTape<'a>,
    first_head: usize,
}

impl<'a> Model for RangedTape<'a> {
    ghost use Rattle.std.specs.Prelude.{◌≡◌, true};
    ghost use Rattle.room.specs.Sound.{settings_in_range};
    ghost use Rattle.tape.specs.Tape.{Content, in_range};
    ghost use Rattle.tape.specs.Reader.{head_place};

    ghost Value = { Content };

    ghost view = { λ t. t.whole };

    ghost invariant = { λ t. (settings_in_range t.whole.settings ≡ true) × (in_range t.whole ≡ true) × (t.first_head ≡ head_place t.whole 0) };
}

impl<'a> RangedTape<'a> {
    /// A whole tape as one in range; refusal 8 or 9 where it is not.
    pub fn of(whole: WholeTape<'a>) -> Result<RangedTape<'a>, Refusal>
        ensures { result ≡ cond (settings_in_range whole.entry.settings) (cond (in_range whole.entry) (Ok whole.entry) (Err TapeOutOfRange)) (Err BadCapacity) }
    {
        let capacity_fits = settings_in_range(whole.settings());
        refuse_if(Refusal::BadCapacity, !capacity_fits)?;
        let first_head = tape_in_range(&whole)?;
        Ok(RangedTape { whole, first_head })
    }

    /// The tape, of which is known that it is in range.
    pub fn whole(&self) -> &WholeTape<'a>
        ensures { (result.now ≡ self.now) × (settings_in_range self.now.settings ≡ true) × (in_range self.now ≡ true) }
    {
        &self.whole
    }

    /// Where the first head record stands.
    pub fn first_head(&self) -> usize
        ensures { result ≡ head_place self.now 0 }
    {
        self.first_head
    }
}
