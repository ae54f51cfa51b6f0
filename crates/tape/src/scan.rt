// The grammar of tapes: whether a tape is a sequence of whole records that may follow each other, and how many of them it has.
ghost use Rattle.std.specs.Prelude.{◌≡◌, false, [], ◌≤◌, length, drop};
ghost use Rattle.std.specs.Result.{result_ok};
ghost use Rattle.refusal.specs.Answer.{answer_of};
ghost use Rattle.tape.specs.Tape.{content_of, in_versions, read_on};
ghost use Rattle.tape.specs.Reader.{scanned_of, counted_of, scan_refusal, role_of};

use crate::Record;
use crate::place::read_at;
use crate::whole::WholeTape;
use refusal::Refusal;
use room::Settings;

// What the scan counts: what the room is set to, and how many versions and heads a tape has.
#[derive(Clone, Copy)]
struct Counts {
    settings: Settings,
    versions: usize,
    heads: usize,
}

// What a record is to the scan: a version, a head, the hub's, or the end.
#[derive(Clone, Copy)]
enum Role {
    Version,
    Head,
    Hub,
    End,
}

// What a record is to the scan after so many heads, and after the hub's record or not; none where it may not stand there.
#[tactic(auto, unfolding(crate::specs::Reader::role_of))]
fn role_of(found: Option<Record>, heads: usize, hub: bool) -> Option<Role>
    ensures { result ≡ role_of found heads hub }
{
    let headless = heads == 0;
    match found? {
        Record::Version { .. } => headless.then_some(Role::Version),
        Record::Head { .. } => (!hub).then_some(Role::Head),
        Record::Hub => (!(headless | hub)).then_some(Role::Hub),
        Record::End => (!headless).then_some(Role::End),
        Record::Start { .. } => None,
    }
}

// The scan from the first record behind the start on. The settings that were read so far say whether the hub's record was. The loop goes by
// the place of the next record, which is no index.
fn scan_on(tape: &[u8], start: usize, settings: Settings) -> Option<Counts>
    requires { (start ≤ length tape.now) × (settings.hub ≡ false) }
    ensures { result ≡ counted_of (read_on (length tape.now) in_versions (record { settings = settings; versions = []; heads = [] }) (drop start tape.now)) }
{
    let mut at = start;
    let mut versions: usize = 0;
    let mut heads: usize = 0;
    let mut so_far = settings;
    while at < tape.len() {
        let read = read_at(tape, at);
        let role = role_of(read.value, heads, so_far.hub);
        at = read.next;
        match role? {
            Role::Version => {
                versions += 1;
            }
            Role::Head => {
                heads += 1;
            }
            Role::Hub => {
                so_far.hub = true;
            }
            Role::End => {
                let last = at == tape.len();
                return last.then_some(Counts {
                    settings: so_far,
                    versions,
                    heads,
                });
            }
        }
    }
    None
}

/// The scan of a tape: what a whole one says, or its refusal.
pub fn scan(tape: &[u8]) -> Result<WholeTape<'_>, Refusal>
    ensures { (result_ok result ≡ scanned_of (content_of tape.now)) × (answer_of result ≡ scan_refusal (scanned_of (content_of tape.now))) }
{
    let first = read_at(tape, 0);
    let found = first.value;
    let Some(Record::Start { settings }) = found else {
        return Err(Refusal::BrokenTape);
    };
    let counts = scan_on(tape, first.next, settings).ok_or(Refusal::BrokenTape)?;
    Ok(WholeTape {
        bytes: tape,
        settings: counts.settings,
        versions: counts.versions,
        heads: counts.heads,
    })
}
