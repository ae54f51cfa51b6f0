// Which numbers may stand in a command, a record or a question: codes, consoles, strips and operands.
ghost use Rattle.std.specs.Prelude.{◌≡◌};
ghost use Rattle.command.specs.Code.{is_entry_code, is_console, is_strip, is_operand};

use board::{
    ALERT_OFF_ENTRY, HEADING_ENTRY, LEVEL_ENTRY, MARK_COUNT, MARK_PUT_ENTRY, MARK_TAKEN_ENTRY,
    STRIP_COUNT,
};

/// The number of consoles.
pub const CONSOLES: usize = 16;

// The highest level and heading.
const HIGHEST_LEVEL: usize = 600;

const HIGHEST_HEADING: usize = 360;

/// Whether a code makes an entry version.
pub fn is_entry_code(code: usize) -> bool
    ensures { result ≡ is_entry_code code }
{
    (LEVEL_ENTRY..=ALERT_OFF_ENTRY).contains(&code)
}

// The next two differ in a bound alone; a name for each says at its callers which number is tested, which a const parameter would not.
/// Whether a number is a console's.
pub fn is_console(c: usize) -> bool
    ensures { result ≡ is_console c }
{
    c < CONSOLES
}

/// Whether a number is a strip's.
pub fn is_strip(k: usize) -> bool
    ensures { result ≡ is_strip k }
{
    k < STRIP_COUNT
}

/// Whether an entry of a code may carry a number.
#[tactic(auto, unfolding(crate::specs::Code::is_operand))]
pub fn is_operand(code: usize, x: usize) -> bool
    ensures { result ≡ is_operand code x }
{
    match code {
        LEVEL_ENTRY => x <= HIGHEST_LEVEL,
        HEADING_ENTRY => x <= HIGHEST_HEADING,
        MARK_PUT_ENTRY..=MARK_TAKEN_ENTRY => x < MARK_COUNT,
        _ => x == 0,
    }
}
