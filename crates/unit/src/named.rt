// What a caller names by numbers: consoles, strips and cells.
ghost use Rattle.std.specs.Prelude.{◌≡◌};
ghost use Rattle.unit.specs.Answers.{named_console, named_strip, named_cell};

use board::Cell;
use command::numbers::{is_console, is_strip};
use graph::{Console, Strip};
use refusal::{Refusal, refuse_if};

/// The console of a number.
pub fn named_console(number: u32) -> Result<Console, Refusal>
    ensures { result ≡ named_console number }
{
    let number = number as usize;
    refuse_if(Refusal::ConsoleTooHigh, !is_console(number))?;
    Ok(Console(number))
}

/// The strip of a number.
pub fn named_strip(number: u32) -> Result<Strip, Refusal>
    ensures { result ≡ named_strip number }
{
    let number = number as usize;
    refuse_if(Refusal::StripTooHigh, !is_strip(number))?;
    Ok(Strip(number))
}

/// The cell of a number whose origin can be asked about.
pub fn named_cell(number: u32) -> Result<Cell, Refusal>
    ensures { result ≡ named_cell number }
{
    Cell::of(number as usize).ok_or(Refusal::OperandTooHigh)
}
