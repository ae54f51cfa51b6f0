// The decoder: what follows a code, and the command that a byte string decodes to.
ghost use Rattle.std.specs.Prelude.{◌≡◌, true, ◌+◌, ◌≤◌, length, Some};
ghost use Rattle.refusal.specs.Refusal.{first_refusal};
ghost use Rattle.refusal.specs.Answer.{answer_of};
ghost use Rattle.command.specs.Code.{kind_of, shape_of, shape_refusal, length_of, number_at, operands_of};
ghost use Rattle.command.specs.Decoding.{narrow};
ghost use Rattle.command.specs.Decode.{is_command_code, two_console_tests, entry_number_tests, leave_number_tests, number_tests, command_of, numbered, decode, refusal_of, decoded_bytes};

use crate::codes::{
    END_RECORD, ENTRY_RECORD, FAST_FORWARD_COMMAND, FORK_COMMAND, HEAD_RECORD, HUB_RECORD,
    LEAVE_COMMAND, MAKE_HUB_COMMAND, MERGE_COMMAND, MERGE_RECORD, START_RECORD,
};
use crate::numbers::{is_console, is_operand, is_strip};
use crate::{Command, Kind, Operands, Widths};
use board::{
    ALERT_OFF_ENTRY, CALL_ENTRY, HEADING_ENTRY, LEVEL_ENTRY, MARK_PUT_ENTRY, MARK_TAKEN_ENTRY,
};
use buffer::word_at;
use graph::{Console, Strip};
use refusal::{Refusal, refuse_if};

// The kind of the command that a code says.
#[tactic(auto, unfolding(crate::specs::Code::kind_of), using(crate::proofs::CodeKinds::kind_entry, crate::proofs::CodeKinds::kind_none))]
fn kind_of(code: usize) -> Option<Kind>
    ensures { result ≡ kind_of code }
{
    match code {
        FORK_COMMAND => Some(Kind::Fork),
        LEVEL_ENTRY..=ALERT_OFF_ENTRY => Some(Kind::Entry),
        MERGE_COMMAND => Some(Kind::Merge),
        FAST_FORWARD_COMMAND => Some(Kind::FastForward),
        LEAVE_COMMAND => Some(Kind::Leave),
        MAKE_HUB_COMMAND => Some(Kind::MakeHub),
        _ => None,
    }
}

/// Whether a code is a command's.
pub fn is_command_code(code: usize) -> bool
    ensures { result ≡ is_command_code code }
{
    kind_of(code).is_some()
}

// The widths of a known code.
fn widths(first: usize, second: usize, third: usize, fourth: usize) -> Option<Widths>
    ensures { result ≡ Some (record { first = first; second = second; third = third; fourth = fourth }) }
{
    Some(Widths {
        first,
        second,
        third,
        fourth,
    })
}

/// The widths of what follows a code, of commands and of tape records. Every code of a command has them.
#[tactic(auto, unfolding(crate::specs::Code::shape_of), using(crate::proofs::Shapes::shape_told, crate::proofs::Shapes::shape_none))]
pub fn widths_of(code: usize) -> Option<Widths>
    ensures { (result ≡ shape_of code) × (is_command_code code ≡ true → shape_refusal 1 result ≡ 0) }
{
    match code {
        FORK_COMMAND => widths(1, 1, 0, 0),
        LEVEL_ENTRY..=HEADING_ENTRY => widths(1, 1, 2, 0),
        MARK_PUT_ENTRY..=MARK_TAKEN_ENTRY => widths(1, 1, 1, 0),
        CALL_ENTRY..=ALERT_OFF_ENTRY => widths(1, 1, 0, 0),
        MERGE_COMMAND..=FAST_FORWARD_COMMAND => widths(1, 1, 0, 0),
        LEAVE_COMMAND => widths(1, 0, 0, 0),
        MAKE_HUB_COMMAND => widths(0, 0, 0, 0),
        START_RECORD => widths(2, 0, 0, 0),
        ENTRY_RECORD => widths(2, 1, 1, 2),
        MERGE_RECORD => widths(2, 2, 0, 0),
        HEAD_RECORD => widths(1, 2, 0, 0),
        END_RECORD => widths(0, 0, 0, 0),
        HUB_RECORD => widths(0, 0, 0, 0),
        _ => None,
    }
}

/// How many bytes a code and what follows it take; 0 where nothing is known of a code.
#[tactic(auto, unfolding(crate::specs::Code::length_of))]
pub fn length_of(shape: Option<Widths>) -> usize
    requires { narrow shape }
    ensures { result ≡ length_of shape }
{
    match shape {
        Some(w) => 1 + w.first + w.second + w.third + w.fourth,
        None => 0,
    }
}

// The number at a place, of a width of at most two bytes; of width 0 there is none, and it reads as 0.
#[tactic(auto, unfolding(crate::specs::Code::number_at))]
fn number_at(s: &[u8], at: usize, width: usize) -> usize
    requires { (width ≤ 2) × (at + width ≤ length s.now) }
    ensures { result ≡ number_at s.now at width }
{
    match width {
        2 => word_at(s, at),
        1 => usize::from(s[at]),
        _ => 0,
    }
}

/// What follows the code at the front of these bytes.
#[tactic(auto, unfolding(crate::specs::Code::operands_of, crate::specs::Code::length_of))]
pub fn operands_of(shape: Option<Widths>, s: &[u8]) -> Operands
    requires { narrow shape × (length_of shape ≤ length s.now) }
    ensures { result ≡ operands_of shape s.now }
{
    let Some(w) = shape else {
        return Operands {
            first: 0,
            second: 0,
            third: 0,
            fourth: 0,
        };
    };
    let second_at = 1 + w.first;
    let third_at = second_at + w.second;
    let fourth_at = third_at + w.third;
    Operands {
        first: number_at(s, 1, w.first),
        second: number_at(s, second_at, w.second),
        third: number_at(s, third_at, w.third),
        fourth: number_at(s, fourth_at, w.fourth),
    }
}

// Refuses a command over two consoles, of which one is too high or which are one.
#[tactic(auto, unfolding(refusal::specs::Refusal::first_refusal))]
fn two_consoles_refused(o: Operands) -> Result<(), Refusal>
    ensures { answer_of result ≡ first_refusal (two_console_tests o) }
{
    let too_high = !is_console(o.first) | !is_console(o.second);
    refuse_if(Refusal::ConsoleTooHigh, too_high)?;
    refuse_if(Refusal::SameConsole, o.first == o.second)
}

// Refuses an entry whose console, strip or operand is too high.
#[tactic(auto, unfolding(refusal::specs::Refusal::first_refusal))]
fn entry_numbers_refused(code: usize, o: Operands) -> Result<(), Refusal>
    ensures { answer_of result ≡ first_refusal (entry_number_tests code o) }
{
    refuse_if(Refusal::ConsoleTooHigh, !is_console(o.first))?;
    refuse_if(Refusal::StripTooHigh, !is_strip(o.second))?;
    refuse_if(Refusal::OperandTooHigh, !is_operand(code, o.third))
}

// Refuses a console that leaves, where it is too high or the instructor's.
#[tactic(auto, unfolding(refusal::specs::Refusal::first_refusal))]
fn leave_number_refused(o: Operands) -> Result<(), Refusal>
    ensures { answer_of result ≡ first_refusal (leave_number_tests o) }
{
    refuse_if(Refusal::ConsoleTooHigh, !is_console(o.first))?;
    refuse_if(Refusal::Console0Leaves, o.first == 0)
}

// Refuses a command for its numbers.
#[tactic(auto, unfolding(refusal::specs::Refusal::first_refusal))]
fn numbers_refused(kind: Kind, code: usize, o: Operands) -> Result<(), Refusal>
    ensures { answer_of result ≡ first_refusal (number_tests kind code o) }
{
    match kind {
        Kind::Fork | Kind::Merge | Kind::FastForward => two_consoles_refused(o),
        Kind::Entry => entry_numbers_refused(code, o),
        Kind::Leave => leave_number_refused(o),
        Kind::MakeHub => Ok(()),
    }
}

// The command of a code and its operands, by its kind.
fn command_from(kind: Kind, code: usize, o: Operands) -> Command
    ensures { result ≡ command_of kind code o }
{
    match kind {
        Kind::Fork => Command::Fork {
            new: Console(o.first),
            old: Console(o.second),
        },
        Kind::Entry => Command::Entry {
            console: Console(o.first),
            code,
            strip: Strip(o.second),
            operand: o.third,
        },
        Kind::Merge => Command::Merge {
            receiver: Console(o.first),
            giver: Console(o.second),
        },
        Kind::FastForward => Command::FastForward {
            receiver: Console(o.first),
            giver: Console(o.second),
        },
        Kind::Leave => Command::Leave {
            console: Console(o.first),
        },
        Kind::MakeHub => Command::MakeHub,
    }
}

/// The command that a byte string decodes to, or its first refusal.
#[tactic(auto, using(crate::proofs::Shapes::narrow_shape))]
pub fn decode_command(s: &[u8]) -> Result<Command, Refusal>
    ensures { (numbered result ≡ decode s.now) × (refusal_of (numbered result) ≡ 0 → decoded_bytes (numbered result) ≡ s.now) }
{
    refuse_if(Refusal::NoCommand, s.len() == 0)?;
    let code = usize::from(s[0]);
    let kind = kind_of(code).ok_or(Refusal::NoCommand)?;
    let shape = widths_of(code);
    refuse_if(Refusal::WrongLength, s.len() != length_of(shape))?;
    let o = operands_of(shape, s);
    numbers_refused(kind, code, o)?;
    Ok(command_from(kind, code, o))
}
