// What is seen of a board: all of it by the instructor; by a student no alerts, no calls, and of the marks those from 0 to 7.
ghost use Rattle.std.specs.Prelude.{◌≡◌, ◌+◌, ◌*◌, ◌<◌, length};
ghost use Rattle.std.specs.Int.Bits.{bit_and};
ghost use Rattle.buffer.specs.Field.{word_at, put_word, with_part};
ghost use Rattle.board.specs.Board.{strip_size, strip_count, board_size};
ghost use Rattle.board.specs.Pane.{student_strip, student_pane, pane_of};

use crate::{
    ALERTS, CALLS, FLAG, HEADING, LEVEL, MARKS, STRIP_COUNT, STRIP_SIZE, Viewer, strip_of,
};
use buffer::{copy, put_word, word_at};

// Of the 16 bits of a field, those that a student sees: all, marks 0 to 7, or none.
const ALL: usize = 0xFFFF;

const LOW_MARKS: usize = 0x00FF;

const NONE: usize = 0x0000;

// Writes the bits of a field that are seen into a pane. The others are never written, not even for a moment.
fn show_field(pane: &mut [u8], strip: &[u8], at: usize, seen: usize)
    requires { (at + 1 < length pane.old) × (at + 1 < length strip.now) }
    ensures { pane.new ≡ put_word pane.old at (bit_and (word_at strip.now at) seen) }
{
    put_word(pane, at, word_at(strip, at) & seen);
}

// Writes a strip as a student sees it. The last field is the flag with the byte that is always zero.
fn show_strip(pane: &mut [u8], strip: &[u8])
    requires { (length pane.old ≡ strip_size) × (length strip.now ≡ strip_size) }
    ensures { pane.new ≡ student_strip strip.now 0 }
{
    show_field(pane, strip, LEVEL, ALL);
    show_field(pane, strip, HEADING, ALL);
    show_field(pane, strip, MARKS, LOW_MARKS);
    show_field(pane, strip, CALLS, NONE);
    show_field(pane, strip, ALERTS, NONE);
    show_field(pane, strip, FLAG, NONE);
}

// Writes strip k of a board as a student sees it.
fn show_strip_at(pane: &mut [u8], board: &[u8], k: usize)
    requires { (length pane.old ≡ board_size) × (length board.now ≡ board_size) × (k < strip_count) }
    ensures { pane.new ≡ with_part pane.old (strip_size * k) (student_strip board.now k) }
{
    let at = STRIP_SIZE * k;
    show_strip(&mut pane[at..at + STRIP_SIZE], strip_of(board, k));
}

// Writes a board as a student sees it, strip by strip.
fn show_student(pane: &mut [u8], board: &[u8])
    requires { (length pane.old ≡ board_size) × (length board.now ≡ board_size) }
    ensures { pane.new ≡ student_pane board.now }
{
    for k in 0..STRIP_COUNT {
        show_strip_at(pane, board, k);
    }
}

/// Writes a board as its viewer sees it.
pub fn show_board(pane: &mut [u8], board: &[u8], viewer: Viewer)
    requires { (length pane.old ≡ board_size) × (length board.now ≡ board_size) }
    ensures { pane.new ≡ pane_of viewer board.now }
{
    match viewer {
        Viewer::Instructor => copy(pane, board),
        Viewer::Student => show_student(pane, board),
    }
}
