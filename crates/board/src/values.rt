// Levels and headings, the cells whose origin can be asked about: where each stands, which entries write it, and which side of a merge it
// came from.
ghost use Rattle.std.specs.Prelude.{◌≡◌, ◌+◌, ◌<◌, length, cond, ltb, Some, None, IfSome};
ghost use Rattle.board.specs.Board.{strip_count, board_size, cell_count, cell_number, cell_of, cell_at, value_in, writing_code, follows_giver};

use crate::{Cell, HEADING, HEADING_ENTRY, LEVEL, LEVEL_ENTRY, STRIP_SIZE};
use buffer::word_at;
use graph::Strip;

/// How many such cells there are.
pub const CELL_COUNT: usize = 2;

/// The cell of a number.
pub fn cell_of(number: usize) -> Cell
    requires { number < cell_count }
    ensures { (result ≡ cell_of number) × (cell_number result ≡ number) }
{
    Cell::of(number).unwrap_or(Cell::Heading)
}

impl Cell {
    /// The cell of a number, where there is one.
    pub fn of(number: usize) -> Option<Cell>
        ensures value { result ≡ cond (ltb number cell_count) (Some (cell_of number)) None }
        ensures number { IfSome result (λ cell. cell_number cell ≡ number) }
    {
        match number {
            0 => Some(Cell::Level),
            1 => Some(Cell::Heading),
            _ => None,
        }
    }

    // Its place in a board.
    fn place(self, strip: Strip) -> usize
        requires { strip.0 < strip_count }
        ensures { (result ≡ cell_at self strip.0) × (result + 1 < board_size) }
    {
        let at = STRIP_SIZE * strip.0;
        match self {
            Cell::Level => at + LEVEL,
            Cell::Heading => at + HEADING,
        }
    }

    /// Its value on a board.
    pub fn value_in(self, board: &[u8], strip: Strip) -> usize
        requires { (length board.now ≡ board_size) × (strip.0 < strip_count) }
        ensures { result ≡ value_in self strip.0 board.now }
    {
        word_at(board, self.place(strip))
    }

    /// The code of the entries that write it.
    pub fn writing_code(self) -> usize
        ensures { result ≡ writing_code self }
    {
        match self {
            Cell::Level => LEVEL_ENTRY,
            Cell::Heading => HEADING_ENTRY,
        }
    }
}

/// Of the values of base, receiver and giver, whether the giver's alone differs from the base's.
pub fn follows_giver(l: usize, a: usize, b: usize) -> bool
    ensures { result ≡ follows_giver l a b }
{
    (a == l) & (b != l)
}
