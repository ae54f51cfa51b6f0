// A board: 32 strips of 12 bytes, and the rules that make the board of a new version.
#![tactic(auto)]

pub mod panes;
mod sides;
pub mod values;

ghost use Rattle.std.specs.Prelude.{◌≡◌, ◌+◌, ◌*◌, ◌/◌, ◌<◌, ◌≤◌, length, set};
ghost use Rattle.std.specs.Int.Bits.{bit_or};
ghost use Rattle.buffer.specs.Field.{word_at, put_word, part, with_part, same};
ghost use Rattle.buffer.specs.Row.{bit};
ghost use Rattle.board.specs.Board.{strip_size, strip_count, board_size, marks_at, alerts_at, flag_at, flag_on, merge_value, merge_marks, merge_count, merge_flag, merge_strip, merge_board, mark_bit, without, enter, other_strips};
ghost use Rattle.board.specs.LittleEndian.{swapped};

use buffer::{is_same, is_same_at, part_of, put_word, word_at};
use graph::Strip;
use sides::Sides;

// The bytes of a strip, the strips of a board, and its bytes.
const STRIP_SIZE: usize = 12;

pub const STRIP_COUNT: usize = 32;

pub const BOARD_SIZE: usize = STRIP_SIZE * STRIP_COUNT;

// Half of a board and a quarter of it, in strips and in bytes.
const HALF_STRIPS: usize = STRIP_COUNT / 2;

const QUARTER_STRIPS: usize = STRIP_COUNT / 4;

const HALF_SIZE: usize = STRIP_SIZE * HALF_STRIPS;

const QUARTER_SIZE: usize = STRIP_SIZE * QUARTER_STRIPS;

// The cells of a strip, by their first bytes.
const LEVEL: usize = 0;

const HEADING: usize = 2;

const MARKS: usize = 4;

const CALLS: usize = 6;

const ALERTS: usize = 8;

const FLAG: usize = 10;

const REST: usize = 11;

/// The marks of a strip.
pub const MARK_COUNT: usize = 16;

/// Of the cells of a strip, the two that have a value, which has an origin and can clash in a merge.
#[derive(Clone, Copy, Debug, PartialEq, Eq)]
pub enum Cell {
    Level,
    Heading,
}

/// Whoever looks at a board.
#[derive(Clone, Copy, Debug, PartialEq, Eq)]
pub enum Viewer {
    Instructor,
    Student,
}

/// The codes of entries. A code stays a number wherever a node, a command or a record has one: the definitions (`enter`, `node_in`,
/// `record_from`) are of any number, as damaged bytes may hold any.
pub const LEVEL_ENTRY: usize = 0x02;

pub const HEADING_ENTRY: usize = 0x03;

pub const MARK_PUT_ENTRY: usize = 0x04;

pub const MARK_TAKEN_ENTRY: usize = 0x05;

pub const CALL_ENTRY: usize = 0x06;

pub const ALERT_ON_ENTRY: usize = 0x07;

pub const ALERT_OFF_ENTRY: usize = 0x08;

/// A level or a heading of a merge, and whether it clashes: it has a value either way, so that no Option or Result says it.
#[derive(Clone, Copy, Debug, PartialEq, Eq)]
pub struct MergedValue {
    pub value: usize,
    pub clash: bool,
}

// A level or a heading of a merge: the giver's where the receiver kept the base's. It clashes where all three differ.
fn merge_value(l: usize, a: usize, b: usize) -> MergedValue
    ensures { result ≡ merge_value l a b }
{
    if a == l {
        return MergedValue {
            value: b,
            clash: false,
        };
    }
    MergedValue {
        value: a,
        clash: (b != l) & (a != b),
    }
}

// The number that has one mark alone.
fn mark_bit(mark: usize) -> usize
    ensures { result ≡ mark_bit mark }
{
    1 << (mark % MARK_COUNT)
}

// The marks of a that l does not have.
fn marks_without(a: usize, l: usize) -> usize
    ensures { result ≡ without a l }
{
    a - (a & l)
}

// The marks of a merge: those that both have, and those that either put.
fn merge_marks(l: usize, a: usize, b: usize) -> usize
    requires { (a < 65536) × (b < 65536) }
    ensures { (result ≡ merge_marks l a b) × (result < 65536) }
{
    (a & b) | marks_without(a, l) | marks_without(b, l)
}

// A count of a merge: what both sides counted, the base once.
fn merge_count(l: usize, a: usize, b: usize) -> usize
    requires { (a < 65536) × (b < 65536) }
    ensures { result ≡ merge_count l a b }
{
    (a + b).saturating_sub(l)
}

// The alert flag of a merge, of the flags of receiver and giver and of the three alert counts. In one line, as that was faster than
// branches.
#[tactic(auto, using(crate::proofs::Strips::flag_rule))]
fn merge_flag(a_on: bool, b_on: bool, l: usize, a: usize, b: usize) -> bool
    ensures { result ≡ merge_flag a_on b_on l a b }
{
    (a_on & (b_on | (l < a))) | (b_on & (l < b))
}

// The 16 bits at a place, low byte first: the machine reads them so at once.
fn le_word_at(s: &[u8], at: usize) -> usize
    requires { at + 1 < length s.now }
    ensures { (result ≡ swapped (word_at s.now at)) × (word_at s.now at < 65536) }
{
    usize::from(u16::from_le_bytes([s[at], s[at + 1]]))
}

// Writes a number's 16 bits at a place, low byte first.
fn put_le_word(s: &mut [u8], at: usize, x: usize)
    requires { at + 1 < length s.old }
    ensures { s.new ≡ put_word s.old at (swapped x) }
{
    let [low, high] = ((x % 65536) as u16).to_le_bytes();
    s[at] = low;
    s[at + 1] = high;
}

// Writes a merged level or heading into a strip, and answers whether it clashes. The rule is the same whichever byte is first. A strip that is
// written is a slice: of a part that is lent as an array no fact says what the board then is.
fn merge_value_at(s: &mut [u8], sides: &Sides<'_, STRIP_SIZE>, at: usize) -> bool
    requires { (length s.old ≡ strip_size) × (at + 1 < strip_size) }
    ensures { (s.new ≡ put_word s.old at (merge_value (word_at sides.now.base.now at) (word_at sides.now.mine.now at) (word_at sides.now.given.now at)).value) × (result ≡ (merge_value (word_at sides.now.base.now at) (word_at sides.now.mine.now at) (word_at sides.now.given.now at)).clash) }
{
    let merged = merge_value(
        le_word_at(sides.base, at),
        le_word_at(sides.mine, at),
        le_word_at(sides.given, at),
    );
    put_le_word(s, at, merged.value);
    merged.clash
}

// Writes merged marks into a strip. The rule is the same whichever byte is first.
#[tactic(auto, using(crate::proofs::LittleEndian::put_marks))]
fn merge_marks_at(s: &mut [u8], sides: &Sides<'_, STRIP_SIZE>, at: usize)
    requires { (length s.old ≡ strip_size) × (at + 1 < strip_size) }
    ensures { s.new ≡ put_word s.old at (merge_marks (word_at sides.now.base.now at) (word_at sides.now.mine.now at) (word_at sides.now.given.now at)) }
{
    let marks = merge_marks(
        le_word_at(sides.base, at),
        le_word_at(sides.mine, at),
        le_word_at(sides.given, at),
    );
    put_le_word(s, at, marks);
}

// Writes a merged count into a strip.
fn merge_count_at(s: &mut [u8], sides: &Sides<'_, STRIP_SIZE>, at: usize)
    requires { (length s.old ≡ strip_size) × (at + 1 < strip_size) }
    ensures { s.new ≡ put_word s.old at (merge_count (word_at sides.now.base.now at) (word_at sides.now.mine.now at) (word_at sides.now.given.now at)) }
{
    let count = merge_count(
        word_at(sides.base, at),
        word_at(sides.mine, at),
        word_at(sides.given, at),
    );
    put_word(s, at, count);
}

// Whether the alert flag of a strip is on.
fn flag_on(strip: &[u8]) -> bool
    requires { length strip.now ≡ strip_size }
    ensures { result ≡ flag_on strip.now 0 }
{
    strip[FLAG] == 1
}

// Writes the merged alert cells into a strip: the count, the flag and the zero behind it. Each count is read once, before what is written, as that
// was faster.
fn merge_alerts(s: &mut [u8], sides: &Sides<'_, STRIP_SIZE>)
    requires { length s.old ≡ strip_size }
    ensures { s.new ≡ set (set (put_word s.old (alerts_at 0) (merge_count (word_at sides.now.base.now (alerts_at 0)) (word_at sides.now.mine.now (alerts_at 0)) (word_at sides.now.given.now (alerts_at 0)))) (flag_at 0) (bit (merge_flag (flag_on sides.now.mine.now 0) (flag_on sides.now.given.now 0) (word_at sides.now.base.now (alerts_at 0)) (word_at sides.now.mine.now (alerts_at 0)) (word_at sides.now.given.now (alerts_at 0))))) (flag_at 0 + 1) 0 }
{
    let base = word_at(sides.base, ALERTS);
    let mine = word_at(sides.mine, ALERTS);
    let given = word_at(sides.given, ALERTS);
    put_word(s, ALERTS, merge_count(base, mine, given));
    let flag = merge_flag(flag_on(sides.mine), flag_on(sides.given), base, mine, given);
    s[FLAG] = u8::from(flag);
    s[REST] = 0;
}

// Writes a merged strip from three strips, and counts its clashes.
fn merge_strip(s: &mut [u8], sides: &Sides<'_, STRIP_SIZE>) -> usize
    requires { length s.old ≡ strip_size }
    ensures { (s.new ≡ (merge_strip sides.now.base.now sides.now.mine.now sides.now.given.now 0).bytes) × (result ≡ (merge_strip sides.now.base.now sides.now.mine.now sides.now.given.now 0).clashes) }
{
    let level_clashes = merge_value_at(s, sides, LEVEL);
    let heading_clashes = merge_value_at(s, sides, HEADING);
    merge_marks_at(s, sides, MARKS);
    merge_count_at(s, sides, CALLS);
    merge_alerts(s, sides);
    usize::from(level_clashes) + usize::from(heading_clashes)
}

// A strip of a board.
fn strip_of(board: &[u8], k: usize) -> &[u8]
    requires { (length board.now ≡ board_size) × (k < strip_count) }
    ensures { (result.now ≡ part board.now (strip_size * k) strip_size) × (length result.now ≡ strip_size) }
{
    part_of(board, STRIP_SIZE * k, STRIP_SIZE)
}

// Writes strip k of the merge of three boards, and counts its clashes.
fn merge_strip_at(board: &mut [u8], sides: &Sides<'_, BOARD_SIZE>, k: usize) -> usize
    requires { (length board.old ≡ board_size) × (k < strip_count) }
    ensures { (board.new ≡ with_part board.old (strip_size * k) (merge_strip sides.now.base.now sides.now.mine.now sides.now.given.now k).bytes) × (result ≡ (merge_strip sides.now.base.now sides.now.mine.now sides.now.given.now k).clashes) }
{
    let at = STRIP_SIZE * k;
    merge_strip(&mut board[at..at + STRIP_SIZE], &sides.strips(k))
}

/// Writes the merge of three boards, strip by strip, and counts its clashes. It is always inlined, so that a count which the caller lets go
/// costs nothing: whoever tests or resumes a room merges the boards of every version and asks for none.
#[inline(always)]
pub fn merge_board(board: &mut [u8], l: &[u8], a: &[u8], b: &[u8]) -> usize
    requires { (length board.old ≡ board_size) × (length l.now ≡ board_size) × (length a.now ≡ board_size) × (length b.now ≡ board_size) }
    ensures { (board.new ≡ (merge_board l.now a.now b.now).bytes) × (result ≡ (merge_board l.now a.now b.now).clashes) }
{
    let sides = Sides {
        base: l,
        mine: a,
        given: b,
    };
    let mut clashes = 0;
    for k in 0..STRIP_COUNT {
        clashes += merge_strip_at(board, &sides, k);
    }
    clashes
}

/// A board is the merge of three boards. The board that it should be is made and compared whole, which runs on many bytes at a time.
pub fn is_merged(board: &[u8], l: &[u8], a: &[u8], b: &[u8]) -> bool
    requires { (length board.now ≡ board_size) × (length l.now ≡ board_size) × (length a.now ≡ board_size) × (length b.now ≡ board_size) }
    ensures { result ≡ same board.now (merge_board l.now a.now b.now).bytes }
{
    let mut merged = [0u8; BOARD_SIZE];
    merge_board(&mut merged, l, a, b);
    is_same(board, &merged)
}

// Adds 1 to a count of a strip.
fn count_up(s: &mut [u8], at: usize)
    requires { at + 1 < length s.old }
    ensures { s.new ≡ put_word s.old at (word_at s.old at + 1) }
{
    let count = word_at(s, at);
    put_word(s, at, count + 1);
}

// Puts a mark of a strip.
fn put_mark(s: &mut [u8], mark: usize)
    requires { length s.old ≡ strip_size }
    ensures { s.new ≡ put_word s.old (marks_at 0) (bit_or (word_at s.old (marks_at 0)) (mark_bit mark)) }
{
    let marks = word_at(s, MARKS);
    put_word(s, MARKS, marks | mark_bit(mark));
}

// Takes a mark of a strip.
fn take_mark(s: &mut [u8], mark: usize)
    requires { length s.old ≡ strip_size }
    ensures { s.new ≡ put_word s.old (marks_at 0) (without (word_at s.old (marks_at 0)) (mark_bit mark)) }
{
    let marks = word_at(s, MARKS);
    put_word(s, MARKS, marks_without(marks, mark_bit(mark)));
}

// Makes an entry on a strip.
#[tactic(auto, unfolding(crate::specs::Board::enter))]
fn enter_strip(s: &mut [u8], code: usize, operand: usize)
    requires { length s.old ≡ strip_size }
    ensures { s.new ≡ enter code 0 operand s.old }
{
    match code {
        LEVEL_ENTRY => put_word(s, LEVEL, operand),
        HEADING_ENTRY => put_word(s, HEADING, operand),
        MARK_PUT_ENTRY => put_mark(s, operand),
        MARK_TAKEN_ENTRY => take_mark(s, operand),
        CALL_ENTRY => count_up(s, CALLS),
        ALERT_ON_ENTRY => {
            count_up(s, ALERTS);
            s[FLAG] = 1;
        }
        ALERT_OFF_ENTRY => s[FLAG] = 0,
        _ => {}
    }
}

/// Makes an entry on a strip of a board, or of a run of its strips, in which the strip's number counts from the first of the run. The bytes
/// of the other strips, 31 of a whole board, stay as they were, whatever they are.
pub fn enter_board(board: &mut [u8], code: usize, strip: Strip, operand: usize)
    requires { strip_size * strip.0 + strip_size ≤ length board.old }
    ensures { (board.new ≡ enter code strip.0 operand board.old) × (other_strips strip.0 board.new ≡ other_strips strip.0 board.old) }
{
    let at = STRIP_SIZE * strip.0;
    enter_strip(&mut board[at..at + STRIP_SIZE], code, operand);
}

// A quarter of a board is its parent's after an entry on one of its strips. It is made and compared whole.
fn is_quarter_entered(
    quarter: &[u8],
    parent: &[u8],
    code: usize,
    strip: Strip,
    operand: usize,
) -> bool
    requires { (length quarter.now ≡ strip_size * (strip_count / 4)) × (length parent.now ≡ strip_size * (strip_count / 4)) × (strip.0 < strip_count / 4) }
    ensures { result ≡ same quarter.now (enter code strip.0 operand parent.now) }
{
    let mut entered = [0u8; QUARTER_SIZE];
    entered.copy_from_slice(parent);
    enter_board(&mut entered, code, strip, operand);
    is_same(quarter, &entered)
}

// Half of a board is its parent's after an entry on one of its strips: the quarter with the strip is so, and the other quarter is the
// parent's, compared where it stands. The test of a whole board below looks alike, but each makes and compares parts of its own length, which
// loops on many bytes at a time need as a constant: as one function it would take three lengths and the test of its part.
fn is_half_entered(half: &[u8], parent: &[u8], code: usize, strip: Strip, operand: usize) -> bool
    requires { (length half.now ≡ strip_size * (strip_count / 2)) × (length parent.now ≡ strip_size * (strip_count / 2)) × (strip.0 < strip_count / 2) }
    ensures { result ≡ same half.now (enter code strip.0 operand parent.now) }
{
    let at = QUARTER_SIZE * (strip.0 / QUARTER_STRIPS);
    is_quarter_entered(
        part_of(half, at, QUARTER_SIZE),
        part_of(parent, at, QUARTER_SIZE),
        code,
        Strip(strip.0 % QUARTER_STRIPS),
        operand,
    ) & is_same_at(half, parent, QUARTER_SIZE - at, QUARTER_SIZE)
}

/// A board is its parent's after an entry: the half with the strip is so, and the other half is the parent's, compared where it stands. Halves
/// and quarters, as loops of these lengths run on many bytes at a time and shorter ones do not. What is made stands first in each line: what is
/// compared before it is kept on the stack through the `match` of the entry.
pub fn is_entered(board: &[u8], parent: &[u8], code: usize, strip: Strip, operand: usize) -> bool
    requires { (length board.now ≡ board_size) × (length parent.now ≡ board_size) × (strip.0 < strip_count) }
    ensures { result ≡ same board.now (enter code strip.0 operand parent.now) }
{
    let at = HALF_SIZE * (strip.0 / HALF_STRIPS);
    is_half_entered(
        part_of(board, at, HALF_SIZE),
        part_of(parent, at, HALF_SIZE),
        code,
        Strip(strip.0 % HALF_STRIPS),
        operand,
    ) & is_same_at(board, parent, HALF_SIZE - at, HALF_SIZE)
}
