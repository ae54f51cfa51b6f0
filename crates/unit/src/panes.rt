// The calls that copy a console's board out: the board, which is the instructor's pane, and the student's pane.
ghost use Rattle.std.specs.Prelude.{◌≡◌, ◌≤◌, length};
ghost use Rattle.buffer.specs.Field.{overwrite};
ghost use Rattle.board.specs.Board.{board_size};
ghost use Rattle.board.specs.Pane.{pane_of};
ghost use Rattle.board.specs.declared.Viewer.TheVariants.{Instructor, Student};
ghost use Rattle.unit.specs.Answers.{reply_of};
ghost use Rattle.unit.specs.Calls.{pane_outcome, board_outcome};

use crate::Reply;
use crate::named::named_console;
use board::Viewer;
use board::panes::show_board;
use query::Store;
use refusal::{Refusal, refuse_if};
use store::places::BOARD;

// Writes what a viewer sees of a board over the front of a pane.
fn put_pane(board: &[u8], pane: &mut [u8], viewer: Viewer)
    requires { (length board.now ≡ board_size) × (board_size ≤ length pane.old) }
    ensures { pane.new ≡ overwrite (pane_of viewer board.now) pane.old }
{
    let end = BOARD;
    show_board(&mut pane[..end], board, viewer);
}

// Copies out what a viewer sees of a console's board, which is the board of its head, or says why not and writes nothing.
#[tactic(auto, unfolding(crate::specs::Calls::pane_outcome, refusal::specs::Refusal::first_refusal))]
fn copy_pane(bytes: &[u8], console: u32, pane: &mut [u8], viewer: Viewer) -> Result<u32, Refusal>
    ensures { (reply_of result ≡ (pane_outcome viewer bytes.now console pane.old).reply) × (pane.new ≡ (pane_outcome viewer bytes.now console pane.old).buffer) }
{
    let c = named_console(console)?;
    let store = Store::read(bytes)?;
    let head = store.head(c).ok_or(Refusal::ConsoleAbsent)?;
    refuse_if(Refusal::BufferTooShort, pane.len() < BOARD)?;
    put_pane(store.board_of(head), pane, viewer);
    Ok(BOARD as u32)
}

/// Copies a console's board out.
pub fn room_board(store: &[u8], console: u32, board: &mut [u8]) -> Reply
    ensures { (result ≡ (board_outcome store.now console board.old).reply) × (board.new ≡ (board_outcome store.now console board.old).buffer) }
{
    Reply::from(copy_pane(store, console, board, Viewer::Instructor))
}

/// Copies the instructor's pane of a console out: its board.
pub fn room_instructor_pane(store: &[u8], console: u32, pane: &mut [u8]) -> Reply
    ensures { (result ≡ (pane_outcome Instructor store.now console pane.old).reply) × (pane.new ≡ (pane_outcome Instructor store.now console pane.old).buffer) }
{
    Reply::from(copy_pane(store, console, pane, Viewer::Instructor))
}

/// Copies the student's pane of a console out: its board without alerts, calls and marks 8 to 15.
pub fn room_student_pane(store: &[u8], console: u32, pane: &mut [u8]) -> Reply
    ensures { (result ≡ (pane_outcome Student store.now console pane.old).reply) × (pane.new ≡ (pane_outcome Student store.now console pane.old).buffer) }
{
    Reply::from(copy_pane(store, console, pane, Viewer::Student))
}
