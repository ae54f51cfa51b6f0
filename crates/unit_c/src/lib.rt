// The calls of include/room.h for callers in C, each under its name there. Each calls the unit's function of that name and says the same of
// it. The header makes room_view of room_view_at.
#![tactic(auto)]

ghost use Rattle.std.specs.Prelude.{◌≡◌};
ghost use Rattle.board.specs.declared.Viewer.TheVariants.{Instructor, Student};
ghost use Rattle.unit.specs.Calls.{open_outcome, command_outcome, heard_reply, common_reply, origin_reply, mergeable_reply, pane_outcome, board_outcome, view_at_reply, view_refusal_reply, pause_outcome, resume_outcome};

use unit::{Reply, commands, opening, panes, pausing, questions, resuming, views};

/// Opens a room: a store of version 0 with console 0 on it, at the front of the lent buffer.
#[unsafe(no_mangle)]
pub extern "C" fn room_open(capacity: u32, store: &mut [u8]) -> Reply
    ensures { (result ≡ (open_outcome capacity store.old).reply) × (store.new ≡ (open_outcome capacity store.old).buffer) }
{
    opening::room_open(capacity, store)
}

/// Executes a command on a store, or answers with its refusal and changes nothing.
#[unsafe(no_mangle)]
pub extern "C" fn room_command(store: &mut [u8], command: &[u8]) -> Reply
    ensures { (result ≡ (command_outcome store.old command.now).reply) × (store.new ≡ (command_outcome store.old command.now).buffer) }
{
    commands::room_command(store, command)
}

/// How many entries a console has heard.
#[unsafe(no_mangle)]
pub extern "C" fn room_heard(store: &[u8], console: u32) -> Reply
    ensures { result ≡ heard_reply store.now console }
{
    questions::room_heard(store, console)
}

/// The common version of two consoles; of a console with itself, its head.
#[unsafe(no_mangle)]
pub extern "C" fn room_common(store: &[u8], first: u32, second: u32) -> Reply
    ensures { result ≡ common_reply store.now first second }
{
    questions::room_common(store, first, second)
}

/// The entry behind a level or heading of a console's board, or version 0 where none is met.
#[unsafe(no_mangle)]
pub extern "C" fn room_origin(store: &[u8], console: u32, strip: u32, cell: u32) -> Reply
    ensures { result ≡ origin_reply store.now console strip cell }
{
    questions::room_origin(store, console, strip, cell)
}

/// The first two consoles of which one can merge or fast-forward to the other if versions are free; where there are none, whether all agree.
#[unsafe(no_mangle)]
pub extern "C" fn room_mergeable(store: &[u8]) -> Reply
    ensures { result ≡ mergeable_reply store.now }
{
    questions::room_mergeable(store)
}

/// Copies a console's board out.
#[unsafe(no_mangle)]
pub extern "C" fn room_board(store: &[u8], console: u32, board: &mut [u8]) -> Reply
    ensures { (result ≡ (board_outcome store.now console board.old).reply) × (board.new ≡ (board_outcome store.now console board.old).buffer) }
{
    panes::room_board(store, console, board)
}

/// Copies the instructor's pane of a console out: its board.
#[unsafe(no_mangle)]
pub extern "C" fn room_instructor_pane(store: &[u8], console: u32, pane: &mut [u8]) -> Reply
    ensures { (result ≡ (pane_outcome Instructor store.now console pane.old).reply) × (pane.new ≡ (pane_outcome Instructor store.now console pane.old).buffer) }
{
    panes::room_instructor_pane(store, console, pane)
}

/// Copies the student's pane of a console out: its board without alerts, calls and marks 8 to 15.
#[unsafe(no_mangle)]
pub extern "C" fn room_student_pane(store: &[u8], console: u32, pane: &mut [u8]) -> Reply
    ensures { (result ≡ (pane_outcome Student store.now console pane.old).reply) × (pane.new ≡ (pane_outcome Student store.now console pane.old).buffer) }
{
    panes::room_student_pane(store, console, pane)
}

/// Where in the store chosen the view begins.
#[unsafe(no_mangle)]
pub extern "C" fn room_view_at<'a>(
    live: &'a [u8],
    frozen: &'a [u8],
    console: u32,
    choice: u32,
) -> Reply
    ensures { result ≡ view_at_reply live.now frozen.now console choice }
{
    views::room_view_at(live, frozen, console, choice)
}

/// The number with which the view is refused, or 0.
#[unsafe(no_mangle)]
pub extern "C" fn room_view_refusal<'a>(
    live: &'a [u8],
    frozen: &'a [u8],
    console: u32,
    choice: u32,
) -> Reply
    ensures { result ≡ view_refusal_reply live.now frozen.now console choice }
{
    views::room_view_refusal(live, frozen, console, choice)
}

/// Writes the tape of a store over the front of the lent output; the count is the tape's length.
#[unsafe(no_mangle)]
pub extern "C" fn room_pause(store: &[u8], tape: &mut [u8]) -> Reply
    ensures { (result ≡ (pause_outcome store.now tape.old).reply) × (tape.new ≡ (pause_outcome store.now tape.old).buffer) }
{
    pausing::room_pause(store, tape)
}

/// Writes the store of a tape's room over the front of the lent buffer, where the tape and the buffer are not refused.
#[unsafe(no_mangle)]
pub extern "C" fn room_resume(tape: &[u8], store: &mut [u8]) -> Reply
    ensures { (result ≡ (resume_outcome tape.now store.old).reply) × (store.new ≡ (resume_outcome tape.now store.old).buffer) }
{
    resuming::room_resume(tape, store)
}
