// The session program: reads commands from standard input into a store of capacity 64, and prints a line for each: its ordinal, the answer,
// and the head of the console that its first operand names. What is printed is tested, not proved. A read or a write that fails ends the
// program with its error.
#![tactic(auto)]

ghost use Rattle.std.specs.Prelude.{◌≤◌, ◌≡◌, cond, ◌||◌, eqb, ltb, length, IfOk, OnErr};
ghost use Rattle.std.specs.Io.{ReadsAtMost};
ghost use Rattle.command.specs.Code.{shape_of, length_of};
ghost use Rattle.command.specs.Decode.{is_command_code};

use buffer::word_at;
use command::decoder::{is_command_code, length_of, widths_of};
use std::io;
use std::io::Read;
use store::places::{BLOCK, COUNT, HEADER};
use unit::commands::room_command;
use unit::opening::room_open;
use unit::questions::room_common;

const SESSION_CAPACITY: u32 = 64;

const STORE_BYTES: usize = HEADER + BLOCK * SESSION_CAPACITY as usize;

// The longest command.
const LONGEST: usize = 5;

// How many bytes a command with this code takes; an unknown code stands alone.
fn command_length(code: usize) -> usize
    ensures { (result ≡ cond (is_command_code code) (length_of (shape_of code)) 1) × (1 ≤ result) × (result ≤ 5) }
{
    if is_command_code(code) {
        return length_of(widths_of(code));
    }
    1
}

// Prints the head of a console, or - for one that is absent or above 15.
fn print_head(rt: &impl Print, store: &[u8], console: u32) -> io::Result<()> {
    let reply = room_common(store, console, console);
    if reply.answer == 0 {
        print!(rt; "{}", reply.count)
    } else {
        print!(rt; "-")
    }
}

// Prints the line of a command, of which the first operand, where one was read, names a console.
fn print_line(
    rt: &impl Print,
    store: &[u8],
    ordinal: u64,
    answer: u32,
    console: Option<u8>,
) -> io::Result<()> {
    print!(rt; "{ordinal} {answer} ")?;
    match console {
        Some(console) => print_head(rt, store, u32::from(console))?,
        None => print!(rt; "-")?,
    }
    println!(rt)
}

// Reads until the buffer is full or the input ends, and answers how many bytes it put at the buffer's front. On an empty buffer it makes no call.
// A read may give fewer bytes than were asked for, so the loop goes by what came, which is no index; `read_exact` would not say how many bytes
// there were where the input ends.
fn read_full(input: &mut impl Read, buffer: &mut [u8]) -> io::Result<usize>
    ensures ok { ReadsAtMost result buffer.new }
    ensures err { OnErr result (length buffer.new ≡ length buffer.old) }
{
    let mut done = 0;
    while done < buffer.len() {
        let n = input.read(&mut buffer[done..])?;
        if n == 0 {
            break;
        }
        done += n;
    }
    Ok(done)
}

// Reads what follows the code that was read, and answers how many bytes the command has.
fn read_operands(input: &mut impl Read, command: &mut [u8]) -> io::Result<usize>
    requires { length command.old ≡ 5 }
    ensures ok { IfOk result (λ n. n ≤ 5) }
    ensures err { OnErr result (length command.new ≡ 5) }
{
    let end = command_length(usize::from(command[0]));
    let got = read_full(input, &mut command[1..end])?;
    Ok(1 + got)
}

// Reads a command and answers how many bytes it has; 0 at the end of the input.
fn read_command(input: &mut impl Read, command: &mut [u8]) -> io::Result<usize>
    requires { length command.old ≡ 5 }
    ensures ok { ReadsAtMost result command.new }
    ensures err { OnErr result (length command.new ≡ 5) }
{
    if read_full(input, &mut command[..1])? == 0 {
        return Ok(0);
    }
    read_operands(input, command)
}

// Whether the program goes on after this answer.
fn goes_on(answer: u32) -> bool
    ensures { result ≡ (eqb answer 0 || ltb 2 answer) }
{
    (answer == 0) | (2 < answer)
}

// Reads one command, has it carried out and prints its line. Answers whether to go on.
fn next_command(
    rt: &impl Print,
    input: &mut impl Read,
    store: &mut [u8],
    ordinal: u64,
) -> io::Result<bool> {
    let mut command = [0u8; LONGEST];
    let got = read_command(input, &mut command)?;
    if got == 0 {
        return Ok(false);
    }
    let reply = room_command(store, &command[..got]);
    let console = (2 <= got).then_some(command[1]);
    print_line(rt, store, ordinal, reply.answer, console)?;
    Ok(goes_on(reply.answer))
}

// Commands up to the end of the input or to a command that stops the program. Nothing says that an input ends, so the loop counts its
// commands, up to a number that no input reaches.
fn all_commands(rt: &impl Print, input: &mut impl Read, store: &mut [u8]) -> io::Result<()> {
    for ordinal in 1..u64::MAX {
        if !next_command(rt, input, store, ordinal)? {
            break;
        }
    }
    Ok(())
}

fn main(rt: HostRuntime) -> io::Result<()> {
    let mut store = [0u8; STORE_BYTES];
    room_open(SESSION_CAPACITY, &mut store);
    all_commands(&rt, &mut rt.stdin(), &mut store)?;
    println!(rt; "end {}", word_at(&store, COUNT))
}
