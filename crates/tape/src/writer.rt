// Records of the tape, each written at a place of a buffer that has room for it there; a writer says where its record ends.
ghost use Rattle.std.specs.Prelude.{◌≡◌, [], ◌∷◌, ◌+◌, ◌<◌, ◌≤◌, length};
ghost use Rattle.buffer.specs.Field.{byte, word, with_part};
ghost use Rattle.graph.specs.declared.Node.TheVariants.{Entry, Merge};
ghost use Rattle.tape.specs.declared.Record.TheVariants.{Start, Head, Hub, End};
ghost use Rattle.tape.specs.Record.{version_bytes, record_bytes};

use buffer::put_word;
use command::codes::{
    END_RECORD, ENTRY_RECORD, HEAD_RECORD, HUB_RECORD, MERGE_RECORD, START_RECORD,
};
use graph::{Console, Node, Strip, Version};
use room::Settings;

// Writes a number's 8 bits at a place, and says where they end.
fn put_record_byte(tape: &mut [u8], at: usize, x: usize) -> usize
    requires { at < length tape.old }
    ensures { (result ≡ at + 1) × (tape.new ≡ with_part tape.old at (byte x ∷ [])) }
{
    tape[at] = (x % 256) as u8;
    at + 1
}

// Writes a number's 16 bits at a place, and says where they end.
fn put_record_word(tape: &mut [u8], at: usize, x: usize) -> usize
    requires { at + 1 < length tape.old }
    ensures { (result ≡ at + 2) × (tape.new ≡ with_part tape.old at (word x)) }
{
    put_word(tape, at, x);
    at + 2
}

// Writes the record that every tape begins with, at its front.
pub fn put_start_record(tape: &mut [u8], settings: Settings) -> usize
    requires { length (record_bytes (Start settings)) ≤ length tape.old }
    ensures { (result ≡ length (record_bytes (Start settings))) × (tape.new ≡ with_part tape.old 0 (record_bytes (Start settings))) }
{
    let coded = put_record_byte(tape, 0, START_RECORD);
    put_record_word(tape, coded, settings.capacity)
}

// Writes the record of an entry at a place.
fn put_entry_record(
    tape: &mut [u8],
    at: usize,
    parent: Version,
    code: usize,
    strip: Strip,
    operand: usize,
) -> usize
    requires { at + length (version_bytes (Entry parent code strip operand)) ≤ length tape.old }
    ensures { (result ≡ at + length (version_bytes (Entry parent code strip operand))) × (tape.new ≡ with_part tape.old at (version_bytes (Entry parent code strip operand))) }
{
    let coded = put_record_byte(tape, at, ENTRY_RECORD);
    let second = put_record_word(tape, coded, parent.0);
    let third = put_record_byte(tape, second, code);
    let fourth = put_record_byte(tape, third, strip.0);
    put_record_word(tape, fourth, operand)
}

// Writes the record of a merge at a place.
fn put_merge_record(tape: &mut [u8], at: usize, receiver: Version, giver: Version) -> usize
    requires { at + length (version_bytes (Merge receiver giver)) ≤ length tape.old }
    ensures { (result ≡ at + length (version_bytes (Merge receiver giver))) × (tape.new ≡ with_part tape.old at (version_bytes (Merge receiver giver))) }
{
    let coded = put_record_byte(tape, at, MERGE_RECORD);
    let second = put_record_word(tape, coded, receiver.0);
    put_record_word(tape, second, giver.0)
}

// Writes the record of a version at a place.
pub fn put_version_record(tape: &mut [u8], at: usize, node: Node) -> usize
    requires { at + length (version_bytes node) ≤ length tape.old }
    ensures { (result ≡ at + length (version_bytes node)) × (tape.new ≡ with_part tape.old at (version_bytes node)) }
{
    match node {
        Node::Entry {
            parent,
            code,
            strip,
            operand,
        } => put_entry_record(tape, at, parent, code, strip, operand),
        Node::Merge { receiver, giver } => put_merge_record(tape, at, receiver, giver),
    }
}

// Writes the record of a console's head at a place.
pub fn put_head_record(tape: &mut [u8], at: usize, console: Console, version: Version) -> usize
    requires { at + length (record_bytes (Head console version)) ≤ length tape.old }
    ensures { (result ≡ at + length (record_bytes (Head console version))) × (tape.new ≡ with_part tape.old at (record_bytes (Head console version))) }
{
    let coded = put_record_byte(tape, at, HEAD_RECORD);
    let second = put_record_byte(tape, coded, console.0);
    put_record_word(tape, second, version.0)
}

// Writes the record that says that console 0 is the hub, at a place.
pub fn put_hub_record(tape: &mut [u8], at: usize) -> usize
    requires { at + length (record_bytes Hub) ≤ length tape.old }
    ensures { (result ≡ at + length (record_bytes Hub)) × (tape.new ≡ with_part tape.old at (record_bytes Hub)) }
{
    put_record_byte(tape, at, HUB_RECORD)
}

// Writes the last byte of a tape at a place.
pub fn put_end_record(tape: &mut [u8], at: usize) -> usize
    requires { at + length (record_bytes End) ≤ length tape.old }
    ensures { (result ≡ at + length (record_bytes End)) × (tape.new ≡ with_part tape.old at (record_bytes End)) }
{
    put_record_byte(tape, at, END_RECORD)
}
