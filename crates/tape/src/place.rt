// The reading place: the record that stands there, and the place past it. By value first, then lent.
ghost use Rattle.std.specs.Prelude.{◌≡◌, ◌++◌, ◌≤◌, length, get_or, drop};
ghost use Rattle.tape.specs.Record.{record_length, record_from, record_in, found_bytes, record_refusal};
ghost use Rattle.tape.specs.Reader.{place_after};

use crate::lengths::coded_length;
use crate::{Read, Record};
use command::Operands;
use command::codes::{
    END_RECORD, ENTRY_RECORD, HEAD_RECORD, HUB_RECORD, MERGE_RECORD, START_RECORD,
};
use command::decoder::{operands_of, widths_of};
use graph::{Console, Node, Strip, Version};
use room::Settings;

// The reading place.
#[derive(Clone, Copy, Debug, PartialEq, Eq)]
pub struct Place {
    pub at: usize,
}

// The record of a code and what follows it. That console 0 is the hub is said by a record of its own, not by the start.
#[tactic(auto, unfolding(crate::specs::Record::record_from))]
fn record_from(code: usize, o: Operands) -> Option<Record>
    ensures { result ≡ record_from code o }
{
    match code {
        START_RECORD => Some(Record::Start {
            settings: Settings {
                capacity: o.first,
                hub: false,
            },
        }),
        ENTRY_RECORD => Some(Record::Version {
            node: Node::Entry {
                parent: Version(o.first),
                code: o.second,
                strip: Strip(o.third),
                operand: o.fourth,
            },
        }),
        MERGE_RECORD => Some(Record::Version {
            node: Node::Merge {
                receiver: Version(o.first),
                giver: Version(o.second),
            },
        }),
        HEAD_RECORD => Some(Record::Head {
            console: Console(o.first),
            version: Version(o.second),
        }),
        HUB_RECORD => Some(Record::Hub),
        END_RECORD => Some(Record::End),
        _ => None,
    }
}

// The code at the front of a tape; 0, which is no record's, where there is none.
fn front_code(t: &[u8]) -> usize
    ensures { result ≡ get_or t.now 0 0 }
{
    match t.first() {
        Some(code) => usize::from(*code),
        None => 0,
    }
}

// How many bytes the record at the front of a tape takes.
fn record_length(t: &[u8]) -> usize
    ensures { result ≡ record_length t.now }
{
    coded_length(front_code(t))
}

// The record at the front of a tape, where it is there whole: the tape begins with the paper's bytes of it and goes on behind them.
fn record_in(t: &[u8]) -> Option<Record>
    ensures { (result ≡ record_in t.now) × (record_refusal result ≡ 0 → t.now ≡ found_bytes result ++ drop (record_length t.now) t.now) }
{
    if t.len() < record_length(t) {
        return None;
    }
    let code = front_code(t);
    record_from(code, operands_of(widths_of(code), t))
}

// The record at a place.
pub fn record_at(tape: &[u8], place: Place) -> Option<Record>
    requires { place.at ≤ length tape.now }
    ensures { result ≡ record_in (drop place.at tape.now) }
{
    let at = place.at;
    record_in(&tape[at..])
}

// The place past the record at a place.
pub fn next_at(tape: &[u8], place: Place) -> Place
    requires { place.at ≤ length tape.now }
    ensures { (result.at ≡ place_after tape.now place.at) × (result.at ≤ length tape.now) }
{
    let at = place.at;
    let rest = &tape[at..];
    let n = record_length(rest);
    if rest.len() < n {
        return place;
    }
    Place { at: at + n }
}

// Moves the reading place past the record that stands there.
pub fn skip_record(tape: &[u8], place: &mut Place)
    requires { place.old.at ≤ length tape.now }
    ensures { (place.new.at ≡ place_after tape.now place.old.at) × (place.new.at ≤ length tape.now) }
{
    *place = next_at(tape, *place);
}

// Reads the record at the reading place and moves the place past it.
pub fn read_record(tape: &[u8], place: &mut Place) -> Option<Record>
    requires { place.old.at ≤ length tape.now }
    ensures { (result ≡ record_in (drop place.old.at tape.now)) × (place.new.at ≡ place_after tape.now place.old.at) × (place.new.at ≤ length tape.now) }
{
    let found = record_at(tape, *place);
    skip_record(tape, place);
    found
}

// The record at a place and the place past it, for callers with no reading place of their own.
pub fn read_at(tape: &[u8], at: usize) -> Read<Option<Record>>
    requires { at ≤ length tape.now }
    ensures { (result.value ≡ record_in (drop at tape.now)) × (result.next ≡ place_after tape.now at) × (result.next ≤ length tape.now) }
{
    let mut place = Place { at };
    let value = read_record(tape, &mut place);
    Read {
        value,
        next: place.at,
    }
}
