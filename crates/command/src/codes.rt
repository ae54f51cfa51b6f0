// The codes of commands and of tape records. Those that make an entry, 02 to 08, stand in `board`.
pub const FORK_COMMAND: usize = 0x01;

pub const MERGE_COMMAND: usize = 0x09;

pub const FAST_FORWARD_COMMAND: usize = 0x0A;

pub const LEAVE_COMMAND: usize = 0x0B;

pub const MAKE_HUB_COMMAND: usize = 0x0C;

pub const START_RECORD: usize = 0x20;

pub const ENTRY_RECORD: usize = 0x21;

pub const MERGE_RECORD: usize = 0x22;

pub const HEAD_RECORD: usize = 0x23;

pub const END_RECORD: usize = 0x24;

pub const HUB_RECORD: usize = 0x25;
