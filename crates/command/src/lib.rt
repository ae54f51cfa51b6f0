// Commands: the lengths and operand widths of codes, and the commands that byte strings decode to.
#![tactic(auto)]

use graph::{Console, Strip};

pub mod codes;
pub mod decoder;
pub mod numbers;

/// The kind of a command, by its code.
#[derive(Clone, Copy, Debug, PartialEq, Eq)]
pub enum Kind {
    Fork,
    Entry,
    Merge,
    FastForward,
    Leave,
    MakeHub,
}

/// The widths in bytes of what follows a code, in their order; 0 where there is no such operand.
#[derive(Clone, Copy, Debug, PartialEq, Eq)]
pub struct Widths {
    pub first: usize,
    pub second: usize,
    pub third: usize,
    pub fourth: usize,
}

/// The numbers that follow a code, in their order; 0 where there is no such operand.
#[derive(Clone, Copy, Debug, PartialEq, Eq)]
pub struct Operands {
    pub first: usize,
    pub second: usize,
    pub third: usize,
    pub fourth: usize,
}

/// A command, with the numbers that it names.
#[derive(Clone, Copy, Debug, PartialEq, Eq)]
pub enum Command {
    Fork {
        new: Console,
        old: Console,
    },
    Entry {
        console: Console,
        code: usize,
        strip: Strip,
        operand: usize,
    },
    Merge {
        receiver: Console,
        giver: Console,
    },
    FastForward {
        receiver: Console,
        giver: Console,
    },
    Leave {
        console: Console,
    },
    /// Console 0 is made the hub of the room, for good: the others merge and fast-forward with it alone, and are forked from it.
    MakeHub,
}
