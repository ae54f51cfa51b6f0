// The version graph: entries and merges, ancestors, and the meet of two versions; and the numbers that are counted apart.
#![tactic(auto)]

/// The number of a version. Versions, consoles and strips are types of their own, so that none can be passed for another.
#[derive(Clone, Copy, Debug, PartialEq, Eq, PartialOrd, Ord)]
pub struct Version(pub usize);

/// The number of a console, of any size: commands and records carry numbers that are judged later (`InRange`, `in_range`), so that what is
/// below 16 is said where it is asked for.
#[derive(Clone, Copy, Debug, PartialEq, Eq, PartialOrd, Ord)]
pub struct Console(pub usize);

/// The number of a strip of a board.
#[derive(Clone, Copy, Debug, PartialEq, Eq, PartialOrd, Ord)]
pub struct Strip(pub usize);

/// What made a version after version 0; the base of a merge is a function of its parents and of the versions before it.
#[derive(Clone, Copy, Debug, PartialEq, Eq)]
pub enum Node {
    Entry {
        parent: Version,
        code: usize,
        strip: Strip,
        operand: usize,
    },
    Merge {
        receiver: Version,
        giver: Version,
    },
}
