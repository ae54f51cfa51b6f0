// A room without its bytes: what it is set to, what is sound, what each command does. The rest of it is definitions and theorems.
#![tactic(auto)]

/// What a room is set to for good: by the opening or the tape that it comes from, the most versions that it may hold; by that tape or by a
/// command, whether console 0 is its hub, so that the others merge and fast-forward with console 0 alone, and are forked from it.
#[derive(Clone, Copy, Debug, PartialEq, Eq)]
pub struct Settings {
    pub capacity: usize,
    pub hub: bool,
}
