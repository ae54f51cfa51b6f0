// Commands on a store: the refusals by the state in their order, what an accepted command changes and counts, and which two consoles can merge or
// fast-forward.
#![tactic(auto)]

pub mod changes;
mod descends;
pub mod mergeable;
pub mod refusals;
mod third;
pub mod verdict;
