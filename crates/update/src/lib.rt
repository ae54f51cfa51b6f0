// Changes to the bytes of a store, each in place. They take the bytes and no `Store`: between the writes of a change the bytes hold none.
#![tactic(auto)]

pub mod append;
pub mod commons;
pub mod hub;
pub mod new_version;
pub mod open;
