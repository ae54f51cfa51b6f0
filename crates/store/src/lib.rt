// The store: a room in the bytes of a lent buffer.
#![tactic(auto)]

pub mod block_parts;
pub mod consoles;
pub mod hub;
pub mod judge;
pub mod nodes;
pub mod places;
pub mod rows;
pub mod rules;
pub mod settings;
mod version;
