// The room unit as the panel sees it: its calls, and what each returns.
#![tactic(auto)]

mod answers;
pub mod commands;
mod named;
pub mod opening;
pub mod panes;
pub mod pausing;
pub mod questions;
pub mod resuming;
pub mod views;

/// The answer of a call, 0 or the number of its refusal, and the count that goes with it: two numbers, as C takes them.
#[repr(C)]
#[derive(Clone, Copy, Debug, PartialEq, Eq)]
pub struct Reply {
    pub answer: u32,
    pub count: u32,
}
