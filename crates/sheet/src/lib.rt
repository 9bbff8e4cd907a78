// The load sheet: the actions of a frame in order of entry, and the pairs of variable actions that cannot act together.
#![tactic(auto)]

pub mod action;
pub mod plain;
pub mod states;
