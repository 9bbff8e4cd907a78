// Rulebooks: the factors of EN 1990 with Annex A1, and layers over any rulebook.
#![tactic(auto)]

pub mod class_layer;
pub mod event;
mod psi;
mod row;
pub mod rulebook;
pub mod serviceability;
pub mod stage_layer;
pub mod standard;
pub mod str_pair;
pub mod ultimate;
