// The vocabulary of EN 1990: kinds, spreads and categories of action, design situations, and factors.
#![tactic(auto)]

pub mod action;
pub mod category;
pub mod factor;
pub mod situation;
