// Readings of a solver: binary64 numbers, read as the nearest whole numbers.
#![tactic(auto)]

pub mod list;
pub mod number;
#[cfg(test)]
mod tests;
