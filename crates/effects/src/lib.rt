// Effects of actions: what an effect is, and the kinds of effect.
#![tactic(auto)]

mod component;
pub mod effect;
pub mod section;
pub mod single;
pub mod supply;
pub mod turned;
