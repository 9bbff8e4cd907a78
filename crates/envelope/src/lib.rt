// Combinations of actions: what is admissible, what is reported, and the proof that nothing outranks it.
#![tactic(auto)]

ghost use Rattle.envelope.specs.Figures.{Figures, ToldApart};

mod base;
mod case;
mod choice;
pub mod combination;
mod entry;
pub mod envelope;
mod layout;
mod leaders;
mod masks;
mod prepared;
pub mod promise;
mod report;
mod roster;
mod search;
mod sets;
mod strip;

// The definitions compute the worked figures, and tell an admissible combination from one that is not.
pub fn worked_figures_hold()
    ensures figures { Figures }
    ensures told { ToldApart }
{}
