// The plain sheet, whether a draft or issued.
ghost use Rattle.std.specs.Prelude.{vec_capacity};
ghost use Rattle.sheet.specs.Limits.{Limited, Formed, Paired, marked_in};

use crate::action::Action;

mod questions;
mod table;

// The actions in order of entry, and a mark for each excluded pair, at the row of the lower number and the column of the
// higher: a table, since a set of pairs would ask for memory at a call. Contracts see it through `content` and not through a Model,
// whose value could not hold the marks as a function of two numbers.
#[derive(Drop)]
pub struct Sheet {
    actions: Vec<Action>,
    marks: [[bool; 32]; 32],
    ghost limited: { Limited (vec_capacity actions) actions.items },
    ghost formed: { Formed actions.items },
    ghost paired: { Paired actions.items (marked_in marks) },
}
