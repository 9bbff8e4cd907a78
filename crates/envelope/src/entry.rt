// The actions of a sheet with their numbers.
use sheet::action::Action;

// An action with its number, its place among the variable actions (the number of those before it), and the number of its
// first part. Parts are numbered through the whole sheet, action after action.
#[derive(Clone, Copy)]
pub struct Entry {
    pub number: usize,
    pub place: usize,
    pub first: usize,
    pub action: Action,
}
