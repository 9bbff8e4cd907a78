// Reading and writing the table of actions and the marks.
ghost use Rattle.std.specs.Prelude.{◌≡◌, ◌<◌, ◌≤◌, true, false, [], ◌∷◌, ◌++◌, length, replicate, IfOk, vec_len, slice_set};
ghost use Rattle.sheet.specs.Limits.{variables, parts_in, in_limits, can_pair, well_formed};
ghost use Rattle.sheet.specs.Content.{content, blank, action_at, variable_at, with_entry, with_action, with_mark};
ghost use Rattle.sheet.specs.Calls.{with_category, switched};

use super::Sheet;
use crate::action::Action;
use basis::category::Category;
use std::alloc::{AllocError, Global};

const ACTIONS: usize = 32;

const VARIABLE_ACTIONS: usize = 12;

const PARTS: usize = 192;

// How many of the actions are variable.
fn count_variable(actions: &[Action]) -> usize
    ensures { result ≡ variables actions.now }
{
    actions
        .iter()
        .filter(|action| action.kind.is_variable())
        .count()
}

// How many parts the actions have together.
fn count_parts(actions: &[Action]) -> usize
    requires { parts_in actions.now ≤ 192 }
    ensures { result ≡ parts_in actions.now }
{
    actions.iter().map(|action| usize::from(action.parts)).sum()
}

// Writes one place of a row of marks. Written in place, through two indices, it leaves a goal that has no name for the row.
fn put(row: &mut [bool; 32], at: usize, mark: bool)
    requires { at < 32 }
    ensures after { row.new ≡ slice_set row.old at mark }
    ensures len { length row.old ≡ 32 }
{
    row[at] = mark;
}

// A table with no mark.
fn no_marks() -> [[bool; 32]; 32]
    ensures { result ≡ replicate 32 (replicate 32 false) }
{
    [[false; 32]; 32]
}

impl Sheet {
    // A blank sheet, with memory for all the actions that it may hold.
    pub(crate) fn blank(heap: Global) -> Result<Sheet, AllocError>
        ensures { IfOk result (λ s. content s ≡ blank) }
    {
        let actions = Vec::with_capacity(heap, ACTIONS)?;
        Ok(Sheet {
            actions,
            marks: no_marks(),
        })
    }

    // The actions in order of entry.
    pub fn actions(&self) -> &[Action]
        ensures { result.now ≡ (content self.now).actions }
    {
        self.actions.as_slice()
    }

    // How many of the actions are variable.
    pub fn variable_actions(&self) -> usize
        ensures { result ≡ variables (content self.now).actions }
    {
        count_variable(&self.actions)
    }

    // How many parts the sheet has.
    pub fn parts(&self) -> usize
        ensures { result ≡ parts_in (content self.now).actions }
    {
        count_parts(&self.actions)
    }

    // Whether two actions are excluded from acting together, in either order.
    pub fn excludes(&self, a: usize, b: usize) -> bool
        ensures { result ≡ (content self.now).marked a b }
    {
        let entered = self.actions.len();
        if a >= entered || b >= entered {
            return false;
        }
        self.marks[a.min(b)][a.max(b)]
    }

    // Whether the sheet keeps its limits with one action more.
    pub(crate) fn has_room(&self, action: &Action) -> bool
        ensures { result ≡ in_limits ((content self.now).actions ++ action.now ∷ []) }
    {
        let variable = count_variable(&self.actions) + usize::from(action.kind.is_variable());
        let parts = count_parts(&self.actions) + usize::from(action.parts);
        // Not &&, whose branches would each leave the whole goal.
        (self.actions.len() + 1 <= ACTIONS) & (variable <= VARIABLE_ACTIONS) & (parts <= PARTS)
    }

    // Adds an action that the sheet has room for.
    pub(crate) fn push(&mut self, action: Action)
        requires formed { well_formed action ≡ true }
        requires room { in_limits ((content self.old).actions ++ action ∷ []) ≡ true }
        ensures { content self.new ≡ with_entry (content self.old) action }
    {
        self.actions.push_reserved(action);
    }

    // Changes the category of one action, lent from the table.
    pub(crate) fn set_category(&mut self, number: usize, category: Category)
        requires within { number < vec_len self.old.actions }
        requires variable { variable_at (content self.old) number ≡ true }
        ensures { content self.new ≡ with_action (content self.old) number (with_category category (action_at (content self.old) number)) }
    {
        let action = &mut self.actions[number];
        action.category = Some(category);
    }

    // Switches one action on or off.
    pub(crate) fn set_active(&mut self, number: usize, on: bool)
        requires { number < vec_len self.old.actions }
        ensures { content self.new ≡ with_action (content self.old) number (switched on (action_at (content self.old) number)) }
    {
        self.actions[number].active = on;
    }

    // Marks a pair of variable actions as excluded, or takes the mark away.
    pub(crate) fn set_mark(&mut self, a: usize, b: usize, mark: bool)
        requires within { (a < vec_len self.old.actions) × (b < vec_len self.old.actions) }
        requires pair { can_pair (content self.old).actions a b ≡ true }
        ensures { content self.new ≡ with_mark (content self.old) a b mark }
    {
        put(&mut self.marks[a.min(b)], a.max(b), mark);
    }
}
