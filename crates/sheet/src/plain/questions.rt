// The questions that a call puts to a sheet.
ghost use Rattle.std.specs.Prelude.{◌≡◌, ◌<◌, true, vec_len, OnOk};
ghost use Rattle.sheet.specs.Limits.{can_pair};
ghost use Rattle.sheet.specs.Content.{content, entered as is_entered, action_at, variable_at};
ghost use Rattle.sheet.specs.Answers.{said, granted};
ghost use Rattle.sheet.specs.Calls.{ask, new_category, pair_to_mark};

use super::Sheet;
use crate::action::Refusal;
use basis::category::Category;

impl Sheet {
    // Whether an action may be recast, and the category that the letter stands for.
    pub(crate) fn check_recast(&self, number: usize, letter: char) -> Result<Category, Refusal>
        ensures answer { said result ≡ new_category (content self.now) number letter }
        ensures found { OnOk result ((number < vec_len self.now.actions) × (variable_at (content self.now) number ≡ true)) }
    {
        let action = self.actions.get(number).ok_or(Refusal::NotEntered)?;
        if !action.kind.is_variable() {
            return Err(Refusal::NotVariable);
        }
        Ok(Category::try_from(letter)?)
    }

    // Whether a pair may be marked or unmarked: its questions in their order, the last one, whether its mark would change, as the caller
    // knows it.
    pub(crate) fn check_pair(&self, a: usize, b: usize, changes: bool) -> Result<(), Refusal>
        ensures answer { said result ≡ pair_to_mark (content self.now) a b changes }
        ensures found { OnOk result ((a < vec_len self.now.actions) × (b < vec_len self.now.actions) × (can_pair (content self.now).actions a b ≡ true)) }
    {
        let entered = self.actions.len();
        if a >= entered || b >= entered {
            return Err(Refusal::NotEntered);
        }
        // Not &&, whose branches would each leave the whole goal.
        let variable = self.actions[a].kind.is_variable() & self.actions[b].kind.is_variable();
        if !((a != b) & variable) {
            return Err(Refusal::NotVariable);
        }
        if changes {
            Ok(())
        } else {
            Err(Refusal::PairUnchanged)
        }
    }

    // Whether an entered action is active.
    pub(crate) fn is_active(&self, number: usize) -> Result<bool, Refusal>
        ensures { said result ≡ ask 6 (is_entered (content self.now) number) (granted (action_at (content self.now) number).active) }
    {
        let action = self.actions.get(number).ok_or(Refusal::NotEntered)?;
        Ok(action.active)
    }
}
