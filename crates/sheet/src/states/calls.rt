// The calls that change a draft. A refused call leaves it as it was.
ghost use Rattle.std.specs.Prelude.{◌≡◌, if◌then◌else◌};
ghost use Rattle.sheet.specs.Content.{on_draft};
ghost use Rattle.sheet.specs.Answers.{said};
ghost use Rattle.sheet.specs.Calls.{entering, excluding, lifting, recasting, suspending, resuming};

use super::Draft;
use crate::action::{Action, Refusal};

impl Draft {
    // Enters an active action, and answers its number. Kind, spread and category go by their numbers and letters, since the first
    // questions are put to them.
    pub fn enter(&mut self, kind: u8, letter: char, spread: u8, parts: u8) -> Result<usize, Refusal>
        ensures { (said result, on_draft self.new) ≡ entering (on_draft self.old) kind letter spread parts }
    {
        let action = Action::described(kind, letter, spread, parts)?;
        if !self.sheet.has_room(&action) {
            return Err(Refusal::SheetFull);
        }
        let number = self.sheet.actions().len();
        self.sheet.push(action);
        Ok(number)
    }

    // Gives a variable action the category of another letter, to which a question is put.
    pub fn recast(&mut self, number: usize, letter: char) -> Result<(), Refusal>
        ensures { (said result, on_draft self.new) ≡ recasting (on_draft self.old) number letter }
    {
        let category = self.sheet.check_recast(number, letter)?;
        self.sheet.set_category(number, category);
        Ok(())
    }

    // Switches an action off; its parts keep their numbers.
    pub fn suspend(&mut self, number: usize) -> Result<(), Refusal>
        ensures { (said result, on_draft self.new) ≡ suspending (on_draft self.old) number }
    {
        self.switch(number, false)
    }

    // Switches a suspended action on again.
    pub fn resume(&mut self, number: usize) -> Result<(), Refusal>
        ensures { (said result, on_draft self.new) ≡ resuming (on_draft self.old) number }
    {
        self.switch(number, true)
    }

    // Excludes two variable actions from acting together.
    pub fn exclude(&mut self, a: usize, b: usize) -> Result<(), Refusal>
        ensures { (said result, on_draft self.new) ≡ excluding (on_draft self.old) a b }
    {
        self.mark(a, b, true)
    }

    // Lets two excluded actions act together again.
    pub fn lift(&mut self, a: usize, b: usize) -> Result<(), Refusal>
        ensures { (said result, on_draft self.new) ≡ lifting (on_draft self.old) a b }
    {
        self.mark(a, b, false)
    }

    // Resumes an action or suspends it.
    fn switch(&mut self, number: usize, on: bool) -> Result<(), Refusal>
        ensures { (said result, on_draft self.new) ≡ (if on then resuming (on_draft self.old) number else suspending (on_draft self.old) number) }
    {
        if self.sheet.is_active(number)? == on {
            return Err(Refusal::ActivityUnchanged);
        }
        self.sheet.set_active(number, on);
        Ok(())
    }

    // Excludes two actions or lifts that.
    fn mark(&mut self, a: usize, b: usize, mark: bool) -> Result<(), Refusal>
        ensures { (said result, on_draft self.new) ≡ (if mark then excluding (on_draft self.old) a b else lifting (on_draft self.old) a b) }
    {
        let changes = self.sheet.excludes(a, b) != mark;
        self.sheet.check_pair(a, b, changes)?;
        self.sheet.set_mark(a, b, mark);
        Ok(())
    }
}
