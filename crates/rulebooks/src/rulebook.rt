// What a rulebook offers, by the fixed numbers that it means.
ghost use Rattle.std.specs.Prelude.{◌≡◌, ℕ};
ghost use Rattle.basis.specs.declared.situation.Situation.{Situation};
ghost use Rattle.rulebooks.specs.Books.{Book, BookLaws};

use basis::category::Category;
use basis::factor::Factor;
use basis::situation::Situation;

// The factors of a design situation. Forms are counted from 0, and a form past the last counts as form 0.
pub trait Rulebook {
    const SITUATION: Situation;

    // 1 or 2.
    const FORMS: u8;

    // The constants as proofs know them.
    ghost SITUATION: { Situation };

    ghost FORMS: { ℕ };

    ghost meaning: { Self → Book };

    // Whether the parts of a permanent action may be at upper and lower apart.
    fn splits(&self) -> bool
        ensures { result ≡ (meaning self.now).splits };

    fn has_leader(&self, form: u8) -> bool
        ensures { result ≡ ((meaning self.now).form form).leader };

    fn upper(&self, form: u8) -> Factor
        ensures { result.units ≡ ((meaning self.now).form form).upper };

    fn lower(&self, form: u8) -> Factor
        ensures { result.units ≡ ((meaning self.now).form form).lower };

    fn prestress(&self, form: u8) -> Factor
        ensures { result.units ≡ ((meaning self.now).form form).prestress };

    fn leading(&self, form: u8, category: Category) -> Factor
        ensures { result.units ≡ ((meaning self.now).form form).leading category };

    fn accompanying(&self, form: u8, category: Category) -> Factor
        ensures { result.units ≡ ((meaning self.now).form form).accompanying category };

    // The constants are the situation and the number of forms that are meant.
    ghost situated: { (r : Self) → (meaning r).situation ≡ SITUATION };

    ghost counted: { (r : Self) → (meaning r).forms ≡ FORMS };

    ghost laws: { (r : Self) → BookLaws (meaning r) };
}

// The situation of a rulebook, which is taken for its type alone. Every rulebook, and so every pile of layers, keeps the laws.
pub fn situation_of<R: Rulebook>(rules: &R) -> Situation
    ensures value { result ≡ (R.meaning rules.now).situation }
    ensures laws { BookLaws (R.meaning rules.now) }
{
    let _ = rules;
    R::SITUATION
}

// The number of forms of a rulebook, which is taken for its type alone: 1 or 2.
pub fn forms_of<R: Rulebook>(rules: &R) -> u8
    ensures { result ≡ (R.meaning rules.now).forms }
{
    let _ = rules;
    R::FORMS
}
