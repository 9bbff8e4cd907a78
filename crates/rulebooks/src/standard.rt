// The rulebook of an expression of EN 1990.
ghost use Rattle.std.specs.Prelude.{◌≡◌, ℕ};
ghost use Rattle.basis.specs.declared.situation.Situation.{Situation};
ghost use Rattle.rulebooks.specs.Books.{Book, BookLaws};
ghost use Rattle.rulebooks.specs.Rows.{form_of};
ghost use Rattle.std.proofs.Common.{rules};

use crate::row::Row;
use crate::rulebook::Rulebook;
use basis::category::Category;
use basis::factor::Factor;
use basis::situation::Situation;

// An expression of the code, by its rows. Each is a type, so that what a pile of layers means is fixed when it is compiled.
pub trait Expression {
    const SITUATION: Situation;

    const FORMS: u8;

    ghost SITUATION: { Situation };

    ghost FORMS: { ℕ };

    ghost book: { Book };

    // A function, since a constant would need a ghost member and a law beside it.
    fn splits() -> bool
        ensures { result ≡ book.splits };

    fn row(form: u8) -> Row
        ensures { form_of result ≡ book.form form };

    ghost situated: { book.situation ≡ SITUATION };

    ghost counted: { book.forms ≡ FORMS };

    ghost laws: { BookLaws book };
}

// The rulebook of an expression.
#[derive(Clone, Copy)]
pub struct Standard<E>(pub E);

impl<E: Expression> Rulebook for Standard<E> {
    const SITUATION: Situation = E::SITUATION;

    const FORMS: u8 = E::FORMS;

    ghost SITUATION = { E.SITUATION };

    ghost FORMS = { E.FORMS };

    ghost meaning = { λ _. E.book };

    ghost situated = { Prim.search rules };

    ghost counted = { Prim.search rules };

    ghost laws = { λ _. E.laws };

    fn splits(&self) -> bool {
        E::splits()
    }

    fn has_leader(&self, form: u8) -> bool {
        E::row(form).has_leader()
    }

    fn upper(&self, form: u8) -> Factor {
        E::row(form).upper
    }

    fn lower(&self, form: u8) -> Factor {
        E::row(form).lower
    }

    fn prestress(&self, form: u8) -> Factor {
        E::row(form).prestress()
    }

    fn leading(&self, form: u8, category: Category) -> Factor {
        E::row(form).leading(category)
    }

    fn accompanying(&self, form: u8, category: Category) -> Factor {
        E::row(form).accompanying(category)
    }
}
