// A row of the table of factors: one form of an expression of EN 1990.
ghost use Rattle.std.specs.Prelude.{◌≡◌, ◌≤◌};
ghost use Rattle.std.specs.Option.{option_map};
ghost use Rattle.rulebooks.specs.Rows.{tenths as tenths_of, term, term_of, row_form, form_of};

use crate::psi::psi_of;
use basis::category::Category;
use basis::factor::Factor;

// The share of a variable action's value that is taken: all of it, or one of the combination factors.
#[derive(Clone, Copy)]
pub enum Share {
    Whole,
    Psi0,
    Psi1,
    Psi2,
}

// A partial factor in hundredths, times a share. A row has one for leading and one for accompanying, as the table does.
#[derive(Clone, Copy)]
pub struct Term {
    gamma: u8,
    share: Share,
}

// Where no leading term is given the form has no leader.
#[derive(Clone, Copy)]
pub struct Row {
    pub(crate) upper: Factor,
    pub(crate) lower: Factor,
    pub(crate) leading: Option<Term>,
    pub(crate) accompanying: Term,
}

impl Share {
    fn tenths(self, category: Category) -> u8
        ensures value { result ≡ tenths_of self category }
        ensures within { result ≤ 10 }
    {
        let psi = psi_of(category);
        match self {
            Share::Whole => 10,
            Share::Psi0 => psi.psi0,
            Share::Psi1 => psi.psi1,
            Share::Psi2 => psi.psi2,
        }
    }
}

impl Term {
    pub(crate) fn new(gamma: u8, share: Share) -> Term
        ensures { result ≡ term_of gamma share }
    {
        Term { gamma, share }
    }

    fn at(self, category: Category) -> Factor
        ensures { result.units ≡ term self category }
    {
        Factor::product(self.gamma, self.share.tenths(category))
    }
}

impl Row {
    // A form whose partial factors are all 1.00.
    pub(crate) fn unfactored(leading: Option<Share>, accompanying: Share) -> Row
        ensures { form_of result ≡ row_form 100_000 100_000 (option_map (term_of 100) leading) (term_of 100 accompanying) }
    {
        Row {
            upper: Factor::ONE,
            lower: Factor::ONE,
            leading: leading.map(|share| Term::new(100, share)),
            accompanying: Term::new(100, accompanying),
        }
    }

    pub(crate) fn has_leader(&self) -> bool
        ensures { result ≡ (form_of self.now).leader }
    {
        self.leading.is_some()
    }

    pub(crate) fn prestress(&self) -> Factor
        ensures { result.units ≡ (form_of self.now).prestress }
    {
        Factor::ONE
    }

    pub(crate) fn leading(&self, category: Category) -> Factor
        ensures { result.units ≡ (form_of self.now).leading category }
    {
        self.leading.unwrap_or(self.accompanying).at(category)
    }

    pub(crate) fn accompanying(&self, category: Category) -> Factor
        ensures { result.units ≡ (form_of self.now).accompanying category }
    {
        self.accompanying.at(category)
    }
}
