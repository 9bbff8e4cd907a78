// The pair of expressions for STR.
ghost use Rattle.rulebooks.specs.Table.{str_pair};
ghost use Rattle.std.proofs.Common.{rules};

use crate::row::{Row, Share, Term};
use crate::standard::Expression;
use basis::factor::Factor;
use basis::situation::Situation;

// 6.10a, and 6.10b with ξ = 0.85, with Table A1.2(B)
#[derive(Clone, Copy)]
pub struct StrPair;

impl Expression for StrPair {
    const SITUATION: Situation = Situation::Persistent;

    const FORMS: u8 = 2;

    ghost SITUATION = { str_pair.situation };

    ghost FORMS = { str_pair.forms };

    ghost book = { str_pair };

    ghost situated = { Prim.search rules };

    ghost counted = { Prim.search rules };

    ghost laws = { Prim.search rules };

    fn splits() -> bool {
        false
    }

    fn row(form: u8) -> Row {
        if form == 1 {
            Row {
                upper: Factor::from_hundredths(135).scaled(85),
                lower: Factor::ONE,
                leading: Some(Term::new(150, Share::Whole)),
                accompanying: Term::new(150, Share::Psi0),
            }
        } else {
            Row {
                upper: Factor::from_hundredths(135),
                lower: Factor::ONE,
                leading: None,
                accompanying: Term::new(150, Share::Psi0),
            }
        }
    }
}
