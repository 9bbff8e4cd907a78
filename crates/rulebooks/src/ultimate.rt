// Expressions of persistent situations with one form: EQU, STR and GEO.
ghost use Rattle.rulebooks.specs.Table.{equ, str, geo};
ghost use Rattle.std.proofs.Common.{rules};

use crate::row::{Row, Share, Term};
use crate::standard::Expression;
use basis::factor::Factor;
use basis::situation::Situation;

// 6.10 with Table A1.2(A)
#[derive(Clone, Copy)]
pub struct Equ;

impl Expression for Equ {
    const SITUATION: Situation = Situation::Persistent;

    const FORMS: u8 = 1;

    ghost SITUATION = { equ.situation };

    ghost FORMS = { equ.forms };

    ghost book = { equ };

    ghost situated = { Prim.search rules };

    ghost counted = { Prim.search rules };

    ghost laws = { Prim.search rules };

    fn splits() -> bool {
        true
    }

    fn row(_form: u8) -> Row {
        Row {
            upper: Factor::from_hundredths(110),
            lower: Factor::from_hundredths(90),
            leading: Some(Term::new(150, Share::Whole)),
            accompanying: Term::new(150, Share::Psi0),
        }
    }
}

// 6.10 with Table A1.2(B)
#[derive(Clone, Copy)]
pub struct Str;

impl Expression for Str {
    const SITUATION: Situation = Situation::Persistent;

    const FORMS: u8 = 1;

    ghost SITUATION = { str.situation };

    ghost FORMS = { str.forms };

    ghost book = { str };

    ghost situated = { Prim.search rules };

    ghost counted = { Prim.search rules };

    ghost laws = { Prim.search rules };

    fn splits() -> bool {
        false
    }

    fn row(_form: u8) -> Row {
        Row {
            upper: Factor::from_hundredths(135),
            lower: Factor::ONE,
            leading: Some(Term::new(150, Share::Whole)),
            accompanying: Term::new(150, Share::Psi0),
        }
    }
}

// 6.10 with Table A1.2(C)
#[derive(Clone, Copy)]
pub struct Geo;

impl Expression for Geo {
    const SITUATION: Situation = Situation::Persistent;

    const FORMS: u8 = 1;

    ghost SITUATION = { geo.situation };

    ghost FORMS = { geo.forms };

    ghost book = { geo };

    ghost situated = { Prim.search rules };

    ghost counted = { Prim.search rules };

    ghost laws = { Prim.search rules };

    fn splits() -> bool {
        false
    }

    fn row(_form: u8) -> Row {
        Row {
            upper: Factor::ONE,
            lower: Factor::ONE,
            leading: Some(Term::new(130, Share::Whole)),
            accompanying: Term::new(130, Share::Psi0),
        }
    }
}
