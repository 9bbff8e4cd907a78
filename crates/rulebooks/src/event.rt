// Expressions of accidental and seismic situations.
ghost use Rattle.rulebooks.specs.Table.{accidental, seismic};
ghost use Rattle.std.proofs.Common.{rules};

use crate::row::{Row, Share};
use crate::standard::Expression;
use basis::situation::Situation;

// 6.11b
#[derive(Clone, Copy)]
pub struct AccidentalDesign;

impl Expression for AccidentalDesign {
    const SITUATION: Situation = Situation::Accidental;

    const FORMS: u8 = 1;

    ghost SITUATION = { accidental.situation };

    ghost FORMS = { accidental.forms };

    ghost book = { accidental };

    ghost situated = { Prim.search rules };

    ghost counted = { Prim.search rules };

    ghost laws = { Prim.search rules };

    fn splits() -> bool {
        false
    }

    fn row(_form: u8) -> Row {
        Row::unfactored(Some(Share::Psi1), Share::Psi2)
    }
}

// 6.12b
#[derive(Clone, Copy)]
pub struct SeismicDesign;

impl Expression for SeismicDesign {
    const SITUATION: Situation = Situation::Seismic;

    const FORMS: u8 = 1;

    ghost SITUATION = { seismic.situation };

    ghost FORMS = { seismic.forms };

    ghost book = { seismic };

    ghost situated = { Prim.search rules };

    ghost counted = { Prim.search rules };

    ghost laws = { Prim.search rules };

    fn splits() -> bool {
        false
    }

    fn row(_form: u8) -> Row {
        Row::unfactored(None, Share::Psi2)
    }
}
