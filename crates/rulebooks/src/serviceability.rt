// Expressions of serviceability.
ghost use Rattle.rulebooks.specs.Table.{characteristic, frequent, quasi_permanent};
ghost use Rattle.std.proofs.Common.{rules};

use crate::row::{Row, Share};
use crate::standard::Expression;
use basis::situation::Situation;

// 6.14b
#[derive(Clone, Copy)]
pub struct Characteristic;

impl Expression for Characteristic {
    const SITUATION: Situation = Situation::Serviceability;

    const FORMS: u8 = 1;

    ghost SITUATION = { characteristic.situation };

    ghost FORMS = { characteristic.forms };

    ghost book = { characteristic };

    ghost situated = { Prim.search rules };

    ghost counted = { Prim.search rules };

    ghost laws = { Prim.search rules };

    fn splits() -> bool {
        false
    }

    fn row(_form: u8) -> Row {
        Row::unfactored(Some(Share::Whole), Share::Psi0)
    }
}

// 6.15b
#[derive(Clone, Copy)]
pub struct Frequent;

impl Expression for Frequent {
    const SITUATION: Situation = Situation::Serviceability;

    const FORMS: u8 = 1;

    ghost SITUATION = { frequent.situation };

    ghost FORMS = { frequent.forms };

    ghost book = { frequent };

    ghost situated = { Prim.search rules };

    ghost counted = { Prim.search rules };

    ghost laws = { Prim.search rules };

    fn splits() -> bool {
        false
    }

    fn row(_form: u8) -> Row {
        Row::unfactored(Some(Share::Psi1), Share::Psi2)
    }
}

// 6.16b
#[derive(Clone, Copy)]
pub struct QuasiPermanent;

impl Expression for QuasiPermanent {
    const SITUATION: Situation = Situation::Serviceability;

    const FORMS: u8 = 1;

    ghost SITUATION = { quasi_permanent.situation };

    ghost FORMS = { quasi_permanent.forms };

    ghost book = { quasi_permanent };

    ghost situated = { Prim.search rules };

    ghost counted = { Prim.search rules };

    ghost laws = { Prim.search rules };

    fn splits() -> bool {
        false
    }

    fn row(_form: u8) -> Row {
        Row::unfactored(None, Share::Psi2)
    }
}
