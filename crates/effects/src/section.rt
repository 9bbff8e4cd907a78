// Effects at a cross-section.
ghost use Rattle.std.specs.Prelude.{[], ◌∷◌};
ghost use Rattle.effects.specs.Rankings.{by_first_difference};
ghost use Rattle.effects.specs.Kinds.{section_closed, section_laws};

use crate::component::{component_multiple, component_sum};
use crate::effect::Effect;
use basis::factor::Factor;

// Axial force, moment and shear, in the order in which they rank: by the first that differs. Not one type with `Single` by a number of
// components, since callers fill the fields by their names.
#[derive(Clone, Copy, PartialEq, Eq, PartialOrd, Ord, Debug)]
pub struct Section {
    pub axial: i64,
    pub moment: i64,
    pub shear: i64,
}

impl Effect for Section {
    ghost components = { λ s. s.axial ∷ (s.moment ∷ (s.shear ∷ [])) };

    ghost count = { 3 };

    ghost reaches = { by_first_difference };

    ghost closed = { section_closed };

    ghost laws = { section_laws };

    fn zero() -> Section {
        Section {
            axial: 0,
            moment: 0,
            shear: 0,
        }
    }

    fn sum(self, other: Section) -> Section {
        Section {
            axial: component_sum(self.axial, other.axial),
            moment: component_sum(self.moment, other.moment),
            shear: component_sum(self.shear, other.shear),
        }
    }

    fn times(self, factor: Factor) -> Section {
        let factor = factor.units();
        Section {
            axial: component_multiple(factor, self.axial),
            moment: component_multiple(factor, self.moment),
            shear: component_multiple(factor, self.shear),
        }
    }

    fn size(self) -> u64 {
        let axial = self.axial.unsigned_abs();
        let moment = self.moment.unsigned_abs();
        axial.max(moment).max(self.shear.unsigned_abs())
    }

    // As the derived order, but by tests: through an Ordering a comparison takes a third longer.
    fn at_or_above(self, other: Section) -> bool {
        if self.axial != other.axial {
            self.axial > other.axial
        } else if self.moment != other.moment {
            self.moment > other.moment
        } else {
            self.shear >= other.shear
        }
    }
}
