// Effects of one component.
ghost use Rattle.std.specs.Prelude.{[], ◌∷◌};
ghost use Rattle.effects.specs.Rankings.{first_not_less};
ghost use Rattle.effects.specs.Kinds.{single_closed, single_laws};

use crate::component::{component_multiple, component_sum};
use crate::effect::Effect;
use basis::factor::Factor;

// One component; the greater ranks above. A type beside `Section`, whose fields have names.
#[derive(Clone, Copy, PartialEq, Eq, PartialOrd, Ord, Debug)]
pub struct Single {
    pub value: i64,
}

impl Effect for Single {
    ghost components = { λ s. s.value ∷ [] };

    ghost count = { 1 };

    ghost reaches = { first_not_less };

    ghost closed = { single_closed };

    ghost laws = { single_laws };

    fn zero() -> Single {
        Single { value: 0 }
    }

    fn sum(self, other: Single) -> Single {
        Single {
            value: component_sum(self.value, other.value),
        }
    }

    fn times(self, factor: Factor) -> Single {
        let factor = factor.units();
        Single {
            value: component_multiple(factor, self.value),
        }
    }

    fn size(self) -> u64 {
        self.value.unsigned_abs()
    }

    fn at_or_above(self, other: Single) -> bool {
        self >= other
    }
}
