// The turned layer over a kind of effect.
ghost use Rattle.std.specs.Prelude.{refl};
ghost use Rattle.effects.specs.Factors.{turned_closed, turned_laws};

use crate::effect::Effect;
use basis::factor::Factor;

// The same effects with the ranking reversed: the greatest is the least of the kind below.
// std's Reverse turns an Ord, which a kind of effect need not have.
#[derive(Clone, Copy, PartialEq, Eq, Debug)]
pub struct Turned<E> {
    pub effect: E,
}

impl<E: Effect> Effect for Turned<E> {
    ghost components = { λ t. E.Effect.components t.effect };

    ghost count = { E.Effect.count };

    ghost reaches = { λ xs ys. E.Effect.reaches ys xs };

    ghost closed = { turned_closed (λ t. t.effect) (λ a. record { effect = a }) (λ a. refl) E.Effect.closed };

    ghost laws = { turned_laws (λ t. t.effect) (λ a. record { effect = a }) (λ a. refl) E.Effect.closed E.Effect.laws };

    fn zero() -> Turned<E> {
        Turned { effect: E::zero() }
    }

    fn sum(self, other: Turned<E>) -> Turned<E> {
        Turned {
            effect: self.effect.sum(other.effect),
        }
    }

    fn times(self, factor: Factor) -> Turned<E> {
        Turned {
            effect: self.effect.times(factor),
        }
    }

    fn size(self) -> u64 {
        self.effect.size()
    }

    fn at_or_above(self, other: Turned<E>) -> bool {
        other.effect.at_or_above(self.effect)
    }
}
