// Lists of effects: their sum, and the greatest of them.
ghost use Rattle.std.specs.Prelude.{◌≡◌, map, length, MatchOption};
ghost use Rattle.std.specs.List.{AllByRecursion};
ghost use Rattle.effects.specs.Laws.{Large};
ghost use Rattle.effects.specs.Supplies.{total, exact_total, Supply, Greatest, greatest_of};

use crate::effect::Effect;

// The sum of a list of effects. No component stops where the list may be supplied for the parts of a sheet.
pub fn total_of<E: Effect>(effects: &[E]) -> E
    ensures value { E.components result ≡ total E.count (map E.components effects.now) }
    ensures exact { Supply (map E.components effects.now) → E.components result ≡ exact_total E.count (map E.components effects.now) }
{
    effects
        .iter()
        .fold(E::zero(), |total, effect| total.sum(*effect))
}

// The place of the greatest of a list of effects, the lowest where there are several.
pub fn greatest<E: Effect>(effects: &[E]) -> Option<usize>
    ensures value { result ≡ greatest_of E.reaches (map E.components effects.now) }
    ensures first { AllByRecursion Large (map E.components effects.now) → MatchOption result (length effects.now ≡ 0) (λ b. Greatest E.reaches (map E.components effects.now) (length effects.now) b) }
{
    effects
        .iter()
        .enumerate()
        .reduce(|best, next| if best.1.at_or_above(*next.1) {
            best
        } else {
            next
        })
        .map(|(place, _)| place)
}
