// The parts of one action: those that act, by the ranking, and their sums.
ghost use Rattle.std.specs.Prelude.{◌≡◌, ◌<◌, ◌≤◌, map, length, Contains};
ghost use Rattle.basis.specs.declared.action.Spread.TheVariants.{Free};
ghost use Rattle.effects.specs.Components.{exact_multiple};
ghost use Rattle.effects.specs.Laws.{Small};
ghost use Rattle.envelope.specs.Entries.{parts_of as own_parts, whole};
ghost use Rattle.envelope.specs.Combinations.{weighted, by_mask};
ghost use Rattle.envelope.specs.Choices.{above_zero, greatest_part, choice, at_upper, event_choice, event_effect};

use crate::case::Case;
use crate::entry::Entry;
use crate::layout::parts_of;
use crate::sets::has;
use basis::action::Spread;
use basis::factor::Factor;
use effects::effect::Effect;
use effects::supply::{greatest, total_of};
use rulebooks::rulebook::Rulebook;
use std::marker::Model;

// The effects of the parts of one action: at least one, at most sixteen, and small enough that no sum of them stops. Contracts
// see the list of their components.
#[derive(Drop)]
pub(crate) struct Parts<'a, E: Effect> {
    effects: &'a [E],
}

impl<'a, E: Effect> Model for Parts<'a, E> {
    ghost use Rattle.std.specs.Prelude.{List, ℤ, map};
    ghost use Rattle.envelope.specs.Supplied.{OneAction};

    ghost Value = { List (List ℤ) };

    ghost view = { λ p. map E.components p.effects.now };

    ghost invariant = { λ p. OneAction E.components p.effects.now };
}

// Whether an effect ranks above zero.
fn is_above_zero<E: Effect>(effect: E) -> bool
    ensures { result ≡ above_zero E.count E.reaches (E.components effect) }
{
    !E::zero().at_or_above(effect)
}

impl<'a, E: Effect> Parts<'a, E> {
    // The parts of an action of the case's sheet.
    pub(crate) fn of<R: Rulebook>(case: &Case<'a, R, E>, entry: &Entry) -> Self
        requires { Contains case.now.entries.now entry.now }
        ensures own { result ≡ own_parts (map E.components case.now.effects.now) entry.now }
        ensures all { length result ≡ entry.now.action.parts }
    {
        Parts {
            effects: parts_of(case.effects, entry),
        }
    }

    // The mask of all parts.
    pub(crate) fn all(&self) -> u16
        ensures { result ≡ whole (length self.now) }
    {
        // proved to fit, so no TryFrom
        ((1u32 << self.effects.len()) - 1) as u16
    }

    // The mask of those that rank above zero. The loops that make masks are no one function with a test as a closure, whose contract would
    // be longer than they are.
    fn above_zero(&self) -> u16
        ensures { result ≡ choice E.count E.reaches Free self.now }
    {
        let mut mask = 0;
        for (p, part) in self.effects.iter().enumerate() {
            if is_above_zero(*part) {
                mask |= 1 << p;
            }
        }
        mask
    }

    // The number of the greatest, the lowest where there are several.
    fn greatest(&self) -> usize
        ensures value { result ≡ greatest_part E.count E.reaches self.now }
        ensures within { result < length self.now }
        ensures held { result < 16 }
    {
        greatest(self.effects).unwrap()
    }

    // The mask of those that act in an event.
    pub(crate) fn event_choice(&self, spread: Spread) -> u16
        ensures { result ≡ event_choice E.count E.reaches spread self.now }
    {
        match spread {
            Spread::Fixed | Spread::Free => self.all(),
            Spread::Alternative => 1 << self.greatest(),
        }
    }

    // What they add.
    pub(crate) fn event_effect(&self, spread: Spread) -> E
        ensures { E.components result ≡ event_effect E.count E.reaches spread self.now }
    {
        match spread {
            Spread::Fixed | Spread::Free => total_of(self.effects),
            Spread::Alternative => self.effects[self.greatest()],
        }
    }

    // The mask of a variable action, if it is present; 0 where it has no choice. Fixed and alternative parts act as in an event, if
    // what they add ranks above zero.
    pub(crate) fn choice(&self, spread: Spread) -> u16
        ensures { result ≡ choice E.count E.reaches spread self.now }
    {
        match spread {
            Spread::Free => self.above_zero(),
            Spread::Fixed | Spread::Alternative => {
                if is_above_zero(self.event_effect(spread)) {
                    self.event_choice(spread)
                } else {
                    0
                }
            }
        }
    }

    // The mask of those of a permanent action that are at upper.
    pub(crate) fn at_upper(&self, splits: bool) -> u16
        ensures { result ≡ at_upper E.count E.reaches splits self.now }
    {
        self.choice(if splits { Spread::Free } else { Spread::Fixed })
    }

    // The sum of those in a mask.
    fn sum_of(&self, mask: u16) -> E
        ensures value { E.components result ≡ weighted E.count (by_mask 1 0 mask) self.now }
        ensures small { Small (E.components result) }
    {
        let mut sum = E::zero();
        for (p, part) in self.effects.iter().enumerate() {
            if has(mask, p) {
                sum = sum.sum(*part);
            }
        }
        sum
    }

    // The sum of the parts, each times a factor: those in the mask at the first, the others at the second.
    pub(crate) fn weighed(&self, mask: u16, inside: Factor, outside: Factor) -> E
        ensures { E.components result ≡ weighted E.count (by_mask inside.units outside.units mask) self.now }
    {
        // opened, since a proof has to know that a mask has a place for each part
        let _ = &self.effects;
        let held = self.sum_of(mask);
        let others = self.sum_of(!mask);
        held.times(inside).sum(others.times(outside))
    }

    // The sum of those in the mask, times a factor: what `weighed` gives with the others at zero, without their sum.
    #[tactic(auto, using(effects::specs::Lists::small_multiple))]
    pub(crate) fn contribution(&self, mask: u16, factor: Factor) -> E
        ensures value { E.components result ≡ exact_multiple factor.units (weighted E.count (by_mask 1 0 mask) self.now) }
        ensures weighed { E.components result ≡ weighted E.count (by_mask factor.units 0 mask) self.now }
    {
        self.sum_of(mask).times(factor)
    }
}
