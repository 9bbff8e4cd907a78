// What every kind of effect offers and keeps.
ghost use Rattle.std.specs.Prelude.{◌≡◌, ℕ, Bool, List, ℤ};
ghost use Rattle.effects.specs.Components.{zeros, sum as component_sums, multiple as component_multiples, size as greatest_magnitude};
ghost use Rattle.effects.specs.Laws.{Closed, Laws};

use basis::factor::Factor;

// A kind of effect, by the components of its effects and their ranking.
// Not by std's Default, Add and PartialOrd: these know no components, a sum stops at a limit, and level effects may differ.
pub trait Effect: Copy {
    // What an effect means.
    ghost components: { Self → List ℤ };

    // How many components each effect of the kind has.
    ghost count: { ℕ };

    // The first ranks at or above the second.
    ghost reaches: { List ℤ → List ℤ → Bool };

    fn zero() -> Self
        ensures { components result ≡ zeros count };

    fn sum(self, other: Self) -> Self
        ensures { components result ≡ component_sums (components self) (components other) };

    fn times(self, factor: Factor) -> Self
        ensures { components result ≡ component_multiples factor.units (components self) };

    fn size(self) -> u64
        ensures { result ≡ greatest_magnitude (components self) };

    fn at_or_above(self, other: Self) -> bool
        ensures { result ≡ reaches (components self) (components other) };

    ghost closed: { Closed components count };

    ghost laws: { Laws components count reaches };
}
