// Factors of a combination, in whole hundred-thousandths.
ghost use Rattle.std.specs.Prelude.{◌≡◌, ◌*◌, ◌≤◌, min, max};
ghost use Rattle.basis.specs.Factors.{most, factor_of, scaled_by};
ghost use Rattle.std.specs.Option.{option_map};

// A factor from 0 to 10, in units of a hundred-thousandth.
#[derive(Clone, Copy)]
pub struct Factor {
    units: u32,
    ghost bounded: { units ≤ 1_000_000 },
}

impl Factor {
    pub const ZERO: Factor = Factor { units: 0 };

    pub const ONE: Factor = Factor { units: 100_000 };

    // The factor of so many hundred-thousandths, none past 1,000,000.
    pub fn new(units: u32) -> Option<Factor>
        ensures { option_map (λ f. f.units) result ≡ factor_of units }
    {
        if units <= 1_000_000 {
            Some(Factor { units })
        } else {
            None
        }
    }

    // The factor of so many hundredths. No From: a number does not say that it counts hundredths.
    pub fn from_hundredths(hundredths: u8) -> Factor
        ensures { result.units ≡ hundredths * 1000 }
    {
        Factor {
            units: u32::from(hundredths) * 1000,
        }
    }

    // A partial factor in hundredths times one in tenths, at most the greatest factor.
    pub fn product(hundredths: u8, tenths: u8) -> Factor
        ensures { result.units ≡ min most (hundredths * tenths * 100) }
    {
        let units = u32::from(hundredths) * u32::from(tenths) * 100;
        Factor {
            units: units.min(1_000_000),
        }
    }

    // So many hundredths of the factor, rounded to the nearest, halves up, at most the greatest factor.
    pub fn scaled(self, hundredths: u8) -> Factor
        ensures { result.units ≡ scaled_by hundredths self.units }
    {
        let units = (u32::from(hundredths) * self.units + 50) / 100;
        Factor {
            units: units.min(1_000_000),
        }
    }

    // The factor, or the least one that it may be.
    pub fn at_least(self, least: Factor) -> Factor
        ensures { result.units ≡ max least.units self.units }
    {
        Factor {
            units: self.units.max(least.units),
        }
    }

    // The factor in hundred-thousandths.
    pub fn units(self) -> u32
        ensures { (result ≡ self.units) × (result ≤ most) }
    {
        self.units
    }
}
