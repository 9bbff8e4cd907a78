// The class layer: reliability classes over any rulebook.
ghost use Rattle.std.specs.Prelude.{◌≡◌, ◌≢◌};
ghost use Rattle.basis.specs.Factors.{scaled_by};
ghost use Rattle.basis.specs.declared.situation.Situation.TheVariants.{Persistent};
ghost use Rattle.rulebooks.specs.Layers.{hundredths as hundredths_of, classed, ClassLeavesAlone, GeoUnderRc1};
ghost use Rattle.std.proofs.Common.{rules};

use crate::rulebook::Rulebook;
use basis::category::Category;
use basis::factor::Factor;
use basis::situation::Situation;

// Reliability classes of EN 1990, Annex B.
#[derive(Clone, Copy, PartialEq, Eq, Debug)]
pub enum Class {
    Rc1,
    Rc2,
    Rc3,
}

impl Class {
    // The factor K on unfavourable actions, in hundredths. A match, since a class is no number of hundredths.
    pub fn hundredths(self) -> u8
        ensures { result ≡ hundredths_of self }
    {
        match self {
            Class::Rc1 => 90,
            Class::Rc2 => 100,
            Class::Rc3 => 110,
        }
    }
}

// Scales the factors of unfavourable actions in persistent situations.
#[derive(Clone, Copy)]
pub struct ClassLayer<R> {
    class: Class,
    below: R,
}

impl<R: Rulebook> ClassLayer<R> {
    // The class over a rulebook.
    pub fn over(class: Class, below: R) -> ClassLayer<R>
        ensures made { (result.class ≡ class) × (result.below ≡ below) }
        ensures alone { ClassLeavesAlone (R.meaning below) (classed class (R.meaning below)) }
        ensures geo { GeoUnderRc1 }
    {
        ClassLayer { class, below }
    }

    // K times the factor in persistent situations.
    fn scaled(&self, factor: Factor) -> Factor
        ensures persistent { R.SITUATION ≡ Persistent → result.units ≡ scaled_by (hundredths_of self.now.class) factor.units }
        ensures elsewhere { (R.SITUATION ≢ Persistent) → result.units ≡ factor.units }
    {
        if R::SITUATION == Situation::Persistent {
            factor.scaled(self.class.hundredths())
        } else {
            factor
        }
    }
}

// What passes through stands in both layers: a trait of layers would take more members than these few methods.
impl<R: Rulebook> Rulebook for ClassLayer<R> {
    const SITUATION: Situation = R::SITUATION;

    const FORMS: u8 = R::FORMS;

    ghost SITUATION = { R.SITUATION };

    ghost FORMS = { R.FORMS };

    ghost meaning = { λ s. classed s.class (R.meaning s.below) };

    ghost situated = { Prim.search rules };

    ghost counted = { Prim.search rules };

    ghost laws = { Prim.search rules };

    fn splits(&self) -> bool {
        self.below.splits()
    }

    fn has_leader(&self, form: u8) -> bool {
        self.below.has_leader(form)
    }

    // Guarded in persistent situations alone: elsewhere lower is at most upper, so the rulebook below is not asked for it.
    fn upper(&self, form: u8) -> Factor {
        let upper = self.scaled(self.below.upper(form));
        if R::SITUATION == Situation::Persistent {
            upper.at_least(self.below.lower(form))
        } else {
            upper
        }
    }

    fn lower(&self, form: u8) -> Factor {
        self.below.lower(form)
    }

    fn prestress(&self, form: u8) -> Factor {
        self.below.prestress(form)
    }

    fn leading(&self, form: u8, category: Category) -> Factor {
        self.scaled(self.below.leading(form, category))
    }

    fn accompanying(&self, form: u8, category: Category) -> Factor {
        self.scaled(self.below.accompanying(form, category))
    }
}
