// The stage layer: a category struck from any rulebook.
ghost use Rattle.std.specs.Prelude.{◌≡◌, ◌≢◌, MatchOption};
ghost use Rattle.rulebooks.specs.Layers.{staged, StageLeavesAlone};
ghost use Rattle.std.proofs.Common.{rules};

use crate::rulebook::Rulebook;
use basis::category::Category;
use basis::factor::Factor;
use basis::situation::Situation;

// Strikes one category: its leading and accompanying factors become 0.
#[derive(Clone, Copy)]
pub struct StageLayer<R> {
    struck: Category,
    below: R,
}

impl<R: Rulebook> StageLayer<R> {
    // The stage over a rulebook.
    pub fn over(struck: Category, below: R) -> StageLayer<R>
        ensures made { (result.struck ≡ struck) × (result.below ≡ below) }
        ensures alone { StageLeavesAlone struck (R.meaning below) (staged struck (R.meaning below)) }
    {
        StageLayer { struck, below }
    }

    // The rulebook below, which is not asked for a struck category.
    fn unless_struck(&self, category: Category) -> Option<&R>
        ensures { MatchOption result (category ≡ self.now.struck) (λ below. (category ≢ self.now.struck) × (below.now ≡ self.now.below)) }
    {
        (category != self.struck).then_some(&self.below)
    }
}

// What passes through stands in both layers: a trait of layers would take more members than these few methods.
impl<R: Rulebook> Rulebook for StageLayer<R> {
    const SITUATION: Situation = R::SITUATION;

    const FORMS: u8 = R::FORMS;

    ghost SITUATION = { R.SITUATION };

    ghost FORMS = { R.FORMS };

    ghost meaning = { λ s. staged s.struck (R.meaning s.below) };

    ghost situated = { Prim.search rules };

    ghost counted = { Prim.search rules };

    ghost laws = { Prim.search rules };

    fn splits(&self) -> bool {
        self.below.splits()
    }

    fn has_leader(&self, form: u8) -> bool {
        self.below.has_leader(form)
    }

    fn upper(&self, form: u8) -> Factor {
        self.below.upper(form)
    }

    fn lower(&self, form: u8) -> Factor {
        self.below.lower(form)
    }

    fn prestress(&self, form: u8) -> Factor {
        self.below.prestress(form)
    }

    fn leading(&self, form: u8, category: Category) -> Factor {
        self.unless_struck(category)
            .map_or(Factor::ZERO, |below| below.leading(form, category))
    }

    fn accompanying(&self, form: u8, category: Category) -> Factor {
        self.unless_struck(category)
            .map_or(Factor::ZERO, |below| below.accompanying(form, category))
    }
}
