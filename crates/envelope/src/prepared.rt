// What the search in each form rests on.
ghost use Rattle.std.specs.Prelude.{◌≡◌, map, true, None};
ghost use Rattle.basis.specs.Vocabulary.{event_kind};
ghost use Rattle.sheet.specs.Content.{content};
ghost use Rattle.envelope.specs.Answers.{event_at_hand};
ghost use Rattle.envelope.specs.Layout.{roster_by};
ghost use Rattle.envelope.specs.Reported.{with_chosen};

use crate::case::Case;
use crate::roster::Roster;
use effects::effect::Effect;
use rulebooks::rulebook::Rulebook;

// A case whose event is at hand, with the masks of all actions as if every variable action with a choice were present, and its
// variable actions by place.
#[derive(Drop)]
pub(crate) struct Prepared<'a, R: Rulebook, E: Effect> {
    pub(crate) case: &'a Case<'a, R, E>,
    pub(crate) masks: &'a [u16; 32],
    pub(crate) roster: &'a Roster,
    ghost full: { masks.now ≡ (with_chosen E.count E.reaches (content case.now.sheet.now) (R.meaning case.now.book.now) (map E.components case.now.effects.now) 0 None 4095).masks },
    ghost placed: { roster.now ≡ roster_by masks.now (content case.now.sheet.now) },
    ghost hand: { event_at_hand (event_kind (R.meaning case.now.book.now).situation) (content case.now.sheet.now) ≡ true },
}
