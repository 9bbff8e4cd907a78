// The event action, and the masks of all actions.
ghost use Rattle.std.specs.Prelude.{◌≡◌, map, if◌then◌else◌, Some, None};
ghost use Rattle.sheet.specs.Content.{content};
ghost use Rattle.envelope.specs.Entries.{acts as does_act};
ghost use Rattle.envelope.specs.Reported.{chosen_event, with_chosen};
ghost use Rattle.envelope.specs.Walks.{full_mask};

use crate::case::Case;
use crate::choice::Parts;
use crate::entry::Entry;
use basis::action::Kind;
use effects::effect::Effect;
use rulebooks::rulebook::{Rulebook, situation_of};
use sheet::action::Action;

// Whether an action is active and of the kind.
pub(crate) fn acts(action: &Action, kind: Kind) -> bool
    ensures { result ≡ does_act kind action.now }
{
    action.active && action.kind == kind
}

// The number of an action with its effect.
#[derive(Clone, Copy)]
struct Ranked<E> {
    number: usize,
    effect: E,
}

// The greater of the best so far, if any, and the next; the best so far where they are level.
fn greater<E: Effect>(best: Option<Ranked<E>>, next: Ranked<E>) -> Ranked<E>
    ensures { result ≡ elim best [ None ↦ next | Some b ↦ (if E.reaches (E.components b.effect) (E.components next.effect) then b else next) ] }
{
    match best {
        Some(best) if best.effect.at_or_above(next.effect) => best,
        _ => next,
    }
}

// The mask of an action, as if every variable action with a choice were present.
fn mask_of<E: Effect>(entry: &Entry, parts: &Parts<E>, splits: bool, event: Option<usize>) -> u16
    ensures { result ≡ full_mask E.count E.reaches splits event entry.now parts.now }
{
    if !entry.action.active {
        return 0;
    }
    match entry.action.kind {
        Kind::Permanent => parts.at_upper(splits),
        Kind::Prestress => parts.all(),
        Kind::Variable => parts.choice(entry.action.spread),
        Kind::Accidental | Kind::Seismic => {
            if event == Some(entry.number) {
                parts.event_choice(entry.action.spread)
            } else {
                0
            }
        }
    }
}

impl<'a, R: Rulebook, E: Effect> Case<'a, R, E> {
    // The event action, where the situation has one: the first of greatest effect among the active actions of its kind. By a loop, since a
    // closure of a chain would not know that its entry is one of the case's.
    pub(crate) fn chosen_event(&self) -> Option<usize>
        ensures { result ≡ chosen_event E.count E.reaches (content self.now.sheet.now) (R.meaning self.now.book.now) (map E.components self.now.effects.now) }
    {
        let sought = situation_of(self.book).event_kind()?;
        let mut best: Option<Ranked<E>> = None;
        for entry in self.entries {
            if acts(&entry.action, sought) {
                let effect = Parts::of(self, entry).event_effect(entry.action.spread);
                let number = entry.number;
                best = Some(greater(best, Ranked { number, effect }));
            }
        }
        best.map(|best| best.number)
    }

    // The masks of all actions, by number; the walk as in `masks_in`.
    pub(crate) fn full_masks(&self, event: Option<usize>) -> [u16; 32]
        requires { event ≡ chosen_event E.count E.reaches (content self.now.sheet.now) (R.meaning self.now.book.now) (map E.components self.now.effects.now) }
        ensures { result ≡ (with_chosen E.count E.reaches (content self.now.sheet.now) (R.meaning self.now.book.now) (map E.components self.now.effects.now) 0 None 4095).masks }
    {
        let splits = self.book.splits();
        let mut masks = [0; 32];
        for entry in self.entries {
            masks[entry.number] = mask_of(entry, &Parts::of(self, entry), splits, event);
        }
        masks
    }
}
