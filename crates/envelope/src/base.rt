// What the actions that are not variable add in a form.
ghost use Rattle.std.specs.Prelude.{◌≡◌, map};
ghost use Rattle.effects.specs.Supplies.{exact_total};
ghost use Rattle.sheet.specs.Content.{content};
ghost use Rattle.envelope.specs.Entries.{entries as entries_of};
ghost use Rattle.envelope.specs.Reported.{base_share};
ghost use Rattle.envelope.specs.Walks.{fixed_share};

use crate::choice::Parts;
use crate::entry::Entry;
use crate::prepared::Prepared;
use basis::action::Kind;
use basis::factor::Factor;
use effects::effect::Effect;
use rulebooks::rulebook::Rulebook;

// What an action that is not variable adds in a form; nothing for a variable or suspended one.
fn share_of<R: Rulebook, E: Effect>(
    entry: &Entry,
    parts: &Parts<E>,
    mask: u16,
    book: &R,
    form: u8,
) -> E
    ensures { E.components result ≡ fixed_share E.count ((R.meaning book.now).form form) entry.now mask parts.now }
{
    if !entry.action.active {
        return E::zero();
    }
    match entry.action.kind {
        Kind::Permanent => parts.weighed(mask, book.upper(form), book.lower(form)),
        Kind::Prestress => {
            let factor = book.prestress(form);
            parts.weighed(mask, factor, factor)
        }
        Kind::Variable => E::zero(),
        Kind::Accidental | Kind::Seismic => parts.contribution(mask, Factor::ONE),
    }
}

impl<'a, R: Rulebook, E: Effect> Prepared<'a, R, E> {
    // What all actions that are not variable add in a form. By a loop, since the closure of a fold would not know that its entry is one of
    // the case's.
    pub(crate) fn base(&self, form: u8) -> E
        ensures { E.components result ≡ exact_total E.count (map (base_share E.count E.reaches (content self.now.case.now.sheet.now) (R.meaning self.now.case.now.book.now) (map E.components self.now.case.now.effects.now) form) (entries_of (content self.now.case.now.sheet.now))) }
    {
        let case = self.case;
        let mut total = E::zero();
        for entry in case.entries {
            let parts = Parts::of(case, entry);
            let share = share_of(entry, &parts, self.masks[entry.number], case.book, form);
            total = total.sum(share);
        }
        total
    }
}
