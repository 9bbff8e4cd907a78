// What an envelope is found for.
ghost use Rattle.std.specs.Prelude.{◌≡◌, map};
ghost use Rattle.std.proofs.Props.{props};
ghost use Rattle.sheet.specs.Content.{content};
ghost use Rattle.envelope.specs.Entries.{entries as entries_of};
ghost use Rattle.envelope.specs.Supplied.{Supplied, IsWithin};

use crate::entry::Entry;
use effects::effect::Effect;
use rulebooks::rulebook::Rulebook;
use sheet::plain::Sheet;

// A sheet with its actions in entries, a rulebook, and an effect for each part of the sheet. No Model, whose value could not hold the
// functions in a sheet's content and a rulebook's meaning.
#[derive(Drop)]
pub(crate) struct Case<'a, R: Rulebook, E: Effect> {
    pub(crate) sheet: &'a Sheet,
    pub(crate) entries: &'a [Entry],
    pub(crate) effects: &'a [E],
    pub(crate) book: &'a R,
    ghost laid: { entries.now ≡ entries_of (content sheet.now) },
    ghost within: { IsWithin entries.now },
    ghost supplied: { Supplied (content sheet.now) (map E.components effects.now) } by { Prim.hlevel props },
}
