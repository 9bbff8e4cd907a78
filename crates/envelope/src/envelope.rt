// The envelope: the greatest effect over all admissible combinations of an issued sheet.
ghost use Rattle.std.specs.Prelude.{◌≡◌, map, length, Err, MatchResult};
ghost use Rattle.sheet.specs.Content.{content};
ghost use Rattle.envelope.specs.Answers.{reply_of, answer, too_large, event_at_hand};
ghost use Rattle.envelope.specs.Promise.{WholePromise};
ghost use Rattle.envelope.specs.Runs.{RunLaw};
ghost use Rattle.envelope.specs.Supplied.{Accepted};

use crate::combination::{Extreme, Refusal};
use crate::masks::acts;
use crate::report::report;
use basis::action::Kind;
use effects::effect::Effect;
use rulebooks::rulebook::{Rulebook, situation_of};
use sheet::plain::Sheet;
use sheet::states::Issued;

// The greatest size of an effect that is supplied.
const LARGEST: u64 = 1_000_000_000;

// The places that a strip has at least.
const STRIP: usize = 24;

// The number of the first part whose effect is too large.
fn first_too_large<E: Effect>(effects: &[E]) -> Option<usize>
    ensures { result ≡ too_large 0 (map E.components effects.now) }
{
    effects.iter().position(|effect| effect.size() > LARGEST)
}

// Whether there is an active action of the kind, where one is asked for.
fn is_at_hand(sheet: &Sheet, kind: Option<Kind>) -> bool
    ensures { result ≡ event_at_hand kind (content sheet.now) }
{
    let Some(sought) = kind else {
        return true;
    };
    sheet.actions().iter().any(|action| acts(action, sought))
}

// The questions in their order; the first one answered no refuses.
fn check<R: Rulebook, E: Effect>(
    sheet: &Sheet,
    book: &R,
    effects: &[E],
    room: usize,
) -> Result<(), Refusal>
    ensures { MatchResult result (λ _. Accepted (content sheet.now) (R.meaning book.now) (map E.components effects.now) room) (λ e. answer E.count E.reaches (content sheet.now) (R.meaning book.now) (map E.components effects.now) room ≡ reply_of E.components (Err e)) }
{
    if effects.len() != sheet.parts() {
        return Err(Refusal::NotAsManyEffects);
    }
    if room < STRIP {
        return Err(Refusal::ShortStrip);
    }
    if let Some(part) = first_too_large(effects) {
        return Err(Refusal::TooLarge(part));
    }
    if !is_at_hand(sheet, situation_of(book).event_kind()) {
        return Err(Refusal::NoEvent);
    }
    Ok(())
}

// The greatest effect over all admissible combinations, and the combination to report. `effects` has one effect for each part
// of the sheet. After an accepted call the strip holds, at the places 0 to 11, what each variable action gives as the leader in
// the last form, and at the places 12 to 23 what it gives beside one. A refused call leaves the strip as it was.
pub fn envelope<R: Rulebook, E: Effect>(
    sheet: &Issued,
    book: &R,
    effects: &[E],
    strip: &mut [E],
) -> Result<Extreme<E>, Refusal>
    ensures promise { WholePromise E.components E.count E.reaches (content sheet.now.sheet) (R.meaning book.now) effects.now strip.old strip.new (reply_of E.components result) }
    ensures runs { RunLaw E.components E.count E.reaches (R.meaning book.now) }
{
    let sheet = sheet.sheet();
    check(sheet, book, effects, strip.len())?;
    Ok(report(sheet, book, effects, strip))
}
