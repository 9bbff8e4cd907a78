// What holds of the answer that the definitions give, for every sheet, rulebook and kind of effect.
ghost use Rattle.std.specs.Prelude.{map};
ghost use Rattle.sheet.specs.Content.{content};
ghost use Rattle.envelope.specs.Answers.{answer};
ghost use Rattle.envelope.specs.Promise.{AsReported, NothingOutranks, BreaksNoRule, NeverSinks};

use effects::effect::Effect;
use rulebooks::rulebook::Rulebook;
use sheet::states::Issued;

// The answer, if it is no refusal, is the reported combination; no admissible combination outranks it; it breaks no rule, and
// its effect differs in no component; it never sinks while the sheet only grows.
pub fn answer_keeps_the_promise<R: Rulebook, E: Effect>(
    sheet: &Issued,
    book: &R,
    effects: &[E],
    room: usize,
)
    ensures reported { AsReported E.count E.reaches (content sheet.now.sheet) (R.meaning book.now) (map E.components effects.now) (answer E.count E.reaches (content sheet.now.sheet) (R.meaning book.now) (map E.components effects.now) room) }
    ensures greatest { NothingOutranks E.count E.reaches (content sheet.now.sheet) (R.meaning book.now) (map E.components effects.now) (answer E.count E.reaches (content sheet.now.sheet) (R.meaning book.now) (map E.components effects.now) room) }
    ensures sound { BreaksNoRule E.count E.reaches (content sheet.now.sheet) (R.meaning book.now) (map E.components effects.now) (answer E.count E.reaches (content sheet.now.sheet) (R.meaning book.now) (map E.components effects.now) room) }
    ensures kept { NeverSinks E.components E.count E.reaches (content sheet.now.sheet) (R.meaning book.now) effects.now (answer E.count E.reaches (content sheet.now.sheet) (R.meaning book.now) (map E.components effects.now) room) }
{}
