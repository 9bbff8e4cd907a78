// An action of a sheet as a caller describes it, and why a call is refused.
ghost use Rattle.std.specs.Prelude.{◌≡◌, IfErr};
ghost use Rattle.std.specs.Result.{result_ok};
ghost use Rattle.sheet.specs.Answers.{said, refusal_number};
ghost use Rattle.sheet.specs.Calls.{category_for, spread_for, described};
ghost use Rattle.sheet.specs.Limits.{parts_allowed};
ghost use Rattle.sheet.specs.declared.action.Refusal.TheVariants.{NoSuchKind, WrongCategory, WrongSpread};

use basis::action::{Kind, Spread, UnknownKind, UnknownSpread};
use basis::category::{Category, UnknownCategory};

// One entry of a sheet. A variable action has a category, any other none; it stands beside the kind and not in it, since situations
// and envelopes ask for a kind alone.
#[derive(Clone, Copy, PartialEq, Eq, Debug)]
pub struct Action {
    pub kind: Kind,
    pub category: Option<Category>,
    pub spread: Spread,
    pub parts: u8,
    pub active: bool,
}

// Why a call on a sheet is refused, numbered by the question that is answered no.
#[derive(Clone, Copy, PartialEq, Eq, Debug)]
pub enum Refusal {
    // the kind is none of 1 to 5
    NoSuchKind = 1,
    // not a letter of a category for a variable action, not '-' for another kind
    WrongCategory,
    // the kind does not allow the spread
    WrongSpread,
    // not 1 to 16 parts
    WrongParts,
    // more than 32 actions, 12 variable actions or 192 parts
    SheetFull,
    // no action has the number
    NotEntered,
    // not variable, or one action twice
    NotVariable,
    // to be excluded, and excluded already; to be lifted, and not excluded
    PairUnchanged,
    // to be suspended, and suspended already; to be resumed, and active
    ActivityUnchanged,
}

// The number of a refusal.
impl From<Refusal> for u8 {
    ghost from_gives = { λ refusal number. number ≡ refusal_number refusal };

    fn from(refusal: Refusal) -> u8 {
        refusal as u8
    }
}

impl From<UnknownKind> for Refusal {
    ghost from_gives = { λ _ refusal. refusal ≡ NoSuchKind };

    fn from(_unknown: UnknownKind) -> Refusal {
        Refusal::NoSuchKind
    }
}

impl From<UnknownCategory> for Refusal {
    ghost from_gives = { λ _ refusal. refusal ≡ WrongCategory };

    fn from(_unknown: UnknownCategory) -> Refusal {
        Refusal::WrongCategory
    }
}

impl From<UnknownSpread> for Refusal {
    ghost from_gives = { λ _ refusal. refusal ≡ WrongSpread };

    fn from(_unknown: UnknownSpread) -> Refusal {
        Refusal::WrongSpread
    }
}

// The category of an action of the kind: by its letter if variable, by the mark '-' if not.
fn category_for(kind: Kind, letter: char) -> Result<Option<Category>, Refusal>
    ensures category { result_ok result ≡ category_for kind letter }
    ensures refused { IfErr result (λ refusal. refusal ≡ WrongCategory) }
{
    if kind.is_variable() {
        Ok(Some(Category::try_from(letter)?))
    } else if letter == '-' {
        Ok(None)
    } else {
        Err(Refusal::WrongCategory)
    }
}

// The spread of a number, if the kind allows it.
fn spread_for(kind: Kind, number: u8) -> Result<Spread, Refusal>
    ensures spread { result_ok result ≡ spread_for kind number }
    ensures refused { IfErr result (λ refusal. refusal ≡ WrongSpread) }
{
    let spread = Spread::try_from(number)?;
    if kind.allows(spread) {
        Ok(spread)
    } else {
        Err(Refusal::WrongSpread)
    }
}

fn parts_allowed(parts: u8) -> bool
    ensures { result ≡ parts_allowed parts }
{
    (1..=16).contains(&parts)
}

impl Action {
    // An active action as a caller describes it, by numbers and a letter as `enter` takes them, or the first question that is answered
    // no. Four values and no struct of them, which would be made at one call to be read in this one function.
    pub(crate) fn described(
        kind: u8,
        letter: char,
        spread: u8,
        parts: u8,
    ) -> Result<Action, Refusal>
        ensures { said result ≡ described kind letter spread parts }
    {
        let kind = Kind::try_from(kind)?;
        let category = category_for(kind, letter)?;
        let spread = spread_for(kind, spread)?;
        if !parts_allowed(parts) {
            return Err(Refusal::WrongParts);
        }
        Ok(Action {
            kind,
            category,
            spread,
            parts,
            active: true,
        })
    }
}
