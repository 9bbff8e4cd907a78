// The words of a load sheet's text, as they are read and printed.
use crate::command::Edit;
use basis::action::{Kind, Spread};
use sheet::action::Refusal;

// What a word stands for in a table of words.
pub(crate) fn look_up<T: Copy>(table: &[(&str, T)], word: &str) -> Option<T> {
    let (_, value) = table.iter().find(|(known, _)| *known == word)?;
    Some(*value)
}

// The number of what a word stands for in a table of words, or the number that the word is.
fn number_of<T: Copy>(table: &[(&str, T)], word: &str) -> Option<u8>
where
    u8: From<T>,
{
    look_up(table, word)
        .map(u8::from)
        .or_else(|| word.parse().ok())
}

// A kind's number, by its word or its number: the sheet puts its first question to the number.
pub(crate) fn kind_number(word: &str) -> Option<u8> {
    number_of(
        &[
            ("permanent", Kind::Permanent),
            ("prestress", Kind::Prestress),
            ("variable", Kind::Variable),
            ("accidental", Kind::Accidental),
            ("seismic", Kind::Seismic),
        ],
        word,
    )
}

// A spread's number, by its word or its number.
pub(crate) fn spread_number(word: &str) -> Option<u8> {
    number_of(
        &[
            ("fixed", Spread::Fixed),
            ("free", Spread::Free),
            ("alternative", Spread::Alternative),
        ],
        word,
    )
}

// The words of the text. No Display, which for a type of another crate would want a wrapper that says no more; and a match beside the
// table that reads words, so that no kind can lack a word.
pub(crate) fn kind_word(kind: Kind) -> &'static str {
    match kind {
        Kind::Permanent => "permanent",
        Kind::Prestress => "prestress",
        Kind::Variable => "variable",
        Kind::Accidental => "accidental",
        Kind::Seismic => "seismic",
    }
}

pub(crate) fn spread_word(spread: Spread) -> &'static str {
    match spread {
        Spread::Fixed => "fixed",
        Spread::Free => "free",
        Spread::Alternative => "alternative",
    }
}

fn category_reason(edit: Edit<'_>) -> &'static str {
    match edit {
        Edit::Recast(_, _) => "the category is none of A to H, S, M, W and T",
        _ => "a variable action has a category A to H, S, M, W or T, any other kind has '-'",
    }
}

fn variable_reason(edit: Edit<'_>) -> &'static str {
    match edit {
        Edit::Recast(_, _) => "only a variable action has a category",
        _ => "only two different variable actions can exclude each other",
    }
}

fn unchanged_reason(edit: Edit<'_>) -> &'static str {
    match edit {
        Edit::Exclude(_, _) => "the pair is excluded already",
        Edit::Lift(_, _) => "the pair is not excluded",
        Edit::Suspend(_) => "the action is suspended already",
        _ => "the action is active already",
    }
}

// Why a call was refused.
pub(crate) fn reason(refusal: Refusal, edit: Edit<'_>) -> &'static str {
    match refusal {
        Refusal::NoSuchKind => "kinds of action are numbered 1 to 5",
        Refusal::WrongCategory => category_reason(edit),
        Refusal::WrongSpread => {
            "permanent and prestress are fixed, accidental and seismic fixed or alternative"
        }
        Refusal::WrongParts => "an action has 1 to 16 parts",
        Refusal::SheetFull => {
            "a sheet holds at most 32 actions, 12 variable actions and 192 parts"
        }
        Refusal::NotEntered => "no action has that number",
        Refusal::NotVariable => variable_reason(edit),
        Refusal::PairUnchanged | Refusal::ActivityUnchanged => unchanged_reason(edit),
    }
}
