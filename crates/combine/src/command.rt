// A line of a load sheet's text as a call.
use crate::rules::{Rules, parse_rules};
use crate::words::{kind_number, spread_number};
use std::alloc::{AllocError, AllocFailed, Global};
use std::fmt;

// An action by its number or by the name that it was entered under.
#[derive(Clone, Copy)]
pub enum Named<'a> {
    Number(usize),
    Name(&'a str),
}

// What is written of an action to be entered. Numbers and a letter, as the sheet takes them: its first questions are put to them.
#[derive(Clone, Copy)]
pub struct Entry<'a> {
    pub name: &'a str,
    pub kind: u8,
    pub letter: char,
    pub spread: u8,
    pub parts: u8,
}

// A call that changes a draft.
#[derive(Clone, Copy)]
pub enum Edit<'a> {
    Enter(Entry<'a>),
    Exclude(Named<'a>, Named<'a>),
    Lift(Named<'a>, Named<'a>),
    Recast(Named<'a>, char),
    Suspend(Named<'a>),
    Resume(Named<'a>),
}

#[derive(Clone, Copy)]
pub enum Command<'a> {
    Change(Edit<'a>),
    Issue,
    Reopen,
    Show(Rules),
}

// Why a line is not played: a word, if one is at fault, and what is wrong with it. A text and no enum, since each problem is told in one
// place and only printed.
#[derive(Clone, Copy)]
pub struct Fault<'a> {
    word: Option<&'a str>,
    problem: &'static str,
}

// An action is meant by its number where the word is one.
impl<'a> From<&'a str> for Named<'a> {
    fn from(word: &'a str) -> Named<'a> {
        // No map_or: a call of it is not covered where the closure's result borrows the word.
        match word.parse() {
            Ok(number) => Named::Number(number),
            Err(_) => Named::Name(word),
        }
    }
}

impl<'a> From<AllocError> for Fault<'a> {
    fn from(_e: AllocError) -> Fault<'a> {
        fault_of("there is no memory left")
    }
}

impl<'a, T: Drop> From<AllocFailed<T>> for Fault<'a> {
    fn from(_e: AllocFailed<T>) -> Fault<'a> {
        fault_of("there is no memory left")
    }
}

impl fmt::Display for Fault<'_> {
    fn fmt<W: fmt::Write>(&self, f: &mut fmt::Formatter<W>) -> fmt::Result {
        if let Some(word) = self.word {
            write!(f, "'{word}' ")?;
        }
        f.write_str(self.problem)
    }
}

pub(crate) fn fault_of<'a>(problem: &'static str) -> Fault<'a> {
    Fault {
        word: None,
        problem,
    }
}

pub(crate) fn fault_at<'a>(word: &'a str, problem: &'static str) -> Fault<'a> {
    Fault {
        word: Some(word),
        problem,
    }
}

// The part of a line before a comment.
fn without_comment(line: &str) -> &str {
    line.split_once('#').map_or(line, |(before, _)| before)
}

// The words of a line before a comment, with one blank between them.
pub(crate) fn tidy(heap: Global, line: &str) -> Result<String, AllocError> {
    let mut text = String::new(heap);
    for word in without_comment(line).split_whitespace() {
        if !text.is_empty() {
            text.push(' ')?;
        }
        text.push_str(word)?;
    }
    Ok(text)
}

fn word_or<'a>(words: &[&'a str], at: usize, default: &'a str) -> &'a str {
    words.get(at).copied().unwrap_or(default)
}

const ENTER: &str = "write: enter NAME KIND [CATEGORY [SPREAD [PARTS]]]";

// enter NAME KIND [CATEGORY [SPREAD [PARTS]]]
fn parse_enter<'a>(words: &[&'a str]) -> Result<Edit<'a>, Fault<'a>> {
    let [name, kind, rest @ ..] = words else {
        return Err(fault_of(ENTER));
    };
    if rest.len() > 3 {
        return Err(fault_of(ENTER));
    }
    if let Named::Number(_) = Named::from(*name) {
        return Err(fault_at(name, "is a number and cannot be a name"));
    }
    let kind = kind_number(kind).ok_or(fault_at(
        kind,
        "is no kind (permanent, prestress, variable, accidental, seismic, or a number)",
    ))?;
    let word = word_or(rest, 0, "-");
    let letter = word
        .parse()
        .map_err(|_| fault_at(word, "is no category letter and not '-'"))?;
    let word = word_or(rest, 1, "fixed");
    let spread = spread_number(word).ok_or(fault_at(
        word,
        "is no spread (fixed, free, alternative, or a number)",
    ))?;
    let word = word_or(rest, 2, "1");
    let parts = word
        .parse()
        .map_err(|_| fault_at(word, "is no number of parts"))?;
    Ok(Edit::Enter(Entry {
        name,
        kind,
        letter,
        spread,
        parts,
    }))
}

// A call with the name or number of one action. One function with the number of actions as a const parameter has no proof: a
// Result of an array of so many words is not covered.
fn parse_one<'a>(words: &[&'a str], usage: &'static str) -> Result<Named<'a>, Fault<'a>> {
    match words {
        [action] => Ok(Named::from(*action)),
        _ => Err(fault_of(usage)),
    }
}

// A call with the names or numbers of two actions.
fn parse_two<'a>(
    words: &[&'a str],
    usage: &'static str,
) -> Result<(Named<'a>, Named<'a>), Fault<'a>> {
    match words {
        [a, b] => Ok((Named::from(*a), Named::from(*b))),
        _ => Err(fault_of(usage)),
    }
}

// recast ACTION CATEGORY
fn parse_recast<'a>(words: &[&'a str]) -> Result<Edit<'a>, Fault<'a>> {
    let [action, category] = words else {
        return Err(fault_of("write: recast ACTION CATEGORY"));
    };
    let letter = category
        .parse()
        .map_err(|_| fault_at(category, "is no category letter"))?;
    Ok(Edit::Recast(Named::from(*action), letter))
}

// Issue or reopen, with no words after it.
fn parse_bare<'a>(
    words: &[&'a str],
    usage: &'static str,
    command: Command<'a>,
) -> Result<Command<'a>, Fault<'a>> {
    if words.is_empty() {
        Ok(command)
    } else {
        Err(fault_of(usage))
    }
}

fn parse_edit<'a>(call: &'a str, words: &[&'a str]) -> Result<Edit<'a>, Fault<'a>> {
    match call {
        "enter" => parse_enter(words),
        "exclude" => {
            let (a, b) = parse_two(words, "write: exclude ACTION ACTION")?;
            Ok(Edit::Exclude(a, b))
        }
        "lift" => {
            let (a, b) = parse_two(words, "write: lift ACTION ACTION")?;
            Ok(Edit::Lift(a, b))
        }
        "recast" => parse_recast(words),
        "suspend" => Ok(Edit::Suspend(parse_one(words, "write: suspend ACTION")?)),
        "resume" => Ok(Edit::Resume(parse_one(words, "write: resume ACTION")?)),
        _ => Err(fault_at(
            call,
            "is no call (enter, exclude, lift, recast, suspend, resume, issue, reopen, rulebook)",
        )),
    }
}

fn parse_call<'a>(call: &'a str, words: &[&'a str]) -> Result<Command<'a>, Fault<'a>> {
    match call {
        "issue" => parse_bare(words, "write: issue", Command::Issue),
        "reopen" => parse_bare(words, "write: reopen", Command::Reopen),
        "rulebook" => Ok(Command::Show(parse_rules(words)?)),
        _ => Ok(Command::Change(parse_edit(call, words)?)),
    }
}

// The call that a line without its comment states; none where it is blank.
pub(crate) fn parse(heap: Global, text: &str) -> Result<Option<Command<'_>>, Fault<'_>> {
    let words: Vec<&str> = text.split_whitespace().collect(heap)?;
    match words.as_slice() {
        [] => Ok(None),
        [call, rest @ ..] => Ok(Some(parse_call(call, rest)?)),
    }
}
