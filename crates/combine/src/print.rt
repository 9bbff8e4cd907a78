// The printout: a line for each call, and the sheet as a table.
use crate::command::Fault;
use crate::rules::print_rules;
use crate::session::{Outcome, Session};
use crate::words::{kind_word, spread_word};
use basis::category::Category;
use sheet::action::Action;
use std::{fmt, io};

// The parts of an action by their numbers in the whole sheet.
#[derive(Clone, Copy)]
pub struct PartRange {
    first: usize,
    count: usize,
}

impl fmt::Display for PartRange {
    fn fmt<W: fmt::Write>(&self, f: &mut fmt::Formatter<W>) -> fmt::Result {
        let first = self.first;
        if self.count <= 1 {
            return write!(f, "part {first}");
        }
        let last = first.saturating_add(self.count - 1);
        write!(f, "parts {first} to {last}")
    }
}

// The parts of the action of a number.
fn parts_of(actions: &[Action], number: usize) -> PartRange {
    let parts = |action: &Action| usize::from(action.parts);
    let before = actions.iter().take(number).map(parts);
    PartRange {
        first: before.fold(0, usize::saturating_add),
        count: actions.get(number).map_or(0, parts),
    }
}

// A line for a call: its place in the text, the call, and what came of it.
pub(crate) fn print_call(
    rt: &impl Print,
    place: usize,
    call: &str,
    outcome: Result<Outcome, Fault<'_>>,
    session: &Session,
) -> io::Result<()> {
    print!(rt; "{place:>4}  {call:<42}  ")?;
    match outcome {
        Ok(Outcome::Entered(number)) => {
            let parts = parts_of(session.sheet().actions(), number);
            println!(rt; "action {number}, {parts}")
        }
        Ok(Outcome::Done) => println!(rt; "done"),
        Ok(Outcome::Refused(refusal, reason)) => {
            let number = u8::from(refusal);
            println!(rt; "refused, {number}: {reason}")
        }
        Ok(Outcome::Shown(rules)) => {
            println!(rt; "shown")?;
            print_rules(rt, rules)
        }
        Err(fault) => println!(rt; "line {place} not played: {fault}"),
    }
}

fn category_letter(category: Option<Category>) -> char {
    category.map_or('-', char::from)
}

fn print_action(
    rt: &impl Print,
    number: usize,
    name: &str,
    action: &Action,
    parts: PartRange,
) -> io::Result<()> {
    let kind = kind_word(action.kind);
    let letter = category_letter(action.category);
    let spread = spread_word(action.spread);
    let state = if action.active { "active" } else { "suspended" };
    println!(rt; "{number:>4}  {name:<16}  {kind:<10}  {letter}  {spread:<11}  {state:<9}  {parts}")
}

// The excluded pairs of action `a` with the actions after it.
fn print_exclusions(rt: &impl Print, session: &Session, a: usize) -> io::Result<()> {
    let sheet = session.sheet();
    for b in a.saturating_add(1)..sheet.actions().len() {
        if sheet.excludes(a, b) {
            let first = session.name(a);
            let second = session.name(b);
            println!(rt; "excluded: {first} ({a}) and {second} ({b})")?;
        }
    }
    Ok(())
}

// The sheet as it stands: its state, its actions, its excluded pairs.
pub(crate) fn print_sheet(rt: &impl Print, session: &Session) -> io::Result<()> {
    let state = if session.is_issued() {
        "issued"
    } else {
        "a draft"
    };
    let sheet = session.sheet();
    let actions = sheet.actions();
    let count = actions.len();
    let parts = sheet.parts();
    println!(rt; "\nThe sheet is {state}. Actions: {count}. Parts: {parts}.")?;
    for (number, action) in actions.iter().enumerate() {
        print_action(
            rt,
            number,
            session.name(number),
            action,
            parts_of(actions, number),
        )?;
    }
    for a in 0..count {
        print_exclusions(rt, session, a)?;
    }
    Ok(())
}
