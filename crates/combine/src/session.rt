// A load sheet that is played call by call, with the names of its actions.
use crate::command::{Command, Edit, Entry, Fault, Named, fault_at, fault_of};
use crate::rules::Rules;
use crate::words::reason;
use sheet::action::Refusal;
use sheet::plain::Sheet;
use sheet::states::{Draft, Issued};
use std::alloc::{AllocError, Global};

// A sheet in one of its two states.
#[derive(Drop)]
pub enum State {
    Draft(Draft),
    Issued(Issued),
}

// The name of action i stands at place i, since a sheet keeps no names. A list, since a name is sought among 32 at most.
#[derive(Drop)]
pub struct Session {
    state: State,
    names: Vec<String>,
}

// What came of a call; a refusal with its reason.
#[derive(Clone, Copy)]
pub enum Outcome {
    Entered(usize),
    Done,
    Refused(Refusal, &'static str),
    Shown(Rules),
}

fn find_name(names: &[String], name: &str) -> Option<usize> {
    names.iter().position(|known| known.as_str() == name)
}

fn number_of<'a>(names: &[String], action: Named<'a>) -> Result<usize, Fault<'a>> {
    match action {
        Named::Number(number) => Ok(number),
        Named::Name(name) => {
            find_name(names, name).ok_or(fault_at(name, "is the name of no action"))
        }
    }
}

fn settle(answer: Result<(), Refusal>, edit: Edit<'_>) -> Outcome {
    match answer {
        Ok(()) => Outcome::Done,
        Err(refusal) => Outcome::Refused(refusal, reason(refusal, edit)),
    }
}

// Enters an action under a name that no other action has.
fn enter<'a>(
    draft: &mut Draft,
    names: &mut Vec<String>,
    heap: Global,
    entry: Entry<'a>,
) -> Result<Outcome, Fault<'a>> {
    if find_name(names, entry.name).is_some() {
        return Err(fault_at(entry.name, "is the name of another action"));
    }
    names.push(String::from_str(heap, entry.name)?)?;
    match draft.enter(entry.kind, entry.letter, entry.spread, entry.parts) {
        Ok(number) => Ok(Outcome::Entered(number)),
        Err(refusal) => {
            let _ = names.pop();
            Ok(Outcome::Refused(refusal, reason(refusal, Edit::Enter(entry))))
        }
    }
}

// Plays a call that changes a draft. Each call is a method of its own, so each has an arm.
fn change<'a>(
    draft: &mut Draft,
    names: &mut Vec<String>,
    heap: Global,
    edit: Edit<'a>,
) -> Result<Outcome, Fault<'a>> {
    match edit {
        Edit::Enter(entry) => enter(draft, names, heap, entry),
        Edit::Exclude(a, b) => {
            let (a, b) = (number_of(names, a)?, number_of(names, b)?);
            Ok(settle(draft.exclude(a, b), edit))
        }
        Edit::Lift(a, b) => {
            let (a, b) = (number_of(names, a)?, number_of(names, b)?);
            Ok(settle(draft.lift(a, b), edit))
        }
        Edit::Recast(action, letter) => {
            Ok(settle(draft.recast(number_of(names, action)?, letter), edit))
        }
        Edit::Suspend(action) => Ok(settle(draft.suspend(number_of(names, action)?), edit)),
        Edit::Resume(action) => Ok(settle(draft.resume(number_of(names, action)?), edit)),
    }
}

impl Session {
    // A blank draft.
    pub(crate) fn new(heap: Global) -> Result<Session, AllocError> {
        Ok(Session {
            state: State::Draft(Draft::new(heap)?),
            names: Vec::new(heap),
        })
    }

    pub(crate) fn sheet(&self) -> &Sheet {
        match &self.state {
            State::Draft(draft) => draft.sheet(),
            State::Issued(issued) => issued.sheet(),
        }
    }

    pub(crate) fn is_issued(&self) -> bool {
        matches!(self.state, State::Issued(_))
    }

    // The name of an action.
    pub(crate) fn name(&self, number: usize) -> &str {
        self.names.get(number).map_or("", |name| name.as_str())
    }

    // Plays one call; a call that the sheet's state does not take leaves it as it is.
    pub(crate) fn play<'a>(
        self,
        heap: Global,
        command: Command<'a>,
    ) -> (Session, Result<Outcome, Fault<'a>>) {
        let Session { state, mut names } = self;
        let (state, outcome) = match (state, command) {
            (State::Draft(mut draft), Command::Change(edit)) => {
                let outcome = change(&mut draft, &mut names, heap, edit);
                (State::Draft(draft), outcome)
            }
            (State::Draft(draft), Command::Issue) => {
                (State::Issued(draft.issue()), Ok(Outcome::Done))
            }
            (State::Issued(issued), Command::Reopen) => {
                (State::Draft(issued.reopen()), Ok(Outcome::Done))
            }
            (state, Command::Show(rules)) => (state, Ok(Outcome::Shown(rules))),
            (state, Command::Change(_)) => {
                (state, Err(fault_of("the sheet is issued; reopen it first")))
            }
            (state, Command::Issue) => (state, Err(fault_of("the sheet is issued already"))),
            (state, Command::Reopen) => (state, Err(fault_of("the sheet is a draft already"))),
        };
        (Session { state, names }, outcome)
    }
}
