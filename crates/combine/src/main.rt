// Plays a load sheet that is given as text, and prints each call with its outcome and then the sheet; prints rulebooks.
//
// combine FILE plays the file, combine plays what comes on standard input.
#![tactic(auto)]

mod command;
mod print;
mod rules;
mod session;
mod words;

use command::{parse, tidy};
use print::{print_call, print_sheet};
use session::Session;
use std::alloc::Global;
use std::process::ExitCode;
use std::{env, fs, io};

// The text of the file that the first argument names, or of standard input.
fn read_text(rt: &HostRuntime) -> io::Result<String> {
    let mut args = env::args(rt)?.skip(1);
    match args.next() {
        Some(path) => fs::read_to_string(rt, path.as_str()),
        None => io::read_to_string(rt.alloc(), rt.stdin()),
    }
}

// Plays one line, and prints what came of it.
fn play_line(
    rt: &impl Print,
    heap: Global,
    session: Session,
    place: usize,
    line: &str,
) -> io::Result<Session> {
    let call = tidy(heap, line)?;
    let call = call.as_str();
    let (session, outcome) = match parse(heap, call) {
        Ok(None) => return Ok(session),
        Ok(Some(command)) => session.play(heap, command),
        Err(fault) => (session, Err(fault)),
    };
    print_call(rt, place, call, outcome, &session)?;
    Ok(session)
}

fn play_text(rt: &impl Print, heap: Global, text: &str) -> io::Result<()> {
    let mut session = Session::new(heap)?;
    for (i, line) in text.lines().enumerate() {
        session = play_line(rt, heap, session, i.saturating_add(1), line)?;
    }
    print_sheet(rt, &session)
}

fn run(rt: &HostRuntime) -> io::Result<()> {
    let text = read_text(rt)?;
    play_text(rt, rt.alloc(), text.as_str())
}

fn main(rt: HostRuntime) -> ExitCode {
    match run(&rt) {
        Ok(()) => ExitCode::SUCCESS,
        Err(error) => match eprintln!(rt; "combine: {error}") {
            Ok(()) | Err(_) => ExitCode::FAILURE,
        },
    }
}
