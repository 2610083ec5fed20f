// What the program says beside its answers: the one line of a map that cannot be used, on standard output, and on standard error what failed.
use crate::{End, System, Turn};
use floor::Refusal;
use recordlayout::RECORD_SIZE;
use std::fmt::InlineText;
use std::time::Clock;
use std::{fmt, io};
use streams::write_out;

fn say<R: Clock>(system: &System<'_, R>, text: &str) {
    let mut messages = system.messages;
    write_out(system.rt, &mut messages, text.as_bytes());
}

// The system's reason alone, without the number that std puts behind it.
#[derive(Drop)]
struct Reason(io::Error);

impl fmt::Display for Reason {
    fn fmt<W: fmt::Write>(&self, f: &mut fmt::Formatter<W>) -> fmt::Result {
        let text = InlineText::<300>::of(self.0);
        let words = text.as_str();
        match words.split_once(" (os error ") {
            Some((reason, _)) => f.write_str(reason),
            None => f.write_str(words),
        }
    }
}

// How many answers have gone out, what failed then, and why. tools/start turns this line into an exit status.
pub(crate) fn tell_failure<R: Clock>(
    system: &System<'_, R>,
    what: &str,
    gone: u64,
    error: io::Error,
) {
    let size = RECORD_SIZE as u64;
    let answers = gone / size;
    let bytes = gone % size;
    let reason = Reason(error);
    let line = InlineText::<500>::of(format_args!(
        "planner: {answers} answers and {bytes} bytes written, then {what} failed: {reason}\n"
    ));
    say(system, line.as_str());
}

// 01: a broken last record gets no answer.
fn tell_broken<R: Clock>(system: &System<'_, R>, kept: usize) {
    if kept == 0 {
        return;
    }
    let line = InlineText::<100>::of(format_args!(
        "planner: no answer to the last {kept} bytes, which are no whole record\n"
    ));
    say(system, line.as_str());
}

// What was kept when the input ended has no answer.
pub(crate) fn tell_end<R: Clock>(system: &System<'_, R>, turn: Turn) {
    match turn.end {
        Some(End::Input) => tell_broken(system, turn.kept),
        Some(End::Unread(error)) => tell_failure(system, "reading questions", turn.gone, error),
        Some(End::Unwritten(error)) => tell_failure(system, "writing answers", turn.gone, error),
        None => {}
    }
}

// The line about the map, on standard output.
fn print<R: Clock>(system: &System<'_, R>, line: &str) {
    let mut output = system.answers;
    let taken = write_out(system.rt, &mut output, line.as_bytes());
    if let Some(error) = taken.failure {
        tell_failure(system, "writing about the map", 0, error);
    }
}

pub(crate) fn print_missing<R: Clock>(system: &System<'_, R>) {
    print(system, "map missing\n");
}

pub(crate) fn print_refused<R: Clock>(system: &System<'_, R>, refusal: Refusal) {
    let line = InlineText::<100>::of(format_args!("map {refusal}\n"));
    print(system, line.as_str());
}
