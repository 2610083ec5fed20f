// The program: 01, "The program". It reads `floor.map`, then answers question records from standard input. All that it says is decided in `mapuse` and `desk`.
// A read or a write that fails ends it, with one line on standard error.
#![tactic(auto)]

ghost use Rattle.std.specs.Prelude.{◌≡◌, Some, [], ◌≤◌, ◌<◌, length, take};
ghost use Rattle.answering.specs.Rooms.{rooms};
ghost use Rattle.recordlayout.specs.Record.{record_size};
ghost use Rattle.streams.specs.Streams.{TextIn};
ghost use Rattle.mapuse.specs.Use.{greatest_text, greatest_used_cells};
ghost use Rattle.desk.specs.Room.{EnoughRoom};
ghost use Rattle.planner.specs.SoFar.{TurnTaken, SomeTurn, AllSoFar};

mod telling; // telling.rt: what the program says beside its answers

use desk::{answer_arrived, keep_tail};
use floor::Floor;
use mapuse::{GREATEST_TEXT, GREATEST_USED_CELLS, use_map};
use std::io::{Stderr, Stdin, Stdout};
use std::rt::Files;
use std::time::Clock;
use std::{fs, io};
use streams::{read_piece, read_text, write_out};
use telling::{print_missing, print_refused, tell_end, tell_failure};

// What the program reads from, writes to and speaks by. The system also has the map's file, and the clock for a call that is put off.
#[derive(Drop)]
struct System<'a, R> {
    rt: &'a R,
    questions: Stdin,
    answers: Stdout,
    messages: Stderr,
}

// Why there is no more to read.
#[derive(Clone, Copy)]
enum End {
    Input,
    Unread(io::Error),
    Unwritten(io::Error),
}

// What a turn leaves: how many bytes of a record that has not come whole stand at the buffer's front, how many bytes of answers have gone out so far, and
// what ended the turns, if there is no more to read.
#[derive(Clone, Copy)]
struct Turn {
    kept: usize,
    gone: u64,
    end: Option<End>,
}

// A folder can be opened and not be read: there is no map then either. If the room is filled, the text is too long, whatever else the file has.
fn read_file<R: Files + Clock>(system: &System<'_, R>, room: &mut [u8]) -> io::Result<usize>
    requires { greatest_text < length room.old }
    ensures { TextIn room.new result }
{
    let mut file = fs::open(system.rt, "floor.map")?;
    let text = read_text(system.rt, &mut file, room);
    if let Err(error) = text {
        tell_failure(system, "reading floor.map", 0, error);
    }
    text
}

// Answers every whole record among the first `filled` bytes of the buffer, which have arrived, writes the answers, and keeps a broken last record; `before` bytes
// of answers have gone out before.
fn answer_piece<R: Clock>(
    system: &System<'_, R>,
    f: Floor,
    map: &[u8],
    buffer: &mut [u8],
    filled: usize,
    before: u64,
    costs: &mut [u32],
    work: &mut [u32],
    route: &mut [u8],
) -> Turn
    ensures { TurnTaken f map.now [] (take filled buffer.old) before (rooms costs.old work.old route.old) result buffer.new (rooms costs.new work.new route.new) }
{
    let answered = answer_arrived(f, map, buffer, filled, costs, work, route);
    let mut output = system.answers;
    let taken = write_out(system.rt, &mut output, &buffer[..answered]);
    let gone = before.saturating_add(taken.count as u64);
    let kept = keep_tail(buffer, answered, filled);
    let end = taken.failure.map(End::Unwritten);
    Turn { kept, gone, end }
}

// The last turn, whose piece has no bytes: what was kept stays, and nothing has gone out since.
fn end_turn(kept: usize, gone: u64, end: End) -> Turn
    ensures { result ≡ record { kept = kept; gone = gone; end = Some end } }
{
    Turn {
        kept,
        gone,
        end: Some(end),
    }
}

// Reads what has arrived, which may be little, and answers every whole record of it before more is asked for.
#[tactic(auto, using(crate::proofs::Pieces::no_bytes))]
fn take_turn<R: Clock>(
    system: &System<'_, R>,
    f: Floor,
    map: &[u8],
    buffer: &mut [u8],
    kept: usize,
    gone: u64,
    costs: &mut [u32],
    work: &mut [u32],
    route: &mut [u8],
) -> Turn
    requires { (kept < record_size) × (record_size ≤ length buffer.old) }
    ensures { SomeTurn f map.now (take kept buffer.old) gone (rooms costs.old work.old route.old) result buffer.new (rooms costs.new work.new route.new) }
{
    let mut input = system.questions;
    match read_piece(system.rt, &mut input, buffer, kept) {
        Ok(0) => end_turn(kept, gone, End::Input),
        Ok(arrived) => answer_piece(
            system,
            f,
            map,
            buffer,
            kept + arrived,
            gone,
            costs,
            work,
            route,
        ),
        Err(error) => end_turn(kept, gone, End::Unread(error)),
    }
}

// What was written so far are the answers to the whole records among all bytes that have arrived so far; a broken last record gets no answer.
// A proved loop has to end, and nothing says that the input does: it counts up to a number that no run reaches.
#[tactic(auto, using(crate::proofs::Pieces::run_none, crate::proofs::Pieces::run_on))]
fn answer_all<R: Clock>(
    system: &System<'_, R>,
    f: Floor,
    map: &[u8],
    buffer: &mut [u8],
    costs: &mut [u32],
    work: &mut [u32],
    route: &mut [u8],
) -> Turn
    requires { (record_size ≤ length buffer.old) × EnoughRoom (rooms costs.old work.old route.old) }
    ensures { AllSoFar f map.now (rooms costs.old work.old route.old) result buffer.new (rooms costs.new work.new route.new) }
{
    let mut turn = Turn {
        kept: 0,
        gone: 0,
        end: None,
    };
    for _ in 0..u64::MAX {
        turn = take_turn(
            system, f, map, buffer, turn.kept, turn.gone, costs, work, route,
        );
        if turn.end.is_some() {
            break;
        }
    }
    turn
}

// The rooms are those of the greatest floor, made once; the buffer has 64 KiB, so that many records cost one call.
fn answer_questions<R: Clock>(system: &System<'_, R>, f: Floor, map: &[u8]) {
    let mut buffer = [0u8; 65536];
    let mut costs = [0u32; GREATEST_USED_CELLS];
    let mut work = [0u32; 2 * GREATEST_USED_CELLS];
    let mut route = [0u8; GREATEST_USED_CELLS];
    let turn = answer_all(
        system,
        f,
        map,
        &mut buffer,
        &mut costs,
        &mut work,
        &mut route,
    );
    tell_end(system, turn);
}

// 01: the reader has a cell room of 4,096.
#[tactic(auto, using(mapuse::proofs::Using::used_fits))]
fn use_text<R: Clock>(system: &System<'_, R>, text: &[u8], cells: &mut [u8])
    requires { length cells.old ≡ greatest_used_cells }
{
    match use_map(text, cells) {
        Err(refusal) => print_refused(system, refusal),
        Ok(f) => answer_questions(system, f, &cells[..f.width * f.height]),
    }
}

fn main(rt: HostRuntime) {
    let system = System {
        rt: &rt,
        questions: rt.stdin(),
        answers: rt.stdout(),
        messages: rt.stderr(),
    };
    // One byte more than the longest text: if that is read too, the text is too long.
    let mut room = [0u8; GREATEST_TEXT + 1];
    let mut cells = [0u8; GREATEST_USED_CELLS];
    match read_file(&system, &mut room) {
        Err(_) => print_missing(&system),
        Ok(length) => use_text(&system, &room[..length], &mut cells),
    }
}
