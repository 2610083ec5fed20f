// Answers calls of the libraries from standard input, one after the other, until it ends: what an entry answers and what it leaves in the rooms lent to it,
// in full. tests/calls runs it on stored calls, tests/compare drives it beside an independent planner, and the front end gets costs and routes from it.
//
// All numbers have four bytes, the lowest first. A call is a head of 18 numbers:
//     what; form; width, height, ways, start, goal, limit or cost;
//     and for each of five rooms, map (bytes), costs (numbers), work (numbers), route (bytes), text (bytes), its length and how many entries are given.
// Then come the entries that are given, room after room; they are repeated up to the room's length. A room that nothing is given for is as the call before
// left it, at first zeros. So the caller says what a room held before, and what an entry left untouched shows. What a call has no use for is not looked at.
//
// The reply is eight numbers and then the five rooms, whole, as they were left: if form is 0, these bytes; else two numbers, how many bytes they are and
// their Adler-32. What an answer does not have is 0.
//
//   what                       the eight numbers
//    1 fradnumber_search       kind (0 refused, 1 found, 2 none, 3 stopped), refusal, place, settled, number returned, route length, P, Q
//    2 check_route             kind (0 refused, 1 holds, 2 fault), refusal or fault, place, cost
//    3 fradnumber_check_table  kind (0 refused, 1 right, 2 breaks), refusal, place or cell
//    4 fradnumber_read_map     kind (0 refused, 1 read), refusal, place, width, height, ways
//    5 fradnumber_write_map    kind (0 refused, 1 written), refusal, place, length
//    6 fradnumber_judge_map    as the reader; the cell room's length is that of the map room
//    7 fradnumber_check_route  low half and high half of what C gets
//    8 use_map                 as the reader
//    9 answer_records          how many bytes are answers; the records are in the text room
//   10 answer_arrived          as answer_records; so many bytes have arrived as the limit says
//   11 keep_tail               how many bytes of the text room are kept: those from the start's number up to the goal's
//   12 fradnumber_read_entry   kind (0 refused, 1 an entry, 2 the rest is empty), refusal, place, route length, bytes taken; the rest of the file is the text
//                              room, and question and answer are put at the front of the map room
//   13 fradnumber_write_entry  kind (0 refused, 1 written), refusal, place, length; question and answer are at the front of the map room, the directions
//                              are the route room, and the entry goes to the text room
//   14 fradnumber_astar        as fradnumber_search, but never stopped; the limit is not looked at
//
// A call from C hands on what the entry of its library answers, so that it stands here for both.
//
// The rooms lie on the stack. Started without an argument, the program has rooms that fit the stack which a process usually has; started with one, whatever it
// says, it has rooms for the greatest floor, and needs a stack of more than 16 MB (tools/start asks for one). Each argument more has it go on once more with
// what the input has left, in rooms of zeros.
//
// Each reply is written before the next call is read. An unknown `what`, a room longer than the program's, a map room that has no place for two records where
// they go there, more given than a room's length, and an input that ends inside a call end the program, unless it was started with more arguments.
#![tactic(auto)]

ghost use Rattle.std.specs.Prelude.{◌<◌, ◌≤◌, ◌^◌, IfOk};

mod replies; // replies.rt: how a reply goes out
mod wire; // wire.rt: numbers in bytes, rooms filled, and pieces

use answering::AnswerNumbers;
use astar::rooms::fradnumber_astar;
use claims::FaultAt;
use claims::routes::{check_route, fradnumber_check_route};
use claims::tables::fradnumber_check_table;
use desk::{answer_arrived, answer_records, keep_tail};
use floor::{Floor, Refusal, WrittenNumbers};
use maptext::{ReadNumbers, fradnumber_judge_map, fradnumber_read_map, fradnumber_write_map};
use mapuse::use_map;
use recordlayout::RECORD_SIZE;
use replies::Reply;
use routelog::{EntryNumbers, fradnumber_read_entry, fradnumber_write_entry};
use search::rooms::fradnumber_search;
use std::env::{Env, FillError};
use std::io;
use std::io::{ErrorKind, Stdin, Stdout};
use wire::{PIECE, Room, filled_bytes, filled_numbers, read_numbers, short};

// The longest room of cells on the usual stack of 8 MiB: a floor of 1,024 by 64, its text, and some more. The work room has twice as many entries.
const CELLS: usize = 66000;

const PLACES: usize = 2 * CELLS;

// The longest room of cells on a larger stack: the greatest floor, its text, and some more.
const HALL: usize = 1050000;

const HALL_PLACES: usize = 2 * HALL;

// How many numbers a reply begins with.
const NUMBERS: usize = 8;

// What is lent to hold a piece of a room of numbers.
const WIRE: usize = 4 * PIECE;

// The head of a call, up to its rooms.
#[derive(Clone, Copy)]
struct Question {
    what: u32,
    form: u32,
    width: u32,
    height: u32,
    ways: u32,
    start: u32,
    goal: u32,
    // the limit of a search, the cost of a route claim
    limit: u32,
}

// Where the calls come from, and where the replies go.
#[derive(Clone, Copy)]
struct Streams {
    input: Stdin,
    output: Stdout,
}

// The calls by name: the table above.
#[derive(Clone, Copy)]
enum Call {
    Search,
    CheckRoute,
    CheckTable,
    ReadMap,
    WriteMap,
    JudgeMap,
    CheckRouteInHalves,
    UseMap,
    AnswerRecords,
    AnswerArrived,
    KeepTail,
    ReadEntry,
    WriteEntry,
    Astar,
}

// The libraries have no such call.
#[derive(Clone, Copy)]
struct NoSuchCall;

impl TryFrom<u32> for Call {
    type Error = NoSuchCall;

    fn try_from(what: u32) -> Result<Call, NoSuchCall> {
        match what {
            1 => Ok(Call::Search),
            2 => Ok(Call::CheckRoute),
            3 => Ok(Call::CheckTable),
            4 => Ok(Call::ReadMap),
            5 => Ok(Call::WriteMap),
            6 => Ok(Call::JudgeMap),
            7 => Ok(Call::CheckRouteInHalves),
            8 => Ok(Call::UseMap),
            9 => Ok(Call::AnswerRecords),
            10 => Ok(Call::AnswerArrived),
            11 => Ok(Call::KeepTail),
            12 => Ok(Call::ReadEntry),
            13 => Ok(Call::WriteEntry),
            14 => Ok(Call::Astar),
            _ => Err(NoSuchCall),
        }
    }
}

fn read_question(input: Stdin) -> io::Result<Question> {
    let mut head = [0u32; 8];
    read_numbers(input, &mut head, &mut [0u8; 32])?;
    let [what, form, width, height, ways, start, goal, limit] = head;
    Ok(Question {
        what,
        form,
        width,
        height,
        ways,
        start,
        goal,
        limit,
    })
}

// A room longer than the program's reads as one that more is given for than it holds, which ends the program when the room is filled.
fn read_room(input: Stdin, most: usize) -> io::Result<Room>
    ensures { IfOk result (λ room. room.length ≤ most) }
{
    let mut head = [0u32; 2];
    read_numbers(input, &mut head, &mut [0u8; 8])?;
    let [length, given] = head;
    let asked = Room {
        length: length as usize,
        given: given as usize,
    };
    if most < asked.length {
        return Ok(Room {
            length: 0,
            given: 1,
        });
    }
    Ok(asked)
}

// ---- answers as eight numbers

fn refused(refusal: Refusal) -> [u32; NUMBERS] {
    let place = short(refusal.place() as u64);
    [0, refusal.number(), place, 0, 0, 0, 0, 0]
}

fn of_route(verdict: Result<Result<u32, FaultAt>, Refusal>) -> [u32; NUMBERS] {
    match verdict {
        Err(refusal) => refused(refusal),
        Ok(Ok(cost)) => [1, 0, 0, cost, 0, 0, 0, 0],
        Ok(Err(FaultAt(fault, place))) => [2, fault as u32, short(place as u64), 0, 0, 0, 0, 0],
    }
}

// The low half and the high half.
fn halves(n: u64) -> (u32, u32) {
    (short(n % 4294967296), short(n / 4294967296))
}

fn of_halves(n: u64) -> [u32; NUMBERS] {
    let (low, high) = halves(n);
    [low, high, 0, 0, 0, 0, 0, 0]
}

// 40 stands in place of a refusal where a table breaks the rule.
fn of_table(n: u64) -> [u32; NUMBERS] {
    match halves(n) {
        (_, 0) => [1, 0, 0, 0, 0, 0, 0, 0],
        (cell, 40) => [2, 0, cell, 0, 0, 0, 0, 0],
        (place, refusal) => [0, refusal, place, 0, 0, 0, 0, 0],
    }
}

fn kind_of(refusal: u64) -> u32 {
    if refusal == 0 { 1 } else { 0 }
}

fn of_read(n: ReadNumbers) -> [u32; NUMBERS] {
    [
        kind_of(n.refusal),
        short(n.refusal),
        short(n.place),
        short(n.width),
        short(n.height),
        short(n.ways),
        0,
        0,
    ]
}

fn of_written(n: WrittenNumbers) -> [u32; NUMBERS] {
    [
        kind_of(n.refusal),
        short(n.refusal),
        short(n.place),
        short(n.length),
        0,
        0,
        0,
        0,
    ]
}

fn of_used(read: Result<Floor, Refusal>) -> [u32; NUMBERS] {
    match read {
        Err(refusal) => refused(refusal),
        Ok(f) => [
            1,
            0,
            0,
            short(f.width as u64),
            short(f.height as u64),
            short(f.ways as u64),
            0,
            0,
        ],
    }
}

fn of_answer(n: AnswerNumbers) -> [u32; NUMBERS] {
    [
        short(n.kind),
        short(n.refusal),
        short(n.place),
        short(n.settled),
        short(n.number),
        short(n.length),
        short(n.p),
        short(n.q),
    ]
}

// Where nothing is refused and nothing taken, the rest of the file is empty.
fn kind_of_entry(refusal: u64, taken: u64) -> u32 {
    if refusal == 0 && taken == 0 {
        return 2;
    }
    kind_of(refusal)
}

fn of_entry(n: EntryNumbers) -> [u32; NUMBERS] {
    [
        kind_of_entry(n.refusal, n.taken),
        short(n.refusal),
        short(n.place),
        short(n.length),
        short(n.taken),
        0,
        0,
        0,
    ]
}

// ---- the route log

fn read_entry(rest: &[u8], route: &mut [u8], records: &mut [u8]) -> Option<[u32; NUMBERS]> {
    let (question, others) = records.split_first_chunk_mut::<RECORD_SIZE>()?;
    let answer = others.first_chunk_mut::<RECORD_SIZE>()?;
    let read = fradnumber_read_entry(rest, route);
    let asked = read.question;
    let answered = read.answer;
    *question = asked;
    *answer = answered;
    Some(of_entry(read))
}

fn write_entry(records: &[u8], directions: &[u8], room: &mut [u8]) -> Option<[u32; NUMBERS]> {
    let (question, others) = records.split_first_chunk::<RECORD_SIZE>()?;
    let answer = others.first_chunk::<RECORD_SIZE>()?;
    Some(of_written(fradnumber_write_entry(question, answer, directions, room)))
}

// ---- one call after the other

// Calls the entry on rooms of exactly the lengths asked for. None for an unknown call, and where the map room has no place for two records that go there.
fn ask(
    question: Question,
    map: &mut [u8],
    costs: &mut [u32],
    work: &mut [u32],
    route: &mut [u8],
    text: &mut [u8],
) -> Option<[u32; NUMBERS]> {
    let (w, h, ways) = (question.width, question.height, question.ways);
    let (start, goal, limit) = (question.start, question.goal, question.limit);
    let floor = Floor::of(w, h, ways);
    Some(match Call::try_from(question.what).ok()? {
        Call::Search => {
            of_answer(fradnumber_search(w, h, ways, map, start, goal, limit, costs, work, route))
        }
        Call::CheckRoute => of_route(check_route(floor, map, start, goal, limit, route)),
        Call::CheckTable => of_table(fradnumber_check_table(w, h, ways, map, start, costs)),
        Call::ReadMap => of_read(fradnumber_read_map(text, map)),
        Call::WriteMap => of_written(fradnumber_write_map(w, h, map, text)),
        Call::JudgeMap => of_read(fradnumber_judge_map(text, map.len())),
        Call::CheckRouteInHalves => {
            of_halves(fradnumber_check_route(w, h, ways, map, start, goal, limit, route))
        }
        Call::UseMap => of_used(use_map(text, map)),
        Call::AnswerRecords => of_halves(
            answer_records(floor, map, text, costs, work, route) as u64,
        ),
        Call::AnswerArrived => {
            of_halves(answer_arrived(floor, map, text, limit as usize, costs, work, route) as u64)
        }
        Call::KeepTail => of_halves(keep_tail(text, start as usize, goal as usize) as u64),
        Call::ReadEntry => return read_entry(text, route, map),
        Call::WriteEntry => return write_entry(map, route, text),
        Call::Astar => of_answer(fradnumber_astar(
            w, h, ways, map, start, goal, costs, work, route,
        )),
    })
}

// Reads a call, fills the parts of the rooms that it asks for, calls the entry and replies. An error at the end of the input, where the call cannot be
// answered, and where the reply cannot be written.
fn next_call(
    streams: Streams,
    map: &mut [u8],
    costs: &mut [u32],
    work: &mut [u32],
    route: &mut [u8],
    text: &mut [u8],
    wire: &mut [u8],
) -> io::Result<()> {
    let input = streams.input;
    let question = read_question(input)?;
    let map_room = read_room(input, map.len())?;
    let costs_room = read_room(input, costs.len())?;
    let work_room = read_room(input, work.len())?;
    let route_room = read_room(input, route.len())?;
    let text_room = read_room(input, text.len())?;
    let map = filled_bytes(input, map, map_room)?;
    let costs = filled_numbers(input, costs, costs_room, wire)?;
    let work = filled_numbers(input, work, work_room, wire)?;
    let route = filled_bytes(input, route, route_room)?;
    let text = filled_bytes(input, text, text_room)?;
    let numbers = ask(question, map, costs, work, route, text).ok_or(ErrorKind::InvalidInput)?;
    let mut reply = Reply::begun(streams.output, question.form != 0);
    reply.send_numbers(&numbers, wire)?;
    reply.send_bytes(map)?;
    reply.send_numbers(costs, wire)?;
    reply.send_numbers(work, wire)?;
    reply.send_bytes(route)?;
    reply.send_bytes(text)?;
    reply.end(wire)
}

// A proved loop has to end, and nothing says that the input does: it counts up to a number that no run reaches.
fn answer_calls(
    streams: Streams,
    map: &mut [u8],
    costs: &mut [u32],
    work: &mut [u32],
    route: &mut [u8],
    text: &mut [u8],
    wire: &mut [u8],
) {
    for _ in 0..u64::MAX {
        if next_call(streams, map, costs, work, route, text, wire).is_err() {
            return;
        }
    }
}

// Rooms of so many cells, and of so many places to work in, on the stack. The greater ones are longer than the usual stack, so they must not become part of
// another function's frame: the compiler puts a function that is called once in line, unless it is told never to.
#[inline(never)]
fn answer_in_rooms<const ROOM: usize, const WORK: usize>(streams: Streams)
    requires { (ROOM < 2 ^ 32) × (WORK < 2 ^ 32) }
{
    let mut map = [0u8; ROOM];
    let mut costs = [0u32; ROOM];
    let mut work = [0u32; WORK];
    let mut route = [0u8; ROOM];
    let mut text = [0u8; ROOM];
    let mut wire = [0u8; WIRE];
    answer_calls(
        streams, &mut map, &mut costs, &mut work, &mut route, &mut text, &mut wire,
    );
}

// Whether the program was started with so many words after its name, or more.
fn has_word(rt: &impl Env, place: usize) -> bool {
    !matches!(rt.arg(place, &mut []), Err(FillError::NotPresent))
}

fn main(rt: HostRuntime) {
    let streams = Streams {
        input: rt.stdin(),
        output: rt.stdout(),
    };
    if !has_word(&rt, 1) {
        return answer_in_rooms::<CELLS, PLACES>(streams);
    }
    for place in 1..usize::MAX {
        if !has_word(&rt, place) {
            return;
        }
        answer_in_rooms::<HALL, HALL_PLACES>(streams);
    }
}
